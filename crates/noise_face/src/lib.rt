// The local noise factors' face to C: the answer as a number. The entry itself is crate `noise`. Definitions in specs/.
#![tactic(auto)]

ghost use Rattle.noise.specs.Entry.{asked};
ghost use Rattle.noise_face.specs.Face.{NoiseFace};

use util::refusal::number_told;

// Inside: the entry as C calls it.
pub fn local(
    mode: u8,
    kind: u8,
    rows: u32,
    energies: &[f32],
    noise: &[f32],
    eps: f32,
    r: f32,
    factors: &mut [f32],
) -> u32
    ensures face { NoiseFace (asked mode kind rows energies.now noise.now eps r) factors.old result
        factors.new }
{
    number_told(noise::local_noise(mode, kind, rows, energies, noise, eps, r, factors))
}
