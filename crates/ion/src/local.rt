// Local noise: how far the noise of each bin has grown, row by row, over the burst's.
ghost use Rattle.noise.specs.Entry.{asked};
ghost use Rattle.noise_face.specs.Face.{NoiseFace};

pub fn ion_local_noise(
    mode: u8,
    kind: u8,
    rows: u32,
    energies: &[f32],
    noise: &[f32],
    eps: f32,
    r: f32,
    factors: &mut [f32],
) -> u32
    ensures face { NoiseFace (asked mode kind rows energies.now noise.now eps r) factors.old result
        factors.new }
{
    noise_face::local(mode, kind, rows, energies, noise, eps, r, factors)
}
