// The soft values' face to C: the form as a number, and the answer as one. The entry itself is crate `soft`.
// Definitions in specs/.
#![tactic(auto)]

ghost use Rattle.std.specs.Prelude.{not, eqb};
ghost use Rattle.soft.specs.Entry.{asked};
ghost use Rattle.soft_face.specs.Face.{SoftFace};

use util::refusal::number_told;

// Inside: the entry as C calls it.
pub fn values(
    mode: u8,
    kind: u8,
    layout: u8,
    symbols: u8,
    window: u32,
    bits: u32,
    terms: &[f32],
    blanked: &[u32],
    work: &mut [f32],
    metrics: &mut [f32],
    soft: &mut [f32],
) -> u32
    ensures face { SoftFace (asked mode kind layout (not (eqb symbols 0)) window bits terms.now blanked.now
        work.old metrics.old soft.old) result work.new metrics.new soft.new }
{
    number_told(soft::soft_values(
        mode,
        kind,
        layout,
        symbols != 0,
        window,
        bits,
        terms,
        blanked,
        work,
        metrics,
        soft,
    ))
}
