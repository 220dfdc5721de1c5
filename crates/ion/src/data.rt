// Metrics and soft bits of a burst's data symbols.
ghost use Rattle.std.specs.Prelude.{not, eqb};
ghost use Rattle.soft.specs.Entry.{asked};
ghost use Rattle.soft_face.specs.Face.{SoftFace};

pub fn ion_soft_values(
    mode: u8,
    kind: u8,
    layout: u8,
    symbols: u8,
    window: u32,
    bits: u32,
    terms: &[f32],
    blanked: &[u32],
    work: &mut [f32],
    metrics: &mut [f32],
    soft: &mut [f32],
) -> u32
    ensures face { SoftFace (asked mode kind layout (not (eqb symbols 0)) window bits terms.now blanked.now
        work.old metrics.old soft.old) result work.new metrics.new soft.new }
{
    soft_face::values(
        mode, kind, layout, symbols, window, bits, terms, blanked, work, metrics, soft,
    )
}
