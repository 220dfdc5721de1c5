// The 32 metrics of each step of a header, from its terms: those of the step's slot, one row after another. Definitions in
// specs/ and in crate trellis.
#![tactic(auto)]

ghost use Rattle.std.specs.Prelude.{◌≡◌, ◌+◌, ◌*◌, ◌<◌, length, get_or};
ghost use Rattle.std.specs.Float.{nan};
ghost use Rattle.util.specs.Table.{Stored};
ghost use Rattle.frame.specs.Format.{header_bits};
ghost use Rattle.steps.specs.Rows.{Row, Rows};

// The 32 metrics of step j: those of its slot. (Mode and kind are their numbers, as in the definition `Row`, which holds for any.)
fn row(mode: u8, kind: u8, terms: &[f32], j: u64) -> [f32; 32]
    requires { (j < header_bits kind) × (length terms.now ≡ header_bits kind * 260) }
    ensures { Row mode kind terms.now j result }
{
    let slot = frame::header_slot(kind, j);
    let bins = frame::bins(mode);
    let hop = frame::hop(mode, slot);
    model::metrics(bins, hop, terms, slot as usize)
}

// Inside: the metrics of all steps, in a list.
pub fn rows(mode: u8, kind: u8, terms: &[f32], list: &mut [f32])
    requires { (length terms.now ≡ header_bits kind * 260) × (length list.old ≡ 2048) }
    ensures rows { Rows mode kind terms.now (header_bits kind) list.new }
    ensures size { length list.new ≡ 2048 }
{
    let n = frame::header_symbols(kind) as usize;
    for j in 0..n {
        let metrics = row(mode, kind, terms, j as u64);
        list[32 * j..32 * j + 32].copy_from_slice(&metrics);
    }
}
