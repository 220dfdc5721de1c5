// The header read with labels filled in advance (document 02, #111): the lent table is tested in every call and read in the search. Past
// these tests it is the header read (crate header), whose promise it has. Definitions in specs/.
#![tactic(auto)]

ghost use Rattle.std.specs.Prelude.{◌≡◌, Ok};
ghost use Rattle.util.specs.Refusal.{meaning_by};
ghost use Rattle.ieee.specs.Whole.{plus_zero};
ghost use Rattle.trellis.specs.Demand.{Claims};
ghost use Rattle.header.specs.Read.{answer_is, areas, area_after};
ghost use Rattle.header_with.specs.With.{header_read_with};

use header::HeaderAnswer;
use util::refusal::Refusal;

// Public entry: the header read with a lent table of labels. `claims` is the header read's own: for whole terms from -800 to 800 demand
// 3, that no closed word is above the ceiling and that none beats a Sure one; and what holds of every read that is not refused.
pub fn read_header_with(
    mode: u8,
    kind: u8,
    terms: &[f32],
    labels: &[u16],
    scores: &mut [f32],
    next: &mut [f32],
    start: &mut [f32],
    decisions: &mut [u64],
) -> Result<HeaderAnswer, Refusal>
    ensures answer { meaning_by answer_is result ≡ header_read_with mode kind terms.now labels.now
        (areas scores.old next.old start.old decisions.old) }
    ensures of_scores { scores.new ≡ area_after (meaning_by answer_is result) plus_zero scores.old }
    ensures of_next { next.new ≡ area_after (meaning_by answer_is result) plus_zero next.old }
    ensures of_start { start.new ≡ area_after (meaning_by answer_is result) plus_zero start.old }
    ensures of_decisions { decisions.new ≡ area_after (meaning_by answer_is result) 0 decisions.old }
    ensures claims { (a : HeaderAnswer) → result ≡ Ok a → Claims mode kind terms.now (answer_is a) }
{
    frame::format::named(mode, kind)?;
    if !header::room(
        kind,
        terms.len(),
        scores.len(),
        next.len(),
        start.len(),
        decisions.len(),
    ) {
        return Err(Refusal::Length);
    }
    if labels.len() != 32768 {
        return Err(Refusal::Length);
    }
    if !labels::all_kept(labels) {
        return Err(Refusal::Labels);
    }
    header::read(mode, kind, terms, labels, scores, next, start, decisions)
}
