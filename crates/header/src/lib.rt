// The header read: the search over its steps' metrics and lent areas, the answer, the refusals. Its promise carries demand 3, what
// the ceiling bounds, what Sure means, and what holds for any terms. Definitions in specs/ and in crate trellis.
#![tactic(auto)]

ghost use Rattle.std.specs.Prelude.{◌≡◌, true, ◌*◌, length, Ok};
ghost use Rattle.util.specs.Refusal.{meaning_by};
ghost use Rattle.ieee.specs.Whole.{plus_zero};
ghost use Rattle.frame.specs.Format.{header_bits};
ghost use Rattle.labels.specs.Labels.{Lawful};
ghost use Rattle.trellis.specs.Terms.{document_search};
ghost use Rattle.trellis.specs.Demand.{Claims};
ghost use Rattle.header.specs.Read.{answer_is, Room, areas, lengths_right, header_read, terms_read, area_after};

use outcome::Outcome;
use util::refusal::Refusal;

// The word has header bit j at place j from the lowest, and zeros above the last. The ceiling is the least, over the
// passes run, of the greatest gain of a state, its end score less its start score (document 02, #106).
#[derive(Clone, Copy, Debug, PartialEq)]
pub struct HeaderAnswer {
    pub word: u64,
    pub outcome: Outcome,
    pub ceiling: f32,
}

// The search over accepted terms. The areas keep what the last pass left there. (Mode and kind are their numbers here: `read` promises the
// definitions' answer for every number.)
fn searched(
    mode: u8,
    kind: u8,
    terms: &[f32],
    labels: &[u16],
    scores: &mut [f32],
    next: &mut [f32],
    start: &mut [f32],
    decisions: &mut [u64],
) -> HeaderAnswer
    requires { (length terms.now ≡ header_bits kind * 260) × Room kind (areas scores.old next.old start.old decisions.old)
        × Lawful labels.now }
    ensures answer { answer_is result ≡ document_search mode kind terms.now }
    ensures room { Room kind (areas scores.new next.new start.new decisions.new) }
{
    let mut list = [0.0f32; 2048];
    steps::rows(mode, kind, terms, &mut list);
    let n = frame::header_symbols(kind) as usize;
    let found = search::search(&list[..32 * n], labels, scores, next, start, decisions);
    HeaderAnswer {
        word: found.word,
        outcome: outcome::outcome_of(found.how, found.score, found.ceiling),
        ceiling: found.ceiling,
    }
}

// Inside: whether the terms and the areas have the lengths of a header of this kind.
pub fn room(
    kind: u8,
    terms: usize,
    scores: usize,
    next: usize,
    start: usize,
    decisions: usize,
) -> bool
    ensures { result ≡ lengths_right kind terms scores next start decisions }
{
    let n = frame::header_symbols(kind) as usize;
    terms == n * 260 && scores == 16384 && next == 16384 && start == 16384 && decisions == n * 256
}

// Inside: the read past the tests of the mode, the kind and the lengths, for both ways of reading: with a lent table of labels, or
// with an empty one, and then by parity.
pub fn read(
    mode: u8,
    kind: u8,
    terms: &[f32],
    labels: &[u16],
    scores: &mut [f32],
    next: &mut [f32],
    start: &mut [f32],
    decisions: &mut [u64],
) -> Result<HeaderAnswer, Refusal>
    requires { (lengths_right kind (length terms.now) (length scores.old) (length next.old) (length start.old) (length decisions.old) ≡ true)
        × Lawful labels.now }
    ensures answer { meaning_by answer_is result ≡ terms_read mode kind terms.now }
    ensures of_scores { scores.new ≡ area_after (meaning_by answer_is result) plus_zero scores.old }
    ensures of_next { next.new ≡ area_after (meaning_by answer_is result) plus_zero next.old }
    ensures of_start { start.new ≡ area_after (meaning_by answer_is result) plus_zero start.old }
    ensures of_decisions { decisions.new ≡ area_after (meaning_by answer_is result) 0 decisions.old }
    ensures claims { (a : HeaderAnswer) → result ≡ Ok a → Claims mode kind terms.now (answer_is a) }
{
    if model::some_out(terms) {
        return Err(Refusal::Terms);
    }
    let answer = searched(mode, kind, terms, labels, scores, next, start, decisions);
    scores.fill(0.0);
    next.fill(0.0);
    start.fill(0.0);
    decisions.fill(0);
    Ok(answer)
}

// Public entry: the header read (document 01, 'A header read'; document 02, #106, #107). `claims` has, for whole terms from -800 to
// 800, demand 3, that no closed word is above the ceiling and that none beats a Sure one; and what holds of every read that is not
// refused.
pub fn read_header(
    mode: u8,
    kind: u8,
    terms: &[f32],
    scores: &mut [f32],
    next: &mut [f32],
    start: &mut [f32],
    decisions: &mut [u64],
) -> Result<HeaderAnswer, Refusal>
    ensures answer { meaning_by answer_is result ≡ header_read mode kind terms.now
        (areas scores.old next.old start.old decisions.old) }
    ensures of_scores { scores.new ≡ area_after (meaning_by answer_is result) plus_zero scores.old }
    ensures of_next { next.new ≡ area_after (meaning_by answer_is result) plus_zero next.old }
    ensures of_start { start.new ≡ area_after (meaning_by answer_is result) plus_zero start.old }
    ensures of_decisions { decisions.new ≡ area_after (meaning_by answer_is result) 0 decisions.old }
    ensures claims { (a : HeaderAnswer) → result ≡ Ok a → Claims mode kind terms.now (answer_is a) }
{
    frame::format::named(mode, kind)?;
    if !room(
        kind,
        terms.len(),
        scores.len(),
        next.len(),
        start.len(),
        decisions.len(),
    ) {
        return Err(Refusal::Length);
    }
    read(mode, kind, terms, &[], scores, next, start, decisions)
}
