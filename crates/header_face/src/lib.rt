// The faces to C of the header read, by parity and with labels filled in advance, and of the table's filling: the answer in five places,
// written only where it is not refused, and its number. The entries themselves are crates `header`, `header_with` and `labels`.
// Definitions in specs/.
#![tactic(auto)]

ghost use Rattle.std.specs.Prelude.{◌≡◌, length};
ghost use Rattle.util.specs.Refusal.{number, meaning_by};
ghost use Rattle.labels.specs.Labels.{fill_answer, table_after};
ghost use Rattle.trellis.specs.Demand.{Claims};
ghost use Rattle.header.specs.Read.{answer_is, areas};
ghost use Rattle.header_face.specs.Face.{lent, answer_at, Told, HeaderFace, HeaderFaceWith};

use header::HeaderAnswer;
use util::refusal::{self, Refusal};

// A read's number, and its answer in five places.
fn told(
    read: Result<HeaderAnswer, Refusal>,
    word: &mut u64,
    outcome: &mut u8,
    pass: &mut u8,
    score: &mut f32,
    ceiling: &mut f32,
) -> u32
    ensures { Told (meaning_by answer_is read)
        (lent word.old outcome.old pass.old score.old ceiling.old)
        (lent word.new outcome.new pass.new score.new ceiling.new) result }
{
    match read {
        Ok(a) => {
            let numbers = outcome::in_numbers(a.outcome);
            *word = a.word;
            *outcome = numbers.outcome;
            *pass = numbers.pass;
            *score = numbers.score;
            *ceiling = a.ceiling;
            0
        }
        Err(refusal) => refusal.number() as u32,
    }
}

// Inside: the header read as C calls it.
pub fn read(
    mode: u8,
    kind: u8,
    terms: &[f32],
    scores: &mut [f32],
    next: &mut [f32],
    start: &mut [f32],
    decisions: &mut [u64],
    word: &mut u64,
    outcome: &mut u8,
    pass: &mut u8,
    score: &mut f32,
    ceiling: &mut f32,
) -> u32
    ensures face { HeaderFace mode kind terms.now
        (areas scores.old next.old start.old decisions.old)
        (areas scores.new next.new start.new decisions.new)
        (lent word.old outcome.old pass.old score.old ceiling.old)
        (lent word.new outcome.new pass.new score.new ceiling.new) result }
    ensures claims { result ≡ 0 → Claims mode kind terms.now
        (answer_at (lent word.new outcome.new pass.new score.new ceiling.new)) }
{
    let read = header::read_header(mode, kind, terms, scores, next, start, decisions);
    told(read, word, outcome, pass, score, ceiling)
}

// Inside: the header read with a lent table of labels as C calls it.
pub fn read_with(
    mode: u8,
    kind: u8,
    terms: &[f32],
    labels: &[u16],
    scores: &mut [f32],
    next: &mut [f32],
    start: &mut [f32],
    decisions: &mut [u64],
    word: &mut u64,
    outcome: &mut u8,
    pass: &mut u8,
    score: &mut f32,
    ceiling: &mut f32,
) -> u32
    ensures face { HeaderFaceWith mode kind terms.now labels.now
        (areas scores.old next.old start.old decisions.old)
        (areas scores.new next.new start.new decisions.new)
        (lent word.old outcome.old pass.old score.old ceiling.old)
        (lent word.new outcome.new pass.new score.new ceiling.new) result }
    ensures claims { result ≡ 0 → Claims mode kind terms.now
        (answer_at (lent word.new outcome.new pass.new score.new ceiling.new)) }
{
    let read = header_with::read_header_with(
        mode, kind, terms, labels, scores, next, start, decisions,
    );
    told(read, word, outcome, pass, score, ceiling)
}

// Inside: the table of labels as C has it filled.
pub fn fill(table: &mut [u16]) -> u32
    ensures answer { result ≡ number (fill_answer (length table.old)) }
    ensures lent { table.new ≡ table_after table.old }
{
    refusal::number_told(labels::fill_labels(table))
}
