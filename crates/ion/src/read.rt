// A header read, by parity or with labels filled in advance, and the table of these. Where a read returns 0, `claims` says of the answer
// what the entry's own promise does: for whole terms from -800 to 800 demand 3, that no closed word is above the ceiling and that none
// beats a Sure one; and what holds of every read that is not refused.
ghost use Rattle.std.specs.Prelude.{◌≡◌, length};
ghost use Rattle.util.specs.Refusal.{number};
ghost use Rattle.labels.specs.Labels.{fill_answer, table_after};
ghost use Rattle.trellis.specs.Demand.{Claims};
ghost use Rattle.header.specs.Read.{areas};
ghost use Rattle.header_face.specs.Face.{lent, answer_at, HeaderFace, HeaderFaceWith};

pub fn ion_read_header(
    mode: u8,
    kind: u8,
    terms: &[f32],
    scores: &mut [f32],
    next: &mut [f32],
    start: &mut [f32],
    decisions: &mut [u64],
    word: &mut u64,
    outcome: &mut u8,
    pass: &mut u8,
    score: &mut f32,
    ceiling: &mut f32,
) -> u32
    ensures face { HeaderFace mode kind terms.now
        (areas scores.old next.old start.old decisions.old)
        (areas scores.new next.new start.new decisions.new)
        (lent word.old outcome.old pass.old score.old ceiling.old)
        (lent word.new outcome.new pass.new score.new ceiling.new) result }
    ensures claims { result ≡ 0 → Claims mode kind terms.now
        (answer_at (lent word.new outcome.new pass.new score.new ceiling.new)) }
{
    header_face::read(
        mode, kind, terms, scores, next, start, decisions, word, outcome, pass, score, ceiling,
    )
}

pub fn ion_fill_labels(labels: &mut [u16]) -> u32
    ensures answer { result ≡ number (fill_answer (length labels.old)) }
    ensures lent { labels.new ≡ table_after labels.old }
{
    header_face::fill(labels)
}

pub fn ion_read_header_with(
    mode: u8,
    kind: u8,
    terms: &[f32],
    labels: &[u16],
    scores: &mut [f32],
    next: &mut [f32],
    start: &mut [f32],
    decisions: &mut [u64],
    word: &mut u64,
    outcome: &mut u8,
    pass: &mut u8,
    score: &mut f32,
    ceiling: &mut f32,
) -> u32
    ensures face { HeaderFaceWith mode kind terms.now labels.now
        (areas scores.old next.old start.old decisions.old)
        (areas scores.new next.new start.new decisions.new)
        (lent word.old outcome.old pass.old score.old ceiling.old)
        (lent word.new outcome.new pass.new score.new ceiling.new) result }
    ensures claims { result ≡ 0 → Claims mode kind terms.now
        (answer_at (lent word.new outcome.new pass.new score.new ceiling.new)) }
{
    header_face::read_with(
        mode, kind, terms, labels, scores, next, start, decisions, word, outcome, pass, score,
        ceiling,
    )
}
