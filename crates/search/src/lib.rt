// The header's search: a Viterbi search over a tail-biting code, wrapped around at most three times (fec/conv.rs:
// `decode_tb`). Here are the passes one after another over lent areas; one pass is crate `pass`, its traceback and its
// candidates are crate `traceback`. What it answers is document 01's search, as crate trellis defines it, at f32.
#![tactic(auto)]

ghost use Rattle.std.specs.Prelude.{◌≡◌, ◌*◌, ◌<◌, length, eqb};
ghost use Rattle.std.specs.Float.Ieee.{sub};
ghost use Rattle.std.specs.Float.{binary32};
ghost use Rattle.util.specs.Choose.{choose};
ghost use Rattle.labels.specs.Labels.{Lawful};
ghost use Rattle.trellis.specs.Scale.{lesser};
ghost use Rattle.trellis.specs.Numbers.{single};
ghost use Rattle.trellis.specs.Search as Search;
ghost use Rattle.pass.specs.Areas.{table, steps_in, over, Holds, Metrics, Ran};
ghost use Rattle.search.specs.Lent.{Lent};
ghost use Rattle.search.specs.Passed.{Passed};
ghost use Rattle.traceback.specs.Best.{best_is};
ghost use Rattle.search.specs.Found.{found_is, best_or_last};

use traceback::Best;

// The next pass starts from the end scores less the best score.
fn lower(scores: &[f32], top: f32, start: &mut [f32])
    requires { (length scores.now ≡ 16384) × (length start.old ≡ 16384) }
    ensures { Holds start.new (λ s. sub binary32 (table scores.now s) top) }
{
    for (s, score) in start.iter_mut().enumerate() {
        *score = scores[s] - top;
    }
}

// What a pass found from its end state: the word and its score, whether it closes, and the best score. Beside them the
// pass's top, the greatest gain of any state (document 02, #106).
#[derive(Clone, Copy, Debug, PartialEq)]
struct Traceback {
    word: u64,
    score: f32,
    closed: bool,
    top: f32,
    gain: f32,
}

// The traceback from the end state of a pass, with its score: the end score less the start score of the state reached.
// The pass's top is taken here, before the end scores are lowered.
fn found_by(metrics: &[f32], scores: &[f32], start: &[f32], decisions: &[u64]) -> Traceback
    requires metrics { Metrics metrics.now }
    requires start_len { (length start.now ≡ 16384) × (length decisions.now ≡ steps_in metrics.now * 256) }
    requires ran { Ran metrics.now (table start.now) (steps_in metrics.now) scores.now decisions.now }
    ensures { Passed metrics.now (table start.now) scores.now decisions.now result }
{
    let end = pass::end_state(scores);
    let top = scores[end];
    let t = traceback::trace(decisions, metrics.len() / 32, end);
    let reached = t.start;
    let score = top - start[reached];
    let gain = pass::top_gain(scores, start);
    Traceback {
        word: t.word,
        score,
        closed: reached == end,
        top,
        gain,
    }
}

// A pass from what `start` holds, and its traceback. (The areas are four parameters: a struct of `&mut` slices may have no ghost field for
// their lengths, which the record `Lent` states at once.)
fn run(
    metrics: &[f32],
    labels: &[u16],
    scores: &mut [f32],
    next: &mut [f32],
    start: &[f32],
    decisions: &mut [u64],
) -> Traceback
    requires { Lent metrics.now scores.old next.old start.now decisions.old × Lawful labels.now }
    ensures passed { Passed metrics.now (table start.now) scores.new decisions.new result }
    ensures lent { Lent metrics.now scores.new next.new start.now decisions.new }
{
    pass::pass(metrics, labels, scores, next, start, decisions);
    found_by(metrics, scores, start, decisions)
}

// How a word came out: by closing in a pass (1 to 3), as the best candidate, or unclosed.
#[derive(Clone, Copy, Debug, PartialEq, Eq)]
pub enum How {
    Closing(u8),
    Candidate,
    Unclosed,
}

// What the search found, and its ceiling.
#[derive(Clone, Copy, Debug, PartialEq)]
pub struct Found {
    pub how: How,
    pub word: u64,
    pub score: f32,
    pub ceiling: f32,
}

// The ceiling once a pass has run: the first pass's top, then the lesser of what it was and the pass's top.
fn ceiling_after(pass: u8, ceiling: f32, gain: f32) -> f32
    ensures { result ≡ choose (eqb pass 1) gain (lesser single ceiling gain) }
{
    if pass == 1 {
        return gain;
    }
    if ceiling > gain {
        return gain;
    }
    ceiling
}

// After three passes: the best candidate, or else the last unclosed word.
fn best_or_last(best: Option<Best>, last: Traceback, ceiling: f32) -> Found
    ensures answer { found_is result ≡ best_or_last (best_is best) last.word last.score }
    ensures ceiling { result.ceiling ≡ ceiling }
{
    match best {
        Some(best) => Found {
            how: How::Candidate,
            word: best.word,
            score: best.gain,
            ceiling,
        },
        None => Found {
            how: How::Unclosed,
            word: last.word,
            score: last.score,
            ceiling,
        },
    }
}

// Inside: the search, three passes at most; a word out by closing ends it. Its ceiling is the least of the passes' tops.
// Its labels come from the lent table; where that is empty, by parity. It leaves the start scores, end scores and decisions of
// the last pass in the areas.
pub fn search(
    metrics: &[f32],
    labels: &[u16],
    scores: &mut [f32],
    next: &mut [f32],
    start: &mut [f32],
    decisions: &mut [u64],
) -> Found
    requires { Lent metrics.now scores.old next.old start.old decisions.old × Lawful labels.now }
    ensures answer { found_is result ≡ Search.search (over metrics.now) }
    ensures ceiling { result.ceiling ≡ Search.ceiling (over metrics.now) }
    ensures lent { Lent metrics.now scores.new next.new start.new decisions.new }
{
    start.fill(0.0);
    let steps = metrics.len() / 32;
    let mut best = None;
    let mut ceiling = 0.0f32;
    // A `loop` and no `for` over the passes: the third ends it with its own traceback, which a `for` would have to carry out.
    let mut pass = 1u8;
    loop {
        let t = run(metrics, labels, scores, next, start, decisions);
        let low = ceiling_after(pass, ceiling, t.gain);
        if t.closed {
            return Found {
                how: How::Closing(pass),
                word: t.word,
                score: t.score,
                ceiling: low,
            };
        }
        best = traceback::scan(decisions, steps, scores, start, best);
        if pass == 3 {
            return best_or_last(best, t, low);
        }
        lower(scores, t.top, start);
        ceiling = low;
        pass += 1;
    }
}
