// The traceback over a pass's survivors, and the candidates of a pass: end states whose own traceback closes (fec/conv.rs:
// `traceback`, and the loop over the states in `decode_tb`). The passes one after another are crate `search`.
#![tactic(auto)]

ghost use Rattle.std.specs.Prelude.{◌≡◌, ◌*◌, ◌<◌, ◌≤◌, length};
ghost use Rattle.trellis.specs.Numbers.{single};
ghost use Rattle.trellis.specs.Search.{trace_start, trace_word};
ghost use Rattle.trellis.specs.Search as Search;
ghost use Rattle.pass.specs.Areas.{table, packed};
ghost use Rattle.traceback.specs.Scan.{considered, scanned};
ghost use Rattle.traceback.specs.Best.{best_is};

// What a traceback gives: its word, and the state that it reaches.
#[derive(Clone, Copy, Debug, PartialEq, Eq)]
pub struct Traced {
    pub word: u64,
    pub start: usize,
}

// Inside: the traceback from state `end` over the survivors. The last bit is met first, so each earlier one goes in below it.
pub fn trace(decisions: &[u64], steps: usize, end: usize) -> Traced
    requires { (end < 16384) × (steps ≤ 64) × (length decisions.now ≡ steps * 256) }
    ensures { (result.word ≡ trace_word 16384 (packed decisions.now) steps end)
        × (result.start ≡ trace_start 16384 (packed decisions.now) steps end) × (result.start < 16384) }
{
    let mut word = 0u64;
    let mut s = end;
    for j in (0..steps).rev() {
        word = word * 2 + ((s % 2) as u64);
        if (decisions[j * 256 + s / 64] >> (s % 64)) % 2 == 1 {
            s = (s + 16384) / 2;
        } else {
            s = s / 2;
        }
    }
    Traced { word, start: s }
}

// The best candidate of the passes so far, with its word: a later pass overwrites the decisions.
#[derive(Clone, Copy, Debug, PartialEq)]
pub struct Best {
    pub word: u64,
    pub gain: f32,
}

// Inside: a later candidate needs a strictly greater gain.
pub fn beats(best: Option<Best>, gain: f32) -> bool
    ensures { result ≡ Search.beats single (best_is best) gain }
{
    best.is_none_or(|b| gain > b.gain)
}

// Takes state s for the best candidate if its gain is strictly greater and its own traceback closes.
fn consider(
    decisions: &[u64],
    steps: usize,
    best: Option<Best>,
    gain: f32,
    s: usize,
) -> Option<Best>
    requires { (s < 16384) × (steps ≤ 64) × (length decisions.now ≡ steps * 256) }
    ensures { best_is result ≡ considered (packed decisions.now) steps (best_is best) gain s }
{
    if !beats(best, gain) {
        return best;
    }
    let t = trace(decisions, steps, s);
    if t.start == s {
        return Some(Best { word: t.word, gain });
    }
    best
}

// Inside: the candidates of a pass, in state order, after the best of earlier passes.
pub fn scan(
    decisions: &[u64],
    steps: usize,
    scores: &[f32],
    start: &[f32],
    first: Option<Best>,
) -> Option<Best>
    requires { (length scores.now ≡ 16384) × (length start.now ≡ 16384) × (steps ≤ 64) × (length decisions.now ≡ steps * 256) }
    ensures { best_is result ≡ scanned (packed decisions.now) steps (table scores.now)
        (table start.now) (best_is first) 16384 }
{
    let mut best = first;
    for s in 0..16384 {
        best = consider(decisions, steps, best, scores[s] - start[s], s);
    }
    best
}
