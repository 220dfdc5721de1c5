// One pass of the header's Viterbi search over a tail-biting code, which is wrapped around at most three times (crate
// search): a step, a pass, its end state and its top over lent areas (fec/conv.rs: `pass`). Labels come from a lent table, or by
// parity where none is lent (crate labels). What the areas hold is document 01's search, as crate trellis defines it, at f32.
#![tactic(auto)]

ghost use Rattle.std.specs.Prelude.{◌≡◌, ◌*◌, ◌<◌, ◌≤◌, length};
ghost use Rattle.std.specs.Float.Ieee.{lt};
ghost use Rattle.util.specs.Choose.{choose};
ghost use Rattle.conv.specs.Label.{label_of};
ghost use Rattle.labels.specs.Labels.{Lawful};
ghost use Rattle.trellis.specs.Scale.{highest};
ghost use Rattle.trellis.specs.Numbers.{single};
ghost use Rattle.trellis.specs.Search.{brings};
ghost use Rattle.pass.specs.Areas.{table, steps_in, over, Metrics, Word, Stepped, Turned, top_in};

// The survivor of a state's two registers, as a decision: 1 for the upper one where its path metric b is strictly
// greater, else 0 for the lower one with a.
fn decision(a: f32, b: f32) -> u64
    ensures { (result ≡ choose (lt a b) 1 0) × (result ≤ 1) }
{
    (b > a) as u64
}

// Inside: the survivor's path metric.
pub fn greater(a: f32, b: f32) -> f32
    ensures { result ≡ choose (lt a b) b a }
{
    if b > a { b } else { a }
}

// The path metric that register r brings at step j: that of the state it comes from, its score, and the branch metric,
// which is the metric of the register's label.
fn path_metric(scores: &[f32], metrics: &[f32], j: usize, r: usize, label: usize) -> f32
    requires metrics { Metrics metrics.now }
    requires in_range { (length scores.now ≡ 16384) × (j < steps_in metrics.now) × (r < 32768) × (label ≡ label_of r) }
    ensures { result ≡ brings (over metrics.now) (table scores.now) j r }
{
    scores[r / 2] + metrics[j * 32 + label]
}

// The 64 states of word w at step j, the last one first. The answer has their decisions. A state's two registers differ in
// the oldest bit, so their labels differ in all five.
fn states(
    scores: &[f32],
    metrics: &[f32],
    labels: &[u16],
    j: usize,
    w: usize,
    next: &mut [f32],
) -> u64
    requires metrics { Metrics metrics.now × Lawful labels.now }
    requires in_range { (length scores.now ≡ 16384) × (j < steps_in metrics.now) × (w < 256) × (length next.old ≡ 16384) }
    ensures { Word metrics.now scores.now j w next.old next.new result }
{
    let row = labels::row(labels, w * 64);
    let mut word = 0u64;
    for k in (0..64usize).rev() {
        let s = w * 64 + k;
        let label = row[k] as usize;
        let a = path_metric(scores, metrics, j, s, label);
        let b = path_metric(scores, metrics, j, s + 16384, label ^ 31);
        next[s] = greater(a, b);
        word = word * 2 + decision(a, b);
    }
    word
}

// All states of step j from `scores`, which stay as they were: their scores go to `next`, their decisions to the step's
// 256 words.
fn step(
    scores: &[f32],
    metrics: &[f32],
    labels: &[u16],
    j: usize,
    next: &mut [f32],
    decisions: &mut [u64],
)
    requires metrics { Metrics metrics.now × Lawful labels.now }
    requires in_range { (length scores.now ≡ 16384) × (j < steps_in metrics.now) × (length next.old ≡ 16384)
        × (length decisions.old ≡ steps_in metrics.now * 256) }
    ensures { Stepped metrics.now scores.now j next.new decisions.old decisions.new }
{
    for w in 0..256 {
        decisions[j * 256 + w] = states(scores, metrics, labels, j, w, next);
    }
}

// The first two steps of a pass, from the start scores, which stay as they were.
fn opening(
    metrics: &[f32],
    labels: &[u16],
    scores: &mut [f32],
    next: &mut [f32],
    start: &[f32],
    decisions: &mut [u64],
)
    requires metrics { Metrics metrics.now × Lawful labels.now }
    requires in_range { (length scores.old ≡ 16384) × (length next.old ≡ 16384) × (length start.now ≡ 16384)
        × (length decisions.old ≡ steps_in metrics.now * 256) }
    ensures { Turned metrics.now (table start.now) 2 scores.new next.new decisions.new }
{
    step(start, metrics, labels, 0, next, decisions);
    step(next, metrics, labels, 1, scores, decisions);
}

// Inside: a pass from the start scores, which stay as they were. `next` and `scores` take turns as a step's target and
// the next one's source, and no scores are copied (document 02, #104). So the end scores are left in `scores`, and in
// `next` those that the last step started from.
pub fn pass(
    metrics: &[f32],
    labels: &[u16],
    scores: &mut [f32],
    next: &mut [f32],
    start: &[f32],
    decisions: &mut [u64],
)
    requires metrics { Metrics metrics.now × Lawful labels.now }
    requires in_range { (length scores.old ≡ 16384) × (length next.old ≡ 16384) × (length start.now ≡ 16384)
        × (length decisions.old ≡ steps_in metrics.now * 256) }
    ensures { Turned metrics.now (table start.now) (steps_in metrics.now) scores.new next.new decisions.new }
{
    opening(metrics, labels, scores, next, start, decisions);
    let steps = metrics.len() / 32;
    for j in (2..steps).step_by(2) {
        step(scores, metrics, labels, j, next, decisions);
        step(next, metrics, labels, j + 1, scores, decisions);
    }
}

// Inside: the end state, the lowest of the states with the greatest score.
pub fn end_state(scores: &[f32]) -> usize
    requires { length scores.now ≡ 16384 }
    ensures { (result ≡ highest single (table scores.now) 16384) × (result < 16384) }
{
    let mut best = 0usize;
    for (s, score) in scores.iter().enumerate() {
        if *score > scores[best] {
            best = s;
        }
    }
    best
}

// Inside: the top of a pass (document 02, #106): the greatest of its states' gains, each the end score less the same
// state's start score.
pub fn top_gain(scores: &[f32], start: &[f32]) -> f32
    requires { (length scores.now ≡ 16384) × (length start.now ≡ 16384) }
    ensures { result ≡ top_in scores.now start.now }
{
    let mut top = scores[0] - start[0];
    // Over indices: the same place of two lists, from the second on.
    for s in 1..16384 {
        top = greater(top, scores[s] - start[s]);
    }
    top
}
