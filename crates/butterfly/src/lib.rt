// A step of the header's Viterbi search, sixteen butterflies at a time: states 2p and 2p + 1 are reached from p and p + 8192 alone, by four
// registers that have two labels between them. Labels are linear, so a block of 32 states needs two rows of 16 metrics, and the rows of all
// blocks are 32; no label is looked up for a state, and a block is straight vector code. What the areas hold is document 01's search, as
// crate trellis defines it, at f32 (fec/conv.rs: a step of `pass`).
#![tactic(auto)]

ghost use Rattle.std.specs.Prelude.{List, ◌≡◌, ℕ, ◌+◌, ◌*◌, ◌<◌, ◌≤◌, Float, length};
ghost use Rattle.std.specs.Int.Bits.{bit_xor};
ghost use Rattle.std.specs.Float.Ieee.{lt};
ghost use Rattle.std.specs.Float.{nan};
ghost use Rattle.util.specs.Choose.{choose};
ghost use Rattle.util.specs.Table.{Stored};
ghost use Rattle.conv.specs.Label.{label_of};
ghost use Rattle.labels.specs.Labels.{Spaced};
ghost use Rattle.pass.specs.Areas.{table, steps_in, Metrics, Word, Stepped};
ghost use Rattle.butterfly.specs.Blocks.{Rows, Places, Block};

// Row b of step j's metrics: at place k that of label b xor the label of register 2k.
fn row(metrics: &[f32], j: usize, evens: &[u16; 16], b: usize, rows: &mut [f32])
    requires { (j * 32 + 32 ≤ length metrics.now) × Spaced 2 16 evens.now × (b < 32) × (length rows.old ≡ 512) }
    ensures { Stored nan 16 (16 * b) (λ k. table metrics.now (j * 32 + bit_xor b (label_of (k * 2)))) rows.old rows.new }
{
    for k in 0..16usize {
        rows[16 * b + k] = metrics[j * 32 + (b ^ (evens[k] as usize))];
    }
}

// The 32 rows.
fn rows(metrics: &[f32], j: usize, evens: &[u16; 16]) -> [f32; 512]
    requires { (j * 32 + 32 ≤ length metrics.now) × Spaced 2 16 evens.now }
    ensures { Rows metrics.now j result }
{
    let mut rows = [0.0f32; 512];
    for b in 0..32usize {
        row(metrics, j, evens, b, &mut rows);
    }
    rows
}

// The places of even states' decisions in a block's word; an odd state's is twice the even one's.
fn places() -> [u32; 16]
    ensures { Places result }
{
    [
        0x1, 0x4, 0x10, 0x40, 0x100, 0x400, 0x1000, 0x4000, 0x10000, 0x40000, 0x100000, 0x400000,
        0x1000000, 0x4000000, 0x10000000, 0x40000000,
    ]
}

// The survivor of a state's two registers, as a decision at a place of a word: set for the upper one where its path metric b is strictly
// greater, else 0 for the lower one with a.
fn decision(a: f32, b: f32, place: u32) -> u32
    ensures { (result ≡ choose (lt a b) place 0) × (result ≤ place) }
{
    if b > a { place } else { 0 }
}

// The 32 states of block h, two a turn, whose first register has this label; the answer has their decisions. An even state's lower
// register and the odd one's upper one have one label, the two others that with all bits turned.
fn block(
    scores: &[f32],
    rows: &[f32; 512],
    places: &[u32; 16],
    h: usize,
    label: usize,
    next: &mut [f32],
) -> u32
    requires in_range { (length scores.now ≡ 16384) × (length next.old ≡ 16384) × (h < 512) × (label < 32) × (label ≡ label_of (h * 32)) }
    requires places { Places places.now }
    ensures block { (metrics : List Float) (j : ℕ) → Rows metrics j rows.now
        → Block metrics scores.now j h next.old next.new result }
    ensures size { length next.new ≡ 16384 }
{
    let p = h * 16;
    let one = 16 * label;
    let other = 16 * (31 - label);
    let s = h * 32;
    let mut word = 0u32;
    for k in 0..16usize {
        let x = scores[p + k];
        let y = scores[p + 8192 + k];
        let u = rows[one + k];
        let v = rows[other + k];
        let a = x + u;
        let b = y + v;
        let c = x + v;
        let e = y + u;
        next[s + 2 * k] = pass::greater(a, b);
        next[s + 2 * k + 1] = pass::greater(c, e);
        word = word + decision(a, b, places[k]) + 2 * decision(c, e, places[k]);
    }
    word
}

// The 64 states of word w: two blocks.
fn word(
    scores: &[f32],
    rows: &[f32; 512],
    places: &[u32; 16],
    firsts: &[u16; 512],
    w: usize,
    next: &mut [f32],
) -> u64
    requires in_range { (length scores.now ≡ 16384) × (length next.old ≡ 16384) × (w < 256) }
    requires places { Places places.now × Spaced 32 512 firsts.now }
    ensures word { (metrics : List Float) (j : ℕ) → Rows metrics j rows.now
        → Word metrics scores.now j w next.old next.new result }
    ensures size { length next.new ≡ 16384 }
{
    let low = block(scores, rows, places, 2 * w, firsts[2 * w] as usize, next);
    let high = block(
        scores,
        rows,
        places,
        2 * w + 1,
        firsts[2 * w + 1] as usize,
        next,
    );
    (low as u64) + (high as u64) * 0x1_0000_0000
}

// Inside: all states of step j from `scores`, which stay as they were: their scores go to `next`, their decisions to the step's 256 words.
pub fn step(
    scores: &[f32],
    metrics: &[f32],
    evens: &[u16; 16],
    firsts: &[u16; 512],
    j: usize,
    next: &mut [f32],
    decisions: &mut [u64],
)
    requires metrics { Metrics metrics.now × Spaced 2 16 evens.now × Spaced 32 512 firsts.now }
    requires in_range { (length scores.now ≡ 16384) × (j < steps_in metrics.now) × (length next.old ≡ 16384)
        × (length decisions.old ≡ steps_in metrics.now * 256) }
    ensures { Stepped metrics.now scores.now j next.new decisions.old decisions.new }
{
    let places = places();
    let rows = rows(metrics, j, evens);
    for w in 0..256usize {
        decisions[j * 256 + w] = word(scores, &rows, &places, firsts, w, next);
    }
}
