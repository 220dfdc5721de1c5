// The greatest of 16,384 numbers, sixteen at a time, each lane keeping the greatest that it has met: the end state of a pass and its top
// (fec/conv.rs: `pass`, which goes one by one). Lanes meet the states in another order, so the lowest place that reaches the greatest
// number is looked for afterwards. Definitions in specs/.
#![tactic(auto)]

ghost use Rattle.std.specs.Prelude.{Float, ℕ, ◌≡◌, ◌+◌, ◌<◌, length};
ghost use Rattle.trellis.specs.Numbers.{single};
ghost use Rattle.trellis.specs.Scale.{highest};
ghost use Rattle.pass.specs.Areas.{table};
ghost use Rattle.peak.specs.Peak.{gain_in, top_in, greatest, Lanes, Peak};

// Sixteen numbers more, from place 16 i on: a lane takes its one only where it is strictly greater.
fn more<F: Fn(usize) -> f32>(lanes: &[f32; 16], number: &F, i: usize) -> [f32; 16]
    requires inside { i < 1024 }
    requires callable { (s : ℕ) → s < 16384 → F.pre number.now s }
    ensures { (x : ℕ → Float) → ((s : ℕ) (r : Float) → F.post number.now s r → r ≡ x s)
        → Lanes x i lanes.now → Lanes x (i + 1) result }
{
    let mut r = [0.0f32; 16];
    for k in 0..16usize {
        r[k] = pass::greater(lanes[k], number(i * 16 + k));
    }
    r
}

// The greatest of the sixteen lanes.
fn of_all(lanes: &[f32; 16]) -> f32
    ensures { result ≡ greatest (table lanes.now) 16 }
{
    let mut top = lanes[0];
    for k in 1..16usize {
        top = pass::greater(top, lanes[k]);
    }
    top
}

// The greatest of the numbers at 16,384 places. Every lane starts with the first of them: a NaN there is then the answer, as when they
// are met one by one.
fn peak<F: Fn(usize) -> f32>(number: F) -> f32
    requires { (s : ℕ) → s < 16384 → F.pre number s }
    ensures { (x : ℕ → Float) → ((s : ℕ) (r : Float) → F.post number s r → r ≡ x s) → Peak x 16384 result }
{
    let mut lanes = [number(0); 16];
    for i in 0..1024usize {
        lanes = more(&lanes, &number, i);
    }
    of_all(&lanes)
}

// Inside: the end state, the lowest of the states with the greatest score. No score reaches a NaN: the answer is then 0.
pub fn end_state(scores: &[f32]) -> usize
    requires { length scores.now ≡ 16384 }
    ensures { (result ≡ highest single (table scores.now) 16384) × (result < 16384) }
{
    let top = peak(|s| scores[s]);
    for s in 0..16384usize {
        if scores[s] >= top {
            return s;
        }
    }
    0
}

// Inside: the top of a pass (document 02, #106): the greatest of its states' gains, each the end score less the same
// state's start score. The lowest state's is returned, since 0.0 and -0.0 are equal to the test.
pub fn top_gain(scores: &[f32], start: &[f32]) -> f32
    requires { (length scores.now ≡ 16384) × (length start.now ≡ 16384) }
    ensures { result ≡ top_in scores.now start.now }
{
    let top = peak(|s| scores[s] - start[s]);
    for s in 0..16384usize {
        let gain = scores[s] - start[s];
        if gain >= top {
            return gain;
        }
    }
    scores[0] - start[0]
}
