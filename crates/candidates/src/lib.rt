// The candidates of a pass: a survivor that ends where it started is a closed word. The start states of all survivors are followed forward
// (crate forward), and only the candidate taken is traced back (fec/conv.rs: the loop over the states in `decode_tb`, which traces them all).
#![tactic(auto)]

ghost use Rattle.std.specs.Prelude.{◌≡◌, Bool, List, ℕ, ◌*◌, ◌%◌, ◌<◌, ◌≤◌, length};
ghost use Rattle.trellis.specs.Numbers.{single};
ghost use Rattle.trellis.specs.Search as Search;
ghost use Rattle.pass.specs.Areas.{table, packed};
ghost use Rattle.forward.specs.Follow.{Starts};
ghost use Rattle.traceback.specs.Best.{best_is};
ghost use Rattle.candidates.specs.Best.{held_is, Inside};
ghost use Rattle.candidates.specs.Scan.{considered, scanned};

use traceback::Best;

// The best one within a pass: still that of the passes before, or a state of this one with its gain.
#[derive(Clone, Copy, Debug, PartialEq)]
enum Held {
    Earlier(Option<Best>),
    State(usize, f32),
}

// A later candidate needs a strictly greater gain than the best of earlier passes, and than the best within this one. (The decisions say
// what word the state stands for.)
fn better(held: Held, gain: f32) -> bool
    ensures { (d : ℕ → ℕ → Bool) (n : ℕ) → result ≡ Search.beats single (held_is d n held) gain }
{
    match held {
        Held::Earlier(best) => traceback::beats(best, gain),
        Held::State(_, g) => gain > g,
    }
}

// Takes state s for the best candidate if its survivor started there and its gain is strictly greater.
fn consider(starts: &[u16], held: Held, gain: f32, s: usize) -> Held
    requires { (length starts.now ≡ 16384) × (s < 16384) × Inside held }
    ensures inside { Inside result }
    ensures by_index { (d : List ℕ) (n : ℕ) → Starts d n starts.now → held_is (packed d) n result ≡ considered (packed d) n (held_is (packed d) n held) gain s }
{
    if starts[s] as usize == s {
        if better(held, gain) {
            return Held::State(s, gain);
        }
    }
    held
}

// The candidates of a pass, in state order, after the best of earlier passes.
fn pick(starts: &[u16], scores: &[f32], start: &[f32], first: Option<Best>) -> Held
    requires { (length starts.now ≡ 16384) × (length scores.now ≡ 16384) × (length start.now ≡ 16384) }
    ensures inside { Inside result }
    ensures by_index { (d : List ℕ) (n : ℕ) → Starts d n starts.now → held_is (packed d) n result
        ≡ scanned (packed d) n (table scores.now) (table start.now) (best_is first) 16384 }
{
    let mut held = Held::Earlier(first);
    for s in 0..16384usize {
        held = consider(starts, held, scores[s] - start[s], s);
    }
    held
}

// What is held, as the next pass takes it over: a state of this pass gives its word.
fn told(decisions: &[u64], steps: usize, held: Held) -> Option<Best>
    requires { (steps ≤ 64) × (length decisions.now ≡ steps * 256) × Inside held }
    ensures { best_is result ≡ held_is (packed decisions.now) steps held }
{
    match held {
        Held::Earlier(best) => best,
        Held::State(s, gain) => Some(Best {
            word: traceback::trace(decisions, steps, s).word,
            gain,
        }),
    }
}

// Inside: the candidates of a pass of an even number of steps, after the best of earlier passes.
pub fn scan(
    decisions: &[u64],
    steps: usize,
    scores: &[f32],
    start: &[f32],
    first: Option<Best>,
) -> Option<Best>
    requires { (length scores.now ≡ 16384) × (length start.now ≡ 16384) × (steps ≤ 64) × (steps % 2 ≡ 0)
        × (length decisions.now ≡ steps * 256) }
    ensures { best_is result ≡ scanned (packed decisions.now) steps (table scores.now)
        (table start.now) (best_is first) 16384 }
{
    let mut starts = [0u16; 16384];
    let mut other = [0u16; 16384];
    forward::trace_all(decisions, steps, &mut starts, &mut other);
    told(decisions, steps, pick(&starts, scores, start, first))
}
