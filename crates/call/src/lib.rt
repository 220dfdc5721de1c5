// What one call of a burst's tracker makes (phy_mfsk/rx/data.rs, `track_timing`): its sums, the block that it pushes, the drift
// and the shift that follow. The tracker and its rule are crate `tracker`, the public entry over this is crate `drift`.
// Definitions in specs/. A mode is its number in this crate, as in the definitions and in `step`, which is handed the entry's.
#![tactic(auto)]

ghost use Rattle.std.specs.Prelude.{◌≡◌, ℕ, ◌+◌, ◌≤◌, ◌<◌, length, get_or, pos, nat_abs, ◌+ℤ◌};
ghost use Rattle.ieee.specs.Whole.{run};
ghost use Rattle.fit.specs.Inside.{fitted_in};
ghost use Rattle.tracker.specs.Rule.{block_length};
ghost use Rattle.call.specs.Call.{num_after, den_after, block_of, shift_after, followed, ended, judged_of, moved};
ghost use Rattle.call.specs.Inside.{Ready, Steps};

use blocks::{Block, Gathered};
use tracker::{Sample, Tracker};
use util::refusal::Refusal;

// What one call makes: the next tracker, and the block that it pushes, if it pushes one.
#[derive(Clone, Copy, Debug, PartialEq)]
pub struct Moved {
    pub tracker: Tracker,
    pub pushed: Option<Block>,
}

// The two sums of a tracker.
#[derive(Clone, Copy, Debug, PartialEq)]
pub struct Sums {
    pub num: f64,
    pub den: f64,
}

// The sums of a block that begins.
const NO_SUMS: Sums = Sums { num: 0.0, den: 0.0 };

// The sums with one sample more.
fn sums_after(t: Tracker, s: Sample) -> Sums
    ensures { (result.num ≡ num_after t s) × (result.den ≡ den_after t s) }
{
    match s {
        Sample::Heard(early, late, noise) => Sums {
            num: t.tnum + (late - early),
            den: t.tden + fit::larger(0.5 * (late + early) - noise, 0.0),
        },
        Sample::Missed => Sums {
            num: t.tnum,
            den: t.tden,
        },
    }
}

// The sum of n stored shifts.
fn shift_sum(stored: &[i32], first: usize, n: usize) -> i32
    requires { (first + n ≤ length stored.now) × (n ≤ 64) × ((j : ℕ) → j < first + n → nat_abs (get_or stored.now j (pos 0)) ≤ 2048) }
    ensures { result ≡ run ◌+ℤ◌ (pos 0) (λ j. get_or stored.now (first + j) (pos 0)) n }
{
    let mut acc = 0;
    for z in &stored[first..first + n] {
        acc += *z;
    }
    acc
}

// The block whose last symbol is i.
fn block_of(mode: u8, stored: &[i32], i: usize, sums: Sums) -> Block
    requires { (block_length mode ≤ i + 1) × (i < 2048) × (length stored.now ≡ 2048) × ((j : ℕ) → j ≤ i → nat_abs (get_or stored.now j (pos 0)) ≤ 2048) }
    ensures { result ≡ block_of mode stored.now i sums.num sums.den }
{
    let n = tracker::block_length(mode);
    let sum = shift_sum(stored, i + 1 - n, n);
    let gate = f64::from(frame::symbol(mode) - 16) / 4.0;
    let mis = fit::clamp(-32.0, 32.0, gate * sums.num / sums.den);
    Block {
        place2: (2 * i + 1 - n) as u32,
        timing: f64::from(sum) / (n as f64) + mis,
    }
}

// The shift follows the line, one sample at a time.
fn shift_after(z: i32, target: f64) -> i32
    requires { nat_abs z ≤ 2048 }
    ensures { result ≡ shift_after z target }
{
    let at = f64::from(z);
    if at + 0.7 < target {
        z + 1
    } else if target < at - 0.7 {
        z - 1
    } else {
        z
    }
}

// The tracker after a call that judges a symbol.
fn follow(t: Tracker, sums: Sums, drift: f64, count: usize) -> Tracker
    requires { (t.n < 2048) × (nat_abs t.shift ≤ 2048) }
    ensures { result ≡ followed t sums.num sums.den drift count }
{
    let c = t.n + 1;
    Tracker {
        n: c,
        shift: shift_after(t.shift, drift * (c as f64)),
        tnum: sums.num,
        tden: sums.den,
        drift,
        blocks: count,
    }
}

// A block ends. It is pushed if something was heard in it.
fn end_block(mode: u8, t: Tracker, g: &Gathered, den: f64, b: Block) -> Moved
    requires { (t.n < 2048) × (nat_abs t.shift ≤ 2048) × (t.blocks < 64) }
    ensures { result ≡ ended t den b (fitted_in mode g.now t.blocks) }
{
    if 0.0 < den {
        let drift = fit::fit_with(mode, *g, t.blocks, b);
        Moved {
            tracker: follow(t, NO_SUMS, drift, t.blocks + 1),
            pushed: Some(b),
        }
    } else {
        Moved {
            tracker: follow(t, NO_SUMS, t.drift, t.blocks),
            pushed: None,
        }
    }
}

// A call from the third on.
fn judge(mode: u8, t: Tracker, stored: &[i32], g: &Gathered, sums: Sums) -> Moved
    requires { (2 ≤ t.n) × Ready t stored.now }
    ensures { result ≡ judged_of mode t stored.now sums.num sums.den (fitted_in mode g.now t.blocks) }
{
    if tracker::waits(mode, t.n) + 1 == tracker::block_length(mode) {
        let b = block_of(mode, stored, t.n - 2, sums);
        end_block(mode, t, g, sums.den, b)
    } else {
        Moved {
            tracker: follow(t, sums, t.drift, t.blocks),
            pushed: None,
        }
    }
}

// What a call makes once its shift is stored. The first two only count.
fn move_on(mode: u8, t: Tracker, stored: &[i32], g: &Gathered, s: Sample) -> Moved
    requires { Ready t stored.now }
    ensures { result ≡ moved mode t stored.now s (fitted_in mode g.now t.blocks) }
{
    if t.n < 2 {
        return Moved {
            tracker: Tracker { n: t.n + 1, ..t },
            pushed: None,
        };
    }
    judge(mode, t, stored, g, sums_after(t, s))
}

// Inside: one call by value. On a refusal nothing is stored.
pub fn step(
    mode: u8,
    t: Tracker,
    shifts: &mut [i32],
    g: &Gathered,
    room: usize,
    s: Sample,
) -> Result<Moved, Refusal>
    ensures { Steps mode t shifts.old room g.now s result shifts.new }
{
    tracker::tested(mode, t, shifts, room, g, s)?;
    shifts[t.n] = t.shift;
    Ok(move_on(mode, t, shifts, g, s))
}
