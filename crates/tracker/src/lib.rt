// The tracker of a burst's timing (phy_mfsk/rx/data.rs): what is kept between symbols, its rule, and when a call is refused.
// The fresh tracker is a public entry. Definitions in specs/.
#![tactic(auto)]

ghost use Rattle.std.specs.Prelude.{◌≡◌, ◌-◌, ◌*◌, ◌≤◌, length, get_or, leb, eqb, pos, not, ◌&&◌, ◌||◌};
ghost use Rattle.util.specs.Every.{every};
ghost use Rattle.tracker.specs.Rule.{fresh_of, block_length, waiting, in_whole_blocks, count_kept, drift_kept, sums_kept, shift_kept};
ghost use Rattle.tracker.specs.Rule.{energy, in_range};
ghost use Rattle.util.specs.Refusal.{meaning};
ghost use Rattle.tracker.specs.Inside.{rule_with, answer_in, Readable};

use blocks::Gathered;
use util::refusal::Refusal;

// One symbol: early energy, late energy and noise, or nothing. An enum and no Option: these are document 01's own words, which the
// definitions (specs/Rule, crate call's specs/Call) and the theorems over series (crate drift, specs/Series) cite.
#[derive(Clone, Copy, Debug, PartialEq)]
pub enum Sample {
    Heard(f64, f64, f64),
    Missed,
}

// What is kept of a burst between its symbols; its two lists lie beside it.
#[derive(Clone, Copy, Debug, PartialEq)]
pub struct Tracker {
    pub n: usize,
    pub shift: i32,
    pub tnum: f64,
    pub tden: f64,
    pub drift: f64,
    pub blocks: usize,
}

impl Tracker {
    // Public entry: nothing heard yet (document 01, 'Drift').
    pub fn fresh() -> Self
        ensures { result ≡ fresh_of }
    {
        Self {
            n: 0,
            shift: 0,
            tnum: 0.0,
            tden: 0.0,
            drift: 0.0,
            blocks: 0,
        }
    }
}

// Inside: symbols a block. A mode is its number here and below: `readable` and `waits` are asked before it is known to be named.
pub fn block_length(mode: u8) -> usize
    ensures { result ≡ block_length mode }
{
    if mode == 0 { 32 } else { 64 }
}

// Inside: of the symbols judged in n calls those that wait for their block's end.
pub fn waits(mode: u8, n: usize) -> usize
    ensures { result ≡ waiting mode n }
{
    n.saturating_sub(2) % block_length(mode)
}

// And the symbols in whole blocks, document 01's m.
fn in_blocks(mode: u8, n: usize) -> usize
    ensures { result ≡ in_whole_blocks mode n }
{
    n.saturating_sub(2) - waits(mode, n)
}

// Whether there are no more blocks than n calls make.
fn count_kept(mode: u8, t: Tracker) -> bool
    ensures { result ≡ count_kept mode t }
{
    t.blocks <= in_blocks(mode, t.n) / block_length(mode)
}

// Inside: how many listed blocks may be read. n and the count are looked at before a list is.
pub fn readable(mode: u8, t: Tracker, room: usize) -> usize
    ensures { Readable mode t room result }
{
    if room == 64 && t.n <= 2047 && count_kept(mode, t) {
        t.blocks
    } else {
        0
    }
}

// Whether a shift lies within ±2,048.
fn shift_kept(z: i32) -> bool
    ensures { result ≡ shift_kept z }
{
    -2048 <= z && z <= 2048
}

// Whether the first n stored shifts lie within ±2,048. All are looked at, with no way out between, so that several
// go at once: `all` would stop at the first that does not (docs/DECISIONS.md, 33).
fn stored_kept(shifts: &[i32], n: usize) -> bool
    requires { n ≤ length shifts.now }
    ensures { result ≡ every n (λ j. shift_kept (get_or shifts.now j (pos 0))) }
{
    shifts[..n]
        .iter()
        .fold(true, |kept, z| util::both(kept, shift_kept(*z)))
}

// Whether the sums keep the rule. 1 / -0.0 is minus infinity, so the last test finds a negative zero.
fn sums_kept(t: Tracker) -> bool
    ensures { result ≡ sums_kept t }
{
    blocks::within(1e12, t.tnum)
        && blocks::within(1e12, t.tden)
        && 0.0 <= t.tden
        && !(1.0 / t.tden < 0.0)
}

// Whether drift, sums and present shift keep the rule.
fn numbers_kept(mode: u8, t: Tracker) -> bool
    ensures { result ≡ drift_kept mode t && (sums_kept t && shift_kept t.shift) }
{
    blocks::within(0.0003 * f64::from(frame::symbol(mode)), t.drift)
        && sums_kept(t)
        && shift_kept(t.shift)
}

// Whether a further call is left and the rule is kept, where `top` is the greatest twice-place.
fn rule_kept(mode: u8, t: Tracker, shifts: &[i32], top: u32) -> bool
    requires { length shifts.now ≡ 2048 }
    ensures { result ≡ not (eqb t.n 2048 || not (rule_with mode t shifts.now (leb top (2 * in_whole_blocks mode t.n)))) }
{
    t.n <= 2047
        && count_kept(mode, t)
        && (top as usize) <= 2 * in_blocks(mode, t.n)
        && numbers_kept(mode, t)
        && stored_kept(shifts, t.n)
}

// Whether an energy or a noise is in range.
fn is_energy(x: f64) -> bool
    ensures { result ≡ energy x }
{
    0.0 <= x && x <= 1e9
}

// Whether a sample is in range; of Missed nothing is looked at.
fn in_range(s: Sample) -> bool
    ensures { result ≡ in_range s }
{
    match s {
        Sample::Heard(early, late, noise) => {
            is_energy(early) && is_energy(late) && is_energy(noise)
        }
        Sample::Missed => true,
    }
}

// Inside: the answer of a call, by what is gathered of a list of `room` blocks.
pub fn tested(
    mode: u8,
    t: Tracker,
    shifts: &[i32],
    room: usize,
    g: &Gathered,
    s: Sample,
) -> Result<(), Refusal>
    ensures { meaning result ≡ answer_in mode t shifts.now room g.now s }
{
    if mode > 1 {
        return Err(Refusal::Unnamed);
    }
    if shifts.len() != 2048 || room != 64 {
        return Err(Refusal::Length);
    }
    if !in_range(s) {
        return Err(Refusal::Sample);
    }
    if !rule_kept(mode, t, shifts, g.top) {
        return Err(Refusal::Tracker);
    }
    if !g.good {
        return Err(Refusal::Blocks);
    }
    Ok(())
}
