// A row of energies (phy_mfsk/rx/model.rs, the first two steps of `local_noise`): in units of the noise, without the bins
// around its strongest tone, and its level, by the median of the bins that are left. Definitions in specs/.
#![tactic(auto)]

ghost use Rattle.std.specs.Prelude.{Float, Bool, ◌≡◌, not, ◌&&◌, ◌||◌, ℕ, ◌+◌, ◌*◌, ◌≤◌, ◌<◌, eqb, length, get_or};
ghost use Rattle.std.specs.Float.{nan};
ghost use Rattle.std.specs.Float.Ieee.{lt, le};
ghost use Rattle.util.specs.Choose.{choose};
ghost use Rattle.frame.specs.Air.{bin_of, place_of};
ghost use Rattle.level.specs.Row.{ratio_of, strongest_of, is_around};
ghost use Rattle.level.specs.Rank.{once, count_of, of_rank};
ghost use Rattle.level.specs.Level.{level_from};
ghost use Rattle.level.specs.Inside.{Row, mark_of, held_at, Fenced, Side};

use std::array;

// Inside: row i in units of each bin's noise.
pub fn ratios(energies: &[f32], i: usize, noise: &[f32]) -> [f32; 52]
    requires { (52 * i + 52 ≤ length energies.now) × (length noise.now ≡ 52) }
    ensures { (length result ≡ 52) × ((b : ℕ) → b < 52 → get_or result b nan ≡ ratio_of energies.now noise.now i b) }
{
    let base = 52 * i;
    array::from_fn(|b| energies[base + b] / noise[b])
}

// The place of value v's bin in a symbol with hop h, (h + v) mod bins without a division. The second clause is for reads there.
fn tone_place(bins: u64, h: u64, v: u64) -> usize
    requires { (bins ≤ 48) × (h < bins) × (v < bins) }
    ensures answer { result ≡ place_of (bin_of bins h v) }
    ensures inside { result < 50 }
{
    let next = h + v;
    if next < bins {
        (next + 2) as usize
    } else {
        (next - bins + 2) as usize
    }
}

// Inside: the place of the strongest of the 32 values' bins in a row with hop h; of equals the first value's. The second clause is for
// the marks around it.
pub fn strongest(bins: u64, h: u64, row: &[f32]) -> u32
    requires { (32 ≤ bins) × (bins ≤ 48) × (h < bins) × (length row.now ≡ 52) }
    ensures answer { result ≡ strongest_of bins h (λ b. get_or row.now b nan) }
    ensures inside { result < 50 }
{
    let mut best = tone_place(bins, h, 0);
    for v in 1..32u64 {
        let e = tone_place(bins, h, v);
        if row[e] > row[best] {
            best = e;
        }
    }
    best as u32
}

// Whether bin b is one of the five around place e.
#[tactic(auto, unfolding(crate::specs::Row::is_around))]
fn is_around(e: u32, b: u32) -> bool
    requires { (e ≤ 52) × (b ≤ 52) }
    ensures { result ≡ is_around e b }
{
    e <= b + 2 && b <= e + 2
}

// Inside: a row's marks: 0 for the five bins around place e, which are missing, 1 for the others.
pub fn marks(e: u32) -> [u32; 52]
    requires { e ≤ 52 }
    ensures { (length result ≡ 52) × ((b : ℕ) → b < 52 → get_or result b 0 ≡ mark_of e b) }
{
    array::from_fn(|b| if is_around(e, b as u32) { 0 } else { 1 })
}

// 1 for a bin that is there and passes a test, else 0. The second clause is for sums of them.
fn counted(mark: u32, passes: bool) -> u32
    ensures answer { result ≡ once (eqb mark 1 && passes) }
    ensures small { result ≤ 1 }
{
    if mark == 1 { passes as u32 } else { 0 }
}

// A row's first bins as the code holds them: from `base` on a mark for each in the one list, 1 where the bin is there and 0 where it is missing,
// and its value in the other.
#[derive(Clone, Copy, Debug, PartialEq)]
pub struct Bins<'a> {
    pub marks: &'a [u32],
    pub values: &'a [f32],
    pub base: usize,
    pub read: usize,
    ghost there: { Row marks.now values.now base read },
}

// How many of a row's bins are there and pass a test.
fn count<F: Fn(f32) -> bool>(bins: &Bins<'_>, passes: F) -> u32
    requires { F.IsAlwaysCallable passes }
    ensures few { result ≤ bins.now.read }
    ensures count { (test : Float → Bool) → ((y : Float) (b : Bool) → F.post passes y b → b ≡ test y)
        → result ≡ count_of test (held_at bins.now.marks.now bins.now.values.now bins.now.base) bins.now.read }
{
    let mut n = 0u32;
    for b in 0..bins.read {
        let at = bins.base + b;
        n += counted(bins.marks[at], passes(bins.values[at]));
    }
    n
}

// Whether a bin need not be tried: it is missing, or lies at or beyond a fence, where no value has the rank. A fence that is not set
// yet is a NaN, which nothing lies below or above; no bin is one.
fn is_fenced(mark: u32, low: f32, high: f32, x: f32) -> bool
    ensures { result ≡ (not (eqb mark 1) || (le x low || le high x)) }
{
    mark != 1 || x <= low || high <= x
}

// What is told of a bin: that it is there and has rank k, from 0, among those of the row that are there; that it lies too low for that, or
// too high; or that it is missing, or that the fences tell without counting that it has not.
#[derive(Clone, Copy, Debug, PartialEq, Eq)]
enum Lies {
    There,
    Low,
    High,
    Fenced,
}

// What is told of bin b.
fn side_of(bins: &Bins<'_>, k: u32, low: f32, high: f32, b: usize) -> Lies
    requires { (b < bins.now.read) × Fenced (held_at bins.now.marks.now bins.now.values.now bins.now.base) bins.now.read k low high }
    ensures { Side bins.now.marks.now bins.now.values.now bins.now.base bins.now.read k b result }
{
    let x = bins.values[bins.base + b];
    if is_fenced(bins.marks[bins.base + b], low, high, x) {
        return Lies::Fenced;
    }
    if count(bins, |y| y < x) > k {
        return Lies::High;
    }
    if k < count(bins, |y| y <= x) {
        return Lies::There;
    }
    Lies::Low
}

// The value of rank k among a row's bins that are there: the first of them that has it. (One has: proofs/Found.antt.) A value that was
// tried and lay too low, or too high, is a fence: what lies beyond it need not be tried.
fn of_rank(bins: &Bins<'_>, k: u32) -> f32
    ensures { result ≡ of_rank (held_at bins.now.marks.now bins.now.values.now bins.now.base) bins.now.read k }
{
    let unknown = 0.0 / 0.0;
    let mut low = unknown;
    let mut high = unknown;
    for b in 0..bins.read {
        match side_of(bins, k, low, high, b) {
            Lies::There => return bins.values[bins.base + b],
            Lies::Low => low = bins.values[bins.base + b],
            Lies::High => high = bins.values[bins.base + b],
            Lies::Fenced => {}
        }
    }
    0.0
}

// Inside: a row's level by its value of rank k, `less` being what is taken off it (3/√m): not below 1.
pub fn level(bins: &Bins<'_>, k: u32, less: f32) -> f32
    ensures { result ≡ level_from (of_rank (held_at bins.now.marks.now bins.now.values.now bins.now.base) bins.now.read k) less }
{
    ieee::larger(of_rank(bins, k) / 0.6931472 - less, 1.0)
}
