// Local noise factors (phy_mfsk/rx/model.rs): for each row and bin how far the noise has grown there over the burst's. `local_noise` is
// the public entry. Definitions in specs/.
#![tactic(auto)]

ghost use Rattle.std.specs.Prelude.{◌≡◌, ℕ, ◌+◌, ◌*◌, ◌≤◌, ◌<◌, ltb, length, get_or};
ghost use Rattle.std.specs.Float.{nan, binary32};
ghost use Rattle.std.specs.Float.Ieee.{div};
ghost use Rattle.util.specs.Choose.{choose};
ghost use Rattle.util.specs.Some.{some_of};
ghost use Rattle.util.specs.Refusal.{meaning};
ghost use Rattle.root.specs.Root.{root_of};
ghost use Rattle.level.specs.Level.{one, three};
ghost use Rattle.nearby.specs.Inside.{Put, Nearby};
ghost use Rattle.noise.specs.Local.{Burst, burst, factor_from, factor_at, factors_of};
ghost use Rattle.noise.specs.Entry.{asked, outside, out_of_range, sizes, noise_answer, factors_after, AtLeastOne};
ghost use Rattle.noise.specs.Inside.{Lent, Errors, Ready, numbered};

use level::Bins;
use nearby::LastRows;
use std::array;
use util::refusal::Refusal;

// Two standard errors of a mean of c values, for c from 1 to 25.
fn two_errors() -> [f32; 26]
    ensures { Errors result }
{
    let roots = root_table::roots();
    array::from_fn(|c| if c == 0 { 0.0 } else { 2.0 / roots[c - 1] })
}

// Two standard errors of a median of m values, each 1.5/√m of the mean.
fn median_errors(m: usize) -> f32
    requires { (1 ≤ m) × (m ≤ 52) }
    ensures { result ≡ div binary32 three (root_of m) }
{
    let roots = root_table::roots();
    3.0 / roots[m - 1]
}

// The factor of a bin from its sum, its count and its row's level, `empty` being the mean of an empty bin.
fn factor(sum: f32, count: u32, empty: f32, less: f32, level: f32) -> f32
    requires { count ≤ 25 }
    ensures { result ≡ factor_from sum count empty less level }
{
    let mean = sum / (count as f32) / empty - less;
    let bin = if count >= 6 { mean } else { 1.0 };
    ieee::larger(ieee::larger(bin, level), 1.0)
}

// The factors of a row, 1 beyond the bins that are read.
fn row(
    sums: &[f32],
    counts: &[u32],
    read: usize,
    empty: f32,
    errors: &[f32],
    level: f32,
) -> [f32; 52]
    requires { (length sums.now ≡ 52) × (length counts.now ≡ 52) × (read ≤ 52) × (length errors.now ≡ 26)
        × ((b : ℕ) → b < 52 → get_or counts.now b 0 ≤ 25) }
    ensures { (length result ≡ 52) × ((b : ℕ) → b < 52 → get_or result b nan ≡ choose (ltb b read)
        (factor_from (get_or sums.now b nan) (get_or counts.now b 0) empty
        (get_or errors.now (get_or counts.now b 0) nan) level) one) }
{
    let mut out = [1.0f32; 52];
    // A loop: over from_fn with the 1 as its other branch the call's proof does not come to `choose` of the two.
    for b in 0..read {
        out[b] = factor(sums[b], counts[b], empty, errors[counts[b] as usize], level);
    }
    out
}

// Row i's factors into their places, of whatever burst the 25 rows around it are.
fn put_factors(
    last: &LastRows,
    i: usize,
    read: usize,
    less: f32,
    empty: f32,
    errors: &[f32],
    factors: &mut [f32],
)
    requires { (i ≤ 2048) × (13 ≤ read) × (read ≤ 52) × (length errors.now ≡ 26)
        × (52 * i + 52 ≤ length factors.old) }
    ensures { (a : Burst) → Ready a i last.now.marks last.now.values read less → Errors errors.now
        → Put nan 52 (52 * i) (factor_at a empty i) factors.old factors.new }
{
    let sums = last.sums(i + 13);
    let counts = last.counts(i + 13);
    let bins = Bins {
        marks: &last.marks,
        values: &last.values,
        base: 52 * (i % 25),
        read,
    };
    let level = level::level(&bins, ((read - 5) / 2) as u32, less);
    let factors_of = row(&sums, &counts, read, empty, errors, level);
    nearby::put_row(&factors_of, factors, 52 * i);
}

// Row t heard, or passed over where there is none. (Here and below mode and kind are their numbers, as in the definition `burst`.)
fn listen(
    mode: u8,
    kind: u8,
    rows: usize,
    energies: &[f32],
    noise: &[f32],
    t: usize,
    last: &mut LastRows,
)
    requires { Lent rows (length energies.now) (length noise.now) × (t ≤ 4096)
        × Nearby (numbered (burst mode kind rows energies.now noise.now)) t last.old.marks last.old.values }
    ensures { Nearby (numbered (burst mode kind rows energies.now noise.now)) (t + 1) last.new.marks last.new.values }
{
    if t < rows {
        let h = frame::hop(mode, frame::header_symbols(kind) + (t as u64));
        last.hear(frame::bins(mode), h, energies, noise, t);
    } else {
        last.pass_over(t);
    }
}

// The 12 rows after the first are heard before its factors are made, those before it are missing.
fn listen_ahead(
    mode: u8,
    kind: u8,
    rows: usize,
    energies: &[f32],
    noise: &[f32],
    last: &mut LastRows,
)
    requires { Lent rows (length energies.now) (length noise.now)
        × Nearby (numbered (burst mode kind rows energies.now noise.now)) 0 last.old.marks last.old.values }
    ensures { Nearby (numbered (burst mode kind rows energies.now noise.now)) 12 last.new.marks last.new.values }
{
    for t in 0..12usize {
        listen(mode, kind, rows, energies, noise, t, last);
    }
}

// The factors of a burst, row by row: each when the 12 rows after it are heard.
fn make(
    mode: u8,
    kind: u8,
    rows: usize,
    energies: &[f32],
    noise: &[f32],
    empty: f32,
    factors: &mut [f32],
)
    requires { Lent rows (length energies.now) (length noise.now) × (length factors.old ≡ 52 * rows) }
    ensures { factors.new ≡ factors_of (burst mode kind rows energies.now noise.now) empty }
{
    let read = (frame::bins(mode) + 4) as usize;
    let less = median_errors(read - 5);
    let errors = two_errors();
    let mut last = LastRows::none();
    listen_ahead(mode, kind, rows, energies, noise, &mut last);
    for i in 0..rows {
        listen(mode, kind, rows, energies, noise, i + 12, &mut last);
        put_factors(&last, i, read, less, empty, &errors, factors);
    }
}

// Whether x is not from lo to hi.
fn is_outside(lo: f32, hi: f32, x: f32) -> bool
    ensures { result ≡ outside lo hi x }
{
    !(lo <= x && x <= hi)
}

// Whether some of a list is not from lo to hi.
fn some_outside(lo: f32, hi: f32, list: &[f32]) -> bool
    ensures { result ≡ some_of (outside lo hi) list.now }
{
    list.iter().any(|x| is_outside(lo, hi, *x))
}

// Whether anything that is asked is out of its range (refusal 15): of the noise and of a row all 52 bins, those too that are not read.
fn out_of_range(rows: u32, eps: f32, r: f32, noise: &[f32], energies: &[f32]) -> bool
    ensures { result ≡ out_of_range rows eps r noise.now energies.now }
{
    rows > 2048
        || is_outside(0.0, 0.5, eps)
        || is_outside(1.0, 1000.0, r)
        || some_outside(0.00000095367431640625, 1_000_000_000.0, noise)
        || some_outside(0.0, 1_000_000_000.0, energies)
}

// Whether every list has its length.
#[tactic(auto, unfolding(crate::specs::Entry::sizes))]
fn sized(rows: u32, energies: usize, noise: usize, factors: usize) -> bool
    ensures { result ≡ sizes rows energies noise factors }
{
    let n = 52 * (rows as usize);
    energies == n && noise == 52 && factors == n
}

// Public entry: the local noise factors of a burst (document 02, #108).
pub fn local_noise(
    mode: u8,
    kind: u8,
    rows: u32,
    energies: &[f32],
    noise: &[f32],
    eps: f32,
    r: f32,
    factors: &mut [f32],
) -> Result<(), Refusal>
    ensures answer { meaning result ≡ noise_answer (asked mode kind rows energies.now noise.now eps r)
        (length factors.old) }
    ensures lent { factors.new ≡ factors_after (asked mode kind rows energies.now noise.now eps r)
        factors.old }
    ensures least { AtLeastOne (meaning result) factors.new }
{
    frame::format::named(mode, kind)?;
    if !sized(rows, energies.len(), noise.len(), factors.len()) {
        return Err(Refusal::Length);
    }
    if out_of_range(rows, eps, r, noise, energies) {
        return Err(Refusal::Noise);
    }
    make(
        mode,
        kind,
        rows as usize,
        energies,
        noise,
        1.0 + eps * (r - 1.0),
        factors,
    );
    Ok(())
}
