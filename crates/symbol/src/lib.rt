// What is made of the 32 values of one symbol: whether it is erased, its metrics out, its log-sums and soft bits
// (phy_mfsk/rx/data.rs, in the second half of `service_burst`). Definitions in specs/.
#![tactic(auto)]

ghost use Rattle.std.specs.Prelude.{◌≡◌, true, ◌+◌, ◌*◌, ◌≤◌, ◌<◌, length, get_or};
ghost use Rattle.std.specs.Float.{nan};
ghost use Rattle.util.specs.Table.{Stored};
ghost use Rattle.ieee.specs.Within.{clamp};
ghost use Rattle.lse.specs.Lse.{float32, negative};
ghost use Rattle.symbol.specs.Symbol.{erased_of, greatest_of, metric_out, bit_of, soft_bit};
ghost use Rattle.symbol.specs.Sums.{Summed, soft_from};

use std::array;

// Inside: whether a symbol is mostly blanked, more than half of the (6k+1)·window samples behind it in layout k.
pub fn erased(layout: u8, window: u32, count: u32) -> bool
    ensures { result ≡ erased_of layout window count }
{
    2 * (count as u64) > (6 * (layout as u64) + 1) * (window as u64)
}

// The greatest of 32.
fn greatest(values: &[f32; 32]) -> f32
    ensures { result ≡ greatest_of (λ v. get_or values.now v nan) }
{
    values
        .iter()
        .fold(values[0], |most, x| ieee::larger(most, *x))
}

// Inside: stores a symbol's 32 metrics out as row i.
pub fn put_metrics(values: &[f32; 32], out: &mut [f32], i: usize)
    requires { 32 * i + 32 ≤ length out.old }
    ensures { Stored nan 32 (32 * i) (metric_out (λ v. get_or values.now v nan)) out.old out.new }
{
    let most = greatest(values);
    let base = 32 * i;
    let row: [f32; 32] = array::from_fn(|v| ieee::larger(values[v] - most, -40.0));
    out[base..base + 32].copy_from_slice(&row);
}

// Bit k of a value, or of its Gray code: a flag, since the definitions `bit_of` and `Summed` are by it.
fn bit(gray: bool, k: u64, v: u64) -> u64
    requires { k < 64 }
    ensures { result ≡ bit_of gray k v }
{
    if gray {
        return (util::gray(v) >> k) % 2;
    }
    (v >> k) % 2
}

// One value more, v, in the ten log-sums: for each bit in the sum of those that have the bit as v has it.
fn one_more(values: &[f32], base: usize, gray: bool, v: usize, sums: &mut [f32])
    requires { (base + 32 ≤ length values.now) × (v < 32) × Summed gray (λ v. get_or values.now (base + v) nan) v sums.old }
    ensures { Summed gray (λ v. get_or values.now (base + v) nan) (v + 1) sums.new }
{
    let x = values[base + v];
    for k in 0..5usize {
        let at = 2 * k + (bit(gray, k as u64, v as u64) as usize);
        sums[at] = lse::lse(sums[at], x);
    }
}

// Inside: the ten log-sums of the 32 values from base on, from v = 0 up. They grow side by side, ten independent chains, so
// that the processor does not wait for one sum's latency.
pub fn log_sums(values: &[f32], base: usize, gray: bool) -> [f32; 10]
    requires { base + 32 ≤ length values.now }
    ensures { Summed gray (λ v. get_or values.now (base + v) nan) 32 result }
{
    let none = -1.0 / 0.0;
    let mut sums = [none; 10];
    for v in 0..32usize {
        one_more(values, base, gray, v, &mut sums);
    }
    sums
}

// A soft bit held to -12..12.
fn hold(x: f32) -> f32
    ensures { result ≡ clamp (negative 12) (float32 12) x }
{
    if x < -12.0 {
        return -12.0;
    }
    if 12.0 < x {
        return 12.0;
    }
    x
}

// Inside: the soft bit of bit k, by the log-sums.
pub fn soft_bit(sums: &[f32; 10], k: usize) -> f32
    requires { k < 5 }
    ensures { result ≡ soft_from sums.now k }
{
    hold(sums[2 * k] - sums[2 * k + 1])
}

// Inside: stores a symbol's five soft bits, of the Gray bits of its values, as row i.
pub fn put_bits(values: &[f32], slots: &mut [f32], i: usize)
    requires { (32 ≤ length values.now) × (5 * i + 5 ≤ length slots.old) }
    ensures { Stored nan 5 (5 * i) (λ k. soft_bit true k (λ v. get_or values.now v nan)) slots.old slots.new }
{
    let base = 5 * i;
    let sums = log_sums(values, 0, true);
    let row: [f32; 5] = array::from_fn(|k| soft_bit(&sums, k));
    slots[base..base + 5].copy_from_slice(&row);
}
