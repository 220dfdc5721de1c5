// The two forms of a burst, bit form and symbol form: its metrics and its soft bits, made symbol by symbol and put back in order
// (phy_mfsk/rx/data.rs, the second half of `service_burst`). The public entry over them is crate `soft`. Definitions in specs/.
#![tactic(auto)]

ghost use Rattle.std.specs.Prelude.{◌≡◌, true, false, ℕ, ◌+◌, ◌*◌, ◌-◌, ◌≤◌, ◌<◌, length, get_or, replicate};
ghost use Rattle.std.specs.Float.{nan};
ghost use Rattle.util.specs.Table.{tabled, rows};
ghost use Rattle.ieee.specs.Whole.{plus_zero};
ghost use Rattle.symbol.specs.Symbol.{soft_bit};
ghost use Rattle.interleave.specs.Interleave.{symbols_of};
ghost use Rattle.forms.specs.Burst.{value_of, metrics_out};
ghost use Rattle.forms.specs.Inside.{heard, Lent, Made};

// What was received of a burst: its mode and kind by their numbers, its layout and window, its terms, and a count of blanked samples for
// each data symbol.
#[derive(Clone, Copy, Debug, PartialEq)]
pub struct Burst<'a> {
    pub mode: u8,
    pub kind: u8,
    pub layout: u8,
    pub window: u32,
    pub terms: &'a [f32],
    pub blanked: &'a [u32],
}

// The 32 values of data symbol i.
fn values(burst: &Burst<'_>, i: usize) -> [f32; 32]
    requires { (i < length burst.now.blanked.now) × (260 * i + 260 ≤ length burst.now.terms.now) × (i < 2048) }
    ensures { (length result ≡ 32) × ((v : ℕ) → v < 32 → get_or result v nan ≡ value_of (heard burst.now) i v) }
{
    if symbol::erased(burst.layout, burst.window, burst.blanked[i]) {
        return [0.0f32; 32];
    }
    let h = frame::hop(burst.mode, frame::header_symbols(burst.kind) + (i as u64));
    model::metrics(frame::bins(burst.mode), h, burst.terms, i)
}

// The metrics out of every symbol, in slot order.
fn all_metrics(burst: &Burst<'_>, out: &mut [f32])
    requires { (length burst.now.blanked.now ≤ 2048) × (length burst.now.terms.now ≡ 260 * length burst.now.blanked.now)
        × (length out.old ≡ 32 * length burst.now.blanked.now) }
    ensures { out.new ≡ metrics_out false (length burst.now.blanked.now) (value_of (heard burst.now)) }
{
    for i in 0..burst.blanked.len() {
        let own = values(burst, i);
        symbol::put_metrics(&own, out, i);
    }
}

// The soft bits of every symbol's Gray bits, in slot order. (No loop in common with `all_metrics`: this one leaves the rest of a longer list as
// it was, so it promises places, where that one promises the whole list.)
fn all_bits(burst: &Burst<'_>, slots: &mut [f32])
    requires { (length burst.now.blanked.now ≤ 2048) × (length burst.now.terms.now ≡ 260 * length burst.now.blanked.now)
        × (5 * length burst.now.blanked.now ≤ length slots.old) }
    ensures { (length slots.new ≡ length slots.old) × ((q : ℕ) → q < 5 * length burst.now.blanked.now → get_or slots.new q nan
        ≡ rows 5 (λ i k. soft_bit true k (value_of (heard burst.now) i)) q) }
{
    for i in 0..burst.blanked.len() {
        let own = values(burst, i);
        symbol::put_bits(&own, slots, i);
    }
}

// The soft bits of code symbols' plain bits, highest first, as many as asked.
fn plain_bits(metrics: &[f32], soft: &mut [f32])
    requires { 32 * symbols_of (length soft.old) ≤ length metrics.now }
    ensures { soft.new ≡ tabled (length soft.old)
        (rows 5 (λ i k. soft_bit false (4 - k) (λ v. get_or metrics.now (32 * i + v) nan))) }
{
    let mut sums = [0.0f32; 10];
    for p in 0..soft.len() {
        if p % 5 == 0 {
            sums = symbol::log_sums(metrics, 32 * (p / 5), false);
        }
        soft[p] = symbol::soft_bit(&sums, 4 - p % 5);
    }
}

// The work area ends as zeros.
fn clear(work: &mut [f32])
    ensures { work.new ≡ replicate (length work.old) plus_zero }
{
    work.fill(0.0);
}

// Bit form: metrics in slot order, soft bits through `deinterleave`. The work area is cleared.
fn bit_form(burst: &Burst<'_>, work: &mut [f32], metrics: &mut [f32], soft: &mut [f32])
    requires { Lent (length burst.now.terms.now) (length burst.now.blanked.now) (length work.old) (length metrics.old) (length soft.old) }
    ensures { (work.new ≡ replicate (length work.old) plus_zero)
        × Made false (value_of (heard burst.now)) (length burst.now.blanked.now) (length soft.old) metrics.new soft.new }
{
    all_metrics(burst, metrics);
    all_bits(burst, work);
    interleave::deinterleave(5 * (burst.blanked.len() as u64), work, soft);
    clear(work);
}

// Symbol form: metrics through `deinterleave_sym`, soft bits from these. The work area is cleared.
fn symbol_form(burst: &Burst<'_>, work: &mut [f32], metrics: &mut [f32], soft: &mut [f32])
    requires { Lent (length burst.now.terms.now) (length burst.now.blanked.now) (length work.old) (length metrics.old) (length soft.old) }
    ensures { (work.new ≡ replicate (length work.old) plus_zero)
        × Made true (value_of (heard burst.now)) (length burst.now.blanked.now) (length soft.old) metrics.new soft.new }
{
    all_metrics(burst, work);
    interleave::deinterleave_sym(burst.blanked.len() as u64, work, metrics);
    plain_bits(metrics, soft);
    clear(work);
}

// Inside: either form, as the entry's own argument asks.
pub fn make(
    burst: &Burst<'_>,
    symbols: bool,
    work: &mut [f32],
    metrics: &mut [f32],
    soft: &mut [f32],
)
    requires { Lent (length burst.now.terms.now) (length burst.now.blanked.now) (length work.old) (length metrics.old) (length soft.old) }
    ensures { (work.new ≡ replicate (length work.old) plus_zero)
        × Made symbols (value_of (heard burst.now)) (length burst.now.blanked.now) (length soft.old) metrics.new soft.new }
{
    if symbols {
        symbol_form(burst, work, metrics, soft);
    } else {
        bit_form(burst, work, metrics, soft);
    }
}
