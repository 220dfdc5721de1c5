// Soft values: the metrics and soft bits of a burst, in bit form and in symbol form (phy_mfsk/rx/data.rs, the second half
// of `service_burst`), which is a public entry. Definitions in specs/.
#![tactic(auto)]

ghost use Rattle.std.specs.Prelude.{◌≡◌, true, false, ◌*◌, ◌-◌};
ghost use Rattle.util.specs.Some.{some_of};
ghost use Rattle.util.specs.Refusal.{meaning};
ghost use Rattle.interleave.specs.Interleave.{symbols_of};
ghost use Rattle.soft.specs.Entry.{asked, count_out, sizes, soft_answer, metrics_after, soft_after, work_after};

use forms::Burst;
use util::refusal::Refusal;

// Whether a blanked count is above 255·window.
#[tactic(auto, unfolding(crate::specs::Entry::count_out))]
fn count_out(window: u32, count: u32) -> bool
    ensures { result ≡ count_out window count }
{
    (count as u64) > 255 * (window as u64)
}

// Whether some blanked count is.
fn some_count_out(window: u32, blanked: &[u32]) -> bool
    ensures { result ≡ some_of (count_out window) blanked.now }
{
    blanked.iter().any(|count| count_out(window, *count))
}

// Whether every list has its length.
#[tactic(auto, unfolding(crate::specs::Entry::sizes))]
fn sized(bits: u32, terms: usize, blanked: usize, work: usize, metrics: usize, soft: usize) -> bool
    ensures { result ≡ sizes (symbols_of bits) bits terms blanked work metrics soft }
{
    let n = interleave::symbols_of(bits) as usize;
    terms == 260 * n && blanked == n && work == 32 * n && metrics == 32 * n && soft == bits as usize
}

// Public entry: metrics and soft bits of a burst (document 01, 'Metrics and soft bits'; document 02, #102).
pub fn soft_values(
    mode: u8,
    kind: u8,
    layout: u8,
    symbols: bool,
    window: u32,
    bits: u32,
    terms: &[f32],
    blanked: &[u32],
    work: &mut [f32],
    metrics: &mut [f32],
    soft: &mut [f32],
) -> Result<(), Refusal>
    ensures answer { meaning result ≡ soft_answer (asked mode kind layout symbols window bits terms.now
        blanked.now work.old metrics.old soft.old) }
    ensures area { work.new ≡ work_after (asked mode kind layout symbols window bits terms.now
        blanked.now work.old metrics.old soft.old) }
    ensures values { metrics.new ≡ metrics_after (asked mode kind layout symbols window bits terms.now
        blanked.now work.old metrics.old soft.old) }
    ensures bits { soft.new ≡ soft_after (asked mode kind layout symbols window bits terms.now
        blanked.now work.old metrics.old soft.old) }
{
    frame::format::named(mode, kind)?;
    if !frame::is_layout(layout) {
        return Err(Refusal::Layout);
    }
    if bits > 10240 {
        return Err(Refusal::TooMany);
    }
    if !frame::has_window(mode, window) {
        return Err(Refusal::Window);
    }
    if !sized(
        bits,
        terms.len(),
        blanked.len(),
        work.len(),
        metrics.len(),
        soft.len(),
    ) {
        return Err(Refusal::Length);
    }
    if model::some_out(terms) {
        return Err(Refusal::Terms);
    }
    if some_count_out(window, blanked) {
        return Err(Refusal::Blanked);
    }
    let burst = Burst {
        mode,
        kind,
        layout,
        window,
        terms,
        blanked,
    };
    forms::make(&burst, symbols, work, metrics, soft);
    Ok(())
}
