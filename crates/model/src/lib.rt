// From terms to metrics (phy_mfsk/rx/model.rs, `metric`), for the header read and the soft values.
#![tactic(auto)]

ghost use Rattle.std.specs.Prelude.{◌≡◌, ℕ, ◌+◌, ◌*◌, ◌≤◌, ◌<◌, length, get_or};
ghost use Rattle.std.specs.Float.{binary32, nan};
ghost use Rattle.std.specs.Float.Ieee.{add};
ghost use Rattle.ieee.specs.Whole.{plus_zero};
ghost use Rattle.frame.specs.Air.{bin_of, place_of};
ghost use Rattle.model.specs.Metric.{metric_of};
ghost use Rattle.model.specs.Range.{out_of_range, some_out};

use std::array;

// Inside: the metric of the value whose bin has place e, in a symbol: the sum from 0.0 of five terms, each a
// row and a place further on.
pub fn metric(terms: &[f32], symbol: usize, e: usize) -> f32
    requires { (2 ≤ e) × (e ≤ 49) × (symbol * 260 + 260 ≤ length terms.now) }
    ensures { result ≡ metric_of (add binary32) plus_zero (λ i. get_or terms.now i nan) symbol e }
{
    let at = 260 * symbol + (e - 2);
    0.0 + terms[at] + terms[at + 53] + terms[at + 106] + terms[at + 159] + terms[at + 212]
}

// Inside: the metrics of a symbol's 32 values, on any grid.
pub fn metrics(bins: u64, h: u64, terms: &[f32], symbol: usize) -> [f32; 32]
    requires { (0 < bins) × (bins ≤ 48) × (h < bins) × (symbol * 260 + 260 ≤ length terms.now) }
    ensures { (length result ≡ 32) × ((v : ℕ) → v < 32 → get_or result v nan
        ≡ metric_of (add binary32) plus_zero (λ i. get_or terms.now i nan) symbol (place_of (bin_of bins h v))) }
{
    array::from_fn(|v| {
        let e = frame::place(frame::tone_bin(bins, h, v as u64)) as usize;
        metric(terms, symbol, e)
    })
}

// Whether a term is not finite or beyond ±1,000,000.
fn out_of_range(t: f32) -> bool
    ensures { result ≡ out_of_range t }
{
    !(-1_000_000.0 <= t && t <= 1_000_000.0)
}

// Inside: whether some term is not finite or beyond ±1,000,000 (refusal 6).
pub fn some_out(terms: &[f32]) -> bool
    ensures { result ≡ some_out terms.now }
{
    terms.iter().any(|t| out_of_range(*t))
}
