// The drift of a burst from its blocks: a least-squares line, shrunk and held (`fit_drift` of phy_mfsk/rx/data.rs), a public entry.
// The blocks that it reads are crate `blocks`. Definitions in specs/.
#![tactic(auto)]

ghost use Rattle.std.specs.Prelude.{◌≡◌, ◌≤◌, ◌<◌, leb, ◌&&◌, length};
ghost use Rattle.std.specs.Fn.{FnReturnsAt};
ghost use Rattle.ieee.specs.Within.{larger, clamp};
ghost use Rattle.blocks.specs.Inside.{places_in, timings_in};
ghost use Rattle.fit.specs.Fit.{shrunk_slope, fit_about, fit_of, fit_causes, fit_answer};
ghost use Rattle.fit.specs.Lists.{fit_over};
ghost use Rattle.fit.specs.Inside.{SumOver, fitted_in};
ghost use Rattle.util.specs.Refusal.{meaning, outcome};
ghost use Rattle.frame.specs.Format.{format_of};

use blocks::{Block, Blocks, Fields, Gathered, Point};
use frame::format::Mode;
use util::refusal::Refusal;

// Inside: the larger of two. std's `max` would take the other one of a NaN, and either of two zeros.
pub fn larger(x: f64, y: f64) -> f64
    ensures { result ≡ larger x y }
{
    if x < y { y } else { x }
}

// Inside: a value held between two ends. std's `clamp` would ask that the ends are in order.
pub fn clamp(low: f64, high: f64, x: f64) -> f64
    ensures { result ≡ clamp low high x }
{
    if x < low {
        return low;
    }
    if high < x { high } else { x }
}

// The sum of a term over points, left to right from 0.0.
fn total<F: Fn(&Point) -> f64>(points: &[Point], term: F) -> f64
    requires { F.IsAlwaysCallable term }
    ensures { SumOver (FnReturnsAt F.Fn term) points.now result }
{
    points.iter().fold(0.0, |acc, p| acc + term(p))
}

// The slope, shrunk by the prior and by its uncertainty, and held.
fn shrunk_slope(symbol: u32, n: usize, sxx: f64, s: f64, left: f64) -> f64
    requires { n ≤ 64 }
    ensures { result ≡ shrunk_slope symbol n sxx s left }
{
    let w = symbol as f64;
    let var = 4.0 * (left / larger((n as f64) - 2.0, 1.0)) / sxx;
    let unit = 0.0001 * w;
    let prior = unit * unit;
    let t = s * prior / (prior + var);
    let most = 0.0003 * w;
    clamp(-most, most, t * t * t / larger(t * t + 4.0 * var, 1e-30))
}

// The fit about two means.
fn fit_about(symbol: u32, points: &[Point], xm: f64, ym: f64) -> f64
    requires { length points.now ≤ 64 }
    ensures { result ≡ fit_about symbol (length points.now) (places_in points.now) xm (timings_in points.now) ym }
{
    let sxx = total(points, |p| (p.place - xm) * (p.place - xm));
    if sxx <= 0.0 {
        return 0.0;
    }
    let s = total(points, |p| (p.place - xm) * (p.timing - ym)) / sxx;
    let squares = total(points, |p| {
        let left = p.timing - ym - s * (p.place - xm);
        left * left
    });
    shrunk_slope(symbol, points.len(), sxx, s, squares)
}

// The fit of points.
fn fit_points(symbol: u32, points: &[Point]) -> f64
    requires { length points.now ≤ 64 }
    ensures { result ≡ fit_of symbol (length points.now) (places_in points.now) (timings_in points.now) }
{
    let n = points.len();
    if n < 6 {
        return 0.0;
    }
    let count = n as f64;
    let xm = total(points, |p| p.place) / count;
    let ym = total(points, |p| p.timing) / count;
    fit_about(symbol, points, xm, ym)
}

// How many of a list of blocks the fit reads.
fn counted(listed: usize) -> usize
    ensures { (result ≤ listed) × (result ≤ 64) × (listed ≤ 64 → result ≡ listed) }
{
    if listed > 64 { 0 } else { listed }
}

// The entry by what is gathered of a list of n blocks.
fn fit_gathered(mode: u8, n: usize, g: &Gathered) -> Result<f64, Refusal>
    requires { length g.now.points ≡ 64 }
    ensures { meaning result ≡ outcome (fit_causes mode (leb n 64 && g.now.good))
        (fit_of (format_of mode).symbol n (places_in g.now.points) (timings_in g.now.points)) }
{
    let mode = Mode::try_from(mode)?;
    if n > 64 || !g.good {
        return Err(Refusal::Blocks);
    }
    Ok(fit_points(mode.symbol(), &g.points[..n]))
}

// The entry over blocks, wherever they come from.
fn fit_listed<B: Blocks>(mode: u8, blocks: &B) -> Result<f64, Refusal>
    ensures { meaning result ≡ fit_answer mode (B.listed blocks.now) }
{
    let n = blocks.count();
    let g = blocks::gather(blocks, counted(n));
    fit_gathered(mode, n, &g)
}

// Public entry: the drift of at most 64 blocks (document 01, 'Drift').
pub fn fit_drift(mode: u8, blocks: &[Block]) -> Result<f64, Refusal>
    ensures { meaning result ≡ fit_answer mode blocks.now }
{
    fit_listed(mode, &blocks)
}

// Inside: the entry over blocks whose fields lie in two lists.
pub fn fit_over(mode: u8, places: &[u32], timings: &[f64]) -> Result<f64, Refusal>
    ensures { meaning result ≡ fit_over mode places.now timings.now }
{
    if timings.len() != places.len() {
        return Err(blocks::two_lengths(mode));
    }
    fit_listed(mode, &Fields { places, timings })
}

// Inside: the drift of k gathered blocks and b, by the mode's number: a tracker's definitions hold for any.
pub fn fit_with(mode: u8, g: Gathered, k: usize, b: Block) -> f64
    requires { k < 64 }
    ensures { result ≡ fitted_in mode g k b }
{
    let mut points = g.points;
    points[k] = b.point();
    fit_points(frame::symbol(mode), &points[..k + 1])
}
