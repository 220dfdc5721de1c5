// A fit by a record: the drift of blocks worked out from the seed, as its bits.
ghost use Rattle.std.specs.Prelude.{◌≡◌, ◌≤◌, length};

use crate::draws::{below, drawn};
use blocks::Block;
use records::Bits;

// Places rise by 1 to 127 half symbols.
fn place2(seed: u64, i: usize) -> u32 {
    if i > 63 {
        return 4096;
    }
    (64 * i) as u32 + (drawn(seed, i) % 64) as u32
}

// A line with noise, and block 1 out of range where that is asked.
fn timing(seed: u64, bad: bool, i: usize) -> f64 {
    if bad && i == 1 {
        return 5000.0;
    }
    if i > 63 {
        return 0.0;
    }
    let slope = (below(seed, 64) - 32.0) / 64.0;
    slope * ((i as u32) as f64) + (below(drawn(seed, i) >> 8, 2001) - 1000.0) / 128.0
}

fn block(seed: u64, bad: bool, i: usize) -> Block {
    Block {
        place2: place2(seed, i),
        timing: timing(seed, bad, i),
    }
}

fn blocks_of(seed: u64, bad: bool) -> [Block; 64] {
    let mut out = [Block {
        place2: 0,
        timing: 0.0,
    }; 64];
    records::fill(&mut out, |i| block(seed, bad, i));
    out
}

fn fit_entry(mode: u8, n: usize, seed: u64, bad: bool) -> u64
    requires { n ≤ 64 }
{
    let blocks = blocks_of(seed, bad);
    match by_value::fitted(mode, n, blocks) {
        Ok(d) => d.bits(),
        Err(r) => records::refusal(u32::from(r.number())),
    }
}

fn lists_of(seed: u64, bad: bool, places: &mut [u32], timings: &mut [f64])
    requires { length timings.old ≡ length places.old }
{
    records::fill(places, |i| place2(seed, i));
    records::fill(timings, |i| timing(seed, bad, i));
}

fn fit_face(mode: u8, seed: u64, bad: bool, places: &mut [u32], timings: &mut [f64]) -> u64
    requires { length timings.old ≡ length places.old }
{
    lists_of(seed, bad, places, timings);
    let mut drift = 0.0;
    let k = ion::timing::ion_fit_drift(mode, places, timings, &mut drift);
    if k == 0 {
        drift.bits()
    } else {
        records::refusal(k)
    }
}

pub fn fit(face: bool, mode: u8, n: usize, seed: u64, bad: bool) -> u64 {
    if n > 64 {
        return records::NONE;
    }
    let mut places = [0u32; 64];
    let mut timings = [0.0f64; 64];
    if face {
        return fit_face(mode, seed, bad, &mut places[..n], &mut timings[..n]);
    }
    fit_entry(mode, n, seed, bad)
}
