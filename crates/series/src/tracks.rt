// A series of the tracker by a record: its samples are worked out from the seed. The answer is a digest: each call's number,
// then the tracker and both lists whole.
ghost use Rattle.std.specs.Prelude.{◌≡◌, length};

use crate::draws::{below, drawn};
use blocks::Block;
use records::{Bits, mixed};
use tracker::{Sample, Tracker};
use util::refusal::number_told;

// What a symbol gave: one in eight is Missed, and one in 64 is out of range.
fn heard(x: u64) -> bool {
    x % 8 != 0
}

fn early(x: u64) -> f64 {
    if (x >> 52) % 64 == 0 {
        2000000000.0
    } else {
        below(x >> 8, 1000)
    }
}

fn late(seed: u64, x: u64) -> f64 {
    below(x >> 24, 1000) + below(seed, 256)
}

fn noise(x: u64) -> f64 {
    below(x >> 40, 100)
}

fn sample(seed: u64, x: u64) -> Sample {
    if heard(x) {
        Sample::Heard(early(x), late(seed, x), noise(x))
    } else {
        Sample::Missed
    }
}

fn digest_tracker(h: u64, t: Tracker) -> u64 {
    let z = f64::from(t.shift);
    records::digest(
        h,
        &[
            t.n as u64,
            z.bits(),
            t.tnum.bits(),
            t.tden.bits(),
            t.drift.bits(),
            t.blocks as u64,
        ],
    )
}

fn digest_shifts(begun: u64, shifts: &[i32]) -> u64 {
    shifts
        .iter()
        .fold(begun, |h, z| mixed(h, f64::from(*z).bits()))
}

fn digest_block(h: u64, b: Block) -> u64 {
    mixed(mixed(h, u64::from(b.place2)), b.timing.bits())
}

fn digest_blocks(begun: u64, blocks: [Block; 64]) -> u64 {
    blocks.iter().fold(begun, |h, b| digest_block(h, *b))
}

fn digest_lists(begun: u64, places: &[u32], timings: &[f64]) -> u64 {
    places
        .iter()
        .zip(timings)
        .fold(begun, |h, (place2, timing)| {
            let block = Block {
                place2: *place2,
                timing: *timing,
            };
            digest_block(h, block)
        })
}

// A series through the entry itself, from a fresh tracker.
fn track_entry(mode: u8, calls: usize, seed: u64, shifts: &mut [i32]) -> u64 {
    let mut h = seed;
    let none = Block {
        place2: 0,
        timing: 0.0,
    };
    let mut tracker = Tracker::fresh();
    let mut blocks = [none; 64];
    for c in 0..calls {
        let x = drawn(seed, c);
        let held = by_value::tracked(mode, tracker, shifts, blocks, sample(seed, x));
        let t = held.tracker;
        let bs = held.blocks;
        let answer = held.answer;
        tracker = t;
        blocks = bs;
        h = mixed(h, u64::from(number_told(answer)));
    }
    digest_blocks(digest_shifts(digest_tracker(h, tracker), shifts), blocks)
}

// The same through the C function, the tracker's fields in places of their own.
fn track_face(
    mode: u8,
    calls: usize,
    seed: u64,
    shifts: &mut [i32],
    places: &mut [u32],
    timings: &mut [f64],
) -> u64
    requires { length timings.old ≡ length places.old }
{
    let mut h = seed;
    let mut n = 0usize;
    let mut shift = 0i32;
    let mut tnum = 0.0f64;
    let mut tden = 0.0f64;
    let mut drift = 0.0f64;
    let mut blocks = 0usize;
    for c in 0..calls {
        let x = drawn(seed, c);
        let k = ion::timing::ion_track_timing(
            mode,
            &mut n,
            &mut shift,
            &mut tnum,
            &mut tden,
            &mut drift,
            &mut blocks,
            shifts,
            places,
            timings,
            heard(x) as u8,
            early(x),
            late(seed, x),
            noise(x),
        );
        h = mixed(h, k as u64);
    }
    let t = Tracker {
        n,
        shift,
        tnum,
        tden,
        drift,
        blocks,
    };
    digest_lists(digest_shifts(digest_tracker(h, t), shifts), places, timings)
}

pub fn track(face: bool, mode: u8, calls: usize, seed: u64) -> u64 {
    let mut shifts = [0i32; 2048];
    let mut places = [0u32; 64];
    let mut timings = [0.0f64; 64];
    if face {
        return track_face(mode, calls, seed, &mut shifts, &mut places, &mut timings);
    }
    track_entry(mode, calls, seed, &mut shifts)
}
