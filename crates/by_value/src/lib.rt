// The drift's entries for programs that hold structs by value: each lends its own copies to the entry, as document 01 has it
// (a slice of block records, a tracker lent for each symbol), and hands them back. Modes are numbers, as the entries take them.
#![tactic(auto)]

ghost use Rattle.std.specs.Prelude.{◌≡◌, ◌≤◌, take};
ghost use Rattle.util.specs.Refusal.{meaning};
ghost use Rattle.fit.specs.Fit.{fit_answer};
ghost use Rattle.tracker.specs.Rule as Rule;
ghost use Rattle.drift.specs.Entry.{tracker_after, shifts_after, blocks_after};

use blocks::Block;
use tracker::{Sample, Tracker};
use util::refusal::Refusal;

// Inside: the fit over the first n of 64 blocks.
pub fn fitted(mode: u8, n: usize, blocks: [Block; 64]) -> Result<f64, Refusal>
    requires { n ≤ 64 }
    ensures { meaning result ≡ fit_answer mode (take n blocks) }
{
    fit::fit_drift(mode, &blocks[..n])
}

// A tracker and its blocks after a call, and the answer.
#[derive(Clone, Copy, Debug, PartialEq)]
pub struct Held {
    pub tracker: Tracker,
    pub blocks: [Block; 64],
    pub answer: Result<(), Refusal>,
}

// Inside: one call of the tracker.
pub fn tracked(mode: u8, t: Tracker, shifts: &mut [i32], list: [Block; 64], s: Sample) -> Held
    ensures { (meaning result.answer ≡ Rule.track_answer mode t shifts.old list s)
        × (result.tracker ≡ tracker_after mode t shifts.old list s)
        × (shifts.new ≡ shifts_after mode t shifts.old list s)
        × (result.blocks ≡ blocks_after mode t shifts.old list s) }
{
    let mut tracker = t;
    let mut blocks = list;
    let answer = drift::track_timing(mode, &mut tracker, shifts, &mut blocks, s);
    Held {
        tracker,
        blocks,
        answer,
    }
}
