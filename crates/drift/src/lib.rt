// One call of a burst's tracker for each symbol (phy_mfsk/rx/data.rs, `track_timing`), a public entry. What a call makes is crate
// `call`, the tracker and its rule are crate `tracker`, blocks are crate `blocks`. Definitions in specs/.
#![tactic(auto)]

ghost use Rattle.std.specs.Prelude.{◌≡◌};
ghost use Rattle.util.specs.Refusal.{meaning};
ghost use Rattle.tracker.specs.Rule.{track_answer};
ghost use Rattle.drift.specs.Entry.{tracker_after, shifts_after, blocks_after};
ghost use Rattle.drift.specs.Inside.{Called};

use blocks::{Block, Blocks};
use call::Moved;
use tracker::{Sample, Tracker};
use util::refusal::Refusal;

// Inside: one call by value over blocks, wherever they come from. Of what is lent only the shifts are stored. (The mode is its number, which
// `call::step` tests.)
pub fn call_over<B: Blocks>(
    mode: u8,
    t: Tracker,
    shifts: &mut [i32],
    blocks: &B,
    s: Sample,
) -> Result<Moved, Refusal>
    ensures { Called mode t shifts.old (B.listed blocks.now) s result shifts.new }
{
    let room = blocks.count();
    let g = blocks::gather(blocks, tracker::readable(mode, t, room));
    call::step(mode, t, shifts, &g, room, s)
}

// Public entry: one symbol of a burst (document 01, 'Drift'). The shifts are 2,048, the blocks 64.
pub fn track_timing(
    mode: u8,
    tracker: &mut Tracker,
    shifts: &mut [i32],
    blocks: &mut [Block],
    sample: Sample,
) -> Result<(), Refusal>
    ensures { (meaning result ≡ track_answer mode tracker.old shifts.old blocks.old sample)
        × (tracker.new ≡ tracker_after mode tracker.old shifts.old blocks.old sample)
        × (shifts.new ≡ shifts_after mode tracker.old shifts.old blocks.old sample)
        × (blocks.new ≡ blocks_after mode tracker.old shifts.old blocks.old sample) }
{
    let made = call_over(mode, *tracker, shifts, &&*blocks, sample)?;
    if let Some(block) = made.pushed {
        blocks[tracker.blocks] = block;
    }
    *tracker = made.tracker;
    Ok(())
}
