// A burst's timing as C calls it, the fit and the tracker: a tracker's fields as six places, a block's in two lists of
// one length, a sample as four numbers, and the answer as a number. The entries themselves are crates `fit` and
// `drift`. Definitions in specs/.
#![tactic(auto)]

ghost use Rattle.std.specs.Prelude.{◌≡◌};
ghost use Rattle.util.specs.Refusal.{number, place, itself, meaning};
ghost use Rattle.fit.specs.Lists.{fit_over};
ghost use Rattle.timing_face.specs.Lists.{track_over, LentAfter};
ghost use Rattle.timing_face.specs.Face.{tracker_of, sample_of, TrackFace};

use blocks::Fields;
use tracker::{Sample, Tracker};
use util::refusal::{Refusal, number_told, told};

// Inside: the fit as C calls it.
pub fn fit(mode: u8, places: &[u32], timings: &[f64], drift: &mut f64) -> u32
    ensures answer { result ≡ number (fit_over mode places.now timings.now) }
    ensures lent { drift.new ≡ place itself (fit_over mode places.now timings.now) drift.old }
{
    told(fit::fit_over(mode, places, timings), drift)
}

// The entry over blocks whose fields lie in two lists.
fn track_over(
    mode: u8,
    tracker: &mut Tracker,
    shifts: &mut [i32],
    places: &mut [u32],
    timings: &mut [f64],
    s: Sample,
) -> Result<(), Refusal>
    ensures answer { meaning result ≡ track_over mode tracker.old shifts.old places.old timings.old s }
    ensures lent { LentAfter mode tracker.old shifts.old places.old timings.old s tracker.new shifts.new places.new timings.new }
{
    if timings.len() != places.len() {
        return Err(blocks::two_lengths(mode));
    }
    let listed = Fields {
        places: &*places,
        timings: &*timings,
    };
    let made = drift::call_over(mode, *tracker, shifts, &listed, s)?;
    if let Some(block) = made.pushed {
        places[tracker.blocks] = block.place2;
        timings[tracker.blocks] = block.timing;
    }
    *tracker = made.tracker;
    Ok(())
}

// A sample as C hands it on: heard 0 is Missed.
fn sample_of(heard: u8, early: f64, late: f64, noise: f64) -> Sample
    ensures { result ≡ sample_of heard early late noise }
{
    if heard == 0 {
        Sample::Missed
    } else {
        Sample::Heard(early, late, noise)
    }
}

// Inside: the tracker as C calls it. The six places are written only where the call is done.
pub fn track(
    mode: u8,
    n: &mut usize,
    shift: &mut i32,
    tnum: &mut f64,
    tden: &mut f64,
    drift: &mut f64,
    blocks: &mut usize,
    shifts: &mut [i32],
    places: &mut [u32],
    timings: &mut [f64],
    heard: u8,
    early: f64,
    late: f64,
    noise: f64,
) -> u32
    ensures face { TrackFace mode
        (tracker_of n.old shift.old tnum.old tden.old drift.old blocks.old)
        shifts.old places.old timings.old (sample_of heard early late noise) result
        (tracker_of n.new shift.new tnum.new tden.new drift.new blocks.new)
        shifts.new places.new timings.new }
{
    let mut t = Tracker {
        n: *n,
        shift: *shift,
        tnum: *tnum,
        tden: *tden,
        drift: *drift,
        blocks: *blocks,
    };
    let s = sample_of(heard, early, late, noise);
    let number = number_told(track_over(mode, &mut t, shifts, places, timings, s));
    if number != 0 {
        return number;
    }
    *n = t.n;
    *shift = t.shift;
    *tnum = t.tnum;
    *tden = t.tden;
    *drift = t.drift;
    *blocks = t.blocks;
    0
}
