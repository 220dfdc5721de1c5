// A burst's timing: the drift by its blocks, and the tracker. An export takes no slice of structs and no reference to one:
// a block's fields come in two lists of one length, and a tracker's as six places.
ghost use Rattle.std.specs.Prelude.{◌≡◌};
ghost use Rattle.util.specs.Refusal.{number, place, itself};
ghost use Rattle.fit.specs.Lists.{fit_over};
ghost use Rattle.timing_face.specs.Face.{tracker_of, sample_of, TrackFace};

pub fn ion_fit_drift(mode: u8, places: &[u32], timings: &[f64], drift: &mut f64) -> u32
    ensures answer { result ≡ number (fit_over mode places.now timings.now) }
    ensures lent { drift.new ≡ place itself (fit_over mode places.now timings.now) drift.old }
{
    timing_face::fit(mode, places, timings, drift)
}

pub fn ion_track_timing(
    mode: u8,
    n: &mut usize,
    shift: &mut i32,
    tnum: &mut f64,
    tden: &mut f64,
    drift: &mut f64,
    blocks: &mut usize,
    shifts: &mut [i32],
    places: &mut [u32],
    timings: &mut [f64],
    heard: u8,
    early: f64,
    late: f64,
    noise: f64,
) -> u32
    ensures face { TrackFace mode
        (tracker_of n.old shift.old tnum.old tden.old drift.old blocks.old)
        shifts.old places.old timings.old (sample_of heard early late noise) result
        (tracker_of n.new shift.new tnum.new tden.new drift.new blocks.new)
        shifts.new places.new timings.new }
{
    timing_face::track(
        mode, n, shift, tnum, tden, drift, blocks, shifts, places, timings, heard, early, late,
        noise,
    )
}
