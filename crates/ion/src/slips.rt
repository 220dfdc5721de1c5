// Burst slips: a header with the place of its burst, in 44 bytes and back. `single` says of a string what the entry's own promise does: it
// is read exactly where it is a lawful slip's spelling.
ghost use Rattle.std.specs.Prelude.{◌≡◌, length};
ghost use Rattle.util.specs.Refusal.{number, place, itself};
ghost use Rattle.slip.specs.Slips.{writing, written, reading};
ghost use Rattle.slip_face.specs.Face.{fields, Told};

pub fn ion_write_slip(
    mode: u8,
    kind: u8,
    word: u64,
    outcome: u8,
    pass: u8,
    score: f32,
    start: u64,
    segment: u16,
    slip: &mut [u8],
) -> u32
    ensures answer { result ≡ number (writing (fields mode kind word outcome pass score start segment) (length slip.old)) }
    ensures lent { slip.new ≡ written (fields mode kind word outcome pass score start segment) slip.old }
{
    slip_face::write(mode, kind, word, outcome, pass, score, start, segment, slip)
}

pub fn ion_read_slip(
    slip: &[u8],
    mode: &mut u8,
    kind: &mut u8,
    word: &mut u64,
    outcome: &mut u8,
    pass: &mut u8,
    score: &mut f32,
    start: &mut u64,
    segment: &mut u16,
) -> u32
    ensures answer { result ≡ number (reading slip.now) }
    ensures lent { fields mode.new kind.new word.new outcome.new
        pass.new score.new start.new segment.new
        ≡ place itself (reading slip.now) (fields mode.old kind.old word.old outcome.old
        pass.old score.old start.old segment.old) }
    ensures single { Told slip.now result (fields mode.new kind.new word.new outcome.new
        pass.new score.new start.new segment.new) }
{
    slip_face::read(slip, mode, kind, word, outcome, pass, score, start, segment)
}
