// The slips' face to C: a slip's values as eight numbers, in and out. The entries themselves are in crate `slip`, whose numbers
// these are. Definitions in specs/.
#![tactic(auto)]

ghost use Rattle.std.specs.Prelude.{◌≡◌, length};
ghost use Rattle.util.specs.Refusal.{number, place, itself};
ghost use Rattle.slip.specs.Slips.{writing, written, reading};
ghost use Rattle.slip_face.specs.Face.{fields, Told};

use util::refusal::number_told;

// Inside: the writer as C calls it.
pub fn write(
    mode: u8,
    kind: u8,
    word: u64,
    outcome: u8,
    pass: u8,
    score: f32,
    start: u64,
    segment: u16,
    slip: &mut [u8],
) -> u32
    ensures answer { result ≡ number (writing (fields mode kind word outcome pass score start segment) (length slip.old)) }
    ensures lent { slip.new ≡ written (fields mode kind word outcome pass score start segment) slip.old }
{
    let f = slip::Fields {
        mode,
        kind,
        word,
        outcome,
        pass,
        score,
        start,
        segment,
    };
    number_told(slip::write_fields(f, slip))
}

// Inside: the reader as C calls it. The eight places are written only where 0 is returned.
pub fn read(
    slip: &[u8],
    mode: &mut u8,
    kind: &mut u8,
    word: &mut u64,
    outcome: &mut u8,
    pass: &mut u8,
    score: &mut f32,
    start: &mut u64,
    segment: &mut u16,
) -> u32
    ensures answer { result ≡ number (reading slip.now) }
    ensures lent { fields mode.new kind.new word.new outcome.new
        pass.new score.new start.new segment.new
        ≡ place itself (reading slip.now) (fields mode.old kind.old word.old outcome.old
        pass.old score.old start.old segment.old) }
    ensures single { Told slip.now result (fields mode.new kind.new word.new outcome.new
        pass.new score.new start.new segment.new) }
{
    match slip::read_fields(slip) {
        Ok(f) => {
            *mode = f.mode;
            *kind = f.kind;
            *word = f.word;
            *outcome = f.outcome;
            *pass = f.pass;
            *score = f.score;
            *start = f.start;
            *segment = f.segment;
            0
        }
        Err(refusal) => u32::from(refusal.number()),
    }
}
