// Burst slips (document 02, #103, #107): a header as 44 bytes of tagged fields, with a single spelling. The writer and the reader;
// what a slip's values are and how they are spelt is in specs/, that no two strings are one slip in proofs/Slips.antt.
#![tactic(auto)]

ghost use Rattle.std.specs.Prelude.{◌+◌, ◌*◌, ◌≤◌, ◌<◌, ◌^◌, true, ◌&&◌, ◌++◌, ◌≡◌, ltb, length, take};
ghost use Rattle.std.specs.Float.{binary32};
ghost use Rattle.std.specs.Float.Ieee.{fits};
ghost use Rattle.std.specs.Float.Ieee.Scale.{finite};
ghost use Rattle.frame.specs.Format.{header_bits};
ghost use Rattle.wire.specs.Bytes.{big};
ghost use Rattle.slip.specs.Spelling.{field, spell, outcome_value};
ghost use Rattle.slip.specs.Lawful.{pass_goes, lawful};
ghost use Rattle.util.specs.Refusal.{meaning, meaning_by};
ghost use Rattle.slip.specs.Slips.{fields_of, writing, written, taken, reading, Reads};

use util::refusal::Refusal;

// What the shed computer is told of a burst: its header as read, the sample at which it starts, and its segment's number.
#[derive(Clone, Copy, Debug, PartialEq)]
pub struct Slip {
    pub mode: u8,
    pub kind: u8,
    pub word: u64,
    pub outcome: outcome::Outcome,
    pub start: u64,
    pub segment: u16,
}

// The same as the numbers that a slip and C have for it, as they may stand in any string: 0 Sure, 1 Kept, 2 Open, 3 Likely; the pass of a
// Sure or a Likely, else 0. So mode, kind and outcome stay numbers here.
#[derive(Clone, Copy, Debug, PartialEq)]
pub struct Fields {
    pub mode: u8,
    pub kind: u8,
    pub word: u64,
    pub outcome: u8,
    pub pass: u8,
    pub score: f32,
    pub start: u64,
    pub segment: u16,
}

// ---- which values a slip may hold

// A header's word has no bit above its 48 or 64.
fn word_fits(kind: u8, word: u64) -> bool
    ensures { result ≡ ltb word (2 ^ header_bits kind) }
{
    kind == 1 || word < 0x1_0000_0000_0000
}

// Sure has its pass, 1 to 3, Likely 2 or 3, Kept and Open have 0, and nothing else is an outcome.
#[tactic(auto, unfolding(crate::specs::Lawful::pass_goes))]
fn pass_goes(outcome: u8, pass: u8) -> bool
    ensures { result ≡ pass_goes outcome pass }
{
    match outcome {
        0 => 1 <= pass && pass <= 3,
        3 => 2 <= pass && pass <= 3,
        1 | 2 => pass == 0,
        _ => false,
    }
}

// A score is finite: then it less itself is 0, and an infinity or a NaN less itself is a NaN. A start sample and a segment number
// are any of their types.
fn others_are_lawful(score: f32, start: u64, segment: u16) -> bool
    ensures { result ≡ ((fits binary32 score && finite score) && (ltb start (2 ^ 64) && ltb segment (2 ^ 16))) }
{
    score - score == 0.0
}

fn is_lawful(f: Fields) -> bool
    ensures { result ≡ lawful f }
{
    frame::is_named(f.mode, f.kind)
        && word_fits(f.kind, f.word)
        && pass_goes(f.outcome, f.pass)
        && others_are_lawful(f.score, f.start, f.segment)
}

// ---- the bytes

// A field from a place on: its tag, how many bytes its value has, and the value.
fn put_field(out: &mut [u8], at: usize, tag: u64, width: usize, value: u64)
    requires { at + 3 + width ≤ length out.old }
    ensures size { length out.new ≡ length out.old }
    ensures bytes { take (at + 3 + width) out.new ≡ take at out.old ++ field tag (big width value) }
{
    wire::put(out, at, 1, tag);
    wire::put(out, at + 1, 2, width as u64);
    wire::put(out, at + 3, width, value);
}

// The value of the outcome's field as one number: a byte, a byte and the score's four.
fn outcome_value(outcome: u8, pass: u8, score: f32) -> u64
    requires { finite score ≡ true }
    ensures { big 6 result ≡ outcome_value outcome pass score }
{
    0x100_0000_0000 * u64::from(outcome)
        + 0x1_0000_0000 * u64::from(pass)
        + u64::from(score.to_bits())
}

// The first three fields: mode, kind and word.
fn put_first(out: &mut [u8], mode: u8, kind: u8, word: u64)
    requires { length out.old ≡ 44 }
    ensures size { length out.new ≡ 44 }
    ensures bytes { take 19 out.new ≡ field 1 (big 1 mode) ++ field 2 (big 1 kind) ++ field 3 (big 8 word) }
{
    put_field(out, 0, 1, 1, u64::from(mode));
    put_field(out, 4, 2, 1, u64::from(kind));
    put_field(out, 8, 3, 8, word);
}

// The last three: the outcome's value, start sample and segment number.
fn put_last(out: &mut [u8], outcome: u64, start: u64, segment: u16)
    requires { length out.old ≡ 44 }
    ensures { out.new ≡ take 19 out.old ++ field 4 (big 6 outcome) ++ field 5 (big 8 start) ++ field 6 (big 2 segment) }
{
    put_field(out, 19, 4, 6, outcome);
    put_field(out, 28, 5, 8, start);
    put_field(out, 39, 6, 2, u64::from(segment));
}

// The six fields, tags rising.
fn put_fields(f: Fields, out: &mut [u8])
    requires { (length out.old ≡ 44) × (finite f.score ≡ true) }
    ensures { out.new ≡ spell f }
{
    let outcome = outcome_value(f.outcome, f.pass, f.score);
    put_first(out, f.mode, f.kind, f.word);
    put_last(out, outcome, f.start, f.segment);
}

// Inside: the values that stand at a slip's places.
pub fn take_fields(bytes: &[u8]) -> Fields
    requires { length bytes.now ≡ 44 }
    ensures { result ≡ taken bytes.now }
{
    let pattern = wire::number_at(bytes, 24, 4);
    let segment = wire::number_at(bytes, 42, 2);
    Fields {
        mode: bytes[3],
        kind: bytes[7],
        word: wire::number_at(bytes, 11, 8),
        outcome: bytes[22],
        pass: bytes[23],
        score: wire::float_of(pattern as u32),
        start: wire::number_at(bytes, 31, 8),
        segment: segment as u16,
    }
}

// ---- by numbers

// Inside: the writer, of numbers.
pub fn write_fields(f: Fields, out: &mut [u8]) -> Result<(), Refusal>
    ensures answer { meaning result ≡ writing f (length out.old) }
    ensures lent { out.new ≡ written f out.old }
{
    if out.len() != 44 {
        return Err(Refusal::Length);
    }
    if !is_lawful(f) {
        return Err(Refusal::Slip);
    }
    put_fields(f, out);
    Ok(())
}

// Whether the fields are written as these bytes and no others. (Both lists by one index, so that the compiler sees where a byte is compared
// with itself: a slip is read in 254 instructions; it took 307 by std's comparison, 334 by iterators over both lists.)
fn is_spelt(f: Fields, bytes: &[u8]) -> bool
    requires { finite f.score ≡ true }
    ensures { (result ≡ true → spell f ≡ bytes.now) × (spell f ≡ bytes.now → result ≡ true) }
{
    let mut again = [0u8; 44];
    put_fields(f, &mut again);
    if bytes.len() != 44 {
        return false;
    }
    for (i, x) in again.iter().enumerate() {
        if *x != bytes[i] {
            return false;
        }
    }
    true
}

// Inside: the reader, to numbers. Any string that is no lawful slip's spelling is refused, and by 13 alone.
pub fn read_fields(bytes: &[u8]) -> Result<Fields, Refusal>
    ensures answer { meaning result ≡ reading bytes.now }
{
    if bytes.len() != 44 {
        return Err(Refusal::Slip);
    }
    let f = take_fields(bytes);
    if is_lawful(f) && is_spelt(f, bytes) {
        Ok(f)
    } else {
        Err(Refusal::Slip)
    }
}

// ---- the entries

fn fields_of(slip: Slip) -> Fields
    ensures { result ≡ fields_of slip }
{
    let outcome = slip.outcome;
    let numbers = outcome::in_numbers(outcome);
    Fields {
        mode: slip.mode,
        kind: slip.kind,
        word: slip.word,
        outcome: numbers.outcome,
        pass: numbers.pass,
        score: numbers.score,
        start: slip.start,
        segment: slip.segment,
    }
}

fn slip_of(f: Fields) -> Slip
    requires { pass_goes f.outcome f.pass ≡ true }
    ensures { fields_of result ≡ f }
{
    Slip {
        mode: f.mode,
        kind: f.kind,
        word: f.word,
        outcome: outcome::from_numbers(f.outcome, f.pass, f.score),
        start: f.start,
        segment: f.segment,
    }
}

// Public entry: writes a slip (document 02, #103).
pub fn write_slip(slip: Slip, out: &mut [u8]) -> Result<(), Refusal>
    ensures answer { meaning result ≡ writing (fields_of slip) (length out.old) }
    ensures lent { out.new ≡ written (fields_of slip) out.old }
{
    write_fields(fields_of(slip), out)
}

// Public entry: reads a slip (document 02, #103). `single`: a string is read exactly where it is a lawful slip's spelling, and
// as that slip; every other is refused with 13.
pub fn read_slip(bytes: &[u8]) -> Result<Slip, Refusal>
    ensures answer { meaning_by fields_of result ≡ reading bytes.now }
    ensures single { Reads bytes.now (meaning_by fields_of result) }
{
    Ok(slip_of(read_fields(bytes)?))
}
