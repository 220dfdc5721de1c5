// Slips by a record: what is 15 for one written, 152 for a string read. The argument has a seed in its lowest 32 bits, by which
// the slip's values are drawn. Written: in 8 bits which value is another, if any, in 8 which other, and in 8 how many bytes are
// lent; the answer is a digest of them. Read: in 8 bits a place of the slip's bytes, in 8 what is xored there, and in 8 how many
// bytes the string has, a longer one going on with zeros; the answer is a digest of the values. In both the next bit says that the
// slip drawn is a Likely (document 02, #107).
ghost use Rattle.std.specs.Prelude.{◌≡◌, length};

use records::{Bits, digest};
use slip::Fields;

fn drawn(seed: u64, i: u64) -> u64 {
    records::mixed(seed, (i % 16) << 32)
}

// Any finite score.
fn finite(x: u64) -> f32 {
    let magnitude = (x / 2) % 0x7F80_0000;
    wire::float_of((x % 2 * 0x8000_0000 + magnitude) as u32)
}

// A header's word, with zeros above its 48 or 64 bits.
fn word_of(kind: u8, x: u64) -> u64 {
    if kind == 1 { x } else { x >> 16 }
}

// Likely where the bit for it is set, else one of the three that there were before.
fn outcome_of(asked: u64, x: u64) -> u8 {
    if (asked >> 56) % 2 == 1 {
        3
    } else {
        (x % 3) as u8
    }
}

fn pass_of(outcome: u8, x: u64) -> u8 {
    match outcome {
        0 => (1 + x % 3) as u8,
        3 => (2 + x % 2) as u8,
        _ => 0,
    }
}

// The slip of a record's seed.
fn made(asked: u64) -> Fields {
    let seed = asked % 0x1_0000_0000;
    let x = drawn(seed, 0);
    let kind = (x / 2 % 3) as u8;
    let outcome = outcome_of(asked, x / 8);
    Fields {
        mode: (x % 2) as u8,
        kind,
        word: word_of(kind, drawn(seed, 1)),
        outcome,
        pass: pass_of(outcome, x / 32),
        score: finite(drawn(seed, 2)),
        start: drawn(seed, 3),
        segment: (drawn(seed, 4) >> 48) as u16,
    }
}

// A score at the edge of what is finite, or beyond.
fn edge(which: u8) -> f32 {
    wire::float_of(match which {
        0 => 0x8000_0000,
        1 => 0x7F7F_FFFF,
        2 => 1,
        3 => 0x7F80_0000,
        4 => 0xFF80_0000,
        5 => 0x7FC0_0000,
        _ => 0xFF80_0001,
    })
}

// Another value in its place: the mode, the kind, a bit of the word, the outcome, the pass or the score.
fn with_another(f: Fields, place: u64, which: u8) -> Fields {
    let mut g = f;
    match place {
        1 => g.mode = which,
        2 => g.kind = which,
        3 => g.word = f.word | (1u64 << (which % 64)),
        4 => g.outcome = which,
        5 => g.pass = which,
        6 => g.score = edge(which),
        _ => (),
    }
    g
}

fn write(f: Fields, bytes: &mut [u8]) -> u32
    ensures { length bytes.new ≡ length bytes.old }
{
    ion::slips::ion_write_slip(
        f.mode, f.kind, f.word, f.outcome, f.pass, f.score, f.start, f.segment, bytes,
    )
}

fn written(seed: u64, f: Fields, bytes: &mut [u8]) -> u64 {
    let k = write(f, bytes);
    if k != 0 {
        return records::refusal(k);
    }
    digest(seed, bytes)
}

fn write_record(asked: u64) -> u64 {
    let seed = asked % 0x1_0000_0000;
    let f = with_another(
        made(asked),
        (asked >> 32) % 256,
        ((asked >> 40) % 256) as u8,
    );
    let mut bytes = [0u8; 64];
    let n = ((asked >> 48) % 256 % 65) as usize;
    written(seed, f, &mut bytes[..n])
}

// A digest of eight values, each mixed into what came before.
fn mixed(
    seed: u64,
    mode: u8,
    kind: u8,
    word: u64,
    outcome: u8,
    pass: u8,
    score: f32,
    start: u64,
    segment: u16,
) -> u64 {
    let h = digest(seed, &[mode, kind, outcome, pass]);
    digest(h, &[word, score.bits(), start, u64::from(segment)])
}

fn read(seed: u64, string: &[u8]) -> u64 {
    let mut mode = 0u8;
    let mut kind = 0u8;
    let mut word = 0u64;
    let mut outcome = 0u8;
    let mut pass = 0u8;
    let mut score = 0.0f32;
    let mut start = 0u64;
    let mut segment = 0u16;
    let k = ion::slips::ion_read_slip(
        string,
        &mut mode,
        &mut kind,
        &mut word,
        &mut outcome,
        &mut pass,
        &mut score,
        &mut start,
        &mut segment,
    );
    if k != 0 {
        return records::refusal(k);
    }
    mixed(seed, mode, kind, word, outcome, pass, score, start, segment)
}

fn damage(string: &mut [u8], at: usize, with: u8) {
    if at < string.len() {
        string[at] ^= with;
    }
}

// So many bytes of a string.
fn read_part(seed: u64, string: &[u8], n: usize) -> u64 {
    if n > string.len() {
        return records::NONE;
    }
    read(seed, &string[..n])
}

// The slip of a record in the lent string, damaged, and as much of it as is asked for.
fn read_over(seed: u64, asked: u64, string: &mut [u8]) -> u64 {
    if string.len() < 44 {
        return records::NONE;
    }
    if write(made(asked), &mut string[..44]) != 0 {
        return records::NONE;
    }
    damage(
        string,
        ((asked >> 32) % 256) as usize,
        ((asked >> 40) % 256) as u8,
    );
    read_part(seed, string, ((asked >> 48) % 256) as usize)
}

fn read_record(asked: u64) -> u64 {
    let mut string = [0u8; 64];
    read_over(asked % 0x1_0000_0000, asked, &mut string)
}

pub fn answer(what: u8, asked: u64) -> u64 {
    if what == 15 {
        return write_record(asked);
    }
    read_record(asked)
}
