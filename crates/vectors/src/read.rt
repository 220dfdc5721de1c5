// A header read by a record, with labels filled in advance and by parity: what is 64 + part + 3·(kind + 3·mode), or for its ceiling 82 + kind + 3·mode, and the argument
// is a seed. The terms are small whole numbers worked out from the seed, with the values of a header raised by up to 7.
ghost use Rattle.std.specs.Prelude.{◌≡◌, length};

use records::{Bits, mixed};

fn small(x: u64) -> f32 {
    ((x % 5) as u16) as f32 - 2.0
}

fn raise_one(terms: &mut [f32], s: usize, bin: u64, strength: f32)
    ensures { length terms.new ≡ length terms.old }
{
    if s < 64 && bin < 48 {
        let at = 260 * s + 104 + (bin as usize) + 2;
        if at < terms.len() {
            terms[at] += strength;
        }
    }
}

// The sent value's term in row 2 of each symbol.
fn raise(mode: u8, seed: u64, values: &[u8], terms: &mut [f32]) {
    let strength = ((seed % 8) as u16) as f32;
    for (s, value) in values.iter().enumerate() {
        raise_one(terms, s, probe::probe_bin(mode, s as u64, *value), strength);
    }
}

// A header as read: 0 or the refusal's number, and the five places.
#[derive(Clone, Copy, Debug, PartialEq)]
pub struct Answer {
    number: u32,
    word: u64,
    outcome: u8,
    pass: u8,
    score: f32,
    ceiling: f32,
}

// What is read in the terms with these labels, over areas of its own; by parity where there are none.
pub fn heard(mode: u8, kind: u8, terms: &[f32], labels: &[u16], decisions: &mut [u64]) -> Answer {
    let mut scores = [0.0f32; 16384];
    let mut next = [0.0f32; 16384];
    let mut start = [0.0f32; 16384];
    let mut word = 0u64;
    let mut outcome = 0u8;
    let mut pass = 0u8;
    let mut score = 0.0f32;
    let mut ceiling = 0.0f32;
    let number = if labels.len() == 0 {
        ion::read::ion_read_header(
            mode,
            kind,
            terms,
            &mut scores,
            &mut next,
            &mut start,
            decisions,
            &mut word,
            &mut outcome,
            &mut pass,
            &mut score,
            &mut ceiling,
        )
    } else {
        ion::read::ion_read_header_with(
            mode,
            kind,
            terms,
            labels,
            &mut scores,
            &mut next,
            &mut start,
            decisions,
            &mut word,
            &mut outcome,
            &mut pass,
            &mut score,
            &mut ceiling,
        )
    };
    Answer {
        number,
        word,
        outcome,
        pass,
        score,
        ceiling,
    }
}

// The part of an answer that a record holds: its word, its outcome and pass, its score, or its ceiling.
fn part_of(part: u8, h: Answer) -> u64 {
    if h.number != 0 {
        return records::refusal(h.number);
    }
    match part {
        0 => h.word,
        1 => u64::from(h.outcome) + (u64::from(h.pass) << 4),
        2 => h.score.bits(),
        _ => h.ceiling.bits(),
    }
}

// That part by both ways of reading, where they agree (document 02, #111).
fn both_ways(mode: u8, kind: u8, part: u8, terms: &[f32], decisions: &mut [u64]) -> u64 {
    let mut labels = [0u16; 32768];
    if ion::read::ion_fill_labels(&mut labels) != 0 {
        return records::NONE;
    }
    let plain = part_of(part, heard(mode, kind, terms, &labels[..0], decisions));
    let with = part_of(part, heard(mode, kind, terms, &labels, decisions));
    if plain == with { plain } else { records::NONE }
}

// The refusal, or a digest of the five places.
pub fn digest(seed: u64, h: Answer) -> u64 {
    if h.number != 0 {
        return records::refusal(h.number);
    }
    let told = mixed(
        mixed(seed, h.word),
        u64::from(h.outcome) + (u64::from(h.pass) << 4),
    );
    mixed(mixed(told, h.score.bits()), h.ceiling.bits())
}

// The terms of the header of the lent bits, in lists of its kind's lengths; whether there are any.
pub fn drawn(
    mode: u8,
    kind: u8,
    seed: u64,
    bits: &[u8],
    values: &mut [u8],
    terms: &mut [f32],
) -> bool {
    if ion::air::ion_header_values(mode, kind, bits, values) != 0 {
        return false;
    }
    records::fill(terms, |i| small(mixed(seed, (i as u64) << 8)));
    raise(mode, seed, values, terms);
    true
}

// Reads the header of the lent bits, with lists of its kind's lengths.
fn read(
    mode: u8,
    kind: u8,
    seed: u64,
    part: u8,
    bits: &[u8],
    values: &mut [u8],
    terms: &mut [f32],
    decisions: &mut [u64],
) -> u64 {
    if !drawn(mode, kind, seed, bits, values, terms) {
        return records::NONE;
    }
    both_ways(mode, kind, part, terms, decisions)
}

// A part of the answer to the header of a seed.
fn part_read(mode: u8, kind: u8, seed: u64, part: u8) -> u64 {
    let bits = burst_file::verdict::bits_of(probe::probe_mix64(seed));
    let mut values = [0u8; 64];
    let mut terms = [0.0f32; 16640];
    let mut decisions = [0u64; 16384];
    if kind == 1 {
        return read(
            mode,
            kind,
            seed,
            part,
            &bits,
            &mut values,
            &mut terms,
            &mut decisions,
        );
    }
    read(
        mode,
        kind,
        seed,
        part,
        &bits[..48],
        &mut values[..48],
        &mut terms[..12480],
        &mut decisions[..12288],
    )
}

pub fn header(what: u8, seed: u64) -> u64 {
    if what < 64 {
        return records::NONE;
    }
    let rest = what - 64;
    if rest < 18 {
        return part_read(rest / 9, rest / 3 % 3, seed, rest % 3);
    }
    part_read((rest - 18) / 3, (rest - 18) % 3, seed, 3)
}
