// What a put of a series is drawn as: four words, by which its slip is spelt and its damage chosen.
ghost use Rattle.std.specs.Prelude.{◌≡◌, ◌≤◌, length};

use records::mixed;

#[derive(Clone, Copy, Debug, PartialEq, Eq)]
pub struct Turn {
    pub x: u64,
    pub y: u64,
    pub z: u64,
    pub w: u64,
    // whether segments are few, and whether there are Likely slips (document 02, #107)
    pub few: bool,
    pub likely: bool,
    // which damage; none from 8 on
    pub case: u64,
}

fn case_of(style: u64, w: u64) -> u64 {
    if style % 4 > 1 { w % 16 } else { 15 }
}

pub fn drawn(seed: u64, j: usize, style: u64) -> Turn {
    let x = mixed(seed, (j as u64) << 32);
    let y = probe::probe_mix64(x);
    let z = probe::probe_mix64(y);
    let w = probe::probe_mix64(z);
    Turn {
        x,
        y,
        z,
        w,
        few: style % 2 == 0,
        likely: style > 3,
        case: case_of(style, w),
    }
}

// An outcome of four, or of the three that there were before.
fn outcome_of(likely: bool, x: u64) -> u8 {
    if likely { (x % 4) as u8 } else { (x % 3) as u8 }
}

fn pass_of(outcome: u8, x: u64) -> u8 {
    match outcome {
        0 => (1 + x % 3) as u8,
        3 => (2 + x % 2) as u8,
        _ => 0,
    }
}

// Any finite score.
fn score_of(y: u64) -> f32 {
    let magnitude = (y / 2) % 0x7F80_0000;
    wire::float_of((y % 2 * 0x8000_0000 + magnitude) as u32)
}

// A header's word, with zeros above its 48 or 64 bits.
// (The kind is a slip's number.)
fn word_of(kind: u8, z: u64) -> u64 {
    if kind == 1 { z } else { z >> 16 }
}

fn segment_of(few: bool, x: u64) -> u16 {
    if few {
        (x % 8) as u16
    } else {
        (x % 2048 * 31) as u16
    }
}

// The slip drawn, in its 44 bytes.
pub fn write(d: Turn, slip: &mut [u8])
    ensures { length slip.new ≡ length slip.old }
{
    let kind = (d.x / 2 % 3) as u8;
    let outcome = outcome_of(d.likely, d.x / 8);
    ion::slips::ion_write_slip(
        (d.x % 2) as u8,
        kind,
        word_of(kind, d.z),
        outcome,
        pass_of(outcome, d.x / 32),
        score_of(d.y),
        (((d.x >> 8) % 4) << 62) ^ ((d.x >> 10) % 2),
        segment_of(d.few, d.x >> 16),
        slip,
    );
}

// ---- the damage

fn at(d: Turn) -> usize
    ensures { result ≤ 45 }
{
    ((d.w >> 8) % 44) as usize
}

pub fn bit(d: Turn) -> u8 {
    1u8 << ((d.w >> 16) % 8)
}

// The byte of the string that is another; 45, which it has not, where none is.
pub fn string_at(d: Turn) -> usize {
    if d.case == 0 { at(d) } else { 45 }
}

// The board's byte that is another for this put; 22,528 where none is.
pub fn board_at(d: Turn) -> usize {
    if d.case == 6 {
        return 43;
    }
    if d.case == 7 { at(d) } else { 22528 }
}

// How many bytes of the string are put.
pub fn part(d: Turn) -> usize
    ensures { result ≤ 45 }
{
    let case = d.case;
    match case {
        1 => at(d),
        2 => 45,
        5 => ((d.w >> 8) % 45) as usize,
        _ => 44,
    }
}

// How many bytes of the board are lent.
pub fn lent(d: Turn) -> usize
    ensures { result ≤ 22528 }
{
    if d.case == 5 { 22527 } else { 22528 }
}

// The count that is lent.
pub fn count(d: Turn, own: u32) -> u32 {
    let case = d.case;
    match case {
        3 => own.wrapping_add(1),
        4 => 513 + 65535 * (((d.w >> 8) % 2) as u32),
        _ => own,
    }
}

// The count after a put: a damaged one is what it was.
pub fn count_after(d: Turn, own: u32, lent: u32) -> u32 {
    let case = d.case;
    match case {
        3 | 4 => own,
        _ => lent,
    }
}
