// What a record asks to be otherwise than drawn, none, one or two of twelve: by 1 and 2 an energy out of range, by 3 and 4 a place's
// noise, by 5 eps, by 6 r, by 7 how many energies are lent, by 8 how many places of noise, by 9 how many factors, by 10 the rows told,
// by 11 the mode, by 12 the kind.
ghost use Rattle.std.specs.Prelude.{◌≡◌, ◌+◌, ◌≤◌, length};

use crate::draws;
use crate::draws::{Asked, List};

fn has(a: Asked, k: usize) -> bool {
    a.first == k as u64 || a.second == k as u64
}

// Each damage has a word of its own.
fn word(a: Asked, k: usize) -> u64 {
    draws::drawn(a.seed, List::Damage, k)
}

// A float out of range: just past either end, an infinity, no number, or -1.
fn bad(w: u64, above: u32, below: u32) -> u32 {
    match w % 6 {
        0 => above,
        1 => below,
        2 => 0x7F80_0000,
        3 => 0xFF80_0000,
        4 => 0x7FC0_0000,
        _ => 0xBF80_0000,
    }
}

// The first row, the last or one between.
fn row(rows: u32, w: u64) -> u32 {
    if rows == 0 {
        return 0;
    }
    match w % 3 {
        0 => 0,
        1 => rows - 1,
        _ => rows / 2,
    }
}

// A place of a row: any by the odd ones, and by the even ones one that R1 does not read.
fn place(k: usize, w: u64) -> usize
    ensures { result ≤ 51 }
{
    if k % 2 == 1 {
        (w % 52) as usize
    } else {
        (36 + w % 16) as usize
    }
}

fn put(list: &mut [f32], at: usize, pattern: u32)
    ensures { length list.new ≡ length list.old }
{
    if at < list.len() {
        list[at] = wire::float_of(pattern);
    }
}

fn energy(a: Asked, k: usize, energies: &mut [f32])
    ensures { length energies.new ≡ length energies.old }
{
    if has(a, k) {
        let w = word(a, k);
        let at = (row(a.rows, w >> 8) as usize) * 52 + place(k, w >> 16);
        put(energies, at, bad(w, 0x4E6E_6B29, 0x8000_0001));
    }
}

fn noise(a: Asked, k: usize, noise: &mut [f32])
    ensures { length noise.new ≡ length noise.old }
{
    if has(a, k) {
        let w = word(a, k);
        put(noise, place(k, w >> 16), bad(w, 0x4E6E_6B29, 0x357F_FFFF));
    }
}

pub fn lists(a: Asked, energies: &mut [f32], places: &mut [f32]) {
    energy(a, 1, energies);
    energy(a, 2, energies);
    noise(a, 3, places);
    noise(a, 4, places);
}

pub fn eps(a: Asked) -> f32 {
    if has(a, 5) {
        return wire::float_of(bad(word(a, 5), 0x3F00_0001, 0x8000_0001));
    }
    wire::float_of(draws::eps(a))
}

pub fn r(a: Asked) -> f32 {
    if has(a, 6) {
        return wire::float_of(bad(word(a, 6), 0x447A_0001, 0x3F7F_FFFF));
    }
    wire::float_of(draws::r(a))
}

// How many are lent of so many: one too few or one too many by 7, 8 and 9.
pub fn lent(a: Asked, k: usize, own: usize) -> usize
    requires { own ≤ 106548 }
    ensures { result ≤ own + 1 }
{
    if !has(a, k) {
        return own;
    }
    if own > 0 && word(a, k) % 2 == 0 {
        own - 1
    } else {
        own + 1
    }
}

// One row more than there are, or 2^30 more, by which 52 times the rows are the same in 32 bits.
pub fn rows(a: Asked) -> u32 {
    if has(a, 10) {
        let more = if word(a, 10) % 2 == 0 { 1 } else { 0x4000_0000 };
        return a.rows.wrapping_add(more);
    }
    a.rows
}

pub fn mode(a: Asked) -> u8 {
    if has(a, 11) {
        return (2 + word(a, 11) % 254) as u8;
    }
    a.mode
}

pub fn kind(a: Asked) -> u8 {
    if has(a, 12) {
        return (3 + word(a, 12) % 253) as u8;
    }
    a.kind
}
