// What a record asks, and what is drawn for it from its seed, before any damage. Every float is made of its bits, so that no two
// languages can round it apart. (Mode and kind are the numbers that the record has.)
ghost use Rattle.std.specs.Prelude.{◌≤◌};

use records::mixed;

#[derive(Clone, Copy, Debug, PartialEq, Eq)]
pub struct Asked {
    pub seed: u64,
    pub rows: u32,
    pub mode: u8,
    pub kind: u8,
    pub style: u64,
    // which damage; none by 0
    pub first: u64,
    pub second: u64,
}

pub fn asked_of(x: u64) -> Asked {
    Asked {
        seed: x % 0x1_0000_0000,
        rows: ((x >> 32) % 4096) as u32,
        mode: ((x >> 44) % 4) as u8,
        kind: ((x >> 46) % 4) as u8,
        style: (x >> 48) % 16,
        first: (x >> 52) % 16,
        second: (x >> 56) % 16,
    }
}

// The lists that words are drawn for.
#[derive(Clone, Copy, Debug, PartialEq, Eq)]
pub enum List {
    Energies,
    Noise,
    Factors,
    Model,
    Damage,
    Rows,
}

pub fn drawn(seed: u64, list: List, i: usize) -> u64 {
    let place = match list {
        List::Energies => 0,
        List::Noise => 1,
        List::Factors => 2,
        List::Model => 3,
        List::Damage => 4,
        List::Rows => 5u64,
    };
    mixed(seed, (place << 56) ^ ((i as u64) << 32))
}

// Whether a generator is on: in up to eight places, for sixteen rows of every 32.
fn generator(seed: u64, i: usize, b: u64) -> bool {
    let first = seed % 52;
    if b < first {
        return false;
    }
    if b > first + seed / 64 % 8 {
        return false;
    }
    ((i % 32) as u64 + seed / 512 % 32) % 32 < 16
}

// By how many powers of two a place is raised over the noise: a tone in each row, a crash over one row of sixteen, a generator.
fn raised(seed: u64, i: usize, b: u64) -> u64
    ensures { result ≤ 8 }
{
    let row = drawn(seed, List::Rows, i);
    if (row >> 8) % 52 == b {
        return 8;
    }
    if row % 16 == 0 {
        return 5;
    }
    if generator(seed, i, b) {
        return 2 + seed % 5;
    }
    0
}

fn ordinary(seed: u64, at: usize, x: u64) -> u32 {
    let up = raised(seed, at / 52, (at % 52) as u64);
    (0x3D00_0000 + x % 0x0380_0000 + up * 0x0080_0000) as u32
}

// 0, 1, 2 or 3.
fn whole(x: u64) -> u32 {
    match x % 4 {
        0 => 0,
        1 => 0x3F80_0000,
        2 => 0x4000_0000,
        _ => 0x4040_0000,
    }
}

// A zero of either sign, or one in eight from 1 to 16.
fn zero(x: u64) -> u32 {
    if x % 8 == 0 {
        return (0x3F80_0000 + (x >> 8) % 0x0200_0000) as u32;
    }
    ((x >> 8) % 2 * 0x8000_0000) as u32
}

// The ends of an energy's range, the least that are above 0, and 1.
fn energy_end(x: u64) -> u32 {
    match x % 6 {
        0 => 0,
        1 => 0x8000_0000,
        2 => 0x4E6E_6B28,
        3 => 1,
        4 => 0x0080_0000,
        _ => 0x3F80_0000,
    }
}

// A power of two times its place's noise, for the whole burst the same, so that all are equal.
fn equal(seed: u64, at: usize) -> u32 {
    (0x3F00_0000 + drawn(seed, List::Noise, at % 52) % 0x0100_0000 + seed % 4 * 0x0080_0000) as u32
}

fn energy(a: Asked, at: usize) -> u32 {
    let seed = a.seed;
    let style = a.style;
    let x = drawn(seed, List::Energies, at);
    match style {
        1 => whole(x),
        2 => zero(x),
        3 => energy_end(x),
        4 => (x % 0x4E6E_6B29) as u32,
        5 => equal(seed, at),
        _ => ordinary(seed, at, x),
    }
}

// The ends of a noise's range, and 1.
fn noise_end(x: u64) -> u32 {
    match x % 3 {
        0 => 0x3580_0000,
        1 => 0x4E6E_6B28,
        _ => 0x3F80_0000,
    }
}

fn noise(a: Asked, b: usize) -> u32 {
    let style = a.style;
    let x = drawn(a.seed, List::Noise, b);
    match style {
        1 => (0x3F80_0000 + x % 2 * 0x0080_0000) as u32,
        3 => noise_end(x),
        4 => (0x3580_0000 + x % 0x18EE_6B29) as u32,
        _ => (0x3F00_0000 + x % 0x0100_0000) as u32,
    }
}

// What the factors are before the call: any finite float.
fn factor(a: Asked, at: usize) -> u32 {
    let x = drawn(a.seed, List::Factors, at);
    (x % 2 * 0x8000_0000 + (x >> 1) % 0x7F80_0000) as u32
}

pub fn value(a: Asked, list: List, at: usize) -> f32 {
    let pattern = match list {
        List::Energies => energy(a, at),
        List::Noise => noise(a, at),
        _ => factor(a, at),
    };
    wire::float_of(pattern)
}

fn eps_end(x: u64) -> u32 {
    match x % 3 {
        0 => 0,
        1 => 0x8000_0000,
        _ => 0x3F00_0000,
    }
}

pub fn eps(a: Asked) -> u32 {
    let style = a.style;
    let x = drawn(a.seed, List::Model, 0);
    match style {
        3 => eps_end(x),
        4 => (x % 0x3F00_0001) as u32,
        _ => (0x3C00_0000 + x % 0x0300_0001) as u32,
    }
}

fn r_end(x: u64) -> u32 {
    if x % 2 == 0 { 0x3F80_0000 } else { 0x447A_0000 }
}

pub fn r(a: Asked) -> u32 {
    let style = a.style;
    let x = drawn(a.seed, List::Model, 1);
    match style {
        3 => r_end(x),
        4 => (0x3F80_0000 + x % 0x04FA_0001) as u32,
        _ => (0x3F80_0000 + x % 0x0180_0000) as u32,
    }
}
