// What is drawn from a seed.
use records::mixed;

pub fn drawn(seed: u64, i: usize) -> u64 {
    mixed(seed, (i as u64) << 32)
}

// A number below n, by the lowest 16 bits.
pub fn below(x: u64, n: u32) -> f64 {
    let low = (x % 65536) as u32;
    if n == 0 { 0.0 } else { f64::from(low % n) }
}
