// Numbers of the air format (phy_mfsk/util.rs): SplitMix64, the Gray code, the CRC and the
// interleaver's multiplier, which is a public entry. Their definitions are in specs/.
#![tactic(auto)]

ghost use Rattle.std.specs.Prelude.{◌≡◌, ◌-◌, ◌*◌, ◌%◌, ◌^◌, ◌≤◌, ◌&&◌};
ghost use Rattle.util.specs.SplitMix.{first_output};
ghost use Rattle.util.specs.Gray.{gray_of};
ghost use Rattle.util.specs.Crc.{crc_step, crc_of};
ghost use Rattle.util.specs.Factor.{gcd_of};
ghost use Rattle.util.specs.Multiplier.{start_of, pairs, suits, first_of, mult_of, multiplier};
ghost use Rattle.util.specs.Refusal.{meaning};

pub mod refusal;

use refusal::Refusal;

// Inside: whether both hold. A loop that gathers a test with it has no way out between, so that many turns go at once.
pub fn both(a: bool, b: bool) -> bool
    ensures { result ≡ a && b }
{
    a & b
}

// Inside: a * b modulo 2^64, on the wrapping sum and by halves of 32 bits: the product of the upper halves falls out. (std has `wrapping_mul`;
// document 01 asks for this helper inside mix64.)
pub fn wrapping_mul_u64(a: u64, b: u64) -> u64
    ensures wraps { result ≡ a * b % 2 ^ 64 }
{
    let a_low = a % 0x1_0000_0000;
    let b_low = b % 0x1_0000_0000;
    let cross = ((a / 0x1_0000_0000) * b_low).wrapping_add(a_low * (b / 0x1_0000_0000));
    (a_low * b_low).wrapping_add((cross % 0x1_0000_0000) * 0x1_0000_0000)
}

// Inside: SplitMix64's first output from this seed.
pub fn mix64(seed: u64) -> u64
    ensures { result ≡ first_output seed }
{
    let state = seed.wrapping_add(0x9E37_79B9_7F4A_7C15);
    let once = wrapping_mul_u64(state ^ (state >> 30), 0xBF58_476D_1CE4_E5B9);
    let twice = wrapping_mul_u64(once ^ (once >> 27), 0x94D0_49BB_1331_11EB);
    twice ^ (twice >> 31)
}

// Inside: the Gray code of a value.
#[tactic(auto, unfolding(crate::specs::Gray::gray_of))]
pub fn gray(v: u64) -> u64
    ensures { result ≡ gray_of v }
{
    v ^ (v >> 1)
}

// Inside: one bit through the CRC's register. It enters at the top.
#[tactic(auto, unfolding(crate::specs::Crc::crc_step))]
pub fn crc_step(crc: u16, bit: u8) -> u16
    ensures { result ≡ crc_step crc bit }
{
    let doubled = crc << 1;
    if (crc >> 15) ^ (bit as u16) == 1 {
        doubled ^ 0x1021
    } else {
        doubled
    }
}

// Inside: CRC-16-CCITT over bits, from `init`.
#[tactic(auto, using(crate::proofs::Folded::fold_crc_step))]
pub fn crc16(bits: &[u8], init: u16) -> u16
    ensures { result ≡ crc_of init bits.now }
{
    bits.iter().fold(init, |crc, bit| crc_step(crc, *bit))
}

// Inside: the greatest common divisor, by Euclid.
pub fn gcd(a: u64, b: u64) -> u64
    ensures { result ≡ gcd_of a b }
{
    let mut x = a;
    let mut y = b;
    while y != 0 {
        let rest = x % y;
        x = y;
        y = rest;
    }
    x
}

// Whether a may be the multiplier for n.
#[tactic(auto, unfolding(crate::specs::Multiplier::suits, crate::specs::Factor::coprime))]
fn suitable(n: u64, a: u64) -> bool
    ensures { result ≡ suits n a }
{
    0 < a && a < n && gcd(a, n) == 1
}

// The whole number nearest n·494427191/800000000.
fn start(n: u64) -> u64
    requires { n ≤ 10240 }
    ensures { result ≡ start_of n }
{
    (2 * (n * 494427191) + 800000000) / 1600000000
}

// The first that suits of s+1, s-1, s+2, s-2 and so on to s±n; 1 where none does.
fn around(n: u64, s: u64) -> u64
    requires { (n ≤ 10240) × (s ≤ 10240) }
    ensures { result ≡ first_of (suits n) (pairs s 1 n) 1 }
{
    for d in 1..n + 1 {
        let above = s + d;
        if suitable(n, above) {
            return above;
        }
        let below = s.saturating_sub(d);
        if suitable(n, below) {
            return below;
        }
    }
    1
}

// Inside: the multiplier of the interleaver p ↦ (a·p) mod n, for every n that an entry accepts. The second
// clause is for callers that multiply by it.
pub fn mult(n: u64) -> u64
    requires { n ≤ 10240 }
    ensures answer { result ≡ mult_of n }
    ensures small { result ≤ 10240 }
{
    if n <= 2 {
        return 1;
    }
    let s = start(n);
    if suitable(n, s) {
        return s;
    }
    around(n, s)
}

// Public entry: the multiplier for n (document 01, 'Modes and air order').
pub fn interleave_mult(n: u64) -> Result<u64, Refusal>
    ensures { meaning result ≡ multiplier n }
{
    if n > 10240 {
        return Err(Refusal::TooMany);
    }
    Ok(mult(n))
}
