// Numbers in bytes, the highest byte first, and an f32 by the pattern of its bits: what slips are written with (document 02,
// #103). Definitions in specs/.
#![tactic(auto)]

ghost use Rattle.std.specs.Prelude.{◌+◌, ◌^◌, ◌≤◌, ◌<◌, ◌≡◌, ◌++◌, length, take};
ghost use Rattle.std.specs.Float.{binary32};
ghost use Rattle.std.specs.Float.Ieee.{of_bits};
ghost use Rattle.wire.specs.Bytes.{big, number_at};

// Inside: the last `width` bytes of a number, from a place on. It says nothing of the places behind them.
pub fn put(out: &mut [u8], at: usize, width: usize, value: u64)
    requires { at + width ≤ length out.old }
    ensures size { length out.new ≡ length out.old }
    ensures bytes { take (at + width) out.new ≡ take at out.old ++ big width value }
{
    let mut rest = value;
    // By places from the last on: `to_be_bytes` has eight bytes, and `width` may be more.
    for i in (0..width).rev() {
        out[at + i] = (rest % 256) as u8;
        rest /= 256;
    }
}

// Inside: the number in up to eight bytes from a place on.
pub fn number_at(bytes: &[u8], at: usize, width: usize) -> u64
    requires { (at + width ≤ length bytes.now) × (width ≤ 8) }
    ensures number { result ≡ number_at bytes.now at width }
    ensures most { result < 256 ^ width }
{
    let mut sum = 0;
    for byte in &bytes[at..at + width] {
        sum = 256 * sum + u64::from(*byte);
    }
    sum
}

// Inside: the float of a pattern. A NaN's is left out of from_bits, which is not defined there.
pub fn float_of(pattern: u32) -> f32
    ensures { result ≡ of_bits binary32 pattern }
{
    if pattern % 0x8000_0000 > 0x7F80_0000 {
        return 0.0 / 0.0;
    }
    f32::from_bits(pattern)
}
