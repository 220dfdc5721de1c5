// What is told of a burst beside the entries' answers: its CRC and how many data symbols are erased.
ghost use Rattle.std.specs.Prelude.{ℕ, ◌+◌, ◌≤◌, ◌<◌, ◌≡◌, length, get_or};
ghost use Rattle.util.specs.Choose.{choose};
ghost use Rattle.frame.specs.Crc.{crc_answer};
ghost use Rattle.symbol.specs.Symbol.{erased_of};
ghost use Rattle.wire.specs.Bytes.{high_first};
ghost use Rattle.burst_file.specs.Verdict.{header_bit, equals, crc_good, count_of};

use std::array;

// Inside: a header word's 64 bits, a byte each, bit 0 first.
pub fn bits_of(word: u64) -> [u8; 64]
    ensures size { 64 ≡ length result }
    ensures bits { (k : ℕ) → k < 64 → get_or result k 0 ≡ header_bit word k }
{
    array::from_fn(|k| ((word >> k) % 2) as u8)
}

// The 16 bits from a place on, the first one highest. (By places, as `high_first` has them.)
fn last_sixteen(bits: &[u8], at: usize) -> u64
    requires { at + 16 ≤ length bits.now }
    ensures { result ≡ high_first 2 (λ k. get_or bits.now k 0) at 16 }
{
    let mut sum: u64 = 0;
    for k in 0..16usize {
        sum = 2 * sum + u64::from(bits[at + k]);
    }
    sum
}

fn agrees(mode: u8, kind: u8, layout: u8, bits: &[u8], last: u64) -> bool
    ensures { result ≡ equals (crc_answer mode kind layout bits.now) last }
{
    frame::crc(mode, kind, layout, bits).is_ok_and(|crc| u64::from(crc) == last)
}

// Inside: whether the header's last 16 bits, the first one highest, are the CRC of the bits before, whose start is of mode,
// kind and layout (frame.rs, `parse_header`; bits 32 to 47 of a HeaderOnly or Cue header, 48 to 63 of a Data header).
pub fn crc_is_good(mode: u8, kind: u8, layout: u8, word: u64) -> bool
    ensures { result ≡ crc_good mode kind layout word }
{
    let bits = bits_of(word);
    if kind == 1 {
        let last = last_sixteen(&bits, 48);
        return agrees(mode, kind, layout, &bits[..48], last);
    }
    let last = last_sixteen(&bits, 32);
    agrees(mode, kind, layout, &bits[..32], last)
}

// One more where a place has it.
fn more(n: u64, has: bool) -> u64
    requires { n < 18446744073709551615 }
    ensures count { result ≡ choose has (n + 1) n }
    ensures most { result ≤ n + 1 }
{
    if has {
        return n + 1;
    }
    n
}

// Inside: how many symbols are erased (by places, as `count_of` counts them): in layout k more than half of their (6k+1)·window samples are blanked.
pub fn erased_count(layout: u8, window: u32, counts: &[u32]) -> u64
    ensures { result ≡ count_of (λ i. erased_of layout window (get_or counts.now i 0)) (length counts.now) }
{
    let mut n: u64 = 0;
    for i in 0..counts.len() {
        n = more(n, symbol::erased(layout, window, counts[i]));
    }
    n
}
