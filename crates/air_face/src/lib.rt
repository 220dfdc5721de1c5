// What is sent, as C calls it: the interleaver's multiplier, the CRC, a header's symbol values and data through both
// interleavers, each with its answer as a number and its result in a place, written only where it is not refused. The
// entries themselves are crates `util`, `frame`, `conv` and `interleave`.
#![tactic(auto)]

ghost use Rattle.std.specs.Prelude.{◌≡◌, length};
ghost use Rattle.util.specs.Refusal.{number, place, itself};
ghost use Rattle.util.specs.Multiplier.{multiplier};
ghost use Rattle.frame.specs.Crc.{crc_answer};
ghost use Rattle.conv.specs.Sent.{sent_answer, sent_values};
ghost use Rattle.interleave.specs.Sending.{bits_answer, slots_after, symbols_answer, values_after};

use util::refusal::{number_told, told};

// Inside: the entry as C calls it.
pub fn interleave_mult(n: u64, mult: &mut u64) -> u32
    ensures answer { result ≡ number (multiplier n) }
    ensures lent { mult.new ≡ place itself (multiplier n) mult.old }
{
    told(util::interleave_mult(n), mult)
}

// Inside: the entry as C calls it.
pub fn crc(mode: u8, kind: u8, layout: u8, bits: &[u8], crc: &mut u16) -> u32
    ensures answer { result ≡ number (crc_answer mode kind layout bits.now) }
    ensures lent { crc.new ≡ place itself (crc_answer mode kind layout bits.now) crc.old }
{
    told(frame::crc(mode, kind, layout, bits), crc)
}

// Inside: the entry as C calls it.
pub fn header_values(mode: u8, kind: u8, bits: &[u8], values: &mut [u8]) -> u32
    ensures answer { result ≡ number (sent_answer mode kind bits.now (length values.old)) }
    ensures lent { values.new ≡ sent_values mode kind bits.now values.old }
{
    number_told(conv::header_values(mode, kind, bits, values))
}

// Inside: the entry as C calls it.
pub fn interleave(bits: &[u8], slots: &mut [u8]) -> u32
    ensures answer { result ≡ number (bits_answer bits.now (length slots.old)) }
    ensures lent { slots.new ≡ slots_after bits.now slots.old }
{
    number_told(interleave::interleave(bits, slots))
}

// Inside: the entry as C calls it.
pub fn interleave_sym(symbols: &[u8], values: &mut [u8]) -> u32
    ensures answer { result ≡ number (symbols_answer symbols.now (length values.old)) }
    ensures lent { values.new ≡ values_after symbols.now values.old }
{
    number_told(interleave::interleave_sym(symbols, values))
}
