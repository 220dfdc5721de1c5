// The air order (phy_mfsk/frame.rs): the formats of the two modes, hops, bins and places, header slots, and the CRC by
// mode, kind and layout, which is a public entry. Definitions in specs/.
#![tactic(auto)]

ghost use Rattle.std.specs.Prelude.{◌≡◌, ◌≤◌, ◌<◌};
ghost use Rattle.util.specs.Refusal.{meaning};
ghost use Rattle.frame.specs.Format.{format_of, header_bits, named, layout_named, listed, mode_number, kind_number};
ghost use Rattle.frame.specs.Air.{hop_of, bin_of, place_of, slot_of};
ghost use Rattle.frame.specs.Crc.{base_start, mask_of, start_of, some_above, some_above_one, crc_answer};

pub mod format;

use format::{Format, Kind, Mode, R0, R1};
use util::refusal::Refusal;

// Inside: the bins of the grid of a mode's number. (Here and below a mode that is not 0 is taken for 1, and a kind that is neither 0 nor 1
// for 2: the entries refuse others.)
pub fn bins(mode: u8) -> u64
    ensures { result ≡ (format_of mode).bins }
{
    Mode::of(mode).bins()
}

// Inside: a symbol's length in samples, by the mode's number.
pub fn symbol(mode: u8) -> u32
    ensures { result ≡ (format_of mode).symbol }
{
    Mode::of(mode).symbol()
}

// Inside: whether a window is one of the mode's, by its number.
pub fn has_window(mode: u8, window: u32) -> bool
    ensures { result ≡ listed window (format_of mode).windows }
{
    Mode::of(mode).has_window(window)
}

// Inside: whether mode and kind are named.
#[tactic(auto, unfolding(crate::specs::Format::named))]
pub fn is_named(mode: u8, kind: u8) -> bool
    ensures { result ≡ named mode kind }
{
    mode <= 1 && kind <= 2
}

// Inside: whether a layout is named, from 1, the full band, to 8.
#[tactic(auto, unfolding(crate::specs::Format::layout_named))]
pub fn is_layout(layout: u8) -> bool
    ensures { result ≡ layout_named layout }
{
    1 <= layout && layout <= 8
}

// Inside: header symbols, by the kind's number.
pub fn header_symbols(kind: u8) -> u64
    ensures { result ≡ header_bits kind }
{
    Kind::of(kind).header_symbols()
}

// Inside: hop of a symbol on any grid.
pub fn hop_among(bins: u64, i: u64) -> u64
    requires { 0 < bins }
    ensures { result ≡ hop_of bins i }
{
    util::mix64(i ^ 0x4D46_534B_484F_5000) % bins
}

// Inside: hop of header or data symbol i, by the mode's number.
pub fn hop(mode: u8, i: u64) -> u64
    ensures { result ≡ hop_of (format_of mode).bins i }
{
    Mode::of(mode).hop(i)
}

// Inside: bin of value v in a symbol with hop h.
pub fn tone_bin(bins: u64, h: u64, v: u64) -> u64
    requires { (0 < bins) × (h < bins) × (v < 32) × (bins ≤ 48) }
    ensures { result ≡ bin_of bins h v }
{
    (h + v) % bins
}

// Inside: a bin's place in a row of 52.
pub fn place(bin: u64) -> u64
    requires { bin < 48 }
    ensures { result ≡ place_of bin }
{
    bin + 2
}

// Inside: the slot of place p of n, for header steps and both interleavers.
pub fn slot(n: u64, p: u64) -> u64
    requires { (n ≤ 10240) × (p < n) }
    ensures { result ≡ slot_of n p }
{
    util::mult(n) * p % n
}

// Inside: header slot of trellis step j, by the kind's number.
pub fn header_slot(kind: u8, j: u64) -> u64
    requires { j < header_bits kind }
    ensures { result ≡ slot_of (header_bits kind) j }
{
    slot(header_symbols(kind), j)
}

// The CRC's start by mode and kind, as the full band has it.
#[tactic(auto, unfolding(crate::specs::Crc::base_start))]
fn base_start(mode: Mode, kind: Kind) -> u16
    ensures { result ≡ base_start (mode_number mode) (kind_number kind) }
{
    let starts = match mode {
        Mode::R0 => R0::CRC_STARTS,
        Mode::R1 => R1::CRC_STARTS,
    };
    starts[kind as usize]
}

// What a layout changes of it: nothing in the full band, never nothing in another layout.
fn layout_mask(layout: u8) -> u16
    ensures { result ≡ mask_of layout }
{
    if layout == 1 {
        return 0;
    }
    ((util::mix64(0x4C41_594F_5554 ^ (layout as u64)) % 65536) as u16) | 1
}

// Inside: the CRC's start carries mode, kind and layout, so that a header read under another fails its check.
pub fn crc_init(mode: u8, kind: u8, layout: u8) -> u16
    requires { kind ≤ 2 }
    ensures { result ≡ start_of mode kind layout }
{
    base_start(Mode::of(mode), Kind::of(kind)) ^ layout_mask(layout)
}

// Inside: whether some byte is above a limit.
pub fn some_above(limit: u8, bytes: &[u8]) -> bool
    ensures { result ≡ some_above limit bytes.now }
{
    bytes.iter().any(|b| *b > limit)
}

// Inside: whether some byte is above 1, so that it is no bit.
pub fn some_above_one(bits: &[u8]) -> bool
    ensures { result ≡ some_above_one bits.now }
{
    some_above(1, bits)
}

// Public entry: the CRC of 0 to 1,024 bits under a mode, a kind and a layout (document 01, 'Modes and air order';
// document 02, #102).
pub fn crc(mode: u8, kind: u8, layout: u8, bits: &[u8]) -> Result<u16, Refusal>
    ensures { meaning result ≡ crc_answer mode kind layout bits.now }
{
    format::named(mode, kind)?;
    if !is_layout(layout) {
        return Err(Refusal::Layout);
    }
    if bits.len() > 1024 {
        return Err(Refusal::Length);
    }
    if some_above_one(bits) {
        return Err(Refusal::NotBits);
    }
    Ok(util::crc16(bits, crc_init(mode, kind, layout)))
}
