// The formats that are named on the air (phy_mfsk/frame.rs): two modes and three kinds, which C and the slips have as numbers.
ghost use Rattle.std.specs.Prelude.{◌≡◌, ◌≤◌, true, false};
ghost use Rattle.frame.specs.Format.{format_of, header_bits, listed, named, mode_number, kind_number, NamesMode, NamesKind, Named};
ghost use Rattle.frame.specs.Air.{hop_of};
ghost use Rattle.frame.specs.Crc.{starts};

use util::refusal::Refusal;

// What a mode carries: the bins of its grid, a symbol's length in samples, the windows that a burst may have, and the CRC's starts for
// HeaderOnly, Data and Cue.
pub trait Format {
    const BINS: u64;

    const SYMBOL: u32;

    const WINDOWS: [u32; 3];

    const CRC_STARTS: [u16; 3];
}

// 28 ms symbols on a 50 Hz grid.
#[derive(Clone, Copy, Debug, PartialEq, Eq)]
pub struct R0;

// 14 ms symbols on a 71.4 Hz grid.
#[derive(Clone, Copy, Debug, PartialEq, Eq)]
pub struct R1;

impl Format for R0 {
    const BINS: u64 = 48;

    const SYMBOL: u32 = 224;

    const WINDOWS: [u32; 3] = [160, 192, 224];

    const CRC_STARTS: [u16; 3] = [0xFFFF, 0x1D0F, 0x93E5];
}

impl Format for R1 {
    const BINS: u64 = 32;

    const SYMBOL: u32 = 112;

    const WINDOWS: [u32; 3] = [80, 96, 112];

    const CRC_STARTS: [u16; 3] = [0xB4C8, 0x6A39, 0x2C7B];
}

#[derive(Clone, Copy, Debug, PartialEq, Eq)]
pub enum Mode {
    R0,
    R1,
}

#[derive(Clone, Copy, Debug, PartialEq, Eq)]
pub enum Kind {
    HeaderOnly,
    Data,
    Cue,
}

impl Mode {
    // Inside: the bins of the mode's grid.
    pub fn bins(self) -> u64
        ensures { result ≡ (format_of (mode_number self)).bins }
    {
        match self {
            Mode::R0 => R0::BINS,
            Mode::R1 => R1::BINS,
        }
    }

    // Inside: a symbol's length in samples.
    pub fn symbol(self) -> u32
        ensures { result ≡ (format_of (mode_number self)).symbol }
    {
        match self {
            Mode::R0 => R0::SYMBOL,
            Mode::R1 => R1::SYMBOL,
        }
    }

    // Inside: whether a window is one of the mode's.
    pub fn has_window(self, window: u32) -> bool
        ensures { result ≡ listed window (format_of (mode_number self)).windows }
    {
        match self {
            Mode::R0 => R0::WINDOWS.contains(&window),
            Mode::R1 => R1::WINDOWS.contains(&window),
        }
    }

    // Inside: hop of header or data symbol i, counted from the first header symbol.
    pub fn hop(self, i: u64) -> u64
        ensures { result ≡ hop_of (format_of (mode_number self)).bins i }
    {
        // by the constant of each mode, over which the remainder needs no division
        match self {
            Mode::R0 => crate::hop_among(R0::BINS, i),
            Mode::R1 => crate::hop_among(R1::BINS, i),
        }
    }

    // Inside: the mode that a number stands for where it may be any: 0 for R0, every other for R1.
    pub fn of(mode: u8) -> Mode
        ensures format { format_of (mode_number result) ≡ format_of mode }
        ensures starts { starts (mode_number result) ≡ starts mode }
        ensures named { mode ≤ 1 → mode_number result ≡ mode }
    {
        if mode == 0 { Mode::R0 } else { Mode::R1 }
    }
}

impl Kind {
    // Inside: header symbols, which are as many as header bits.
    pub fn header_symbols(self) -> u64
        ensures { result ≡ header_bits (kind_number self) }
    {
        match self {
            Kind::HeaderOnly => 48,
            Kind::Data => 64,
            Kind::Cue => 48,
        }
    }

    // Inside: the kind that a number stands for where it may be any: 0 for HeaderOnly, 1 for Data, every other for Cue.
    pub fn of(kind: u8) -> Kind
        ensures symbols { header_bits (kind_number result) ≡ header_bits kind }
        ensures named { kind ≤ 2 → kind_number result ≡ kind }
    {
        match kind {
            0 => Kind::HeaderOnly,
            1 => Kind::Data,
            _ => Kind::Cue,
        }
    }
}

impl TryFrom<u8> for Mode {
    type Error = Refusal;

    ghost try_from_gives = { NamesMode };

    fn try_from(mode: u8) -> Result<Self, Refusal> {
        match mode {
            0 => Ok(Mode::R0),
            1 => Ok(Mode::R1),
            _ => Err(Refusal::Unnamed),
        }
    }
}

impl TryFrom<u8> for Kind {
    type Error = Refusal;

    ghost try_from_gives = { NamesKind };

    fn try_from(kind: u8) -> Result<Self, Refusal> {
        match kind {
            0 => Ok(Kind::HeaderOnly),
            1 => Ok(Kind::Data),
            2 => Ok(Kind::Cue),
            _ => Err(Refusal::Unnamed),
        }
    }
}

// Inside: the mode and the kind that two numbers name.
#[tactic(auto, unfolding(crate::specs::Format::named))]
pub fn named(mode: u8, kind: u8) -> Result<(Mode, Kind), Refusal>
    ensures { Named mode kind result }
{
    Ok((Mode::try_from(mode)?, Kind::try_from(kind)?))
}
