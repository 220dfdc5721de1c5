// The numbers in a burst file's bytes, and its head. The file, with the lowest byte of each number first
// (docs/BURST-FORMAT.md has the table):
//   4 bytes IONB, version 1, mode, kind, form (0 bits, 1 symbols), layout, 3 bytes of zeros, u32 window, u32 data bits,
//   260 f32 a header symbol, 260 f32 a data symbol, one u32 of blanked samples a data symbol, and nothing more.
// Version 0 has a zero in the layout's place, and its bursts are of layout 1.
ghost use Rattle.std.specs.Prelude.{◌+◌, ◌*◌, ◌≤◌, ◌≡◌, length};
ghost use Rattle.std.specs.Float.{nan};
ghost use Rattle.util.specs.Table.{Stored};
ghost use Rattle.burst_file.specs.Numbers.{word_of, word_at, float_at};
ghost use Rattle.burst_file.specs.Head.{unused_of, layout_of, fields_of, head_of};

use std::fmt;
use util::refusal::Refusal;

// IONB, its first letter lowest.
const MAGIC: u32 = 0x424E_4F49;

fn word(a: u8, b: u8, c: u8, d: u8) -> u32
    ensures { result ≡ word_of a b c d }
{
    u32::from(a) + 256 * u32::from(b) + 65536 * u32::from(c) + 16777216 * u32::from(d)
}

// Inside: the u32 from a place on.
pub fn word_at(s: &[u8], at: usize) -> u32
    requires { at + 4 ≤ length s.now }
    ensures { result ≡ word_at s.now at }
{
    word(s[at], s[at + 1], s[at + 2], s[at + 3])
}

// Inside: stores the 260 terms of a symbol's bytes from a place on.
pub fn put_terms(bytes: &[u8], terms: &mut [f32], at: usize)
    requires { (length bytes.now ≡ 1040) × (at + 260 ≤ length terms.old) }
    ensures { Stored nan 260 at (λ i. float_at bytes.now (4 * i)) terms.old terms.new }
{
    // by places: each float is of four bytes
    for i in 0..260usize {
        terms[at + i] = wire::float_of(word_at(bytes, 4 * i));
    }
}

// What can be wrong with a burst file.
#[derive(Clone, Copy, Debug, PartialEq, Eq)]
pub enum Problem {
    Short,
    Long,
    Magic,
    Version,
    Form,
    Zeros,
    Refused(Refusal),
}

impl fmt::Display for Problem {
    fn fmt<W: fmt::Write>(&self, f: &mut fmt::Formatter<W>) -> fmt::Result {
        match self {
            Problem::Short => f.write_str("the input ends before the burst does"),
            Problem::Long => f.write_str("the input goes on after the burst"),
            Problem::Magic => f.write_str("the input does not begin with IONB"),
            Problem::Version => f.write_str("a version other than 0 and 1"),
            Problem::Form => f.write_str("a form other than 0 and 1"),
            Problem::Zeros => f.write_str("bytes 8 to 11 (version 1: 9 to 11) are not zeros"),
            Problem::Refused(refusal) => write!(
                f,
                "refused: {}, {}",
                refusal.number(),
                cause(*refusal)
            ),
        }
    }
}

// The papers' words for a refusal that a burst can get (document 01, 'When nothing is done', and document 02, #102).
fn cause(refusal: Refusal) -> &'static str {
    match refusal {
        Refusal::Unnamed => "mode or kind not named",
        Refusal::TooMany => "more than 10,240 data bits",
        Refusal::Window => "window not of the mode",
        Refusal::Terms => "a term not finite or beyond 1,000,000",
        Refusal::Blanked => "a blanked count above 255 windows",
        Refusal::Layout => "a layout not from 1 to 8",
        _ => "document 01 has the table",
    }
}

// What the head says of the burst. Mode and kind are the file's numbers, which the entries test again.
#[derive(Clone, Copy, Debug, PartialEq, Eq)]
pub struct Head {
    pub mode: u8,
    pub kind: u8,
    pub layout: u8,
    pub symbols: bool,
    pub window: u32,
    pub bits: u32,
}

// What of the four bytes from 8 on must be 0: version 1 has the layout in the first of them.
fn unused(version: u8, four: u32) -> u32
    ensures { result ≡ unused_of version four }
{
    if version == 0 {
        return four;
    }
    four / 256
}

// The layout: a burst of version 0 is of the full band.
fn layout_of(version: u8, byte: u8) -> u8
    ensures { result ≡ layout_of version byte }
{
    if version == 0 {
        return 1;
    }
    byte
}

// The fields of a head whose bytes are in order, by the papers' first four refusals.
fn fields(mode: u8, kind: u8, layout: u8, form: u8, window: u32, bits: u32) -> Result<Head, Problem>
    ensures { result ≡ fields_of mode kind layout form window bits }
{
    if !frame::is_named(mode, kind) {
        return Err(Problem::Refused(Refusal::Unnamed));
    }
    if !frame::is_layout(layout) {
        return Err(Problem::Refused(Refusal::Layout));
    }
    if bits > 10240 {
        return Err(Problem::Refused(Refusal::TooMany));
    }
    if !frame::has_window(mode, window) {
        return Err(Problem::Refused(Refusal::Window));
    }
    Ok(Head {
        mode,
        kind,
        layout,
        symbols: form == 1,
        window,
        bits,
    })
}

// Inside: the head in a file's first 20 bytes.
pub fn head_of(s: &[u8]) -> Result<Head, Problem>
    requires { length s.now ≡ 20 }
    ensures { result ≡ head_of s.now }
{
    if word_at(s, 0) != MAGIC {
        return Err(Problem::Magic);
    }
    if s[4] > 1 {
        return Err(Problem::Version);
    }
    if s[7] > 1 {
        return Err(Problem::Form);
    }
    if unused(s[4], word_at(s, 8)) != 0 {
        return Err(Problem::Zeros);
    }
    fields(
        s[5],
        s[6],
        layout_of(s[4], s[8]),
        s[7],
        word_at(s, 12),
        word_at(s, 16),
    )
}
