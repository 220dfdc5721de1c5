// Recorded answers, the Rust's and where it has none a second model's, which oracle/record.rs writes: 17 bytes a
// record, what was asked, its argument and the answer, both with the lowest byte first. The programs that replay them
// read and count them here.
#![tactic(auto)]

ghost use Rattle.std.specs.Prelude.{◌+◌, ◌/◌, ◌≤◌, ◌<◌, length, ◌≡◌};

use say::Tally;
use std::io::{Read, Stdout};

const SIZE: usize = 17;

#[derive(Clone, Copy, Debug, PartialEq, Eq)]
pub struct Record {
    pub what: u8,
    pub asked: u64,
    pub answer: u64,
}

// What stands for no answer; a refusal is this and its number.
pub const NONE: u64 = 0x1_0000_0000;

// Inside: a refusal as the records have it.
pub fn refusal(k: u32) -> u64 {
    NONE + u64::from(k)
}

// Inside: the eight bytes from `at`, the lowest first.
pub fn word(s: &[u8], at: usize) -> u64
    requires { at + 8 ≤ length s.now }
{
    s[at..at + 8]
        .iter()
        .rev()
        .fold(0, |v, b| (v << 8) | u64::from(*b))
}

// Inside: how many records there are.
pub fn count(s: &[u8]) -> usize
    ensures { result ≡ length s.now / 17 }
{
    s.len() / SIZE
}

// Inside: record i.
pub fn nth(s: &[u8], i: usize) -> Record
    requires { i < length s.now / 17 }
{
    let at = i * SIZE;
    Record {
        what: s[at],
        asked: word(s, at + 1),
        answer: word(s, at + 9),
    }
}

// Whether an answer of ours is the recorded one; a record that differs is printed.
fn agrees(to: Stdout, record: Record, ours: u64) -> bool {
    let Record {
        what,
        asked,
        answer: recorded,
    } = record;
    if ours != recorded {
        say::line(
            to,
            format_args!("asked {what} of {asked}: {ours}, recorded {recorded}"),
        );
    }
    ours == recorded
}

// Inside: a replay. The answer to each record that is read is held to the recorded one, and the last line counts those that
// agree.
pub fn replay<R: Read, F: Fn(u8, u64) -> u64>(input: &mut R, to: Stdout, answer: F)
    requires { F.IsAlwaysCallable answer }
{
    let mut buffer = io::large_buffer();
    let n = say::read_full(input, &mut buffer).bytes;
    let s = &buffer[..n];
    let all = count(s);
    let mut same = 0;
    // An index loop: in a closure of `filter` the proof loses that the record's place is in range.
    for i in 0..all {
        let record = nth(s, i);
        if agrees(to, record, answer(record.what, record.asked)) {
            same += 1;
        }
    }
    say::line(
        to,
        format_args!("recorded answers replayed: {}", Tally { same, all }),
    );
}

// A value's bits as they go into a digest.
pub trait Bits {
    fn bits(self) -> u64;
}

impl Bits for u8 {
    fn bits(self) -> u64 {
        u64::from(self)
    }
}

impl Bits for u64 {
    fn bits(self) -> u64 {
        self
    }
}

// A NaN has no bits that are defined.
impl Bits for f32 {
    fn bits(self) -> u64 {
        if self.is_nan() {
            NONE
        } else {
            u64::from(self.to_bits())
        }
    }
}

impl Bits for f64 {
    fn bits(self) -> u64 {
        if self.is_nan() { NONE } else { self.to_bits() }
    }
}

// Inside: a word mixed into what came before.
pub fn mixed(h: u64, x: u64) -> u64 {
    util::mix64(h ^ x)
}

// Inside: the bits of a whole list, mixed one after another into what came before.
pub fn digest<T: Bits + Copy>(begun: u64, list: &[T]) -> u64 {
    list.iter().fold(begun, |h, x| mixed(h, x.bits()))
}

// Inside: each place of a list filled with what is worked out for it.
pub fn fill<T: Drop, F: Fn(usize) -> T>(list: &mut [T], value: F)
    requires { F.IsAlwaysCallable value }
    ensures { length list.new ≡ length list.old }
{
    for (i, x) in list.iter_mut().enumerate() {
        *x = value(i);
    }
}
