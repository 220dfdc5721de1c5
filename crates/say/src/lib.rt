// What the programs share of reading and telling: a line on standard output, why a call of the system failed on standard error,
// input read until a list is full, and a program's arguments (`arguments`).
#![tactic(auto)]

ghost use Rattle.std.specs.Prelude.{◌≤◌, ◌≡◌, length};

use std::fmt;
use std::fmt::{Display, Formatter, InlineText};
use std::io::{Error, Print, Read, Stderr, Stdout, Write};

pub mod arguments;

// A line on standard output. One that cannot be written is left out.
pub fn line<D: Display + Drop>(to: Stdout, line: D) {
    let _ = to.println(line);
}

// Inside: a text on standard output, in one call where it can be written. Where it cannot, why is told after `what`.
pub fn text(to: Stdout, and: Stderr, what: &[u8], text: &[u8]) {
    if let Err(error) = Print::write_all(&to, text) {
        fail(and, what, &error);
    }
}

// The last line of a comparison.
#[derive(Clone, Copy, Debug, PartialEq, Eq)]
pub struct Tally {
    pub same: usize,
    pub all: usize,
}

impl Display for Tally {
    fn fmt<W: fmt::Write>(&self, f: &mut Formatter<W>) -> fmt::Result {
        write!(f, "{} of {} agree", self.same, self.all)
    }
}

// The system's words for an error, without the number that std puts behind them.
#[derive(Clone, Copy, Debug)]
pub struct Words<'a>(pub &'a Error);

impl Display for Words<'_> {
    fn fmt<W: fmt::Write>(&self, f: &mut Formatter<W>) -> fmt::Result {
        let text = InlineText::<256>::of(self.0);
        let words = text.as_str();
        match words.split_once(" (os error ") {
            Some((before, _)) => f.write_str(before),
            None => f.write_str(words),
        }
    }
}

// Inside: a line on standard error: what failed, a colon and the system's words for it.
pub fn fail(mut to: Stderr, what: &[u8], error: &Error) {
    let _ = to.write_all(what);
    let _ = writeln!(to, ": {}", Words(error));
}

// What was read: how many bytes, and why there are no more where a read failed.
#[derive(Clone, Copy, Debug)]
pub struct Filled {
    pub bytes: usize,
    pub failed: Option<Error>,
}

// Inside: reads until the bytes are full, the input ends or a read fails.
pub fn read_full<R: Read>(input: &mut R, bytes: &mut [u8]) -> Filled
    ensures { result.bytes ≤ length bytes.new }
{
    let mut done = 0;
    // a `while`: each read takes as many bytes as it gets, and an iterator over reads would have to end of itself
    while done < bytes.len() {
        match input.read(&mut bytes[done..]) {
            Ok(0) => break,
            Ok(n) => done += n,
            Err(error) => {
                return Filled {
                    bytes: done,
                    failed: Some(error),
                };
            }
        }
    }
    Filled {
        bytes: done,
        failed: None,
    }
}
