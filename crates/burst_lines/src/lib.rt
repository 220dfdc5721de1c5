// The lines that the program `burst` prints of a burst (docs/BURST-FORMAT.md), and an outcome in words, which `segments` prints too.
#![tactic(auto)]

use burst_text::figures::{Figures, Word};
use outcome::Outcome;
use std::fmt::{Display, Formatter};
use std::io::Write;
use std::{fmt, io};

// An outcome without its score: its name, and the pass that a Sure and a Likely have.
#[derive(Clone, Copy, Debug, PartialEq)]
pub struct Name(pub Outcome);

impl Display for Name {
    fn fmt<W: fmt::Write>(&self, f: &mut Formatter<W>) -> fmt::Result {
        match self.0 {
            Outcome::Sure(_, pass) => write!(f, "Sure, pass {pass}"),
            Outcome::Likely(_, pass) => write!(f, "Likely, pass {pass}"),
            Outcome::Kept(_) => f.write_str("Kept"),
            Outcome::Open(_) => f.write_str("Open"),
        }
    }
}

// Inside: the score that an outcome carries.
pub fn score(outcome: Outcome) -> Figures {
    match outcome {
        Outcome::Sure(score, _) => Figures(score),
        Outcome::Likely(score, _) => Figures(score),
        Outcome::Kept(score) => Figures(score),
        Outcome::Open(score) => Figures(score),
    }
}

// Inside: the header's word. The kind is the number that the file or the slip has.
pub fn header<W: Write>(out: &mut W, kind: u8, word: u64) -> io::Result<()> {
    writeln!(out, "header {}", Word { kind, word })
}

// Inside: the outcome and the score.
pub fn outcome<W: Write>(out: &mut W, outcome: Outcome) -> io::Result<()> {
    writeln!(out, "outcome {}", Name(outcome))?;
    writeln!(out, "score {}", score(outcome))
}

// Inside: the ceiling.
pub fn ceiling<W: Write>(out: &mut W, x: f32) -> io::Result<()> {
    writeln!(out, "ceiling {}", Figures(x))
}

// Inside: the verdict on the CRC.
pub fn crc<W: Write>(out: &mut W, is_good: bool) -> io::Result<()> {
    writeln!(out, "CRC {}", if is_good { "good" } else { "bad" })
}

// Inside: how many data symbols there are, and how many of them are erased.
pub fn symbols<W: Write>(out: &mut W, all: usize, erased: u64) -> io::Result<()> {
    writeln!(out, "data symbols {all}, erased {erased}")
}

// Inside: a slip's bytes, two digits each.
pub fn slip<W: Write>(out: &mut W, bytes: &[u8]) -> io::Result<()> {
    write!(out, "slip ")?;
    for byte in bytes {
        write!(out, "{byte:02x}")?;
    }
    writeln!(out)
}

// Inside: a line for each soft bit.
pub fn soft_bits<W: Write>(out: &mut W, list: &[f32]) -> io::Result<()> {
    for (i, x) in list.iter().enumerate() {
        writeln!(out, "soft {i}: {}", Figures(*x))?;
    }
    Ok(())
}

// Inside: a line for each metric. Metric i is value i mod 32 of symbol i / 32.
pub fn metrics<W: Write>(out: &mut W, list: &[f32]) -> io::Result<()> {
    for (i, x) in list.iter().enumerate() {
        writeln!(out, "metric {} {}: {}", i / 32, i % 32, Figures(*x))?;
    }
    Ok(())
}
