// What the arguments ask for, and the usage.
use crate::decimal;
use say::arguments::put_argument;
use std::env::Env;
use std::io::{Print, Stderr, Stdout};

// What is asked of a burst.
#[derive(Clone, Copy, Debug, PartialEq, Eq)]
pub struct Options {
    pub soft: bool,
    pub metrics: bool,
    pub slip: Option<Place>,
    // the number of the argument that names the file
    pub file: Option<usize>,
}

// Where a slip's burst stands: its first sample and its segment's number.
#[derive(Clone, Copy, Debug, PartialEq, Eq)]
pub struct Place {
    pub start: u64,
    pub segment: u16,
}

#[derive(Clone, Copy, Debug, PartialEq, Eq)]
pub enum Asked {
    Help,
    Burst(Options),
}

// What is wrong with the arguments.
#[derive(Clone, Copy, Debug, PartialEq, Eq)]
pub enum Misuse {
    // the number of an argument that is unknown
    Unknown(usize),
    // `slip` without its two numbers
    Numbers,
}

// What the next argument must be.
#[derive(Clone, Copy, Debug, PartialEq, Eq)]
enum Next {
    Word,
    Start,
    Segment { start: u64 },
}

// What was given so far.
#[derive(Clone, Copy, Debug, PartialEq, Eq)]
struct Sorted {
    options: Options,
    help: bool,
    next: Next,
    misplaced: bool,
    unknown: Option<usize>,
}

impl Sorted {
    fn nothing() -> Sorted {
        Sorted {
            options: Options {
                soft: false,
                metrics: false,
                slip: None,
                file: None,
            },
            help: false,
            next: Next::Word,
            misplaced: false,
            unknown: None,
        }
    }

    fn take(&mut self, i: usize, word: &[u8]) {
        match self.next {
            Next::Word => self.take_word(i, word),
            Next::Start => self.take_start(decimal::read(word)),
            Next::Segment { start } => self.take_segment(start, decimal::read(word)),
        }
    }

    fn take_word(&mut self, i: usize, word: &[u8]) {
        match word {
            b"-h" | b"--help" => self.help = true,
            b"soft" => self.options.soft = true,
            b"metrics" => self.options.metrics = true,
            b"slip" => self.next = Next::Start,
            _ if word.starts_with(b"-") || self.options.file.is_some() => self.unknown = Some(i),
            _ => self.options.file = Some(i),
        }
    }

    fn take_start(&mut self, number: Option<u64>) {
        self.misplaced |= number.is_none();
        self.next = match number {
            Some(start) => Next::Segment { start },
            None => Next::Word,
        };
    }

    fn take_segment(&mut self, start: u64, number: Option<u64>) {
        match number.and_then(|n| u16::try_from(n).ok()) {
            Some(segment) => self.options.slip = Some(Place { start, segment }),
            None => self.misplaced = true,
        }
        self.next = Next::Word;
    }

    fn asked(&self) -> Result<Asked, Misuse> {
        if let Some(i) = self.unknown {
            return Err(Misuse::Unknown(i));
        }
        if self.misplaced || !matches!(self.next, Next::Word) {
            return Err(Misuse::Numbers);
        }
        if self.help {
            return Ok(Asked::Help);
        }
        Ok(Asked::Burst(self.options))
    }
}

// Inside: the words and the file in any order. A word may come twice; of two slips the second is asked for.
pub fn given<R: Env>(rt: &R) -> Result<Asked, Misuse> {
    let mut given = Sorted::nothing();
    let mut word = io::buffer();
    for i in 1..usize::MAX {
        let Some(n) = put_argument(rt, i, &mut word) else {
            break;
        };
        given.take(i, &word[..n]);
    }
    given.asked()
}

const USAGE: &str = "\
usage: burst [soft] [metrics] [slip START SEGMENT] [FILE]
Reads one burst from FILE, or from standard input, and prints what it says.
  soft     prints the soft bits too
  metrics  prints the metrics too
  slip     prints the header's slip too: START is the burst's first sample, SEGMENT its number
A file that is named like a word is given with its folder, as ./soft.
";

// Inside: the usage on standard output.
pub fn help(to: Stdout, and: Stderr) {
    say::text(to, and, b"burst: standard output", USAGE.as_bytes());
}

// Inside: tells what is wrong with the arguments, and the usage.
pub fn refuse<R: Env>(rt: &R, to: Stderr, misuse: Misuse) {
    match misuse {
        Misuse::Unknown(i) => say::arguments::refuse(rt, to, "burst", i, USAGE),
        Misuse::Numbers => {
            let wanted = "START, a number to 18446744073709551615, and SEGMENT, one to 65535";
            let _ = to.print(format_args!("burst: slip wants {wanted}\n{USAGE}"));
        }
    }
}
