// What the arguments ask for, and the usage.
use say::arguments::put_argument;
use std::env::Env;
use std::io::{Stderr, Stdout};

#[derive(Clone, Copy, Debug, PartialEq, Eq)]
pub enum Asked {
    Help,
    Board,
}

// The number of the first argument that is unknown.
#[derive(Clone, Copy, Debug, PartialEq, Eq)]
pub struct Unknown(usize);

// Inside: what all of them ask for.
pub fn given<R: Env>(rt: &R) -> Result<Asked, Unknown> {
    let mut asked = Asked::Board;
    let mut word = io::buffer();
    for i in 1..usize::MAX {
        let Some(n) = put_argument(rt, i, &mut word) else {
            break;
        };
        match &word[..n] {
            b"-h" | b"--help" => asked = Asked::Help,
            _ => return Err(Unknown(i)),
        }
    }
    Ok(asked)
}

const USAGE: &str = "\
usage: segments <SLIPS
Reads slips of 44 bytes from standard input, puts them on a segment board and prints it, a line a segment.
A slip that is refused is told on standard error, with its place and the refusal's number.
";

// Inside: the usage on standard output.
pub fn help(to: Stdout, and: Stderr) {
    say::text(to, and, b"segments: standard output", USAGE.as_bytes());
}

// Inside: tells that an argument is unknown, and the usage.
pub fn refuse<R: Env>(rt: &R, to: Stderr, unknown: Unknown) {
    say::arguments::refuse(rt, to, "segments", unknown.0, USAGE);
}
