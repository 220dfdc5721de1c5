// Reads slips of 44 bytes from standard input, puts one after another on a segment board (document 02, #105) that is empty at
// the start, and prints the board that they leave: a line a segment, segments rising. A slip that is refused is told on standard
// error when it is met, and set aside. docs/SEGMENTS.md has the lines; `segments --help` prints the usage.
// It holds one slip and the board, however many slips there are.
#![tactic(auto)]

mod arguments;
mod input;

use arguments::Asked;
use segments_lines::listed;
use std::io::{Read, Stderr, Stdout};

// The board's 512 places of 44 bytes, of which none is listed at the start.
fn run<R: Read>(input: &mut R, to: Stdout, and: Stderr) {
    let mut board = [0u8; 22528];
    let mut count = 0u32;
    input::put_all(input, and, &mut board, &mut count);
    if let Err(error) = listed::print(to, &board, count) {
        say::fail(and, b"segments: standard output", &error);
    }
}

fn main(rt: HostRuntime) {
    match arguments::given(&rt) {
        Err(unknown) => arguments::refuse(&rt, rt.stderr(), unknown),
        Ok(Asked::Help) => arguments::help(rt.stdout(), rt.stderr()),
        Ok(Asked::Board) => run(&mut rt.stdin(), rt.stdout(), rt.stderr()),
    }
}
