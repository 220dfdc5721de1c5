// Slips from standard input, put on a board one after another.
ghost use Rattle.std.specs.Prelude.{◌<◌, ◌≤◌, ◌^◌, length};

use segments_lines::refusal;
use std::io::{Error, Read, Stderr};

// Whether the input has ended, where there was less than a slip; else why a read failed: the one before, or the one that looks again.
fn has_ended<R: Read>(input: &mut R, before: Option<Error>) -> Result<(), Error> {
    let mut one = [0u8; 1];
    match input.read(&mut one)? {
        0 => Ok(()),
        _ => Err(before.unwrap_or(Error::from_raw_os_error(0))),
    }
}

// Puts a slip on the board, and tells a refusal; `before` slips came before it. One that is not whole is the input's end.
fn put_one(to: Stderr, board: &mut [u8], count: &mut u32, slip: &[u8], before: u64)
    requires { before < 2 ^ 58 }
{
    if let Err(refused) = board::put_slip(board, count, slip) {
        refusal::report(to, before, refused.number(), slip.len() < 44);
    }
}

// Reads a slip and puts it on the board, also a broken one that the input ends in. Answers whether another may follow.
fn put_next<R: Read>(
    input: &mut R,
    to: Stderr,
    board: &mut [u8],
    count: &mut u32,
    before: u64,
) -> Result<bool, Error>
    requires { before < 2 ^ 58 }
{
    let mut slip = [0u8; 44];
    let got = say::read_full(input, &mut slip);
    let is_whole = got.bytes == 44;
    if !is_whole {
        has_ended(input, got.failed)?;
    }
    if got.bytes > 0 {
        put_one(to, board, count, &slip[..got.bytes], before);
    }
    Ok(is_whole)
}

// Inside: every slip of the input. A proved loop has to end, and nothing says that the input does: no run reaches 2^58 slips,
// which take 9,000 years at a million a second.
pub fn put_all<R: Read>(input: &mut R, to: Stderr, board: &mut [u8], count: &mut u32) {
    for before in 0..0x400_0000_0000_0000 {
        match put_next(input, to, board, count, before) {
            Ok(true) => (),
            Ok(false) => return,
            Err(error) => {
                say::fail(to, b"segments: standard input", &error);
                return;
            }
        }
    }
}
