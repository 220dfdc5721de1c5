// A program's arguments.
ghost use Rattle.std.specs.Prelude.{◌≤◌, length, IfSome};

use std::env::{Env, FillError};
use std::io::{Cursor, Stderr, Write};

// Inside: how many bytes of argument i are at the start of `word`: 0 where it is longer than that. None where there are not so many
// arguments.
pub fn put_argument<R: Env>(rt: &R, i: usize, word: &mut [u8]) -> Option<usize>
    ensures { IfSome result (λ n. n ≤ length word.new) }
{
    match rt.arg(i, word) {
        Ok(n) => Some(n),
        Err(FillError::TooLong) => Some(0),
        Err(FillError::NotPresent) => None,
    }
}

// Inside: tells that argument i is unknown, and the usage.
pub fn refuse<R: Env>(rt: &R, mut to: Stderr, program: &str, i: usize, usage: &str) {
    let mut word = io::buffer();
    let n = put_argument(rt, i, &mut word).unwrap_or(0);
    // gathered and told in one call, so that no other program's words come between; what goes beyond the 8,192 bytes would be cut, but the word has
    // at most 4,096, and a usage far fewer
    let mut text = Cursor::new([0u8; 8192]);
    let _ = write!(text, "{program}: unknown argument ");
    let _ = text.write_all(&word[..n]);
    let _ = write!(text, "\n{usage}");
    let n = (text.position() as usize).min(8192);
    let _ = to.write_all(&text.get_ref()[..n]);
}
