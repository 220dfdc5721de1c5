// A burst file read from a reader, that of FILE or of standard input.
ghost use Rattle.std.specs.Prelude.{◌≡◌, length};

use crate::problem::Failure;
use burst_file::format::{Head, Problem};
use std::env::{Env, FillError};
use std::fs::Files;
use std::io::{Cursor, Error, Read, Stderr, Write};
use std::{fs, str};

// The system's numbers of why a name names no file: no such argument, one of above 4,096 bytes, and bytes that are no text.
const EINVAL: i32 = 22;

const ENAMETOOLONG: i32 = 36;

const EILSEQ: i32 = 84;

fn unnamed(why: FillError) -> Error {
    Error::from_raw_os_error(match why {
        FillError::NotPresent => EINVAL,
        FillError::TooLong => ENAMETOOLONG,
    })
}

fn open<R: Files>(rt: &R, name: &[u8]) -> Result<R::File, Error> {
    match str::from_utf8(name) {
        Ok(name) => fs::open(rt, name),
        Err(_) => Err(Error::from_raw_os_error(EILSEQ)),
    }
}

fn opened_or_told<R: Files>(rt: &R, to: Stderr, name: &[u8]) -> Option<R::File> {
    match open(rt, name) {
        Ok(file) => Some(file),
        Err(error) => {
            // the name with `burst: ` before it in one piece: it has at most 4,096 bytes
            let mut what = Cursor::new([0u8; 8192]);
            let _ = what.write_all(b"burst: ");
            let _ = what.write_all(name);
            let n = (what.position() as usize).min(8192);
            say::fail(to, &what.get_ref()[..n], &error);
            None
        }
    }
}

// Inside: the file that argument i names, open for reading, or none where it cannot be opened, which is told.
pub fn opened<R: Env + Files>(rt: &R, to: Stderr, i: usize) -> Option<R::File> {
    let mut name = io::buffer();
    match rt.arg(i, &mut name) {
        Ok(n) => opened_or_told(rt, to, &name[..n]),
        Err(why) => {
            say::fail(to, b"burst: a file's name", &unnamed(why));
            None
        }
    }
}

// Fills the bytes from the input.
fn read_whole<R: Read>(input: &mut R, bytes: &mut [u8]) -> Result<(), Failure>
    ensures { length bytes.new ≡ length bytes.old }
{
    if say::read_full(input, bytes).bytes < bytes.len() {
        return Err(why_short(input));
    }
    Ok(())
}

// Why there was less than asked: the input ended, or a read fails.
fn why_short<R: Read>(input: &mut R) -> Failure {
    let mut one = [0u8; 1];
    match input.read(&mut one) {
        Ok(_) => Failure::Bad(Problem::Short),
        Err(error) => Failure::Input(error),
    }
}

// Terms of whole symbols until the list is full.
fn read_terms<R: Read>(input: &mut R, terms: &mut [f32]) -> Result<(), Failure>
    ensures { length terms.new ≡ length terms.old }
{
    for symbol in terms.chunks_exact_mut(260) {
        let mut bytes = [0u8; 1040];
        read_whole(input, &mut bytes)?;
        burst_file::format::put_terms(&bytes, symbol, 0);
    }
    Ok(())
}

fn read_counts<R: Read>(input: &mut R, counts: &mut [u32]) -> Result<(), Failure>
    ensures { length counts.new ≡ length counts.old }
{
    for count in counts.iter_mut() {
        let mut four = [0u8; 4];
        read_whole(input, &mut four)?;
        *count = u32::from_le_bytes(four);
    }
    Ok(())
}

fn at_end<R: Read>(input: &mut R) -> bool {
    let mut one = [0u8; 1];
    say::read_full(input, &mut one).bytes == 0
}

// Inside: the head, or what is wrong with it.
pub fn read_head<R: Read>(input: &mut R) -> Result<Head, Failure> {
    let mut bytes = [0u8; 20];
    read_whole(input, &mut bytes)?;
    Ok(burst_file::format::head_of(&bytes)?)
}

// Inside: the lent terms and counts filled from the input, to its end.
pub fn fill<R: Read>(
    input: &mut R,
    first: &mut [f32],
    data: &mut [f32],
    counts: &mut [u32],
) -> Result<(), Failure> {
    read_terms(input, first)?;
    read_terms(input, data)?;
    read_counts(input, counts)?;
    if !at_end(input) {
        return Err(Failure::Bad(Problem::Long));
    }
    Ok(())
}
