// The program that works out the square roots of the counts 1 to 52 anew and prints them (document 02, #109). It reads nothing, and it stands
// on no crate that has the table. Definitions in specs/.
#![tactic(auto)]

ghost use Rattle.std.specs.Prelude.{◌+◌, ◌≤◌, ◌<◌, not, ◌++◌, ◌≡◌, T, length, take};
ghost use Rattle.std.specs.Float.Ieee.{is_nan};
ghost use Rattle.io.specs.Counts.{IsPrefixLen};
ghost use Rattle.roots.specs.Printed.{decimal_of, bits_of, line_of, printed};

use std::io::Print;

// A text behind the `at` bytes that are there; the answer is how many there are then.
fn append(out: &mut [u8], at: usize, s: &[u8]) -> usize
    requires { at + length s.now ≤ length out.old }
    ensures end { result ≡ at + length s.now }
    ensures text { take result out.new ≡ take at out.old ++ s.now }
{
    let end = at + s.len();
    out[at..end].copy_from_slice(s);
    end
}

// A count below 100 in decimal, behind the `at` bytes that are there. (By io::decimal, and below by io::hex, whose clauses say each byte in a
// lent list; `write!` says them of a String, which would be on the heap.)
fn append_count(out: &mut [u8], at: usize, n: u32) -> usize
    requires { (n < 100) × (at + 2 ≤ length out.old) }
    ensures end { result ≤ at + 2 }
    ensures text { take result out.new ≡ take at out.old ++ decimal_of n }
{
    let mut text = [0u8; 20];
    let long = io::decimal(n as u64, &mut text);
    append(out, at, &text[..long])
}

// The bits of a float that is no NaN as eight hexadecimal digits, behind the `at` bytes that are there.
fn append_bits(out: &mut [u8], at: usize, x: f32) -> usize
    requires { T (not (is_nan x)) × (at + 8 ≤ length out.old) }
    ensures end { result ≡ at + 8 }
    ensures text { take result out.new ≡ take at out.old ++ bits_of x }
{
    let mut text = [0u8; 16];
    let long = io::hex(f32::to_bits(x) as u64, 8, &mut text);
    append(out, at, &text[..long])
}

// The line of n behind the `at` bytes that are there; it has at most 12.
fn line(out: &mut [u8], at: usize, n: u32) -> usize
    requires { (1 ≤ n) × (n ≤ 52) × (at + 12 ≤ length out.old) }
    ensures end { result ≤ at + 12 }
    ensures text { take result out.new ≡ take at out.old ++ line_of n }
{
    let after_count = append_count(out, at, n);
    let after_blank = append(out, after_count, b" ");
    let after_bits = append_bits(out, after_blank, root::root(n));
    append(out, after_bits, b"\n")
}

// All 52 lines; the answer is how many bytes they have. (A loop: each line hands on where the next one begins.)
fn lines(out: &mut [u8]) -> usize
    requires { length out.old ≡ 624 }
    ensures there { IsPrefixLen result out.new }
    ensures text { take result out.new ≡ printed }
{
    let mut at = 0;
    for n in 1..53u32 {
        at = line(out, at, n);
    }
    at
}

fn main(rt: HostRuntime) {
    let mut text = [0u8; 624];
    let long = lines(&mut text);
    if let Err(error) = Print::write_all(&rt, &text[..long]) {
        say::fail(rt.stderr(), b"roots: standard output", &error);
    }
}
