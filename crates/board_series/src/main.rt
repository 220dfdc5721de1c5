// Replays series of slips put on a board, recorded by oracle/record.rs, which has the recipe: what is 200. The argument has a seed in its
// lowest 32 bits, then the count of puts in 16, then a style in three bits: few segments or many, whether some puts are damaged, and
// whether there are Likely slips. The answer is a digest: each put's number with the count that it left, then the board's bytes.
#![tactic(auto)]

ghost use Rattle.std.specs.Prelude.{◌≡◌, ◌≤◌, length};

mod draws;

use draws::{Turn, drawn};
use records::mixed;

// Byte `at` of a list is xored.
fn flip(list: &mut [u8], at: usize, with: u8)
    ensures { length list.new ≡ length list.old }
{
    if at < list.len() {
        list[at] ^= with;
    }
}

// The string of a put: the slip drawn and a byte more.
fn spell(d: Turn, string: &mut [u8])
    ensures { length string.new ≡ length string.old }
{
    if string.len() < 44 {
        return;
    }
    draws::write(d, &mut string[..44]);
    flip(string, draws::string_at(d), draws::bit(d));
}

// The put of a string over as much of the board as is lent.
fn put_part(d: Turn, board: &mut [u8], count: &mut u32, string: &[u8]) -> u32
    requires { (length board.old ≡ 22528) × (length string.now ≡ 45) }
    ensures { length board.new ≡ 22528 }
{
    let lent = draws::lent(d);
    let part = draws::part(d);
    ion::boards::ion_put_slip(&mut board[..lent], count, &string[..part])
}

fn put_string(d: Turn, board: &mut [u8], count: &mut u32) -> u32
    requires { length board.old ≡ 22528 }
    ensures { length board.new ≡ 22528 }
{
    let mut string = [0u8; 45];
    spell(d, &mut string);
    put_part(d, board, count, &string)
}

// A damaged byte of the board is what it was where the put was refused.
fn mend(d: Turn, board: &mut [u8], number: u32)
    ensures { length board.new ≡ length board.old }
{
    if number != 0 {
        flip(board, draws::board_at(d), draws::bit(d));
    }
}

// What a put answers and the count that it leaves, as one number.
fn put_one(d: Turn, board: &mut [u8], count: &mut u32) -> u64
    requires { length board.old ≡ 22528 }
    ensures { length board.new ≡ 22528 }
{
    let mut lent = draws::count(d, *count);
    flip(board, draws::board_at(d), draws::bit(d));
    let number = put_string(d, board, &mut lent);
    mend(d, board, number);
    *count = draws::count_after(d, *count, lent);
    // by `u64::from` the proof would lack that both are of 32 bits
    number as u64 + 256 * lent as u64
}

fn put_all(seed: u64, n: usize, style: u64, board: &mut [u8]) -> u64
    requires { length board.old ≡ 22528 }
    ensures { length board.new ≡ 22528 }
{
    let mut h = seed;
    let mut count = 0;
    for j in 0..n {
        h = mixed(h, put_one(drawn(seed, j, style), board, &mut count));
    }
    h
}

fn replayed(seed: u64, n: usize, style: u64, board: &mut [u8]) -> u64
    requires { length board.old ≡ 22528 }
{
    records::fill(board, |i| (mixed(seed, i as u64) % 256) as u8);
    let h = put_all(seed, n, style, board);
    records::digest(h, board)
}

fn answer(what: u8, asked: u64) -> u64 {
    if what != 200 {
        return records::NONE;
    }
    let mut board = [0u8; 22528];
    let n = ((asked >> 32) % 65536) as usize;
    replayed(asked % 0x1_0000_0000, n, (asked >> 48) % 8, &mut board)
}

fn main(rt: HostRuntime) {
    records::replay(&mut rt.stdin(), rt.stdout(), answer);
}
