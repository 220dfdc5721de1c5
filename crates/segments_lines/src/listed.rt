// The board's lines: segment, word, outcome, pass, score and start sample.
use burst_lines::{Name, score};
use burst_text::figures::Word;
use burst_text::output::Blocks;
use slip::Slip;
use std::io;
use std::io::{Stdout, Write};

fn line<W: Write>(out: &mut W, slip: Slip) -> io::Result<()> {
    let Slip {
        kind,
        word,
        outcome,
        start,
        segment,
        ..
    } = slip;
    let word = Word { kind, word };
    let name = Name(outcome);
    let score = score(outcome);
    writeln!(
        out,
        "segment {segment}, word {word}, {name}, score {score}, start {start}"
    )
}

// Places of 44 bytes, one after another. Each has a slip: a put that is answered leaves a good board.
fn places<W: Write>(out: &mut W, listed: &[u8]) -> io::Result<()> {
    for place in listed.chunks_exact(44) {
        if let Ok(slip) = slip::read_slip(place) {
            line(out, slip)?;
        }
    }
    Ok(())
}

// Inside: a line for each of a board's first `count` places; no more are listed than there are.
pub fn print(to: Stdout, board: &[u8], count: u32) -> io::Result<()> {
    let mut block = [0u8; 65536];
    let mut out = Blocks::new(&mut block, to);
    let count = count as usize;
    if count <= board.len() / 44 {
        places(&mut out, &board[..44 * count])?;
    }
    out.flush()
}
