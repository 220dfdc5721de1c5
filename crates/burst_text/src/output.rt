// Text by way of a lent block, which goes out when it is full: whole blocks, and not a write a line.
use std::io;
use std::io::{Print, Write};

#[derive(Drop)]
pub struct Blocks<'a, P> {
    block: &'a mut [u8],
    // how many bytes of the block wait to go out
    waiting: usize,
    to: P,
}

impl<'a, P: Print + Copy> Blocks<'a, P> {
    // Inside: an empty block, whose bytes go to the writer.
    pub fn new(block: &'a mut [u8], to: P) -> Blocks<'a, P> {
        Blocks {
            block,
            waiting: 0,
            to,
        }
    }
}

impl<P: Print + Copy> Write for Blocks<'_, P> {
    fn write(&mut self, text: &[u8]) -> io::Result<usize> {
        if self.waiting >= self.block.len() {
            self.flush()?;
        }
        let waiting = self.waiting.min(self.block.len());
        let room = &mut self.block[waiting..];
        let n = room.len().min(text.len());
        room[..n].copy_from_slice(&text[..n]);
        self.waiting = waiting + n;
        Ok(n)
    }

    // What still waits goes out.
    fn flush(&mut self) -> io::Result<()> {
        let n = self.waiting.min(self.block.len());
        self.waiting = 0;
        let to = self.to;
        Print::write_all(&to, &self.block[..n])
    }
}
