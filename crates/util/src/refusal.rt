// Why an entry does nothing: the refusals of documents 01 and 02, each with the number by which C and the slips know it.
ghost use Rattle.std.specs.Prelude.{◌≡◌};
ghost use Rattle.util.specs.Refusal.{number_of, number, place, itself, meaning};

use std::fmt;

#[derive(Clone, Copy, Debug, PartialEq, Eq)]
pub enum Refusal {
    Unnamed,
    TooMany,
    Window,
    Length,
    NotBits,
    Terms,
    Blanked,
    Sample,
    Tracker,
    Blocks,
    NotSymbols,
    Layout,
    Slip,
    FullBoard,
    Noise,
    Labels,
}

impl Refusal {
    // Inside: the papers' number.
    pub fn number(self) -> u8
        ensures { result ≡ number_of self }
    {
        match self {
            Refusal::Unnamed => 1,
            Refusal::TooMany => 2,
            Refusal::Window => 3,
            Refusal::Length => 4,
            Refusal::NotBits => 5,
            Refusal::Terms => 6,
            Refusal::Blanked => 7,
            Refusal::Sample => 8,
            Refusal::Tracker => 9,
            Refusal::Blocks => 10,
            Refusal::NotSymbols => 11,
            Refusal::Layout => 12,
            Refusal::Slip => 13,
            Refusal::FullBoard => 14,
            Refusal::Noise => 15,
            Refusal::Labels => 16,
        }
    }
}

impl fmt::Display for Refusal {
    fn fmt<W: fmt::Write>(&self, f: &mut fmt::Formatter<W>) -> fmt::Result {
        f.write_str(match self {
            Refusal::Unnamed => "no such mode or kind",
            Refusal::TooMany => "more than 10,240 bits",
            Refusal::Window => "no window of the mode",
            Refusal::Length => "a list of another length",
            Refusal::NotBits => "a bit above 1",
            Refusal::Terms => "a term that is not finite, or beyond 1,000,000",
            Refusal::Blanked => "more samples blanked than there are",
            Refusal::Sample => "an energy or a noise out of range",
            Refusal::Tracker => "a tracker that no calls leave",
            Refusal::Blocks => "blocks out of range",
            Refusal::NotSymbols => "a symbol above 31",
            Refusal::Layout => "no such layout",
            Refusal::Slip => "no slip, or no board",
            Refusal::FullBoard => "512 other segments are listed",
            Refusal::Noise => "local noise asked of numbers out of range",
            Refusal::Labels => "a table that does not hold the labels",
        })
    }
}

// 0, or the refusal's number, as C has it; the result goes to its place.
pub fn told<T: Copy>(answer: Result<T, Refusal>, lent: &mut T) -> u32
    ensures answer { result ≡ number (meaning answer) }
    ensures lent { lent.new ≡ place itself (meaning answer) lent.old }
{
    match answer {
        Ok(value) => {
            *lent = value;
            0
        }
        Err(refusal) => refusal.number() as u32,
    }
}

// The same of an entry that has no other result.
pub fn number_told(answer: Result<(), Refusal>) -> u32
    ensures { result ≡ number (meaning answer) }
{
    match answer {
        Ok(()) => 0,
        Err(refusal) => refusal.number() as u32,
    }
}
