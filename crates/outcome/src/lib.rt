// A header's outcome: given by the way its word came, its score and the ceiling (document 02, #107); and as numbers, as the C functions
// and the slips have it, and back. Definitions in specs/ and in crate trellis.
#![tactic(auto)]

ghost use Rattle.std.specs.Prelude.{◌≡◌};
ghost use Rattle.trellis.specs.Answer.{outcome_of, score_in};
ghost use Rattle.trellis.specs.Numbers.{single};
ghost use Rattle.trellis.specs.Search.{closing, candidate};
ghost use Rattle.search.specs.Found.{how_is};
ghost use Rattle.outcome.specs.Outcome.{outcome_is};
ghost use Rattle.outcome.specs.Numbers.{outcome_number, pass_number, outcome_at};

// How sure the word is (document 02, #107); each carries the word's score. A word that is out by closing, or is the best candidate
// after three passes, is Sure where its score is at or above the ceiling, with the last pass run. Below it the one is Likely, with
// its pass (2 or 3), and the other Kept. Open is the last unclosed word.
#[derive(Clone, Copy, Debug, PartialEq)]
pub enum Outcome {
    Sure(f32, u8),
    Likely(f32, u8),
    Kept(f32),
    Open(f32),
}

// Whether the ceiling is above the score, at f32 as both stand.
fn stays_below(score: f32, ceiling: f32) -> bool
    ensures { result ≡ single.gt ceiling score }
{
    score < ceiling
}

// A word that is out by closing in a pass.
fn closed(pass: u8, score: f32, ceiling: f32) -> Outcome
    ensures { outcome_is result ≡ outcome_of single (closing pass) score ceiling }
{
    if stays_below(score, ceiling) {
        return Outcome::Likely(score, pass);
    }
    Outcome::Sure(score, pass)
}

// The best candidate after three passes, whichever of them had it.
fn best(score: f32, ceiling: f32) -> Outcome
    ensures { outcome_is result ≡ outcome_of single candidate score ceiling }
{
    if stays_below(score, ceiling) {
        return Outcome::Kept(score);
    }
    Outcome::Sure(score, 3)
}

// Inside: the outcome that the search's way to its word makes, with its score and the ceiling.
pub fn outcome_of(how: search::How, score: f32, ceiling: f32) -> Outcome
    ensures { outcome_is result ≡ outcome_of single (how_is how) score ceiling }
{
    match how {
        search::How::Closing(pass) => closed(pass, score, ceiling),
        search::How::Candidate => best(score, ceiling),
        search::How::Unclosed => Outcome::Open(score),
    }
}

// 0 Sure, 1 Kept, 2 Open, 3 Likely; the pass of a Sure or a Likely, else 0; the score.
#[derive(Clone, Copy, Debug, PartialEq)]
pub struct Numbers {
    pub outcome: u8,
    pub pass: u8,
    pub score: f32,
}

// Inside: an outcome as numbers.
pub fn in_numbers(outcome: Outcome) -> Numbers
    ensures { (result.outcome ≡ outcome_number (outcome_is outcome)) × (result.pass ≡ pass_number (outcome_is outcome))
        × (result.score ≡ score_in (outcome_is outcome)) }
{
    match outcome {
        Outcome::Sure(x, pass) => Numbers {
            outcome: 0,
            pass,
            score: x,
        },
        Outcome::Likely(x, pass) => Numbers {
            outcome: 3,
            pass,
            score: x,
        },
        Outcome::Kept(x) => Numbers {
            outcome: 1,
            pass: 0,
            score: x,
        },
        Outcome::Open(x) => Numbers {
            outcome: 2,
            pass: 0,
            score: x,
        },
    }
}

// Inside: the outcome that numbers name, with the score x: Open where they name none.
pub fn from_numbers(outcome: u8, pass: u8, x: f32) -> Outcome
    ensures { outcome_is result ≡ outcome_at outcome pass x }
{
    match outcome {
        0 => Outcome::Sure(x, pass),
        1 => Outcome::Kept(x),
        3 => Outcome::Likely(x, pass),
        _ => Outcome::Open(x),
    }
}
