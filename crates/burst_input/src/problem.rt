// Why a burst is not shown.
use burst_file::format::Problem;
use std::fmt;
use std::io::Error;
use util::refusal::Refusal;

#[derive(Clone, Copy, Debug)]
pub enum Failure {
    // a read failed
    Input(Error),
    // a write failed
    Output(Error),
    Bad(Problem),
}

impl From<Problem> for Failure {
    fn from(problem: Problem) -> Failure {
        Failure::Bad(problem)
    }
}

impl From<Refusal> for Failure {
    fn from(refusal: Refusal) -> Failure {
        Failure::Bad(Problem::Refused(refusal))
    }
}

impl fmt::Display for Failure {
    fn fmt<W: fmt::Write>(&self, f: &mut fmt::Formatter<W>) -> fmt::Result {
        match self {
            Failure::Input(error) => write!(f, "the input: {}", say::Words(error)),
            Failure::Output(error) => write!(f, "standard output: {}", say::Words(error)),
            Failure::Bad(problem) => write!(f, "{problem}"),
        }
    }
}
