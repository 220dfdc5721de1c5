// The lines of the program `segments` (docs/SEGMENTS.md): those of a board's listed places (`listed`), and that of a refused slip
// (`refusal`).
#![tactic(auto)]

pub mod listed;
pub mod refusal;
