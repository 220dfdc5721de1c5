// What the program `burst` is given: its arguments (`arguments`) with their numbers (`decimal`), a burst file (`file`), and why
// it is not shown (`problem`).
#![tactic(auto)]

pub mod arguments;
pub mod decimal;
pub mod file;
pub mod problem;
