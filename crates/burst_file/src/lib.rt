// A burst file (docs/BURST-FORMAT.md): the numbers in its bytes and its head (`format`), and what is told of a burst beside
// the entries' answers (`verdict`). Definitions in specs/.
#![tactic(auto)]

pub mod format;
pub mod verdict;
