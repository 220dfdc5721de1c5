// What the programs `burst` and `segments` print with: text by way of a lent block (`output`), and a float (`figures`).
#![tactic(auto)]

pub mod figures;
pub mod output;
