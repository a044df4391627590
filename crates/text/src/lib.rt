// Text written into a slice handed in: words and decimal numbers, one after the other.
#![tactic(auto)]

pub mod pieces;
pub mod writer;
