// The specification of a book: what its rows, calls and refusals are, and the laws of every run of calls.
#![tactic(auto)]

pub mod call;
pub mod laws;
pub mod refusal;
pub mod rows;
pub mod sessions;
