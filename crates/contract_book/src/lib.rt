// The book over any contract kind: its calls, a run of them, and the law of every run.
#![tactic(auto)]

pub mod building;
pub mod calls;
pub mod laws;
pub mod readers;
pub mod sending;
pub mod state;
