// The engine of a book, from the ground up: its ledger, the calls on it, and what a page owes and pays.
#![tactic(auto)]

mod owed;
mod pages;
mod settled;
mod sheet;
pub mod state;
mod turned;
