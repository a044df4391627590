// Money: currencies, ranges of numbers as types, and what one line pays.
#![tactic(auto)]

pub mod amount;
pub mod currency;
pub mod laws;
pub mod payment;
pub mod units;
