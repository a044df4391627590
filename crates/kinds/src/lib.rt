// Contract kinds: what each is to a book, its own quotation rule, and the table of the tickers.
#![tactic(auto)]

pub mod contract;
pub mod delivering;
pub mod indexes;
pub(crate) mod means;
pub mod months;
pub mod quotation;
pub mod terms;
pub mod tickers;
pub mod weighted;
pub mod worked;
