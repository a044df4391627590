// A file of records to the lines of its report: bytes in, bytes out, into slices handed in.
#![tactic(auto)]

mod calls;
pub mod faults;
mod gathering;
pub mod openings;
pub mod place;
pub mod printed;
pub mod records;
pub mod run;
mod telling;
pub mod waiting;
pub mod whole;
