// Records out of bytes. An input is cut into lines, each line is one record, and each is read as what it says or as the first fault that applies.
#![tactic(auto)]

pub mod digits;
pub mod fault;
pub mod identity;
mod layout;
pub mod reading;
pub mod record;
pub mod whole;
