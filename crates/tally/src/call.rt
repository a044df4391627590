// What is sent to a book, and what it answers.
use crate::refusal::Refusal;
use crate::rows::{Designation, Identity, Sums, Trade};
use kinds::quotation::Quotation;
use money::currency::Residency;

#[derive(Clone, Copy, Debug, PartialEq, Eq)]
pub struct Registration {
    pub identity: Identity,
    pub residency: Residency,
}

// A seller's notice of delivery.
#[derive(Clone, Copy, Debug, PartialEq, Eq)]
pub struct Notification {
    pub seller: usize,
    pub contracts: u64,
}

// The marking of the open session: its settlement price and its rate.
#[derive(Clone, Copy, Debug, PartialEq, Eq)]
pub struct Marking {
    pub price: u64,
    pub rate: u64,
}

// One call of a book.
#[derive(Clone, Copy, Debug, PartialEq, Eq)]
pub enum Call {
    Register(Registration),
    Trade(Trade),
    Quote(Quotation),
    Notify(Notification),
    Designate,
    Mark(Marking),
    Expire,
}

// What an accepted call brings.
#[derive(Clone, Copy, Debug, PartialEq, Eq)]
pub enum Reply {
    // The number of a new account.
    Numbered(usize),
    Accepted,
    Designated(Designation),
    // What the page comes to.
    Paid(Sums),
}

// What a call is answered.
pub type Answer = Result<Reply, Refusal>;
