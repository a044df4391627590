// A line of the script: the building of a book, or a call.
use crate::books::Building;
use crate::words::Words;
use kinds::quotation::Quotation;
use money::currency::{Currency, Residency};
use tally::call::{Call, Marking, Notification, Registration};
use tally::rows::{Identity, Trade};
use tally::sessions::Sessions;

// The most rows that a page is handed in with.
const MOST_ROWS: usize = 80;

// A call, and how many rows its page has where it pays into one.
#[derive(Clone, Copy)]
pub struct Request {
    pub call: Call,
    pub page: Option<usize>,
}

#[derive(Clone, Copy)]
pub enum Line {
    Build(Building),
    Send(Request),
}

// Currency and residency are read by functions and no `FromStr`, which an enum of another crate cannot be given here.
fn currency(words: &mut Words) -> Option<Currency> {
    match words.word()? {
        "real" => Some(Currency::Real),
        "dollar" => Some(Currency::Dollar),
        _ => None,
    }
}

fn residency(words: &mut Words) -> Option<Residency> {
    match words.word()? {
        "R" => Some(Residency::Resident),
        "N" => Some(Residency::Nonresident),
        _ => None,
    }
}

fn building(words: &mut Words) -> Option<Building> {
    Some(Building {
        kind: words.value()?,
        size: words.value()?,
        currency: currency(words)?,
        tick: words.value()?,
        sessions: Sessions {
            last: words.value()?,
            opens: words.value()?,
            closes: words.value()?,
        },
    })
}

fn registration(words: &mut Words) -> Option<Registration> {
    Some(Registration {
        identity: Identity {
            customer: words.bytes()?,
            house: words.bytes()?,
            member: words.bytes()?,
        },
        residency: residency(words)?,
    })
}

fn trade(words: &mut Words) -> Option<Trade> {
    Some(Trade {
        buyer: words.value()?,
        seller: words.value()?,
        price: words.value()?,
        contracts: words.value()?,
    })
}

fn quotation(words: &mut Words) -> Option<Quotation> {
    Some(Quotation {
        price: words.value()?,
        quantity: words.value()?,
    })
}

fn notification(words: &mut Words) -> Option<Notification> {
    Some(Notification {
        seller: words.value()?,
        contracts: words.value()?,
    })
}

fn marking(words: &mut Words) -> Option<Marking> {
    Some(Marking {
        price: words.value()?,
        rate: words.value()?,
    })
}

fn rows(words: &mut Words) -> Option<usize> {
    words.value().filter(|&rows| rows <= MOST_ROWS)
}

// The call of a name, from the words behind it.
fn named_call(name: &str, words: &mut Words) -> Option<Request> {
    let call = match name {
        "register" => Call::Register(registration(words)?),
        "trade" => Call::Trade(trade(words)?),
        "quote" => Call::Quote(quotation(words)?),
        "notify" => Call::Notify(notification(words)?),
        "designate" => Call::Designate,
        "mark" => Call::Mark(marking(words)?),
        "expire" => Call::Expire,
        _ => return None,
    };
    let page = match call {
        Call::Mark(_) | Call::Expire => Some(rows(words)?),
        _ => None,
    };
    Some(Request { call, page })
}

// The line that some words make, or nothing where they make none.
pub fn read(line: &str) -> Option<Line> {
    let mut words = Words::new(line);
    let line = match words.word()? {
        "build" => Line::Build(building(&mut words)?),
        name => Line::Send(named_call(name, &mut words)?),
    };
    words.is_done().then_some(line)
}
