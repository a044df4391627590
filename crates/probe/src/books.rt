// A book over any of the three kinds.
use contract_book::state::{Book, Unbuilt};
use kinds::delivering::Delivering;
use kinds::indexes::LastFive;
use kinds::terms::Terms;
use kinds::weighted::WeightedAverage;
use money::currency::Currency;
use std::str::FromStr;
use tally::call::{Answer, Call};
use tally::refusal::Refusal;
use tally::rows::PageRow;
use tally::sessions::Sessions;

#[derive(Clone, Copy)]
pub enum KindName {
    Delivering,
    Average,
    Five,
}

// A word that names no kind.
#[derive(Clone, Copy)]
pub struct UnknownKind;

impl FromStr for KindName {
    type Err = UnknownKind;

    fn from_str(word: &str) -> Result<KindName, UnknownKind> {
        match word {
            "delivering" => Ok(KindName::Delivering),
            "average" => Ok(KindName::Average),
            "five" => Ok(KindName::Five),
            _ => Err(UnknownKind),
        }
    }
}

// What a book is asked to be built on.
#[derive(Clone, Copy)]
pub struct Building {
    pub kind: KindName,
    pub size: u64,
    pub currency: Currency,
    pub tick: u64,
    pub sessions: Sessions,
}

impl Building {
    // The terms of the kind, where there are such terms.
    fn terms(self) -> Option<Terms> {
        let size = u32::try_from(self.size).ok()?;
        let tick = u32::try_from(self.tick).ok()?;
        Terms::new(size, self.currency, tick)
    }
}

// Why there is no book: its numbers make no terms, or it was refused.
#[derive(Clone, Copy)]
pub enum Unmade {
    Terms,
    Refused(Refusal),
}

impl<K: Drop> From<Unbuilt<K>> for Unmade {
    fn from(unbuilt: Unbuilt<K>) -> Unmade {
        Unmade::Refused(unbuilt.refusal)
    }
}

// An enum and no `dyn`: what is built here is handed out, which a `dyn` cannot be.
#[derive(Drop)]
pub enum AnyBook {
    Delivering(Book<Delivering>),
    Average(Book<WeightedAverage>),
    Five(Book<LastFive>),
}

impl AnyBook {
    pub fn build(building: Building) -> Result<AnyBook, Unmade> {
        let terms = building.terms().ok_or(Unmade::Terms)?;
        let sessions = building.sessions;
        Ok(match building.kind {
            KindName::Delivering => {
                AnyBook::Delivering(Book::build(Delivering::new(terms), sessions)?)
            }
            KindName::Average => {
                AnyBook::Average(Book::build(WeightedAverage::new(terms), sessions)?)
            }
            KindName::Five => AnyBook::Five(Book::build(LastFive::new(terms), sessions)?),
        })
    }

    // Makes a call of the book, whichever kind it is over.
    pub fn apply(&mut self, call: Call, page: &mut [PageRow]) -> Answer {
        match self {
            AnyBook::Delivering(book) => book.apply(call, page),
            AnyBook::Average(book) => book.apply(call, page),
            AnyBook::Five(book) => book.apply(call, page),
        }
    }
}
