// Why a record is refused: it cannot be read, or the book does not take it.
ghost use Rattle.std.specs.Prelude.{◌≡◌};
ghost use Rattle.desk.specs.Refusals.{layer_of, number_of, place_of};
ghost use Rattle.desk.specs.declared.faults.Fault.TheVariants.{Read, Book};

use reader::fault::ReadFault;
use tally::refusal::Refusal;

// A fault of a record, with the layer that found it.
#[derive(Clone, Copy, Debug, PartialEq, Eq)]
pub enum Fault {
    Read(ReadFault),
    Book(Refusal),
}

// The layer of reading.
const READING: u8 = 1;

// The layer of what the book itself asks.
const BOOK: u8 = 2;

// The layer of what a kind asks.
const KIND: u8 = 3;

impl Fault {
    // The layer that refuses.
    pub fn layer(self) -> u8
        ensures value { result ≡ layer_of self }
    {
        match self {
            Fault::Read(_) => READING,
            Fault::Book(Refusal::Unquoted(_)) => KIND,
            Fault::Book(_) => BOOK,
        }
    }

    // The number that the fault is reported under.
    pub fn number(self) -> u8
        ensures value { result ≡ number_of self }
    {
        match self {
            Fault::Read(fault) => fault.number(),
            Fault::Book(refusal) => refusal.number(),
        }
    }

    // The byte of the input that the fault names, of a record that starts at a byte.
    pub fn place(self, start: usize) -> usize
        ensures value { result ≡ place_of start self }
    {
        match self {
            Fault::Read(fault) => fault.place(),
            Fault::Book(_) => start,
        }
    }
}

impl From<ReadFault> for Fault {
    ghost from_gives = { λ cause r. r ≡ Read cause };

    fn from(cause: ReadFault) -> Fault {
        Fault::Read(cause)
    }
}

impl From<Refusal> for Fault {
    ghost from_gives = { λ cause r. r ≡ Book cause };

    fn from(cause: Refusal) -> Fault {
        Fault::Book(cause)
    }
}
