// What can be wrong with a record.
ghost use Rattle.std.specs.Prelude.{◌≡◌};
ghost use Rattle.reader.specs.Numbers.{fault_number, fault_place};

// A fault with its place, a byte of the input counted from 0: of a misfit the first byte that does not fit, of any other the record's first.
// Each variant keeps its place: a struct of kind and place takes a second enum and a longer line at each of the four faults made, for one arm less in `place`.
#[derive(Clone, Copy, Debug, PartialEq, Eq)]
pub enum ReadFault {
    UnknownMark(usize),
    Misfit(usize),
    OutOfTurn(usize),
    Unlisted(usize),
}

impl ReadFault {
    // The number that the fault is reported under.
    pub fn number(self) -> u8
        ensures value { result ≡ fault_number self }
    {
        match self {
            ReadFault::UnknownMark(_) => 24,
            ReadFault::Misfit(_) => 25,
            ReadFault::OutOfTurn(_) => 26,
            ReadFault::Unlisted(_) => 27,
        }
    }

    // The byte of the input that the fault names.
    pub fn place(self) -> usize
        ensures value { result ≡ fault_place self }
    {
        match self {
            ReadFault::UnknownMark(place)
            | ReadFault::Misfit(place)
            | ReadFault::OutOfTurn(place)
            | ReadFault::Unlisted(place) => place,
        }
    }
}
