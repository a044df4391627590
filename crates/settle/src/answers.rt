// What an open book says to one record.
ghost use Rattle.std.specs.Prelude.{◌≡◌};
ghost use Rattle.reader.specs.Saying.{said};
ghost use Rattle.desk.specs.Courses.{course};
ghost use Rattle.settle.specs.Answers.{answered, answering};

use crate::quotes::quote;
use desk::faults::Fault;
use kinds::contract::Contract;
use kinds::quotation::Quotation;
use reader::fault::ReadFault;
use reader::record::{Content, Record};

// What came of a record that is not refused: its quotation was taken, or nothing is done with it yet.
#[derive(Clone, Copy, Debug, PartialEq, Eq)]
pub enum Outcome {
    Taken,
    Unserved,
}

// What an open book says to a record.
pub fn answer<K: Contract>(kind: &mut K, came: Result<Record, ReadFault>) -> Result<Outcome, Fault>
    ensures value { result ≡ answering (course K.Contract.means) kind.old (said came.entry) }
    ensures after { kind.new ≡ answered (course K.Contract.means) kind.old (said came.entry) }
{
    match came?.content {
        Content::Quotation { price, quantity } => {
            let quotation = Quotation {
                price: u64::from(price.value()),
                quantity: u64::from(quantity.value()),
            };
            quote(kind, quotation)?;
            Ok(Outcome::Taken)
        }
        _ => Ok(Outcome::Unserved),
    }
}
