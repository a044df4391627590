// What is asked before a quotation is taken.
ghost use Rattle.std.specs.Prelude.{◌≡◌};
ghost use Rattle.desk.specs.Courses.{course};
ghost use Rattle.settle.specs.Courses.{quoted, quoting};

use kinds::contract::Contract;
use kinds::quotation::Quotation;
use money::units::Price;
use tally::refusal::Refusal;

// Asks whether a quotation is within the ranges, and hands it to the kind.
// `Book::quote` asks the same in the words of a whole book's log; one function for both would owe a third contract that holds both.
pub fn quote<K: Contract>(kind: &mut K, quotation: Quotation) -> Result<(), Refusal>
    ensures answer { result ≡ quoting (course K.Contract.means) kind.old quotation }
    ensures after { kind.new ≡ quoted (course K.Contract.means) kind.old quotation }
{
    if Price::new(quotation.price).is_none() {
        return Err(Refusal::Unpriced);
    }
    if !(Quotation::LEAST_QUANTITY..=Quotation::GREATEST_QUANTITY).contains(&quotation.quantity) {
        return Err(Refusal::Uncounted);
    }
    Ok(kind.quote(quotation)?)
}
