// What a contract kind is to the book above it.
ghost use Rattle.std.specs.Prelude.{◌≡◌, ◌≤◌};
ghost use Rattle.kinds.specs.Meaning.{Meaning, cents_of};

use crate::quotation::{KindFault, Quotation};
use crate::terms::Terms;
use money::currency::Currency;
use money::units::Price;

// One trait for every kind: a book above it is written once.
pub trait Contract {
    // What the kind answers and becomes, with the laws that every kind owes.
    ghost means: { Meaning Self };

    // How many units one contract is of.
    fn contract_size(&self) -> u32
        ensures value { result ≡ means.size self.now }
        ensures within { (1 ≤ result) × (result ≤ 100) };

    // What prices are counted in.
    fn currency(&self) -> Currency
        ensures { result ≡ means.currency self.now };

    // The step that prices of trades go by, in cents.
    fn tick(&self) -> u32
        ensures value { result ≡ means.tick self.now }
        ensures within { 1 ≤ result };

    // What never changes of the contract. The three above are within their ranges, so there are such terms.
    // They are required one by one: with `terms` in their place, whoever implements a kind elsewhere would have to make one.
    fn terms(&self) -> Terms
        ensures size { result.size ≡ means.size self.now }
        ensures currency { result.currency ≡ means.currency self.now }
        ensures tick { result.tick ≡ means.tick self.now }
    {
        Terms::new(self.contract_size(), self.currency(), self.tick()).unwrap()
    }

    // Whether the contract ends in delivery.
    fn delivers(&self) -> bool
        ensures { result ≡ means.delivers self.now };

    // The price that the contract ends at, once there is one.
    fn final_price(&self) -> Option<Price>
        ensures { cents_of result ≡ means.final self.now };

    // Takes a quotation, or says which of the kind's own refusals it meets.
    fn quote(&mut self, quotation: Quotation) -> Result<(), KindFault>
        ensures answer { result ≡ means.reply self.old quotation }
        ensures after { self.new ≡ means.after self.old quotation };
}
