// The calls of a book, one by one: each says what the rules say, and leads where they lead, after any history.
#![tactic(auto, using(crate::proofs::Histories::stands_push))]

ghost use Rattle.std.specs.Prelude.{◌≡◌, Bool, false, List, [], ◌∷◌, ◌++◌, length, is_ok};
ghost use Rattle.tally.specs.Events.{Request};
ghost use Rattle.tally.specs.declared.call.Reply.TheVariants.{Designated, Numbered, Paid};
ghost use Rattle.tally.specs.declared.call.Call.TheVariants as call;
ghost use Rattle.ledger.specs.Told.{over, plainly, told};
ghost use Rattle.contract_book.specs.Books.{stand};
ghost use Rattle.contract_book.specs.Stands.{Takes, asked, rows_to};

use crate::state::Book;
use kinds::contract::Contract;
use kinds::quotation::Quotation;
use money::units::Price;
use tally::call::{Marking, Notification, Registration};
use tally::refusal::Refusal;
use tally::rows::{Designation, PageRow, Sums, Trade};

impl<K: Contract> Book<K> {
    // Registers an account, and answers its number.
    pub fn register(&mut self, registration: Registration) -> Result<usize, Refusal>
        ensures takes { Takes K.Contract.means (stand self.old) (asked (call.Register registration) 0) (told Numbered result) (stand self.new) }
        ensures same { is_ok result ≡ false → self.new ≡ self.old }
    {
        self.ledger.register(registration)
    }

    // Takes a trade onto the open session's sheet.
    pub fn trade(&mut self, trade: Trade) -> Result<(), Refusal>
        ensures takes { Takes K.Contract.means (stand self.old) (asked (call.Trade trade) 0) (told plainly result) (stand self.new) }
        ensures same { is_ok result ≡ false → self.new ≡ self.old }
    {
        self.ledger.trade(trade)
    }

    // Hands a quotation within the ranges to the kind.
    #[tactic(auto, using(crate::proofs::Quoting::quotations), unfolding(tally::specs::Questions::questions, tally::specs::Questions::first_unmet))]
    pub fn quote(&mut self, quotation: Quotation) -> Result<(), Refusal>
        ensures takes { Takes K.Contract.means (stand self.old) (asked (call.Quote quotation) 0) (told plainly result) (stand self.new) }
        ensures same { is_ok result ≡ false → self.new ≡ self.old }
    {
        let Quotation { price, quantity } = quotation;
        if Price::new(price).is_none() {
            return Err(Refusal::Unpriced);
        }
        if !(Quotation::LEAST_QUANTITY..=Quotation::GREATEST_QUANTITY).contains(&quantity) {
            return Err(Refusal::Uncounted);
        }
        Ok(self.kind.quote(quotation)?)
    }

    // Takes a seller's notice of delivery.
    pub fn notify(&mut self, notification: Notification) -> Result<(), Refusal>
        ensures takes { Takes K.Contract.means (stand self.old) (asked (call.Notify notification) 0) (told plainly result) (stand self.new) }
        ensures same { is_ok result ≡ false → self.new ≡ self.old }
    {
        self.ledger.notify(notification)
    }

    // Pairs the oldest due notice with the oldest lot.
    pub fn designate(&mut self) -> Result<Designation, Refusal>
        ensures takes { Takes K.Contract.means (stand self.old) (asked call.Designate 0) (told Designated result) (stand self.new) }
        ensures same { is_ok result ≡ false → self.new ≡ self.old }
    {
        self.ledger.designate()
    }

    // Marks the open session: pays each account into its row of the page, and says what the page comes to.
    pub fn mark(&mut self, marking: Marking, page: &mut [PageRow]) -> Result<Sums, Refusal>
        ensures takes { Takes K.Contract.means (stand self.old) (asked (call.Mark marking) (length page.old)) (told Paid result) (stand self.new) }
        ensures page { page.new ≡ over (rows_to K.Contract.means (stand self.old) (asked (call.Mark marking) (length page.old))) page.old }
        ensures same { is_ok result ≡ false → self.new ≡ self.old }
    {
        self.ledger.mark(marking, page)
    }

    // Expires the contract at the kind's final price, where there is one.
    pub fn expire(&mut self, page: &mut [PageRow]) -> Result<Sums, Refusal>
        ensures takes { Takes K.Contract.means (stand self.old) (asked call.Expire (length page.old)) (told Paid result) (stand self.new) }
        ensures page { page.new ≡ over (rows_to K.Contract.means (stand self.old) (asked call.Expire (length page.old))) page.old }
        ensures same { is_ok result ≡ false → self.new ≡ self.old }
    {
        self.ledger.expire(self.kind.final_price(), page)
    }
}
