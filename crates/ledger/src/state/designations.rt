// A designation: the oldest due notice is given the oldest lot.
ghost use Rattle.std.specs.Prelude.{◌≡◌, ◌-◌, ◌≤◌, false, length, is_ok, None, Ok, slice_index_or, unsigned_abs};
ghost use Rattle.tally.specs.Book.{numbered};
ghost use Rattle.tally.specs.Events.{designating};
ghost use Rattle.tally.specs.Law.{Registered};
ghost use Rattle.tally.specs.Questions.{is_due, nobody, verdict};
ghost use Rattle.tally.specs.Runs.{after, designation_of, reply};
ghost use Rattle.tally.specs.Steps.{designate_oldest, designated_account, paired as paired_of};
ghost use Rattle.tally.specs.declared.call.Reply.TheVariants.{Designated};
ghost use Rattle.ledger.specs.Designations.{carrying};
ghost use Rattle.ledger.specs.Ledgers.{view, terms_of};
ghost use Rattle.ledger.specs.Told.{judged, told};

use crate::state::Ledger;
use tally::refusal::Refusal;
use tally::rows::{Account, Designation, Lot, Notice};

// The contracts that a notice and a lot have both.
fn paired(notice: Notice, lot: Lot) -> u32
    ensures { result ≡ paired_of notice lot }
{
    notice.count.min(lot.count)
}

// Adds signed contracts to those that an account carries.
fn carry(account: &mut Account, contracts: i64)
    requires { (unsigned_abs account.old.carried ≤ 6000) × (unsigned_abs contracts ≤ 3000) }
    ensures { account.new ≡ carrying account.old contracts }
{
    account.carried += contracts;
}

// Takes what a notice and a lot have both off the positions of their accounts: the seller is less short, the owner less long.
fn deliver(accounts: &mut [Account], notice: Notice, lot: Lot)
    requires seller { Registered (length accounts.old) notice.seller }
    requires owner { Registered (length accounts.old) lot.owner }
    requires short { unsigned_abs (slice_index_or accounts.old (notice.seller - 1) nobody).carried ≤ 3000 }
    requires long { unsigned_abs (slice_index_or accounts.old (lot.owner - 1) nobody).carried ≤ 3000 }
    requires few { notice.count ≤ 3000 }
    ensures { accounts.new ≡ numbered (designated_account notice lot) 1 accounts.old }
{
    let contracts = i64::from(paired(notice, lot));
    carry(&mut accounts[notice.seller - 1], contracts);
    carry(&mut accounts[lot.owner - 1], -contracts);
}

impl Ledger {
    // Whether the oldest notice is of an earlier session.
    pub(crate) fn has_due_notice(&self) -> bool
        ensures { result ≡ is_due (view self.now).session (view self.now).notices }
    {
        self.notices
            .oldest()
            .is_some_and(|notice| notice.session < self.session)
    }

    // Why there is no designation, if there is none.
    #[tactic(auto, unfolding(tally::specs::Questions::questions, tally::specs::Questions::first_unmet))]
    fn designation_verdict(&self) -> Result<(), Refusal>
        ensures { result ≡ judged (verdict (terms_of self.now) (view self.now) designating) }
    {
        if !self.has_due_notice() {
            return Err(Refusal::NoneDue);
        }
        Ok(())
    }

    // Gives the oldest notice, which is due, the oldest lot.
    fn pair_oldest(&mut self) -> Designation
        requires { verdict (terms_of self.old) (view self.old) designating ≡ None }
        ensures answer { Ok (Designated result) ≡ designation_of (view self.old) (view self.old).notices (view self.old).lots }
        ensures view { view self.new ≡ designate_oldest (view self.old) (view self.old).notices (view self.old).lots }
        ensures terms { self.new.terms ≡ self.old.terms }
    {
        let notice = self.notices.oldest().unwrap();
        let lot = self.lots.oldest().unwrap();
        let contracts = paired(notice, lot);
        deliver(self.accounts.as_mut_slice(), notice, lot);
        self.notices.take_oldest(contracts);
        self.lots.take_oldest(contracts);
        Designation {
            buyer: lot.owner,
            seller: notice.seller,
            contracts,
            price: self.price,
        }
    }

    // Pairs the oldest due notice with the oldest lot, for the lesser count.
    #[tactic(auto, unfolding(tally::specs::Steps::done))]
    pub fn designate(&mut self) -> Result<Designation, Refusal>
        ensures answers { told Designated result ≡ reply (terms_of self.old) (view self.old) designating }
        ensures after { view self.new ≡ after (terms_of self.old) (view self.old) designating }
        ensures terms { self.new.terms ≡ self.old.terms }
        ensures same { is_ok result ≡ false → self.new ≡ self.old }
    {
        self.designation_verdict()?;
        Ok(self.pair_oldest())
    }
}
