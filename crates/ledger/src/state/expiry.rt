// Expiry: its questions, and the page that pays what is carried at the final price.
ghost use Rattle.std.specs.Prelude.{◌≡◌, ◌+◌, Bool, false, not, ◌&&◌, length, is_ok, Some, None, ◌==◌, IfOk, MatchResult};
ghost use Rattle.kinds.specs.Meaning.{cents_of};
ghost use Rattle.tally.specs.Events.{expiring};
ghost use Rattle.tally.specs.Pages.{by_expiry, page as page_of, roll};
ghost use Rattle.tally.specs.Questions.{verdict};
ghost use Rattle.tally.specs.Runs.{after, reply, written};
ghost use Rattle.tally.specs.Steps.{expire};
ghost use Rattle.tally.specs.declared.call.Reply.TheVariants.{Paid};
ghost use Rattle.ledger.specs.Ledgers.{view, terms_of};
ghost use Rattle.ledger.specs.Told.{over, told};

use crate::owed::Settling;
use crate::settled::settle_accounts;
use crate::state::Ledger;
use money::units::{Price, Rate};
use tally::refusal::Refusal;
use tally::rows::{PageRow, Sums};

impl Ledger {
    // Whether the contract can expire: it does not deliver, its last session is marked, and it has not expired yet.
    fn is_expiring(&self) -> bool
        ensures { result ≡ (not (terms_of self.now).delivers && ((view self.now).session == (terms_of self.now).last + 1 && not (view self.now).expired)) }
    {
        !self.terms.delivers && u64::from(self.session) == self.terms.last + 1 && !self.expired
    }

    // Why the contract does not expire, if it does not.
    #[tactic(auto, unfolding(tally::specs::Questions::questions, tally::specs::Questions::first_unmet))]
    fn expiry_verdict(&self, final_price: Option<Price>, rows: usize) -> Result<Price, Refusal>
        ensures verdict { MatchResult result (λ _. verdict (terms_of self.now) (view self.now) (expiring (cents_of final_price) rows) ≡ None) (λ e. verdict (terms_of self.now) (view self.now) (expiring (cents_of final_price) rows) ≡ Some e) }
        ensures read { IfOk result (λ price. final_price ≡ Some price) }
    {
        if !self.is_expiring() {
            return Err(Refusal::NotExpiring);
        }
        let price = final_price.ok_or(Refusal::NoFinalPrice)?;
        if !self.fits_page(rows) {
            return Err(Refusal::PageShort);
        }
        Ok(price)
    }

    // Writes an expiry that meets its questions: the page is paid at the last marking's rate, and nothing is carried or held in lots any more.
    fn expire_at(&mut self, price: Price, page: &mut [PageRow]) -> Sums
        requires { verdict (terms_of self.old) (view self.old) (expiring (Some price.number) (length page.old)) ≡ None }
        ensures view { view self.new ≡ expire (terms_of self.old) (view self.old) price.number }
        ensures terms { self.new.terms ≡ self.old.terms }
        ensures page { page.new ≡ over (page_of (terms_of self.old) (view self.old).rate (by_expiry (terms_of self.old) (view self.old) price.number) (roll (view self.old))).rows page.old }
        ensures sums { result ≡ (page_of (terms_of self.old) (view self.old).rate (by_expiry (terms_of self.old) (view self.old) price.number) (roll (view self.old))).totals }
    {
        let rate = Rate::new(u64::from(self.rate)).unwrap();
        let owed = self.owed(Settling::Expiry, price);
        let sums = self.pay(owed.as_slice(), rate, page);
        settle_accounts(
            self.accounts.as_mut_slice(),
            owed.as_slice(),
            Settling::Expiry,
        );
        self.lots.clear();
        self.expired = true;
        sums
    }

    // Expires the contract at its final price, where there is one.
    #[tactic(auto, unfolding(tally::specs::Steps::done))]
    pub fn expire(
        &mut self,
        final_price: Option<Price>,
        page: &mut [PageRow],
    ) -> Result<Sums, Refusal>
        ensures answers { told Paid result ≡ reply (terms_of self.old) (view self.old) (expiring (cents_of final_price) (length page.old)) }
        ensures after { view self.new ≡ after (terms_of self.old) (view self.old) (expiring (cents_of final_price) (length page.old)) }
        ensures terms { self.new.terms ≡ self.old.terms }
        ensures page { page.new ≡ over (written (terms_of self.old) (view self.old) (expiring (cents_of final_price) (length page.old))) page.old }
        ensures same { is_ok result ≡ false → self.new ≡ self.old }
    {
        let price = self.expiry_verdict(final_price, page.len())?;
        Ok(self.expire_at(price, page))
    }
}
