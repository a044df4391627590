// A marking: its questions, the page that it pays, and the session that it closes.
ghost use Rattle.std.specs.Prelude.{◌≡◌, Bool, false, length, is_ok, Some, None, IfOk, MatchResult};
ghost use Rattle.tally.specs.Events.{marking as marks};
ghost use Rattle.tally.specs.Pages.{by_marking, page as page_of, roll};
ghost use Rattle.tally.specs.Questions.{verdict};
ghost use Rattle.tally.specs.Runs.{after, reply, written};
ghost use Rattle.tally.specs.Steps.{mark};
ghost use Rattle.tally.specs.declared.call.Reply.TheVariants.{Paid};
ghost use Rattle.ledger.specs.Ledgers.{view, terms_of};
ghost use Rattle.ledger.specs.Payouts.{marking_at};
ghost use Rattle.ledger.specs.Told.{over, told};

use crate::owed::Settling;
use crate::settled::settle_accounts;
use crate::state::Ledger;
use crate::turned::turn_lots;
use money::units::{Price, Rate};
use tally::call::Marking;
use tally::refusal::Refusal;
use tally::rows::{PageRow, Sums};

impl Ledger {
    // Why a session is not marked, if it is not.
    #[tactic(auto, unfolding(tally::specs::Questions::questions, tally::specs::Questions::first_unmet))]
    fn mark_verdict(&self, marking: Marking, rows: usize) -> Result<(Price, Rate), Refusal>
        ensures verdict { MatchResult result (λ _. verdict (terms_of self.now) (view self.now) (marks marking rows) ≡ None) (λ e. verdict (terms_of self.now) (view self.now) (marks marking rows) ≡ Some e) }
        ensures read { IfOk result (λ v. (v.0.number ≡ marking.price) × (v.1.number ≡ marking.rate)) }
    {
        if !self.is_open() {
            return Err(Refusal::Closed);
        }
        if self.has_due_notice() {
            return Err(Refusal::NoticeDue);
        }
        let price = Price::new(marking.price).ok_or(Refusal::Unpriced)?;
        let rate = Rate::new(marking.rate).ok_or(Refusal::Unrated)?;
        if !self.fits_page(rows) {
            return Err(Refusal::PageShort);
        }
        Ok((price, rate))
    }

    // Writes a marking that meets its questions: the page is paid, nets are carried over, lots turned, and the next session opened.
    fn close_session(&mut self, price: Price, rate: Rate, page: &mut [PageRow]) -> Sums
        requires { verdict (terms_of self.old) (view self.old) (marks (marking_at price.number rate.number) (length page.old)) ≡ None }
        ensures view { view self.new ≡ mark (terms_of self.old) (view self.old) (marking_at price.number rate.number) }
        ensures terms { self.new.terms ≡ self.old.terms }
        ensures page { page.new ≡ over (page_of (terms_of self.old) rate.number (by_marking (terms_of self.old) (view self.old) price.number) (roll (view self.old))).rows page.old }
        ensures sums { result ≡ (page_of (terms_of self.old) rate.number (by_marking (terms_of self.old) (view self.old) price.number) (roll (view self.old))).totals }
    {
        let owed = self.owed(Settling::Marking, price);
        let sums = self.pay(owed.as_slice(), rate, page);
        turn_lots(self.accounts.as_slice(), self.session, &mut self.lots);
        settle_accounts(
            self.accounts.as_mut_slice(),
            owed.as_slice(),
            Settling::Marking,
        );
        self.sheet.clear();
        self.session += 1;
        self.price = price.cents();
        self.rate = rate.millionths();
        sums
    }

    // Marks the open session: pays each account into its row of the page, and says what the page comes to.
    #[tactic(auto, unfolding(tally::specs::Steps::done))]
    pub fn mark(&mut self, marking: Marking, page: &mut [PageRow]) -> Result<Sums, Refusal>
        ensures answers { told Paid result ≡ reply (terms_of self.old) (view self.old) (marks marking (length page.old)) }
        ensures after { view self.new ≡ after (terms_of self.old) (view self.old) (marks marking (length page.old)) }
        ensures terms { self.new.terms ≡ self.old.terms }
        ensures page { page.new ≡ over (written (terms_of self.old) (view self.old) (marks marking (length page.old))) page.old }
        ensures same { is_ok result ≡ false → self.new ≡ self.old }
    {
        let (price, rate) = self.mark_verdict(marking, page.len())?;
        Ok(self.close_session(price, rate, page))
    }
}
