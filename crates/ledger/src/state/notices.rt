// Giving notice of delivery: its questions, and its row.
ghost use Rattle.std.specs.Prelude.{◌≡◌, ℕ, ◌+◌, ◌≤◌, Bool, true, false, length, is_ok, None, nat_le, nat_lt};
ghost use Rattle.tally.specs.Account.{short};
ghost use Rattle.tally.specs.Questions.{between, find, net_of, registered as is_registered, under_notice as noticed_by};
ghost use Rattle.tally.specs.Events.{noticing};
ghost use Rattle.tally.specs.Questions.{verdict};
ghost use Rattle.tally.specs.Runs.{after, reply};
ghost use Rattle.tally.specs.Steps.{notice};
ghost use Rattle.ledger.specs.Limits.{InLimits};
ghost use Rattle.ledger.specs.Ledgers.{view, terms_of};
ghost use Rattle.ledger.specs.Told.{judged, plainly, told};

use crate::state::{Ledger, MAX_CONTRACTS, NOTICE_ROWS};
use tally::call::Notification;
use tally::refusal::Refusal;
use tally::rows::{Account, Notice};

// Contracts a call can be about.
pub(crate) fn is_counted(contracts: u64) -> bool
    ensures { result ≡ between 1 3000 contracts }
{
    (1..=MAX_CONTRACTS).contains(&contracts)
}

// Carried plus bought minus sold in the open session.
pub(crate) fn net(account: Account) -> i64
    requires { InLimits account }
    ensures { result ≡ net_of account }
{
    account.carried + i64::from(account.bought) - i64::from(account.sold)
}

// How many contracts short a number is.
pub(crate) fn shortage(contracts: i64) -> u64
    ensures { result ≡ short contracts }
{
    if contracts < 0 {
        contracts.unsigned_abs()
    } else {
        0
    }
}

impl Ledger {
    pub(crate) fn is_registered(&self, number: usize) -> bool
        ensures { result ≡ is_registered (view self.now) number }
    {
        (1..=self.accounts.len()).contains(&number)
    }

    fn is_in_window(&self) -> bool
        ensures { result ≡ between (terms_of self.now).opens (terms_of self.now).closes (view self.now).session }
    {
        (self.terms.opens..=self.terms.closes).contains(&u64::from(self.session))
    }

    fn has_notice_room(&self) -> bool
        ensures { result ≡ nat_lt (length (view self.now).notices) 64 }
    {
        self.notices.as_slice().len() < NOTICE_ROWS
    }

    // The row of an account.
    pub(crate) fn account(&self, number: usize) -> Account
        requires { is_registered (view self.now) number ≡ true }
        ensures { result ≡ find (view self.now) number }
    {
        self.accounts[number - 1]
    }

    // What an account has under notice, due or not.
    #[tactic(auto, unfolding(tally::specs::Questions::under_notice))]
    pub(crate) fn under_notice(&self, number: usize) -> u128
        ensures { result ≡ noticed_by number (view self.now).notices }
    {
        self.notices.held_by(number)
    }

    // The net of an account.
    pub(crate) fn net_of(&self, number: usize) -> i64
        requires { is_registered (view self.now) number ≡ true }
        ensures { result ≡ net_of (find (view self.now) number) }
    {
        net(self.account(number))
    }

    // Whether a seller is short what it has under notice, and as many more.
    fn is_covered(&self, notification: Notification) -> bool
        requires { is_registered (view self.now) notification.seller ≡ true }
        ensures { result ≡ nat_le (noticed_by notification.seller (view self.now).notices + notification.contracts) (short (net_of (find (view self.now) notification.seller))) }
    {
        let short = u128::from(shortage(self.net_of(notification.seller)));
        let noticed = self.under_notice(notification.seller);
        noticed <= short && u128::from(notification.contracts) <= short - noticed
    }

    // Why a notice is not taken, if it is not.
    #[tactic(auto, unfolding(tally::specs::Questions::questions, tally::specs::Questions::first_unmet))]
    fn notice_verdict(&self, notification: Notification) -> Result<(), Refusal>
        ensures { result ≡ judged (verdict (terms_of self.now) (view self.now) (noticing notification)) }
    {
        if !self.is_open() {
            return Err(Refusal::Closed);
        }
        if !self.is_in_window() {
            return Err(Refusal::OutsideWindow);
        }
        if !self.is_registered(notification.seller) {
            return Err(Refusal::Stranger);
        }
        if !is_counted(notification.contracts) {
            return Err(Refusal::Uncounted);
        }
        if !self.is_covered(notification) {
            return Err(Refusal::NotShort);
        }
        if !self.has_notice_room() {
            return Err(Refusal::NoticesFull);
        }
        Ok(())
    }

    // Writes the row of a notice that meets its questions.
    fn enter_notice(&mut self, notification: Notification)
        requires { verdict (terms_of self.old) (view self.old) (noticing notification) ≡ None }
        ensures view { view self.new ≡ notice (view self.old) notification }
        ensures terms { self.new.terms ≡ self.old.terms }
    {
        let row = Notice {
            seller: notification.seller,
            session: self.session,
            count: notification.contracts as u32,
        };
        let _ = self.notices.append(row);
    }

    // Takes a seller's notice of delivery.
    #[tactic(auto, unfolding(tally::specs::Steps::done))]
    pub fn notify(&mut self, notification: Notification) -> Result<(), Refusal>
        ensures answers { told plainly result ≡ reply (terms_of self.old) (view self.old) (noticing notification) }
        ensures after { view self.new ≡ after (terms_of self.old) (view self.old) (noticing notification) }
        ensures terms { self.new.terms ≡ self.old.terms }
        ensures same { is_ok result ≡ false → self.new ≡ self.old }
    {
        self.notice_verdict(notification)?;
        self.enter_notice(notification);
        Ok(())
    }
}
