// What a ledger shows, field by field.
ghost use Rattle.std.specs.Prelude.{◌≡◌};
ghost use Rattle.ledger.specs.Ledgers.{view};

use crate::state::{BookTerms, Ledger};
use tally::rows::{Account, Lot, Notice, Trade};

impl Ledger {
    // What the book was built on.
    pub fn terms(&self) -> BookTerms
        ensures { result ≡ self.now.terms }
    {
        self.terms
    }

    // The accounts, in number order.
    pub fn accounts(&self) -> &[Account]
        ensures { result.now ≡ (view self.now).accounts }
    {
        self.accounts.as_slice()
    }

    // The trades of the open session.
    pub fn sheet(&self) -> &[Trade]
        ensures { result.now ≡ (view self.now).sheet }
    {
        self.sheet.as_slice()
    }

    // The lots, oldest first.
    pub fn lots(&self) -> &[Lot]
        ensures { result.now ≡ (view self.now).lots }
    {
        self.lots.as_slice()
    }

    // The notices, oldest first.
    pub fn notices(&self) -> &[Notice]
        ensures { result.now ≡ (view self.now).notices }
    {
        self.notices.as_slice()
    }

    // The open session's number.
    pub fn session(&self) -> u32
        ensures { result ≡ (view self.now).session }
    {
        self.session
    }

    // The last settlement price, 0 before the first marking.
    pub fn price(&self) -> u32
        ensures { result ≡ (view self.now).price }
    {
        self.price
    }

    // The last marking's rate, 0 before the first.
    pub fn rate(&self) -> u32
        ensures { result ≡ (view self.now).rate }
    {
        self.rate
    }

    // Whether the contract has expired.
    pub fn expired(&self) -> bool
        ensures { result ≡ (view self.now).expired }
    {
        self.expired
    }
}
