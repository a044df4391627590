// What a book shows, and the statement of its law.
ghost use Rattle.std.specs.Prelude.{◌≡◌};
ghost use Rattle.ledger.specs.Ledgers.{terms_in};
ghost use Rattle.contract_book.specs.Books.{stand};
ghost use Rattle.contract_book.specs.Stands.{OnKind, sessions_of, terms_on};
ghost use Rattle.contract_book.specs.Statements.{Stated};

use crate::state::Book;
use kinds::contract::Contract;
use ledger::state::BookTerms;
use tally::rows::{Account, Lot, Notice, Trade};

// All that a book shows at one time.
#[derive(Clone, Copy)]
pub struct Statement<'a> {
    pub accounts: &'a [Account],
    pub sheet: &'a [Trade],
    pub lots: &'a [Lot],
    pub notices: &'a [Notice],
    pub session: u32,
    pub price: u32,
    pub rate: u32,
    pub expired: bool,
}

impl<K: Contract> Book<K> {
    // The kind of the contract, as the quotations left it.
    pub fn kind(&self) -> &K
        ensures { result.now ≡ (stand self.now).kind }
    {
        &self.kind
    }

    // What the book was built on.
    pub fn terms(&self) -> BookTerms
        ensures { terms_in result ≡ (stand self.now).terms }
    {
        self.ledger.terms()
    }

    // The accounts, in number order.
    pub fn accounts(&self) -> &[Account]
        ensures { result.now ≡ (stand self.now).view.accounts }
    {
        self.ledger.accounts()
    }

    // The trades of the open session.
    pub fn sheet(&self) -> &[Trade]
        ensures { result.now ≡ (stand self.now).view.sheet }
    {
        self.ledger.sheet()
    }

    // The lots, oldest first.
    pub fn lots(&self) -> &[Lot]
        ensures { result.now ≡ (stand self.now).view.lots }
    {
        self.ledger.lots()
    }

    // The notices, oldest first.
    pub fn notices(&self) -> &[Notice]
        ensures { result.now ≡ (stand self.now).view.notices }
    {
        self.ledger.notices()
    }

    // The open session's number.
    pub fn session(&self) -> u32
        ensures { result ≡ (stand self.now).view.session }
    {
        self.ledger.session()
    }

    // The last settlement price, 0 before the first marking.
    pub fn price(&self) -> u32
        ensures { result ≡ (stand self.now).view.price }
    {
        self.ledger.price()
    }

    // The last marking's rate, 0 before the first.
    pub fn rate(&self) -> u32
        ensures { result ≡ (stand self.now).view.rate }
    {
        self.ledger.rate()
    }

    // Whether the contract has expired.
    pub fn expired(&self) -> bool
        ensures { result ≡ (stand self.now).view.expired }
    {
        self.ledger.expired()
    }

    // The statement of the book: all that it shows. Some run of calls led to it, of which the settlement law holds; on its kind's terms where the book is on them.
    #[tactic(auto, using(crate::proofs::Stating::stated, crate::proofs::Stating::stated_on))]
    pub fn statement(&self) -> Statement<'_>
        ensures accounts { result.accounts.now ≡ (stand self.now).view.accounts }
        ensures sheet { result.sheet.now ≡ (stand self.now).view.sheet }
        ensures lots { result.lots.now ≡ (stand self.now).view.lots }
        ensures notices { result.notices.now ≡ (stand self.now).view.notices }
        ensures session { result.session ≡ (stand self.now).view.session }
        ensures price { result.price ≡ (stand self.now).view.price }
        ensures rate { result.rate ≡ (stand self.now).view.rate }
        ensures expired { result.expired ≡ (stand self.now).view.expired }
        ensures law { ∥ Stated (stand self.now).terms (stand self.now).view ∥₁ }
        ensures kind { OnKind K.Contract.means (stand self.now) → ∥ Stated (terms_on K.Contract.means (stand self.now).kind (sessions_of (stand self.now).terms)) (stand self.now).view ∥₁ }
    {
        Statement {
            accounts: self.accounts(),
            sheet: self.sheet(),
            lots: self.lots(),
            notices: self.notices(),
            session: self.session(),
            price: self.price(),
            rate: self.rate(),
            expired: self.expired(),
        }
    }
}
