// The ledger of a book: its terms, its tables, and that some run of calls led to it.
ghost use Rattle.std.specs.Prelude.{◌≡◌};
ghost use Rattle.ledger.specs.Reached.{Reached, viewed, built_on};

use aged::Line;
use arrayvec::ArrayVec;
use money::currency::Currency;
use tally::rows::{Account, Lot, Notice, Trade};

pub mod accounts;
pub mod designations;
pub mod expiry;
pub mod markings;
pub mod notices;
pub mod opening;
pub mod payout;
pub mod readers;
pub mod trades;

// The accounts that a book has room for.
pub(crate) const ACCOUNTS: usize = 64;

// The rows of a day's sheet.
pub(crate) const SHEET_ROWS: usize = 1_024;

// The lots that a book has room for.
pub(crate) const LOT_ROWS: usize = 1_024;

// The notices that a book has room for.
pub(crate) const NOTICE_ROWS: usize = 64;

// The most contracts that an account may have either way, and buy, sell or give notice of in a day.
pub(crate) const MAX_CONTRACTS: u64 = 3_000;

// What a book is built on: the kind's size, currency, tick and delivery, the last session, and the sessions from and to which notice can be given.
#[derive(Clone, Copy, Debug, PartialEq, Eq)]
pub struct BookTerms {
    pub size: u32,
    pub currency: Currency,
    pub tick: u32,
    pub delivers: bool,
    pub last: u64,
    pub opens: u64,
    pub closes: u64,
}

#[derive(Drop)]
pub struct Ledger {
    terms: BookTerms,
    accounts: ArrayVec<Account, ACCOUNTS>,
    sheet: ArrayVec<Trade, SHEET_ROWS>,
    lots: Line<Lot, LOT_ROWS>,
    notices: Line<Notice, NOTICE_ROWS>,
    session: u32,
    // Both 0 before the first marking, and no Options: the view shows these numbers, and the first margins count from that 0.
    price: u32,
    rate: u32,
    expired: bool,
    ghost reached: { ∥ Reached (built_on terms.size terms.currency terms.tick terms.delivers terms.last terms.opens terms.closes) (viewed accounts.items sheet.items lots notices session price rate expired) ∥₁ },
}
