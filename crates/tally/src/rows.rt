// The rows of a book and of its pages.
ghost use Rattle.tally.specs.Rows.{lot_counting, notice_counting};
ghost use Rattle.std.proofs.Common.{refl};

use aged::{Owned, Row};
use money::currency::Residency;

// Whom an account belongs to: a customer, of a house, that clears through a member.
#[derive(Clone, Copy, Debug, Default, PartialEq, Eq)]
pub struct Identity {
    pub customer: [u8; 8],
    pub house: [u8; 3],
    pub member: [u8; 3],
}

// An account: its signed contracts at the last marking, what it bought and sold in the open session, and its total.
#[derive(Clone, Copy, Debug, Default, PartialEq, Eq)]
pub struct Account {
    pub identity: Identity,
    pub residency: Residency,
    pub carried: i64,
    pub bought: u32,
    pub sold: u32,
    pub total: i64,
}

// A trade: a row of the day's sheet.
#[derive(Clone, Copy, Debug, Default, PartialEq, Eq)]
pub struct Trade {
    pub buyer: usize,
    pub seller: usize,
    pub price: u64,
    pub contracts: u64,
}

// Long contracts of one account, aged from the session in which they were left.
#[derive(Clone, Copy, Debug, Default, PartialEq, Eq)]
pub struct Lot {
    pub owner: usize,
    pub session: u32,
    pub count: u32,
}

// Contracts that a seller has given notice of delivering, since a session.
// No one type with `Lot`: its parameter would be a mere marker, and the account would lose its name in the trade.
#[derive(Clone, Copy, Debug, Default, PartialEq, Eq)]
pub struct Notice {
    pub seller: usize,
    pub session: u32,
    pub count: u32,
}

// An account's row on a page: its two lines, in the currency that it is paid in.
#[derive(Clone, Copy, Debug, Default, PartialEq, Eq)]
pub struct PageRow {
    pub day_trade: i64,
    pub margin: i64,
}

// What a page comes to: the sums paid, the remainder, and the lines converted.
#[derive(Clone, Copy, Debug, Default, PartialEq, Eq)]
pub struct Sums {
    pub reais: i64,
    pub dollars: i64,
    pub remainder: i64,
    pub lines: u32,
}

// Contracts of a notice that were given to a long lot, at the last settlement price.
#[derive(Clone, Copy, Debug, Default, PartialEq, Eq)]
pub struct Designation {
    pub buyer: usize,
    pub seller: usize,
    pub contracts: u32,
    pub price: u32,
}

impl Row for Lot {
    ghost counting = { lot_counting };

    fn count(&self) -> u32 {
        self.count
    }

    fn with_count(self, n: u32) -> Lot {
        Lot { count: n, ..self }
    }
}

impl Owned for Lot {
    ghost whose = { λ lot. lot.owner };

    ghost same = { λ x n. refl };

    fn owner(&self) -> usize {
        self.owner
    }
}

impl Row for Notice {
    ghost counting = { notice_counting };

    fn count(&self) -> u32 {
        self.count
    }

    fn with_count(self, n: u32) -> Notice {
        Notice { count: n, ..self }
    }
}

impl Owned for Notice {
    ghost whose = { λ notice. notice.seller };

    ghost same = { λ x n. refl };

    fn owner(&self) -> usize {
        self.seller
    }
}
