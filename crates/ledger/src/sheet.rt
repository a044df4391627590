// The day sheet, read for one account and one side.
ghost use Rattle.std.specs.Prelude.{◌≡◌, ℕ, ◌+◌, ◌*◌, ◌<◌, ◌≤◌, min, length, take, drop, sum, slice_index_or};
ghost use Rattle.tally.specs.Book.{prices};
ghost use Rattle.ledger.specs.Sheets.{contracts_on, no_trade, on_side, party_to};

use tally::rows::Trade;

// A side of a trade. An enum, and no closure that reads the party: which postings are a side's is a definition by the side.
#[derive(Clone, Copy)]
pub(crate) enum Side {
    Bought,
    Sold,
}

impl Side {
    // Who a trade is of, on this side.
    fn party(self, trade: &Trade) -> usize
        ensures { result ≡ party_to self trade.now }
    {
        match self {
            Side::Bought => trade.buyer,
            Side::Sold => trade.seller,
        }
    }

    // The account's contracts in one trade, on this side of it.
    pub(crate) fn contracts(self, trade: &Trade, account: usize) -> u64
        ensures value { result ≡ contracts_on account self trade.now }
        ensures below { result ≤ trade.now.contracts }
    {
        if self.party(trade) == account {
            trade.contracts
        } else {
            0
        }
    }
}

// Contracts of one account and one day, and what they were traded at in all.
#[derive(Clone, Copy)]
pub(crate) struct Part {
    pub contracts: u64,
    pub value: u64,
    ghost counted: { contracts ≤ 3000 },
    ghost priced: { value ≤ 999999 * contracts },
}

impl Part {
    // No contracts.
    fn none() -> Part
        ensures contracts { result.contracts ≡ 0 }
        ensures value { result.value ≡ 0 }
    {
        Part {
            contracts: 0,
            value: 0,
        }
    }

    // The part with some contracts more, at one price.
    fn with(self, contracts: u64, price: u64) -> Part
        requires counted { self.contracts + contracts ≤ 3000 }
        requires price { price ≤ 999999 }
        ensures contracts { result.contracts ≡ self.contracts + contracts }
        ensures value { result.value ≡ self.value + price * contracts }
    {
        Part {
            contracts: self.contracts + contracts,
            value: self.value + price * contracts,
        }
    }
}

// The contracts of an account on one side of the sheet: those that offset the other side, and those left.
#[derive(Clone, Copy)]
pub(crate) struct Split {
    pub offset: Part,
    pub left: Part,
}

// The trades of a day, each at a price.
#[derive(Clone, Copy)]
pub(crate) struct Sheet<'a> {
    pub trades: &'a [Trade],
    ghost priced: { (i : ℕ) → i < length trades.now → (slice_index_or trades.now i no_trade).price ≤ 999999 },
}

impl<'a> Sheet<'a> {
    // Splits one side for an account: the first `offset` contracts offset, the others are left. One pass.
    pub(crate) fn split(&self, account: usize, side: Side, offset: u64) -> Split
        requires { length (prices account (on_side side self.now.trades.now)) ≤ 3000 }
        ensures offset { result.offset.contracts ≡ min offset (length (prices account (on_side side self.now.trades.now))) }
        ensures offset_value { result.offset.value ≡ sum (take offset (prices account (on_side side self.now.trades.now))) }
        ensures left { result.left.contracts ≡ length (drop offset (prices account (on_side side self.now.trades.now))) }
        ensures left_value { result.left.value ≡ sum (drop offset (prices account (on_side side self.now.trades.now))) }
    {
        let mut first = Part::none();
        let mut left = Part::none();
        for trade in self.trades {
            let contracts = side.contracts(trade, account);
            let offsets = contracts.min(offset - first.contracts);
            first = first.with(offsets, trade.price);
            left = left.with(contracts - offsets, trade.price);
        }
        Split {
            offset: first,
            left,
        }
    }
}
