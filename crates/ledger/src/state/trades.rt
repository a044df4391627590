// A trade: its questions, its row of the sheet, and the rows of its two accounts.
ghost use Rattle.std.specs.Prelude.{◌≡◌, ℕ, ◌+◌, ◌-◌, ◌%◌, ◌<◌, ◌≤◌, true, false, not, ◌&&◌, length, is_ok, None, count_by, ◌==◌, nat_le, nat_lt, slice_index_or};
ghost use Rattle.money.specs.Ranges.{is_price};
ghost use Rattle.tally.specs.Account.{short};
ghost use Rattle.tally.specs.Book.{numbered};
ghost use Rattle.tally.specs.Events.{trading};
ghost use Rattle.tally.specs.Law.{Registered};
ghost use Rattle.tally.specs.Questions.{at_most_3000, between, find, nobody, opens_lot, traded_account, under_notice as noticed_by, verdict};
ghost use Rattle.tally.specs.Runs.{after, reply};
ghost use Rattle.tally.specs.Steps.{trade as traded_on};
ghost use Rattle.ledger.specs.Limits.{InLimits};
ghost use Rattle.ledger.specs.Ledgers.{view, terms_of};
ghost use Rattle.ledger.specs.Told.{judged, plainly, told};
ghost use Rattle.ledger.specs.Trades.{are_parties, buyer_net, keeps_day_limits, keeps_limits, seller_net};

use crate::sheet::Side;
use crate::state::notices::{is_counted, net, shortage};
use crate::state::{LOT_ROWS, Ledger, MAX_CONTRACTS, SHEET_ROWS};
use money::units::Price;
use tally::refusal::Refusal;
use tally::rows::{Account, Trade};

// Whether signed contracts are within the limit either way.
fn is_limited(contracts: i64) -> bool
    ensures { result ≡ at_most_3000 contracts }
{
    contracts.unsigned_abs() <= MAX_CONTRACTS
}

// The account with a number after a trade, of which it may be a side.
#[tactic(auto, unfolding(tally::specs::Questions::traded_account))]
fn traded(trade: Trade, number: usize, account: Account) -> Account
    requires { InLimits (traded_account trade number account) }
    ensures { result ≡ traded_account trade number account }
{
    Account {
        bought: account.bought + Side::Bought.contracts(&trade, number) as u32,
        sold: account.sold + Side::Sold.contracts(&trade, number) as u32,
        ..account
    }
}

// Whether a marking would give the account a new lot.
fn opens_lot(account: Account) -> bool
    requires { InLimits account }
    ensures { result ≡ opens_lot account }
{
    let net = net(account);
    net > 0 && net > account.carried
}

// How many accounts a marking would give a new lot after a trade.
fn lots_opened(accounts: &[Account], trade: Trade) -> usize
    requires { (i : ℕ) → i < length accounts.now → InLimits (traded_account trade (i + 1) (slice_index_or accounts.now i nobody)) }
    ensures value { result ≡ count_by opens_lot (numbered (traded_account trade) 1 accounts.now) }
    ensures below { result ≤ length accounts.now }
{
    let mut opened = 0;
    for (i, account) in accounts.iter().enumerate() {
        if opens_lot(traded(trade, i + 1, *account)) {
            opened += 1;
        }
    }
    opened
}

// Writes the contracts of a trade into the rows of its two accounts.
fn hand_over(accounts: &mut [Account], trade: Trade)
    requires buyer { Registered (length accounts.old) trade.buyer }
    requires seller { Registered (length accounts.old) trade.seller }
    requires bought { (slice_index_or accounts.old (trade.buyer - 1) nobody).bought + trade.contracts ≤ 3000 }
    requires sold { (slice_index_or accounts.old (trade.seller - 1) nobody).sold + trade.contracts ≤ 3000 }
    ensures { accounts.new ≡ numbered (traded_account trade) 1 accounts.old }
{
    let contracts = trade.contracts as u32;
    accounts[trade.buyer - 1].bought += contracts;
    accounts[trade.seller - 1].sold += contracts;
}

// A trade put to a ledger: between two registered accounts, of contracts that can be counted.
#[derive(Clone, Copy)]
struct Deal<'a> {
    ledger: &'a Ledger,
    trade: Trade,
    ghost parties: { are_parties (view ledger.now) trade ≡ true },
    ghost counted: { between 1 3000 trade.contracts ≡ true },
}

impl<'a> Deal<'a> {
    // The buyer's account.
    fn buyer(&self) -> Account
        ensures { result ≡ find (view self.now.ledger.now) self.now.trade.buyer }
    {
        self.ledger.account(self.trade.buyer)
    }

    // The seller's account.
    fn seller(&self) -> Account
        ensures { result ≡ find (view self.now.ledger.now) self.now.trade.seller }
    {
        self.ledger.account(self.trade.seller)
    }

    // The net of the buyer after the trade.
    fn buyer_net(&self) -> i64
        ensures { result ≡ buyer_net (view self.now.ledger.now) self.now.trade }
    {
        self.ledger.net_of(self.trade.buyer) + self.trade.contracts as i64
    }

    // The net of the seller after the trade.
    fn seller_net(&self) -> i64
        ensures { result ≡ seller_net (view self.now.ledger.now) self.now.trade }
    {
        self.ledger.net_of(self.trade.seller) - self.trade.contracts as i64
    }

    // Whether the buyer's purchases and the seller's sales of the day stay within the limit.
    fn keeps_day_limits(&self) -> bool
        ensures { result ≡ keeps_day_limits (view self.now.ledger.now) self.now.trade }
    {
        let bought = u64::from(self.buyer().bought);
        let sold = u64::from(self.seller().sold);
        let contracts = self.trade.contracts;
        bought + contracts <= MAX_CONTRACTS && sold + contracts <= MAX_CONTRACTS
    }

    // Whether both sides stay within the limits, net and in the day.
    fn keeps_limits(&self) -> bool
        ensures { result ≡ keeps_limits (view self.now.ledger.now) self.now.trade }
    {
        is_limited(self.buyer_net()) && is_limited(self.seller_net()) && self.keeps_day_limits()
    }

    // Whether the buyer stays short what it has under notice.
    fn stays_covered(&self) -> bool
        ensures { result ≡ nat_le (noticed_by self.now.trade.buyer (view self.now.ledger.now).notices) (short (buyer_net (view self.now.ledger.now) self.now.trade)) }
    {
        let short = shortage(self.buyer_net());
        self.ledger.under_notice(self.trade.buyer) <= u128::from(short)
    }

    // Whether the trade opens nothing to deliver: the seller ends with no short contract, and neither side has traded the other way that day.
    fn opens_no_delivery(&self) -> bool
        ensures { result ≡ (short (seller_net (view self.now.ledger.now) self.now.trade) == 0 && ((find (view self.now.ledger.now) self.now.trade.buyer).sold == 0 && (find (view self.now.ledger.now) self.now.trade.seller).bought == 0)) }
    {
        shortage(self.seller_net()) == 0 && self.buyer().sold == 0 && self.seller().bought == 0
    }

    // Whether the lots have room for those that a marking would open after the trade.
    fn has_lot_room(&self) -> bool
        requires { keeps_limits (view self.now.ledger.now) self.now.trade ≡ true }
        ensures { result ≡ nat_le (length (view self.now.ledger.now).lots + count_by opens_lot (numbered (traded_account self.now.trade) 1 (view self.now.ledger.now).accounts)) 1024 }
    {
        let ledger = self.ledger;
        ledger.lots().len() + lots_opened(ledger.accounts(), self.trade) <= LOT_ROWS
    }
}

impl Ledger {
    // Whether both sides are registered, and two accounts.
    fn are_parties(&self, trade: Trade) -> bool
        ensures { result ≡ are_parties (view self.now) trade }
    {
        self.is_registered(trade.buyer)
            && self.is_registered(trade.seller)
            && trade.buyer != trade.seller
    }

    // Whether a price can be traded at: in range, and a multiple of the tick.
    fn is_on_tick(&self, price: u64) -> bool
        ensures { result ≡ (is_price price && price % (terms_of self.now).tick == 0) }
    {
        Price::new(price).is_some() && price % u64::from(self.terms.tick) == 0
    }

    // Whether the day's sheet has a row left.
    fn has_sheet_room(&self) -> bool
        ensures { result ≡ nat_lt (length (view self.now).sheet) 1024 }
    {
        self.sheet.len() < SHEET_ROWS
    }

    // Whether the open session is the last one of a contract that is delivered.
    fn is_last_before_delivery(&self) -> bool
        ensures { result ≡ ((view self.now).session == (terms_of self.now).last && (terms_of self.now).delivers) }
    {
        u64::from(self.session) == self.terms.last && self.terms.delivers
    }

    // Why a trade is not taken, if it is not.
    #[tactic(auto, unfolding(tally::specs::Questions::questions, tally::specs::Questions::first_unmet))]
    fn trade_verdict(&self, trade: Trade) -> Result<(), Refusal>
        ensures { result ≡ judged (verdict (terms_of self.now) (view self.now) (trading trade)) }
    {
        if !self.is_open() {
            return Err(Refusal::Closed);
        }
        if !self.are_parties(trade) {
            return Err(Refusal::Stranger);
        }
        if !self.is_on_tick(trade.price) {
            return Err(Refusal::Unpriced);
        }
        if !is_counted(trade.contracts) {
            return Err(Refusal::Uncounted);
        }
        let deal = Deal {
            ledger: self,
            trade,
        };
        if !self.has_sheet_room() {
            return Err(Refusal::SheetFull);
        }
        if !deal.keeps_limits() {
            return Err(Refusal::OverLimit);
        }
        if !deal.stays_covered() {
            return Err(Refusal::Uncovered);
        }
        if self.is_last_before_delivery() && !deal.opens_no_delivery() {
            return Err(Refusal::LastSession);
        }
        if !deal.has_lot_room() {
            return Err(Refusal::LotsFull);
        }
        Ok(())
    }

    // Writes the rows of a trade that meets its questions.
    fn enter_trade(&mut self, trade: Trade)
        requires { verdict (terms_of self.old) (view self.old) (trading trade) ≡ None }
        ensures view { view self.new ≡ traded_on (view self.old) trade }
        ensures terms { self.new.terms ≡ self.old.terms }
    {
        hand_over(self.accounts.as_mut_slice(), trade);
        self.sheet.push(trade);
    }

    // Takes a trade onto the open session's sheet.
    #[tactic(auto, unfolding(tally::specs::Steps::done))]
    pub fn trade(&mut self, trade: Trade) -> Result<(), Refusal>
        ensures answers { told plainly result ≡ reply (terms_of self.old) (view self.old) (trading trade) }
        ensures after { view self.new ≡ after (terms_of self.old) (view self.old) (trading trade) }
        ensures terms { self.new.terms ≡ self.old.terms }
        ensures same { is_ok result ≡ false → self.new ≡ self.old }
    {
        self.trade_verdict(trade)?;
        self.enter_trade(trade);
        Ok(())
    }
}
