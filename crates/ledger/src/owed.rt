// What a marking or an expiry owes each account.
ghost use Rattle.std.specs.Prelude.{◌≡◌, ℕ, ◌+◌, ◌*◌, ◌<◌, ◌≤◌, length, pos, ◌+ℤ◌, ◌-ℤ◌, ◌*ℤ◌, slice_index_or, unsigned_abs};
ghost use Rattle.tally.specs.Book.{numbered};
ghost use Rattle.tally.specs.Questions.{nobody};
ghost use Rattle.ledger.specs.Owings.{Owable, expiry_owed, marking_owed, owed_at};

use crate::sheet::{Part, Sheet, Side};
use crate::state::ACCOUNTS;
use arrayvec::ArrayVec;
use std::marker::Model;
use tally::rows::Account;

// The two amounts of an account, in the contract's currency. Each fits a line of money.
#[derive(Clone, Copy, Default)]
pub(crate) struct Owed {
    pub day_trade: i64,
    pub margin: i64,
}

impl Model for Owed {
    ghost use Rattle.std.specs.Prelude.{◌≤◌, unsigned_abs};
    ghost use Rattle.tally.specs.Pages.{Owed as Amounts};

    ghost Value = { Amounts };

    ghost view = { λ o. record { day_trade = o.day_trade; margin = o.margin } };

    ghost invariant = { λ o. (unsigned_abs o.day_trade ≤ 600000000000) × (unsigned_abs o.margin ≤ 600000000000) };

    ghost inverse = { λ o. record { day_trade = o.day_trade; margin = o.margin } };
}

impl Owed {
    // Both amounts together.
    pub(crate) fn total(self) -> i64
        ensures value { result ≡ self.day_trade +ℤ self.margin }
        ensures below { unsigned_abs result ≤ 1200000000000 }
    {
        self.day_trade + self.margin
    }
}

// What a page settles: the open session, by its marking, or the contract, by its expiry.
// An enum, and no closure for each step: a closure's bounds and results would stand in clauses of its own at both calls.
#[derive(Clone, Copy)]
pub(crate) enum Settling {
    Marking,
    Expiry,
}

// A product that fits: contracts and a price, or a size and an amount.
fn times(a: i64, b: i64) -> i64
    requires { (unsigned_abs a ≤ 3000) × (unsigned_abs b ≤ 8999991000) }
    ensures value { result ≡ a *ℤ b }
    ensures below { unsigned_abs result ≤ 26999973000000 }
{
    a * b
}

// What offset sales brought more than offset purchases cost.
fn offset_gain(bought: Part, sold: Part) -> i64
    ensures value { result ≡ pos sold.value -ℤ pos bought.value }
    ensures below { unsigned_abs result ≤ 2999997000 }
{
    sold.value as i64 - bought.value as i64
}

// What is gained in all: by carried contracts and by purchases left, less what sales left would have gained.
fn balance(carried: i64, bought: i64, sold: i64) -> i64
    requires { (unsigned_abs carried ≤ 2999997000) × (unsigned_abs bought ≤ 2999997000) × (unsigned_abs sold ≤ 2999997000) }
    ensures value { result ≡ (carried +ℤ bought) -ℤ sold }
    ensures below { unsigned_abs result ≤ unsigned_abs carried + unsigned_abs bought + unsigned_abs sold }
{
    carried + bought - sold
}

// How contracts are valued: at the contract's size, from the last settlement price to the next or the final one.
#[derive(Clone, Copy)]
pub(crate) struct Valuation {
    pub size: u32,
    pub last: u32,
    pub price: u32,
    ghost sized: { size ≤ 100 },
    ghost priced: { (last ≤ 999999) × (price ≤ 999999) },
}

impl Valuation {
    // How far the price rises.
    fn rise(self) -> i64
        ensures value { result ≡ pos self.price -ℤ pos self.last }
        ensures below { unsigned_abs result ≤ 999999 }
    {
        i64::from(self.price) - i64::from(self.last)
    }

    // What carried contracts gain.
    fn carried_gain(self, carried: i64) -> i64
        requires { unsigned_abs carried ≤ 3000 }
        ensures value { result ≡ carried *ℤ (pos self.price -ℤ pos self.last) }
        ensures below { unsigned_abs result ≤ 2999997000 }
    {
        times(carried, self.rise())
    }

    // What the contracts left of a side gain by the price.
    fn left_gain(self, left: Part) -> i64
        ensures value { result ≡ pos (self.price * left.contracts) -ℤ pos left.value }
        ensures below { unsigned_abs result ≤ 999999 * left.contracts }
    {
        (u64::from(self.price) * left.contracts) as i64 - left.value as i64
    }

    // An amount for each unit of the contract's size.
    fn scaled(self, amount: i64) -> i64
        requires { unsigned_abs amount ≤ 8999991000 }
        ensures value { result ≡ pos self.size *ℤ amount }
        ensures below { unsigned_abs result ≤ 100 * unsigned_abs amount }
    {
        times(i64::from(self.size), amount)
    }

    // What a marking owes an account, from one pass over the sheet for each side.
    fn by_marking(self, sheet: &Sheet<'_>, number: usize, account: Account) -> Owed
        requires { Owable sheet.now.trades.now number account }
        ensures { result ≡ marking_owed self.size sheet.now.trades.now self.last self.price number account }
    {
        let offset = u64::from(account.bought.min(account.sold));
        let bought = sheet.split(number, Side::Bought, offset);
        let sold = sheet.split(number, Side::Sold, offset);
        let left = balance(
            self.carried_gain(account.carried),
            self.left_gain(bought.left),
            self.left_gain(sold.left),
        );
        Owed {
            day_trade: self.scaled(offset_gain(bought.offset, sold.offset)),
            margin: self.scaled(left),
        }
    }

    // What an expiry owes an account: what it carries gains from the last settlement price to the final one.
    fn by_expiry(self, account: Account) -> Owed
        requires { unsigned_abs account.carried ≤ 3000 }
        ensures { result ≡ expiry_owed self.size self.last self.price account }
    {
        Owed {
            day_trade: 0,
            margin: self.scaled(self.carried_gain(account.carried)),
        }
    }

    // What is owed to one account.
    fn owed_to(self, settling: Settling, sheet: &Sheet<'_>, number: usize, account: Account) -> Owed
        requires { Owable sheet.now.trades.now number account }
        ensures { result ≡ owed_at settling self.size sheet.now.trades.now self.last self.price number account }
    {
        match settling {
            Settling::Marking => self.by_marking(sheet, number, account),
            Settling::Expiry => self.by_expiry(account),
        }
    }

    // What is owed to each account, in number order.
    pub(crate) fn owed_to_all(
        self,
        settling: Settling,
        sheet: &Sheet<'_>,
        accounts: &[Account],
    ) -> ArrayVec<Owed, ACCOUNTS>
        requires few { length accounts.now ≤ 64 }
        requires owable { (i : ℕ) → i < length accounts.now → Owable sheet.now.trades.now (i + 1) (slice_index_or accounts.now i nobody) }
        ensures { result.items ≡ numbered (owed_at settling self.size sheet.now.trades.now self.last self.price) 1 accounts.now }
    {
        // A push for each: `collect` into an `ArrayVec` takes an allocator and answers a Result.
        let mut all = ArrayVec::new();
        for (i, account) in accounts.iter().enumerate() {
            let owed = self.owed_to(settling, sheet, i + 1, *account);
            all.push(owed);
        }
        all
    }
}
