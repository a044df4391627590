// Paying one line.
ghost use Rattle.std.specs.Prelude.{◌≡◌, ◌+◌, ◌*◌, ◌^◌, ◌<◌, ◌≤◌, pos, ◌*ℤ◌, unsigned_abs};
ghost use Rattle.money.specs.Nearest.{Nearest};
ghost use Rattle.money.specs.Pays.{Pays, payment_of, is_converted};
ghost use Rattle.money.specs.Weights.{weight};

use crate::amount::Amount;
use crate::currency::{Currency, Residency};
use crate::units::Rate;

// What a line pays, in cents of its payee's currency, and what the rounding left over: the weight paid less the weight owed.
#[derive(Clone, Copy, Debug, PartialEq, Eq)]
pub struct Payment {
    pub paid: i64,
    pub remainder: i64,
    pub converted: bool,
}

// What one centavo weighs; a US cent weighs the rate.
const CENTAVO: u32 = 1_000_000;

// The size of a quotient, to the nearest whole number, a half upward.
fn rounded(size: u64, unit: u64) -> u64
    requires small { size ≤ 6000000000000000000 }
    requires narrow { unit < 2 ^ 32 }
    requires some { 0 < unit }
    ensures low { 2 * size < 2 * (result * unit) + unit }
    ensures high { 2 * (result * unit) ≤ 2 * size + unit }
    ensures fits { result < 2 ^ 63 }
{
    (size + unit / 2) / unit
}

// The whole number nearest to n / d; a half goes away from zero.
fn nearest(n: i64, d: u32) -> i64
    requires small { unsigned_abs n ≤ 6000000000000000000 }
    requires some { 0 < d }
    ensures { Nearest n d result }
{
    let size = rounded(n.unsigned_abs(), u64::from(d)) as i64;
    if n < 0 { -size } else { size }
}

// What one cent weighs.
fn cent_weight(currency: Currency, rate: Rate) -> u32
    ensures value { result ≡ weight currency rate.number }
    ensures low { 100000 ≤ result }
    ensures high { result ≤ 9999999 }
{
    match currency {
        Currency::Real => CENTAVO,
        Currency::Dollar => rate.millionths(),
    }
}

// What an amount weighs.
fn weighed(cents: i64, each: u32) -> i64
    requires { unsigned_abs (cents *ℤ pos each) ≤ 6000000000010000000 }
    ensures { result ≡ cents *ℤ pos each }
{
    cents * i64::from(each)
}

// Whether a line counts as converted: its currency changes, and it owes something.
fn is_converted(amount: Amount, contract: Currency, payee: Residency) -> bool
    ensures { result ≡ is_converted amount.cents contract payee }
{
    contract != payee.paid_in() && amount.cents() != 0
}

// Pays a line of the contract's currency to its payee, at the rate of its page.
pub fn pay(amount: Amount, contract: Currency, payee: Residency, rate: Rate) -> Payment
    ensures pays { Pays amount.cents contract payee rate.number result }
    ensures value { result ≡ payment_of amount.cents contract payee rate.number }
{
    let cents = amount.cents();
    let currency = payee.paid_in();
    let converted = is_converted(amount, contract, payee);
    if contract == currency {
        return Payment {
            paid: cents,
            remainder: 0,
            converted,
        };
    }
    let unit = cent_weight(currency, rate);
    let owed = weighed(cents, cent_weight(contract, rate));
    let paid = nearest(owed, unit);
    Payment {
        paid,
        remainder: weighed(paid, unit) - owed,
        converted,
    }
}
