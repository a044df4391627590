// Paying a page: two lines for each account, and what they come to.
ghost use Rattle.std.specs.Prelude.{◌≡◌, ◌+◌, ◌≤◌, length, unsigned_abs};
ghost use Rattle.std.specs.Simd.Lanes.{zip2};
ghost use Rattle.money.specs.Pays.{payment_of};
ghost use Rattle.tally.specs.Pages.{paid_as, sums as sums_of};
ghost use Rattle.ledger.specs.Owings.{PaidIn, SumsIn, lines_to, row_to, plus_line};
ghost use Rattle.ledger.specs.Told.{over};

use crate::owed::Owed;
use money::amount::Amount;
use money::currency::{Currency, Residency};
use money::payment::{Payment, pay};
use money::units::Rate;
use tally::rows::{Account, PageRow, Sums};

// What a line pays in one of the currencies.
fn paid_as(currency: Currency, payee: Residency, paid: i64) -> i64
    ensures { result ≡ paid_as currency payee paid }
{
    match (currency, payee) {
        (Currency::Real, Residency::Resident) | (Currency::Dollar, Residency::Nonresident) => paid,
        _ => 0,
    }
}

// The sums of a page with one line more: residents are paid in reais, nonresidents in dollars.
fn add_line(sums: Sums, payee: Residency, payment: Payment) -> Sums
    requires sums { SumsIn 127 sums }
    requires payment { PaidIn payment }
    ensures { result ≡ plus_line sums payee payment }
{
    let reais = paid_as(Currency::Real, payee, payment.paid);
    let dollars = paid_as(Currency::Dollar, payee, payment.paid);
    Sums {
        reais: sums.reais + reais,
        dollars: sums.dollars + dollars,
        remainder: sums.remainder + payment.remainder,
        lines: sums.lines + u32::from(payment.converted),
    }
}

// The contract's currency, and the rate that lines are converted at.
#[derive(Clone, Copy)]
pub(crate) struct Conversion {
    pub currency: Currency,
    pub rate: Rate,
}

impl Conversion {
    // Pays one line, of an amount that fits.
    fn pay_line(self, cents: i64, payee: Residency) -> Payment
        requires { unsigned_abs cents ≤ 600000000000 }
        ensures value { result ≡ payment_of cents self.currency payee self.rate.number }
        ensures within { PaidIn result }
    {
        let amount = Amount::new(cents).unwrap();
        pay(amount, self.currency, payee, self.rate)
    }

    // Pays each account what it is owed into its row of the page, and says what the page comes to.
    pub(crate) fn pay_page(self, accounts: &[Account], owed: &[Owed], page: &mut [PageRow]) -> Sums
        requires few { length accounts.now ≤ 64 }
        requires beside { length owed.now ≡ length accounts.now }
        requires page { length accounts.now ≤ length page.old }
        ensures page { page.new ≡ over (zip2 (row_to self.currency self.rate.number) accounts.now owed.now) page.old }
        ensures sums { result ≡ sums_of (lines_to self.currency self.rate.number accounts.now owed.now) }
    {
        let mut sums = Sums::default();
        // No zip with the page's rows: a proof knows nothing of what an `iter_mut` leaves under an adapter of two.
        for (i, account) in accounts.iter().enumerate() {
            let payee = account.residency;
            let owed = owed[i];
            let day_trade = self.pay_line(owed.day_trade, payee);
            let margin = self.pay_line(owed.margin, payee);
            page[i] = PageRow {
                day_trade: day_trade.paid,
                margin: margin.paid,
            };
            sums = add_line(add_line(sums, payee, day_trade), payee, margin);
        }
        sums
    }
}
