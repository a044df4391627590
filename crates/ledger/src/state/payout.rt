// The page that a marking and an expiry share: what it owes each account, and what it pays.
ghost use Rattle.std.specs.Prelude.{◌≡◌, ◌≤◌, length, nat_le};
ghost use Rattle.std.specs.Simd.Lanes.{zip2};
ghost use Rattle.tally.specs.Pages.{sums as sums_of};
ghost use Rattle.ledger.specs.Ledgers.{view};
ghost use Rattle.ledger.specs.Owings.{lines_to, row_to};
ghost use Rattle.ledger.specs.Payouts.{owed_by};
ghost use Rattle.ledger.specs.Told.{over};

use crate::owed::{Owed, Settling, Valuation};
use crate::pages::Conversion;
use crate::sheet::Sheet;
use crate::state::{ACCOUNTS, Ledger};
use arrayvec::ArrayVec;
use money::units::{Price, Rate};
use tally::rows::{PageRow, Sums};

impl Ledger {
    // Whether a page has a row for each account.
    pub(crate) fn fits_page(&self, rows: usize) -> bool
        ensures { result ≡ nat_le (length (view self.now).accounts) rows }
    {
        self.accounts.len() <= rows
    }

    // What each account is owed at a price, in number order.
    pub(crate) fn owed(&self, settling: Settling, price: Price) -> ArrayVec<Owed, ACCOUNTS>
        ensures { result.items ≡ owed_by self.now settling price.number }
    {
        let valuation = Valuation {
            size: self.terms.size,
            last: self.price,
            price: price.cents(),
        };
        let sheet = Sheet {
            trades: self.sheet(),
        };
        valuation.owed_to_all(settling, &sheet, self.accounts())
    }

    // Pays what is owed into the rows of a page.
    pub(crate) fn pay(&self, owed: &[Owed], rate: Rate, page: &mut [PageRow]) -> Sums
        requires beside { length owed.now ≡ length (view self.now).accounts }
        requires page { length (view self.now).accounts ≤ length page.old }
        ensures page { page.new ≡ over (zip2 (row_to self.now.terms.currency rate.number) (view self.now).accounts owed.now) page.old }
        ensures sums { result ≡ sums_of (lines_to self.now.terms.currency rate.number (view self.now).accounts owed.now) }
    {
        let conversion = Conversion {
            currency: self.terms.currency,
            rate,
        };
        conversion.pay_page(self.accounts(), owed, page)
    }
}
