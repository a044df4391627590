// What a page leaves of the accounts.
ghost use Rattle.std.specs.Prelude.{◌≡◌, length};
ghost use Rattle.std.specs.Simd.Lanes.{zip2};
ghost use Rattle.std.specs.List.{AllByRecursion};
ghost use Rattle.ledger.specs.Limits.{AccountIn};
ghost use Rattle.ledger.specs.Owings.{settled_with};

use crate::owed::{Owed, Settling};
use crate::state::notices::net;
use tally::rows::Account;

// An account after a page: a marking carries its net over and clears the session, an expiry leaves nothing carried.
fn settled(account: Account, owed: Owed, settling: Settling) -> Account
    requires { AccountIn account }
    ensures { result ≡ settled_with settling account owed }
{
    let total = account.total + owed.total();
    match settling {
        Settling::Marking => Account {
            carried: net(account),
            bought: 0,
            sold: 0,
            total,
            ..account
        },
        Settling::Expiry => Account {
            carried: 0,
            total,
            ..account
        },
    }
}

// Writes the row of each account that is owed something.
pub(crate) fn settle_accounts(accounts: &mut [Account], owed: &[Owed], settling: Settling)
    requires beside { length owed.now ≡ length accounts.old }
    requires accounts { AllByRecursion AccountIn accounts.old }
    ensures { accounts.new ≡ zip2 (settled_with settling) accounts.old owed.now }
{
    // No zip with what is owed: a proof knows nothing of what an `iter_mut` leaves under an adapter of two.
    for (i, account) in accounts.iter_mut().enumerate() {
        *account = settled(*account, owed[i], settling);
    }
}
