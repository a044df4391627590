// The lots as a marking turns them: what an account is left long of.
ghost use Rattle.std.specs.Prelude.{◌≡◌, ◌+◌, ◌≤◌, map, length, if◌then◌else◌, count_by, nat_lt, unsigned_abs};
ghost use Rattle.std.specs.List.{AllByRecursion};
ghost use Rattle.tally.specs.Account.{long};
ghost use Rattle.tally.specs.Questions.{opens_lot};
ghost use Rattle.tally.specs.Steps.{aged as aged_by, turned as turned_by};
ghost use Rattle.ledger.specs.Limits.{InLimits};
ghost use Rattle.ledger.specs.Owings.{changed};

use crate::state::LOT_ROWS;
use crate::state::notices::net;
use aged::Line;
use tally::rows::{Account, Lot};

// How many contracts long a number is.
fn holding(contracts: i64) -> u32
    requires { unsigned_abs contracts ≤ 9000 }
    ensures value { result ≡ long contracts }
    ensures below { result ≤ 9000 }
{
    contracts.max(0) as u32
}

// Turns the lots of one account: more long contracts are a new lot of the session, fewer go from its oldest.
fn turn_account(lots: &mut Line<Lot, LOT_ROWS>, owner: usize, session: u32, before: i64, after: i64)
    requires contracts { (unsigned_abs before ≤ 9000) × (unsigned_abs after ≤ 9000) }
    requires room { length lots.old + (if nat_lt (long before) (long after) then 1 else 0) ≤ 1024 }
    ensures lots { lots.new ≡ aged_by session owner before after lots.old }
    ensures grown { length lots.new ≤ length lots.old + (if nat_lt (long before) (long after) then 1 else 0) }
{
    let held = holding(before);
    let left = holding(after);
    if held < left {
        let lot = Lot {
            owner,
            session,
            count: left - held,
        };
        let _ = lots.append(lot);
    } else {
        lots.take_of(owner, held - left);
    }
}

// Turns the lots of each account, in number order.
pub(crate) fn turn_lots(accounts: &[Account], session: u32, lots: &mut Line<Lot, LOT_ROWS>)
    requires contracts { AllByRecursion InLimits accounts.now }
    requires room { length lots.old + count_by opens_lot accounts.now ≤ 1024 }
    ensures { lots.new ≡ turned_by session 1 (map changed accounts.now) lots.old }
{
    for (i, account) in accounts.iter().enumerate() {
        turn_account(lots, i + 1, session, account.carried, net(*account));
    }
}
