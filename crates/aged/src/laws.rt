// What holds of every line, whatever happens to it: each law is the contract of a function that does nothing.
// All rows and one owner's rows have a law each: rows without owners obey the first, and an owner's rows keep their order also where it is another's that are taken.
ghost use Rattle.std.specs.Prelude.{ℕ, Bool};
ghost use Rattle.aged.specs.Line.{owned_by};
ghost use Rattle.aged.specs.Laws.{NothingLost, NothingLostByOwner, InOrder, InOrderByOwner, ClosedUp, SplitByCount};

use super::{Owned, Row};

/// What went and what stands count together what was put in.
#[tactic(auto, using(crate::proofs::Histories::nothing_lost))]
pub fn nothing_lost<R: Row>()
    ensures { NothingLost R.Row.counting }
{}

/// The same, owner by owner.
#[tactic(auto, using(crate::proofs::Histories::nothing_lost_by_owner))]
pub fn nothing_lost_by_owner<R: Owned>()
    ensures { NothingLostByOwner R.Row.counting R.Owned.whose }
{}

/// First in, first out, unit by unit.
#[tactic(auto, using(crate::proofs::Histories::in_order))]
pub fn in_order<R: Row>()
    ensures { InOrder R.Row.counting }
{}

/// The same of each owner's units, whatever is taken.
#[tactic(auto, using(crate::proofs::Histories::in_order_by_owner))]
pub fn in_order_by_owner<R: Owned>()
    ensures { InOrderByOwner R.Row.counting R.Owned.whose }
{}

/// No row stands that counts nothing.
#[tactic(auto, using(crate::proofs::Histories::closed_up))]
pub fn closed_up<R: Row>()
    ensures { ClosedUp R.Row.counting }
{}

/// A row that is split changes in nothing but its count, whichever rows are taken: all, or one owner's.
pub fn split_by_count<R: Row>()
    ensures { (picks : R → Bool) → SplitByCount R.Row.counting picks }
{}

/// The same where one owner's rows are taken.
pub fn split_by_count_of_owner<R: Owned>()
    ensures { (o : ℕ) → SplitByCount R.Row.counting (owned_by R.Owned.whose o) }
{}
