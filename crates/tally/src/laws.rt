// The laws of every run of calls, each the contract of a function.
ghost use Rattle.std.specs.Prelude.{List};
ghost use Rattle.tally.specs.Book.{Terms};
ghost use Rattle.tally.specs.Bounds.{Bounded, BoundsLaw};
ghost use Rattle.tally.specs.Events.{Request, events};
ghost use Rattle.tally.specs.Examples.{QuestionOrder, WorkedDelivery, WorkedOffset, WorkedRun};
ghost use Rattle.tally.specs.Law.{Buildable, Settled, SettlementLaw};
ghost use Rattle.tally.specs.Runs.{shown};
ghost use Rattle.tally.specs.Worked.{WorkedLines};

use kinds::contract::Contract;

// Every run is settled.
pub fn settlement_stands()
    ensures { SettlementLaw }
{}

// No number of a run is large.
pub fn bounds_stand()
    ensures { BoundsLaw }
{}

// Whatever is sent to a book over any kind, the run is settled and its numbers are bounded.
pub fn any_kind_settles<K: Contract>()
    ensures settled { (c : Terms) → Buildable c → (k : K) (rs : List Request) → Settled c (events K.Contract.means k rs) }
    ensures bounded { (c : Terms) → Buildable c → (k : K) (rs : List Request) → Bounded c (shown c (events K.Contract.means k rs)) }
{}

// The definitions compute: small runs worked through.
pub fn examples_stand()
    ensures run { WorkedRun }
    ensures delivery { WorkedDelivery }
    ensures offset { WorkedOffset }
{}

// Nine worked lines, together: six payments, five indexes, a marking's price, and aged lots.
pub fn worked_lines_stand()
    ensures lines { WorkedLines }
{}

// The questions of every call are asked in their order.
pub fn questions_stand()
    ensures { QuestionOrder }
{}
