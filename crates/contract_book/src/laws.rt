// What holds of every book, whatever is sent to it, as the contract of a function.
ghost use Rattle.tally.specs.Events.{Request};
ghost use Rattle.tally.specs.declared.sessions.Sessions.{Sessions};
ghost use Rattle.contract_book.specs.Stands.{OnKind, Stand, next, built};

use kinds::contract::Contract;

// A book is built on its kind's terms, and every call keeps them so.
pub fn terms_stay<K: Contract>()
    ensures built { (k : K) (sessions : Sessions) → OnKind K.Contract.means (built K.Contract.means k sessions) }
    ensures kept { (s : Stand K) (r : Request) → OnKind K.Contract.means s → OnKind K.Contract.means (next K.Contract.means s r) }
{}
