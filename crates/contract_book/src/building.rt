// Building a book over a kind.
ghost use Rattle.std.specs.Prelude.{◌≡◌, is_ok, MatchResult};
ghost use Rattle.tally.specs.Questions.{is_buildable};
ghost use Rattle.tally.specs.declared.refusal.Refusal.TheVariants.{Unbuildable};
ghost use Rattle.contract_book.specs.Books.{stand};
ghost use Rattle.contract_book.specs.Stands.{built, terms_on};

use crate::state::{Book, Unbuilt};
use kinds::contract::Contract;
use ledger::state::{BookTerms, Ledger};
use tally::sessions::Sessions;

impl<K: Contract> Book<K> {
    // Builds a book with sessions up to the last and a notice window; refused, it hands the kind back.
    pub fn build(kind: K, sessions: Sessions) -> Result<Book<K>, Unbuilt<K>>
        ensures test { is_ok result ≡ is_buildable (terms_on K.Contract.means kind sessions) }
        ensures cases { MatchResult result (λ b. stand b ≡ built K.Contract.means kind sessions) (λ u. (u.kind ≡ kind) × (u.refusal ≡ Unbuildable)) }
    {
        let terms = BookTerms {
            size: kind.contract_size(),
            currency: kind.currency(),
            tick: kind.tick(),
            delivers: kind.delivers(),
            last: sessions.last,
            opens: sessions.opens,
            closes: sessions.closes,
        };
        match Ledger::open(terms) {
            Ok(ledger) => Ok(Book { kind, ledger }),
            Err(refusal) => Err(Unbuilt { kind, refusal }),
        }
    }
}
