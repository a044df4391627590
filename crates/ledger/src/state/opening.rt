// A ledger with nothing in it.
ghost use Rattle.std.specs.Prelude.{◌≡◌, ◌≤◌, ◌&&◌, is_ok, if◌then◌else◌, MatchResult, ◌==◌, nat_le, nat_lt};
ghost use Rattle.tally.specs.Law.{Buildable};
ghost use Rattle.tally.specs.Questions.{between, is_buildable};
ghost use Rattle.tally.specs.Runs.{opened};
ghost use Rattle.ledger.specs.Ledgers.{view, terms_in, can_open};
ghost use Rattle.tally.specs.declared.refusal.Refusal.TheVariants.{Unbuildable};

use crate::state::{BookTerms, Ledger};
use aged::Line;
use arrayvec::ArrayVec;
use kinds::terms::Terms;
use tally::refusal::Refusal;

// No contract is listed for longer than a year of sessions.
const MAX_SESSIONS: u64 = 260;

// Whether the notice window suits the contract: inside the sessions before the last where it delivers, and none where it does not.
fn has_window(terms: &BookTerms) -> bool
    ensures { result ≡ (if terms.now.delivers then nat_le 1 terms.now.opens && (nat_le terms.now.opens terms.now.closes && nat_lt terms.now.closes terms.now.last) else (terms.now.opens == 0 && terms.now.closes == 0)) }
{
    if terms.delivers {
        terms.opens >= 1 && terms.opens <= terms.closes && terms.closes < terms.last
    } else {
        terms.opens == 0 && terms.closes == 0
    }
}

// Whether the book has sessions, as many as it may, and its window.
#[tactic(auto, unfolding(tally::specs::Questions::is_buildable))]
pub fn is_buildable(terms: &BookTerms) -> bool
    ensures { result ≡ is_buildable (terms_in terms.now) }
{
    (1..=MAX_SESSIONS).contains(&terms.last) && has_window(terms)
}

// Whether size and tick are those of a kind.
fn is_of_kind(terms: &BookTerms) -> bool
    ensures { result ≡ (between 1 100 terms.now.size && nat_le 1 terms.now.tick) }
{
    Terms::new(terms.size, terms.currency, terms.tick).is_some()
}

impl Ledger {
    // The ledger of a book that has just been built.
    fn blank(terms: BookTerms) -> Ledger
        requires built { Buildable (terms_in terms) }
        requires ticked { 1 ≤ terms.tick }
        ensures view { view result ≡ opened }
        ensures terms { result.terms ≡ terms }
    {
        Ledger {
            terms,
            accounts: ArrayVec::new(),
            sheet: ArrayVec::new(),
            lots: Line::new(),
            notices: Line::new(),
            session: 1,
            price: 0,
            rate: 0,
            expired: false,
        }
    }

    // Opens a ledger with nothing in it, where a book can be built on the terms.
    pub fn open(terms: BookTerms) -> Result<Ledger, Refusal>
        ensures test { is_ok result ≡ can_open (terms_in terms) }
        ensures cases { MatchResult result (λ l. (view l ≡ opened) × (l.terms ≡ terms)) (λ e. e ≡ Unbuildable) }
    {
        if !is_buildable(&terms) || !is_of_kind(&terms) {
            return Err(Refusal::Unbuildable);
        }
        Ok(Ledger::blank(terms))
    }
}
