// What opens a book.
ghost use Rattle.std.specs.Prelude.{◌≡◌, IfOk, IfSome};
ghost use Rattle.kinds.specs.Tickers.{row};
ghost use Rattle.reader.specs.Saying.{said};
ghost use Rattle.ledger.specs.Ledgers.{terms_in};
ghost use Rattle.desk.specs.Openings.{IsBuildable, opening_to, terms_for};

use crate::faults::Fault;
use kinds::months::Ticker;
use kinds::tickers::Ending;
use ledger::state::BookTerms;
use ledger::state::opening::is_buildable;
use reader::fault::ReadFault;
use reader::record::{Content, Record};
use tally::refusal::Refusal;
use tally::sessions::Sessions;

// A book to be built: its contract and its sessions.
#[derive(Clone, Copy, Debug, PartialEq, Eq)]
pub struct Opening {
    pub ticker: Ticker,
    pub sessions: Sessions,
}

// The terms that the book would be built on.
impl From<Opening> for BookTerms {
    ghost from_gives = { λ opening terms. terms_in terms ≡ terms_for opening };

    fn from(opening: Opening) -> BookTerms {
        let Opening { ticker, sessions } = opening;
        let terms = ticker.terms();
        BookTerms {
            size: terms.size(),
            currency: terms.currency(),
            tick: terms.tick(),
            delivers: ticker.ending() == Ending::Delivery,
            last: sessions.last,
            opens: sessions.opens,
            closes: sessions.closes,
        }
    }
}

// What is said to a record while no book is open: the book that it opens, if it does.
pub fn opened_by(came: Result<Record, ReadFault>) -> Result<Option<Opening>, Fault>
    ensures value { result ≡ opening_to (said came.entry) }
    ensures built { IfOk result (λ o. IfSome o IsBuildable) }
{
    match came?.content {
        Content::Opening {
            ticker,
            sessions,
            opens,
            closes,
            ..
        } => {
            let opening = Opening {
                ticker,
                sessions: Sessions {
                    last: u64::from(sessions.value()),
                    opens: u64::from(opens.value()),
                    closes: u64::from(closes.value()),
                },
            };
            if !is_buildable(&BookTerms::from(opening)) {
                return Err(Fault::Book(Refusal::Unbuildable));
            }
            Ok(Some(opening))
        }
        _ => Ok(None),
    }
}
