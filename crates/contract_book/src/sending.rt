// Calls sent one after the other, and a whole run from the building on.
ghost use Rattle.std.specs.Prelude.{◌≡◌, ◌≤◌, false, List, length, is_ok, MatchResult};
ghost use Rattle.tally.specs.Events.{Request};
ghost use Rattle.tally.specs.Questions.{is_buildable};
ghost use Rattle.tally.specs.declared.refusal.Refusal.TheVariants.{Unbuildable};
ghost use Rattle.ledger.specs.Told.{over};
ghost use Rattle.contract_book.specs.Books.{stand};
ghost use Rattle.contract_book.specs.Sendings.{Ran, Sent};
ghost use Rattle.contract_book.specs.Stands.{Stand, Takes, asked, rows_by, rows_to, stands, terms_on};

use crate::state::{Book, Unbuilt};
use kinds::contract::Contract;
use tally::call::{Answer, Call, Reply};
use tally::refusal::Refusal;
use tally::rows::PageRow;
use tally::sessions::Sessions;

// How many calls were served, and how many rows their pages have.
#[derive(Clone, Copy)]
pub struct Sending {
    pub calls: usize,
    pub rows: usize,
}

// What came of one call: its answer, and how many rows its page has.
#[derive(Clone, Copy)]
struct Served {
    answer: Answer,
    rows: usize,
}

// A book after a run, and how far the run went.
#[derive(Drop)]
pub struct Finished<K> {
    pub book: Book<K>,
    pub sending: Sending,
}

// How many rows a call has written that was answered so: one for each account where it was paid.
fn page_rows(answer: Answer, accounts: usize) -> usize
    ensures { result ≡ rows_by answer accounts }
{
    match answer {
        Ok(Reply::Paid(_)) => accounts,
        _ => 0,
    }
}

impl<K: Contract> Book<K> {
    // Any call: its answer, and its page at the top of the rows handed in.
    #[tactic(auto, using(crate::proofs::Histories::stands_push))]
    pub fn apply(&mut self, call: Call, page: &mut [PageRow]) -> Answer
        ensures takes { Takes K.Contract.means (stand self.old) (asked call (length page.old)) result (stand self.new) }
        ensures page { page.new ≡ over (rows_to K.Contract.means (stand self.old) (asked call (length page.old))) page.old }
        ensures same { is_ok result ≡ false → self.new ≡ self.old }
    {
        match call {
            Call::Register(registration) => self.register(registration).map(Reply::Numbered),
            Call::Trade(trade) => self.trade(trade).map(|()| Reply::Accepted),
            Call::Quote(quotation) => self.quote(quotation).map(|()| Reply::Accepted),
            Call::Notify(notification) => self.notify(notification).map(|()| Reply::Accepted),
            Call::Designate => self.designate().map(Reply::Designated),
            Call::Mark(marking) => self.mark(marking, page).map(Reply::Paid),
            Call::Expire => self.expire(page).map(Reply::Paid),
        }
    }

    // Any call, with how many rows its page has.
    #[tactic(auto, using(crate::proofs::Paying::rows_are))]
    fn serve(&mut self, call: Call, page: &mut [PageRow]) -> Served
        ensures takes { Takes K.Contract.means (stand self.old) (asked call (length page.old)) result.answer (stand self.new) }
        ensures page { page.new ≡ over (rows_to K.Contract.means (stand self.old) (asked call (length page.old))) page.old }
        ensures rows { result.rows ≡ length (rows_to K.Contract.means (stand self.old) (asked call (length page.old))) }
        ensures inside { result.rows ≤ length page.old }
    {
        let accounts = self.ledger.accounts().len();
        let answer = self.apply(call, page);
        let rows = page_rows(answer, accounts);
        Served { answer, rows }
    }

    // Sends calls one after the other, as many as the log has places for; their pages share the rows handed in.
    pub fn send(&mut self, calls: &[Call], log: &mut [Answer], pages: &mut [PageRow]) -> Sending
        ensures history { (s : Stand K) (h : List Request) → stand self.old ≡ stands K.Contract.means s h → Sent K.Contract.means s (stand self.old) h calls.now log.old log.new pages.old pages.new (stand self.new) result.calls result.rows }
    {
        let count = calls.len().min(log.len());
        let mut rows = 0;
        let served = &calls[..count];
        // By index and no zip: the loop's invariant has no name for a log that its `iter_mut` has borrowed.
        for (i, &call) in served.iter().enumerate() {
            let came = self.serve(call, &mut pages[rows..]);
            log[i] = came.answer;
            rows += came.rows;
        }
        Sending { calls: count, rows }
    }

    // A whole run: builds a book over the kind and sends it the calls. The settlement law holds of it, whatever the kind, the terms and the calls.
    pub fn run(
        kind: K,
        sessions: Sessions,
        calls: &[Call],
        log: &mut [Answer],
        pages: &mut [PageRow],
    ) -> Result<Finished<K>, Unbuilt<K>>
        ensures test { is_ok result ≡ is_buildable (terms_on K.Contract.means kind sessions) }
        ensures law { MatchResult result (λ x. Ran K.Contract.means kind sessions calls.now log.old log.new pages.old pages.new (stand x.book) x.sending.calls x.sending.rows) (λ u. (u.kind ≡ kind) × (u.refusal ≡ Unbuildable) × (log.new ≡ log.old) × (pages.new ≡ pages.old)) }
    {
        let mut book = Book::build(kind, sessions)?;
        let sending = book.send(calls, log, pages);
        Ok(Finished { book, sending })
    }
}
