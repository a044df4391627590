// A run over an input: waiting for a book to be opened, and then settling it.
ghost use Rattle.std.specs.Prelude.{◌≡◌, ◌≤◌, length};
ghost use Rattle.reader.specs.Cuts.{lines};
ghost use Rattle.text.specs.Writers.{Writes};
ghost use Rattle.contract_book.specs.Stands.{terms_on};
ghost use Rattle.desk.specs.Courses.{course};
ghost use Rattle.desk.specs.Openings.{IsBuildable, terms_for};
ghost use Rattle.desk.specs.Places.{lines_left};
ghost use Rattle.desk.specs.Progress.{Settles, waiting_at};
ghost use Rattle.desk.specs.Report.{log_by, log_text, opened_text, report, sequel};

use crate::gathering::gather;
use crate::openings::Opening;
use crate::records::Records;
use crate::telling::tell;
use crate::waiting::wait;
use contract_book::state::Book;
use kinds::contract::Contract;
use kinds::delivering::Delivering;
use kinds::indexes::LastFive;
use kinds::tickers::Ending;
use kinds::weighted::WeightedAverage;
use reader::reading::Reader;
use reader::whole::count_records;
use tally::call::{Answer, Call};
use tally::rows::PageRow;
use text::writer::{Full, Writer};

// A book has at most 260 sessions and an expiry, so 261 pages, each of at most 64 accounts.
pub const PAGE_ROWS: usize = 16_704;

// A reader, and room for the calls of all that it has left, their answers, and the rows of their pages.
#[derive(Drop)]
struct Desk<'i, 't> {
    reader: Reader<'i>,
    calls: &'t mut [Call],
    log: &'t mut [Answer],
    pages: &'t mut [PageRow],
    ghost calls_fit: { length (lines_left reader) ≤ length calls.now },
    ghost log_fits: { length (lines_left reader) ≤ length log.now },
    ghost pages_fit: { 16704 ≤ length pages.now },
}

impl Desk<'_, '_> {
    // Settles an open book: gathers the calls of the records that are left, runs them over the kind, and tells what came of each.
    fn serve<K: Contract + Drop>(
        &mut self,
        kind: K,
        opening: Opening,
        out: &mut Writer,
    ) -> Result<(), Full>
        requires kind { terms_on K.Contract.means kind opening.sessions ≡ terms_for opening }
        requires built { IsBuildable opening }
        ensures { Writes out.old (log_text self.old.reader.number self.old.reader.at (log_by (course K.Contract.means) kind opening self.old.reader.at (lines_left self.old.reader)) (lines_left self.old.reader)) out.new result }
    {
        let reader = self.reader;
        let calls = &mut *self.calls;
        let log = &mut *self.log;
        let pages = &mut *self.pages;
        let count = gather(reader, calls);
        let Ok(finished) = Book::run(kind, opening.sessions, &calls[..count], log, pages) else {
            unreachable!()
        };
        let sending = finished.sending;
        tell(reader, &log[..sending.calls], &pages[..sending.rows], out)
    }

    // Settles a book on its contract, of the kind that the ticker has.
    // A switch, since the kinds are types of their own and no closure takes a kind of any type.
    fn begin(&mut self, opening: Opening, out: &mut Writer) -> Result<(), Full>
        requires built { IsBuildable opening }
        ensures { Writes out.old (opened_text opening self.old.reader.number self.old.reader.at (lines_left self.old.reader)) out.new result }
    {
        let terms = opening.ticker.terms();
        match opening.ticker.ending() {
            Ending::Delivery => self.serve(Delivering::new(terms), opening, out),
            Ending::WeightedAverage => self.serve(WeightedAverage::new(terms), opening, out),
            Ending::LastFive => self.serve(LastFive::new(terms), opening, out),
        }
    }

    // Writes the text of all that is left.
    fn write(&mut self, out: &mut Writer) -> Result<(), Full>
        ensures { Writes out.old (waiting_at sequel self.old.reader) out.new result }
    {
        let mut records = Records::<false>(self.reader);
        let opened = wait(&mut records, out)?;
        self.reader = records.0;
        match opened {
            Some(opening) => self.begin(opening, out),
            None => Ok(()),
        }
    }
}

// Writes the report of an input into a slice, and answers where it ends. There must be a place for a call and for an answer to each record, and rows for every page that a book can have.
// The three slices stand apart: of a slice in a struct a caller would not learn that it keeps its length.
pub fn settle(
    input: &[u8],
    calls: &mut [Call],
    log: &mut [Answer],
    pages: &mut [PageRow],
    out: &mut [u8],
) -> Option<usize>
    ensures { Settles (length (lines input.now)) (length calls.old) (length log.old) (length pages.old) out.old (report input.now) out.new result }
{
    let records = count_records(input);
    if calls.len() < records || log.len() < records || pages.len() < PAGE_ROWS {
        return None;
    }
    let mut desk = Desk {
        reader: Reader::new(input),
        calls,
        log,
        pages,
    };
    let mut writer = Writer::new(out);
    desk.write(&mut writer).ok()?;
    Some(writer.end())
}
