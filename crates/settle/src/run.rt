// A run over an input: waiting for a book to be opened, and then serving it.
ghost use Rattle.std.specs.Prelude.{◌≡◌, ◌+◌, ◌≤◌};
ghost use Rattle.reader.specs.Saying.{said};
ghost use Rattle.text.specs.Puts.{Puts};
ghost use Rattle.text.specs.Writers.{Writes};
ghost use Rattle.desk.specs.Courses.{course};
ghost use Rattle.desk.specs.Places.{lines_left};
ghost use Rattle.desk.specs.Waiting.{record_text};
ghost use Rattle.settle.specs.Answers.{answered, answering};
ghost use Rattle.settle.specs.Report.{opened_on, report, serving, standing, taken_in};

use crate::answers::{Outcome, answer};
use crate::printed::put_closing;
use desk::place::Place;
use desk::printed::put_refusal;
use desk::records::Records;
use desk::waiting::wait;
use kinds::contract::Contract;
use kinds::delivering::Delivering;
use kinds::indexes::LastFive;
use kinds::months::Ticker;
use kinds::tickers::Ending;
use kinds::weighted::WeightedAverage;
use reader::fault::ReadFault;
use reader::reading::Reader;
use reader::record::Record;
use text::writer::{Full, Writer};

// An open book: its kind, how many records were read, and how many quotations it has taken.
#[derive(Drop)]
struct Book<K> {
    kind: K,
    records: usize,
    taken: usize,
    ghost few: { taken ≤ records },
}

impl<K: Contract> Book<K> {
    // One record of an open book.
    fn serve_record(
        &mut self,
        place: Place,
        came: Result<Record, ReadFault>,
        out: &mut Writer,
    ) -> Result<(), Full>
        requires next { place.number ≡ self.old.records + 1 }
        ensures puts { Writes out.old (record_text place.number place.start (answering (course K.Contract.means) self.old.kind (said came.entry))) out.new result }
        ensures records { self.new.records ≡ place.number }
        ensures kind { self.new.kind ≡ answered (course K.Contract.means) self.old.kind (said came.entry) }
        ensures taken { self.new.taken ≡ self.old.taken + taken_in (answering (course K.Contract.means) self.old.kind (said came.entry)) }
    {
        self.records = place.number;
        match answer(&mut self.kind, came) {
            Ok(Outcome::Taken) => {
                self.taken += 1;
                Ok(())
            }
            Ok(Outcome::Unserved) => Ok(()),
            Err(fault) => put_refusal(out, place, fault),
        }
    }
}

// Reads on to the input's end with an open book, and closes the report.
fn serve<K: Contract + Drop>(kind: K, reader: Reader, out: &mut Writer) -> Result<(), Full>
    ensures { Writes out.old (serving (course K.Contract.means) (standing reader.entry.number reader.entry.at 0 kind) (lines_left reader.entry)) out.new result }
{
    let mut book = Book {
        kind,
        records: reader.number(),
        taken: 0,
    };
    for (place, came) in Records::<true>(reader) {
        book.serve_record(place, came, out)?;
    }
    put_closing(out, book.records, book.taken, book.kind.final_price())
}

// Serves a book on a ticker's contract, of the kind that the ticker has.
// A switch, since the kinds are types of their own and no closure takes a kind of any type.
fn begin(ticker: Ticker, reader: Reader, out: &mut Writer) -> Result<(), Full>
    ensures { Writes out.old (opened_on ticker reader.entry.number reader.entry.at (lines_left reader.entry)) out.new result }
{
    let terms = ticker.terms();
    match ticker.ending() {
        Ending::Delivery => serve(Delivering::new(terms), reader, out),
        Ending::WeightedAverage => serve(WeightedAverage::new(terms), reader, out),
        Ending::LastFive => serve(LastFive::new(terms), reader, out),
    }
}

// Writes the report of an input.
fn write(input: &[u8], out: &mut Writer) -> Result<(), Full>
    ensures { Writes out.old (report input.now) out.new result }
{
    let mut records = Records::<false>(Reader::new(input));
    match wait(&mut records, out)? {
        Some(opening) => begin(opening.ticker, records.0, out),
        None => put_closing(out, records.0.number(), 0, None),
    }
}

// Writes the report of an input into a slice, and answers where it ends, or nothing where it does not fit.
pub fn settle(input: &[u8], out: &mut [u8]) -> Option<usize>
    ensures { Puts out.old 0 (report input.now) out.new result }
{
    let mut writer = Writer::new(out);
    write(input, &mut writer).ok()?;
    Some(writer.end())
}
