// The text of a run: each record's fault or answer, in the order of the file.
ghost use Rattle.std.specs.Prelude.{◌≡◌, ℕ, ◌+◌, ◌^◌, ◌<◌, length, take, drop};
ghost use Rattle.reader.specs.Saying.{said};
ghost use Rattle.text.specs.Writers.{Writes};
ghost use Rattle.desk.specs.Places.{lines_left};
ghost use Rattle.desk.specs.Told.{after_line, after_next, line_text, next_text, starting, telling};

use crate::faults::Fault;
use crate::place::Place;
use crate::printed::{put_designation, put_page, put_refusal};
use crate::records::Records;
use reader::fault::ReadFault;
use reader::reading::Reader;
use reader::record::Record;
use tally::call::{Answer, Reply};
use tally::rows::PageRow;
use text::writer::{Full, Writer};

// How far the text has come: the sessions closed, the accounts registered, and the answers and page rows still to be told.
#[derive(Drop)]
struct Teller<'a> {
    closed: u64,
    accounts: usize,
    answers: &'a [Answer],
    rows: &'a [PageRow],
    ghost sessions_fit: { closed + length answers.now < 2 ^ 64 },
    ghost accounts_fit: { accounts + length answers.now < 2 ^ 64 },
}

// The rows of a page at the top, one for each account, or all where there are fewer; and those below.
fn split_page(rows: &[PageRow], accounts: usize) -> (&[PageRow], &[PageRow])
    ensures page { result.0.now ≡ take accounts rows.now }
    ensures below { result.1.now ≡ drop accounts rows.now }
{
    rows.split_at(accounts.min(rows.len()))
}

impl Teller<'_> {
    ghost use Rattle.desk.specs.Tellers.{before, behind};

    // Tells the next answer, to the record at a place; a page closes a session.
    fn tell_answer(&mut self, place: Place, out: &mut Writer) -> Result<(), Full>
        ensures puts { Writes out.old (next_text (before place self.old) self.old.answers.now) out.new result }
        ensures after { (width : ℕ) → behind place width self.new ≡ after_next (before place self.old) width self.old.answers.now }
    {
        let Some((answer, rest)) = self.answers.split_first() else {
            return Ok(());
        };
        self.answers = rest;
        match *answer {
            Err(refusal) => put_refusal(out, place, Fault::Book(refusal)),
            Ok(Reply::Numbered(_)) => {
                self.accounts += 1;
                Ok(())
            }
            Ok(Reply::Accepted) => Ok(()),
            Ok(Reply::Designated(designation)) => put_designation(out, designation),
            Ok(Reply::Paid(sums)) => {
                self.closed += 1;
                let (page, below) = split_page(self.rows, self.accounts);
                self.rows = below;
                put_page(out, self.closed, page, sums)
            }
        }
    }

    // Tells a record of an open book: its fault, or what was answered to it.
    fn tell_record(
        &mut self,
        place: Place,
        came: Result<Record, ReadFault>,
        out: &mut Writer,
    ) -> Result<(), Full>
        ensures puts { Writes out.old (line_text (before place self.old) (said came.entry)) out.new result }
        ensures after { (width : ℕ) → behind place width self.new ≡ after_line (before place self.old) width (said came.entry) }
    {
        match came {
            Err(fault) => put_refusal(out, place, Fault::Read(fault)),
            Ok(_) => self.tell_answer(place, out),
        }
    }
}

// Writes the text of the records that are left, from the answers and the page rows of their run.
pub fn tell(
    reader: Reader,
    answers: &[Answer],
    rows: &[PageRow],
    out: &mut Writer,
) -> Result<(), Full>
    ensures { Writes out.old (telling (starting reader.entry.number reader.entry.at answers.now rows.now) (lines_left reader.entry)) out.new result }
{
    let mut teller = Teller {
        closed: 0,
        accounts: 0,
        answers,
        rows,
    };
    for (place, came) in Records::<true>(reader) {
        teller.tell_record(place, came, out)?;
    }
    Ok(())
}
