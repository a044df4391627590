// The whole job, with memory of its own.
ghost use Rattle.std.specs.Prelude.{◌≡◌, ◌+◌, ◌*◌, ◌^◌, ◌≤◌, IfOk, MatchOption};
ghost use Rattle.desk.specs.Report.{report as report_of};
ghost use Rattle.desk.specs.declared.whole.Shortage.TheVariants.{Memory};

use crate::run::{PAGE_ROWS, settle};
use reader::whole::count_records;
use std::alloc::{AllocError, Global};
use std::error::Error;
use std::fmt;
use tally::call::{Answer, Call, Reply};
use tally::rows::PageRow;

// A refusal's line is "R ", a number of at most 20 digits, a layer of 1, a number of 2, a place of at most 20, three spaces and a newline; a designation's is shorter.
const LINE_ROOM: usize = 64;

// The lines of 261 pages: 64 accounts, each in less than 64 bytes, and what the page comes to in less than 128.
const PAGES_ROOM: usize = 1_102_464;

// Why there is no report.
#[derive(Clone, Copy, Debug, PartialEq, Eq)]
pub enum Shortage {
    // No memory was to be had.
    Memory,
    // The report is larger than the room that every report fits: it never is.
    Room,
}

impl Shortage {
    // What to tell a person. Display needs a formatter, which can want memory in its turn.
    pub fn message(self) -> &'static str {
        match self {
            Shortage::Memory => "out of memory",
            Shortage::Room => "the report outgrew its room",
        }
    }
}

impl fmt::Display for Shortage {
    fn fmt<W: fmt::Write>(&self, f: &mut fmt::Formatter<W>) -> fmt::Result {
        f.write_str(self.message())
    }
}

impl Error for Shortage {}

impl From<AllocError> for Shortage {
    ghost from_gives = { λ _ r. r ≡ Memory };

    fn from(_cause: AllocError) -> Shortage {
        Shortage::Memory
    }
}

// How many bytes a report can take with a line at most for each record, and so many bytes besides.
pub fn room(records: usize, besides: usize) -> Option<usize>
    ensures { MatchOption result (2 ^ 64 ≤ 64 * records + besides) (λ n. n ≡ 64 * records + besides) }
{
    records.checked_mul(LINE_ROOM)?.checked_add(besides)
}

// How many bytes a report can take that has the lines of every page besides.
fn report_room(records: usize) -> Option<usize>
    ensures { MatchOption result (2 ^ 64 ≤ 64 * records + 1102464) (λ n. n ≡ 64 * records + 1102464) }
{
    room(records, PAGES_ROOM)
}

// Writes the report into text that has room for it, and cuts it to its length.
fn fill(
    input: &[u8],
    calls: &mut [Call],
    log: &mut [Answer],
    pages: &mut [PageRow],
    mut text: Vec<u8>,
) -> Result<Vec<u8>, Shortage>
    ensures { IfOk result (λ v. v.items ≡ report_of input.now) }
{
    let end = settle(input, calls, log, pages, &mut text).ok_or(Shortage::Room)?;
    text.truncate(end);
    Ok(text)
}

// The report of an input, whole.
pub fn report(heap: Global, input: &[u8]) -> Result<Vec<u8>, Shortage>
    ensures { IfOk result (λ v. v.items ≡ report_of input.now) }
{
    let records = count_records(input);
    let room = report_room(records).ok_or(Shortage::Room)?;
    let text = vec![in heap; 0u8; room]?;
    let mut calls = vec![in heap; Call::Designate; records]?;
    let mut log = vec![in heap; Ok(Reply::Accepted); records]?;
    let mut pages = vec![in heap; PageRow::default(); PAGE_ROWS]?;
    fill(input, &mut calls, &mut log, &mut pages, text)
}
