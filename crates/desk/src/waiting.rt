// What is done until a book is opened.
ghost use Rattle.std.specs.Prelude.{◌≡◌, ◌≤◌, IfOk, IfSome, length, drop};
ghost use Rattle.desk.specs.Openings.{IsBuildable};
ghost use Rattle.desk.specs.Places.{lines_left};
ghost use Rattle.desk.specs.Progress.{Waits};
ghost use Rattle.desk.specs.Waiting.{Sequel};

use crate::openings::{Opening, opened_by};
use crate::printed::put_refusal;
use crate::records::Records;
use text::writer::{Full, Writer};

// Reads on until a book is opened or the input ends, and answers the book that was opened, if one was. Refused records are told, whatever is told behind them.
pub fn wait(records: &mut Records<false>, out: &mut Writer) -> Result<Option<Opening>, Full>
    ensures came { (s : Sequel) → Waits s out.old records.old.0 out.new records.new.0 result }
    ensures fewer { length (lines_left records.new.0) ≤ length (lines_left records.old.0) }
    ensures built { IfOk result (λ o. IfSome o IsBuildable) }
{
    // A `for` over `&mut` proves nothing of where the records stand behind it.
    while let Some((place, came)) = records.next() {
        match opened_by(came) {
            Ok(None) => {}
            Ok(Some(opening)) => return Ok(Some(opening)),
            Err(fault) => put_refusal(out, place, fault)?,
        }
    }
    Ok(None)
}
