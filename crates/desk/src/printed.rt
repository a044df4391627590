// The lines of the report.
ghost use Rattle.text.specs.Writers.{Writes};
ghost use Rattle.desk.specs.Lines.{designation_line, page_text, refusal_line, row_line, rows_text, totals_line};

use crate::faults::Fault;
use crate::place::Place;
use tally::rows::{Designation, PageRow, Sums};
use text::pieces::Piece;
use text::writer::{Full, Writer};

// Writes the line of a refused record.
#[tactic(auto, unfolding(crate::specs::Lines::refusal_line))]
pub fn put_refusal(out: &mut Writer, place: Place, fault: Fault) -> Result<(), Full>
    ensures { Writes out.old (refusal_line place.number place.start fault) out.new result }
{
    let fields = [
        Piece::Count(place.number as u64),
        Piece::Count(u64::from(fault.layer())),
        Piece::Count(u64::from(fault.number())),
        Piece::Count(fault.place(place.start) as u64),
    ];
    out.put_line(b"R", &fields)
}

// Writes the line of a designation.
#[tactic(auto, unfolding(crate::specs::Lines::designation_line))]
pub(crate) fn put_designation(out: &mut Writer, designation: Designation) -> Result<(), Full>
    ensures { Writes out.old (designation_line designation) out.new result }
{
    let fields = [
        Piece::Count(designation.buyer as u64),
        Piece::Count(designation.seller as u64),
        Piece::Count(u64::from(designation.contracts)),
        Piece::Count(u64::from(designation.price)),
    ];
    out.put_line(b"D", &fields)
}

// Writes the line of one account on a page.
#[tactic(auto, unfolding(crate::specs::Lines::row_line))]
fn put_row(out: &mut Writer, session: u64, account: u64, row: PageRow) -> Result<(), Full>
    ensures { Writes out.old (row_line session account row) out.new result }
{
    let fields = [
        Piece::Count(session),
        Piece::Count(account),
        Piece::Amount(row.day_trade),
        Piece::Amount(row.margin),
    ];
    out.put_line(b"S", &fields)
}

// Writes the line of what a page comes to.
#[tactic(auto, unfolding(crate::specs::Lines::totals_line))]
fn put_totals(out: &mut Writer, session: u64, sums: Sums) -> Result<(), Full>
    ensures { Writes out.old (totals_line session sums) out.new result }
{
    let fields = [
        Piece::Count(session),
        Piece::Amount(sums.reais),
        Piece::Amount(sums.dollars),
        Piece::Amount(sums.remainder),
        Piece::Count(u64::from(sums.lines)),
    ];
    out.put_line(b"T", &fields)
}

// Writes a page: a line for each account, in number order, and what the page comes to.
pub(crate) fn put_page(
    out: &mut Writer,
    session: u64,
    rows: &[PageRow],
    sums: Sums,
) -> Result<(), Full>
    ensures { Writes out.old (page_text session rows.now sums) out.new result }
{
    for (i, row) in rows.iter().enumerate() {
        put_row(out, session, i as u64 + 1, *row)?;
    }
    put_totals(out, session, sums)
}
