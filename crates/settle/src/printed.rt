// The closing line of the report.
ghost use Rattle.kinds.specs.Meaning.{cents_of};
ghost use Rattle.text.specs.Writers.{Writes};
ghost use Rattle.settle.specs.Lines.{closing_line, final_text};

use money::units::Price;
use text::pieces::Piece;
use text::writer::{Full, Writer};

// What the closing line ends with: the marks of the records that are read and not acted on.
const UNSERVED: &[u8] = b", not served yet: AC TR NT MK DG EX\n";

// Writes the price that the contract ends at.
fn put_final(out: &mut Writer, price: Option<Price>) -> Result<(), Full>
    ensures { Writes out.old (final_text (cents_of price)) out.new result }
{
    match price {
        None => out.put(b"no final price"),
        Some(price) => {
            out.put(b"final price ")?;
            out.put_number(price.cents())
        }
    }
}

// Writes the closing line: how many records there were, how many quotations were taken, and the price that the contract ends at.
pub fn put_closing(
    out: &mut Writer,
    records: usize,
    taken: usize,
    price: Option<Price>,
) -> Result<(), Full>
    ensures { Writes out.old (closing_line records taken (cents_of price)) out.new result }
{
    out.put_pieces(&[
        Piece::Word(b"records "),
        Piece::Count(records as u64),
        Piece::Word(b", quotations taken "),
        Piece::Count(taken as u64),
        Piece::Word(b", "),
    ])?;
    put_final(out, price)?;
    out.put(UNSERVED)
}
