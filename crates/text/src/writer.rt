// A writer over a slice handed in: words and decimal numbers, one after the other.
ghost use Rattle.std.specs.Prelude.{◌≡◌, ◌<◌, ◌≤◌, length, IfSome, IsNone, ◌↔◌};

use crate::pieces::Piece;
use itoa::{Buffer, Integer};

// A text does not fit.
#[derive(Clone, Copy, Debug, PartialEq, Eq)]
pub struct Full;

// A slice of bytes, and where the text in it ends.
// No `fmt::Write`: `write!` says nothing of when it fails, and a report is refused exactly where it does not fit.
#[derive(Drop)]
pub struct Writer<'a> {
    out: &'a mut [u8],
    at: usize,
    ghost within: { at ≤ length out.now },
}

impl<'a> Writer<'a> {
    ghost use Rattle.text.specs.Pieces.{field_text, line_text, piece_text, pieces_text};
    ghost use Rattle.text.specs.Writers.{Begins, Writes};

    // A writer at the top of a slice.
    pub fn new(out: &'a mut [u8]) -> Writer<'a>
        ensures { Begins out.entry 0 result }
    {
        Writer { out, at: 0 }
    }

    // A writer at a place of a slice, where the slice goes so far.
    pub fn starting_at(out: &'a mut [u8], at: usize) -> Option<Writer<'a>>
        ensures none { IsNone result ↔ (length out.old < at) }
        ensures some { IfSome result (Begins out.entry at) }
    {
        if at > out.len() {
            return None;
        }
        Some(Writer { out, at })
    }

    // Where the text ends.
    pub fn end(&self) -> usize
        ensures { result ≡ self.now.at }
    {
        self.at
    }

    // Writes a text.
    pub fn put(&mut self, text: &[u8]) -> Result<(), Full>
        ensures { Writes self.old text.now self.new result }
    {
        if text.len() > self.out.len() - self.at {
            return Err(Full);
        }
        let end = self.at + text.len();
        self.out[self.at..end].copy_from_slice(text);
        self.at = end;
        Ok(())
    }

    // Writes a number's digits, behind a minus sign where it is negative.
    pub fn put_number<N: Integer>(&mut self, number: N) -> Result<(), Full>
        ensures { Writes self.old (N.text number) self.new result }
    {
        self.put(Buffer::new().format(number).as_bytes())
    }

    // Writes a part of a line.
    // The lemma lets the check see through a sign written apart, so that another sign is refused by what the text has to be.
    #[tactic(auto, using(crate::proofs::Writing::debit_then))]
    fn put_piece(&mut self, piece: Piece) -> Result<(), Full>
        ensures { Writes self.old (piece_text piece.entry) self.new result }
    {
        match piece {
            Piece::Word(text) => self.put(text),
            Piece::Count(n) => self.put_number(n),
            Piece::Amount(z) => self.put_number(z),
        }
    }

    // Writes the parts of a line one after the other.
    pub fn put_pieces(&mut self, pieces: &[Piece]) -> Result<(), Full>
        ensures { Writes self.old (pieces_text pieces.now) self.new result }
    {
        for piece in pieces {
            self.put_piece(*piece)?;
        }
        Ok(())
    }

    // Writes a field of a line, behind a space.
    fn put_field(&mut self, field: Piece) -> Result<(), Full>
        ensures { Writes self.old (field_text field.entry) self.new result }
    {
        self.put(b" ")?;
        self.put_piece(field)
    }

    // Writes a line: its mark, its fields, and a newline.
    pub fn put_line(&mut self, mark: &[u8], fields: &[Piece]) -> Result<(), Full>
        ensures { Writes self.old (line_text mark.now fields.now) self.new result }
    {
        self.put(mark)?;
        for field in fields {
            self.put_field(*field)?;
        }
        self.put(b"\n")
    }
}
