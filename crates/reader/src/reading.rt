// A reader: one record after another, to the input's end.
ghost use Rattle.std.specs.Prelude.{◌≡◌, ◌-◌, ◌<◌, ◌≤◌, ◌∷◌, length, drop};
ghost use Rattle.std.specs.List.{position};
ghost use Rattle.reader.specs.Cuts.{is_newline, lines};
ghost use Rattle.reader.specs.Readings.{part};
ghost use Rattle.reader.specs.Steps.{Next};

use crate::fault::ReadFault;
use crate::record::{Record, read_line};

// A place in an input, and how many records lie before it.
#[derive(Clone, Copy)]
pub struct Reader<'a> {
    input: &'a [u8],
    at: usize,
    number: usize,
    ghost within: { at ≤ length input.now },
    ghost counted: { number ≤ at },
}

// Where the first newline of some bytes is.
fn newline(bytes: &[u8]) -> Option<usize>
    ensures { result ≡ position is_newline bytes.now }
{
    bytes.iter().position(|b| *b == b'\n')
}

// Where the line that begins at a place ends: behind its newline, or with the input.
fn line_end(input: &[u8], at: usize) -> usize
    requires within { at < length input.now }
    ensures first { lines (drop at input.now) ≡ part at (result - at) input.now ∷ lines (drop result input.now) }
    ensures bound { (at < result) × (result ≤ length input.now) }
{
    match newline(&input[at..]) {
        Some(width) => at + width + 1,
        None => input.len(),
    }
}

impl<'a> Reader<'a> {
    // A reader before an input's first record.
    pub fn new(input: &'a [u8]) -> Reader<'a>
        ensures input { result.input.now ≡ input.now }
        ensures at { result.at ≡ 0 }
        ensures number { result.number ≡ 0 }
    {
        Reader {
            input,
            at: 0,
            number: 0,
        }
    }

    // The next record or its fault, or nothing at the input's end. The caller says whether a book has been opened.
    pub fn next(&mut self, opened: bool) -> Option<Result<Record<'a>, ReadFault>>
        ensures came { Next opened self.old.input.now self.old.at self.old.number result self.new.at self.new.number }
        ensures same { self.new.input.now ≡ self.old.input.now }
    {
        let input = self.input;
        let at = self.at;
        if at == input.len() {
            return None;
        }
        let end = line_end(input, at);
        self.at = end;
        self.number += 1;
        Some(read_line(&input[at..end], at, opened))
    }

    // The number of the record last read, counted from 1.
    pub fn number(&self) -> usize
        ensures value { result ≡ self.now.number }
    {
        self.number
    }

    // Where reading goes on.
    pub fn place(&self) -> usize
        ensures value { result ≡ self.now.at }
    {
        self.at
    }
}
