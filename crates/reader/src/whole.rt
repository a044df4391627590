// A whole input.
ghost use Rattle.std.specs.Prelude.{◌≡◌, length};
ghost use Rattle.reader.specs.Cuts.{lines, LinesLaw};
ghost use Rattle.reader.specs.Examples.{Examples};

use crate::reading::Reader;

// How many records an input has, right or wrong. Whether a book is open does not matter to the count.
pub fn count_records(input: &[u8]) -> usize
    ensures value { result ≡ length (lines input.now) }
{
    let mut reader = Reader::new(input);
    while reader.next(false).is_some() {}
    reader.number()
}

// What the cut into lines is: every byte lies in a line, no line is empty, a newline ends its line, and the lines are counted.
pub fn lines_stand()
    ensures law { LinesLaw }
{}

// A dozen lines and what they are read as.
pub fn examples_stand()
    ensures law { Examples }
{}
