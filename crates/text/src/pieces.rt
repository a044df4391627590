// Parts of a line.

// A part of a line: words as they stand, or a number in decimal.
#[derive(Clone, Copy, Debug, PartialEq, Eq)]
pub enum Piece<'a> {
    Word(&'a [u8]),
    Count(u64),
    Amount(i64),
}
