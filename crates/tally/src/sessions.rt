// The sessions of a book.

// The last session, and those from and to which notice can be given.
#[derive(Clone, Copy, Debug, PartialEq, Eq)]
pub struct Sessions {
    pub last: u64,
    pub opens: u64,
    pub closes: u64,
}
