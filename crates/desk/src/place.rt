// Places of records.
ghost use Rattle.std.specs.Prelude.{◌≤◌};

// Where a record stands in the file: its number, counted from 1, and its first byte.
#[derive(Clone, Copy, Debug)]
pub struct Place {
    pub number: usize,
    pub start: usize,
    ghost counted: { 1 ≤ number },
}
