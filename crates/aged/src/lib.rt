//! A line of rows, oldest first: a `Line`, in which at most N stand at a time, or the first `used` places of a slice that the caller hands in.
//! A `used` past the end of the slice is read as its length.
#![tactic(auto)]

ghost use Rattle.std.specs.Prelude.{◌≡◌, ℕ, ◌<◌, ◌≤◌, min, Bool, [], length, take, filter, MatchResult, ⊤};
ghost use Rattle.aged.specs.Line.{Counting, append, counts, first, held, take_oldest, rows_of, held_by, take_of, take_picked, spent, Tests};
ghost use Rattle.aged.specs.Refusals.{Refused};

pub mod example;
pub mod laws;
mod slices;

use arrayvec::ArrayVec;
pub use slices::{append, clear, held, held_by, oldest, oldest_of, take_of, take_oldest};
use std::alloc::AllocError;
use std::marker::Model;

/// A row that counts something, so that a part of it can be taken.
pub trait Row: Copy {
    ghost counting: { Counting Self };

    fn count(&self) -> u32
        ensures { result ≡ counting.count self.now };

    fn with_count(self, n: u32) -> Self
        ensures { result ≡ counting.recount self n };
}

/// A row that is somebody's, whatever it counts.
pub trait Owned: Row {
    ghost whose: { Self → ℕ };

    fn owner(&self) -> usize
        ensures { result ≡ whose self.now };

    ghost same: { (x : Self) (n : ℕ) → whose (Self.Row.counting.recount x n) ≡ whose x };
}

/// Why a row is not put into a line.
#[derive(Clone, Copy, PartialEq, Eq, Debug)]
pub enum Refusal {
    /// It counts nothing, so that nobody could take it out again.
    Empty,
    /// The line has no place left.
    Full,
}

/// Rows in the order in which they came, each of which counts something.
#[derive(Drop)]
pub struct Line<R: Row, const N: usize> {
    rows: ArrayVec<R, N>,
}

impl<R: Row, const N: usize> Model for Line<R, N> {
    ghost use Rattle.std.specs.Prelude.{List};
    ghost use Rattle.aged.specs.Line.{AllCount};

    ghost Value = { List R };

    ghost view = { λ line. line.rows.items };

    ghost invariant = { λ line. AllCount R.Row.counting line.rows.items };
}

impl<R: Row, const N: usize> Line<R, N> {
    /// The rows.
    pub fn as_slice(&self) -> &[R]
        ensures rows { result.now ≡ self.now }
        ensures fits { length result.now ≤ N }
    {
        self.rows.as_slice()
    }

    /// Puts a row at the end, as the newest.
    pub fn append(&mut self, row: R) -> Result<(), Refusal>
        ensures cases { MatchResult result (λ _. (0 < R.Row.counting.count row) × (length self.old < N)) (λ e. Refused (R.Row.counting.count row) (length self.old) N e) }
        ensures after { MatchResult result (λ _. self.new ≡ append row self.old) (λ _. self.new ≡ self.old) }
    {
        if row.count() == 0 {
            return Err(Refusal::Empty);
        }
        self.rows.try_push(row).map_err(|_| Refusal::Full)
    }

    /// The oldest row.
    pub fn oldest(&self) -> Option<R>
        ensures { result ≡ first self.now }
    {
        self.rows.first().copied()
    }

    /// What all rows count.
    pub fn held(&self) -> u128
        ensures { result ≡ held R.Row.counting self.now }
    {
        held(self.rows.as_slice(), self.rows.len())
    }
}

impl<R: Owned, const N: usize> Line<R, N> {
    /// The oldest row of an owner.
    pub fn oldest_of(&self, owner: usize) -> Option<R>
        ensures { result ≡ first (rows_of R.Owned.whose owner self.now) }
    {
        oldest_of(self.rows.as_slice(), self.rows.len(), owner)
    }

    /// What an owner holds.
    pub fn held_by(&self, owner: usize) -> u128
        ensures { result ≡ held_by R.Row.counting R.Owned.whose owner self.now }
    {
        held_by(self.rows.as_slice(), self.rows.len(), owner)
    }
}

// A default row fills the places that no row has: it counts nothing, and no caller sees it.
impl<R: Row + Default, const N: usize> Line<R, N> {
    /// A line with no row.
    pub fn new() -> Self
        ensures { result ≡ [] }
    {
        Line {
            rows: ArrayVec::new(),
        }
    }

    /// Takes n from the oldest rows, or as much as they count; says how much.
    pub fn take_oldest(&mut self, n: u32) -> u32
        ensures value { result ≡ min n (held R.Row.counting self.old) }
        ensures after { self.new ≡ take_oldest R.Row.counting n self.old }
        ensures within { length self.new ≤ length self.old }
    {
        self.take_picked(n, |_| true)
    }

    // Takes n from the oldest rows that pass the test, or as much as they count; says how much.
    fn take_picked<F: Fn(&R) -> bool>(&mut self, n: u32, picks: F) -> u32
        requires { F.IsAlwaysCallable picks }
        ensures within { length self.new ≤ length self.old }
        ensures taken { (test : R → Bool) → Tests (F.post picks) test → (result ≡ min n (held R.Row.counting (filter test self.old))) × (self.new ≡ take_picked R.Row.counting test n self.old) }
    {
        if n == 0 {
            return 0;
        }
        let taken = spend(self.rows.as_mut_slice(), n, picks);
        let kept = close_up(self.rows.as_mut_slice());
        self.rows.truncate(kept);
        taken
    }

    /// Empties the line.
    pub fn clear(&mut self)
        ensures after { self.new ≡ [] }
    {
        self.rows.clear();
    }
}

// A clone has the same rows. It takes no memory, so it never fails.
impl<R: Row + Default, const N: usize> Clone for Line<R, N> {
    ghost is_clone = { λ line clone. clone ≡ line };

    ghost is_infallible = { λ _. ⊤ };

    fn clone(&self) -> Result<Self, AllocError> {
        let mut rows = ArrayVec::new();
        rows.try_extend_from_slice(&self.rows).unwrap();
        Ok(Line { rows })
    }
}

impl<R: Owned + Default, const N: usize> Line<R, N> {
    /// Takes n from the oldest rows of an owner, or as much as the owner holds; says how much.
    pub fn take_of(&mut self, owner: usize, n: u32) -> u32
        ensures value { result ≡ min n (held_by R.Row.counting R.Owned.whose owner self.old) }
        ensures after { self.new ≡ take_of R.Row.counting R.Owned.whose owner n self.old }
        ensures within { length self.new ≤ length self.old }
    {
        self.take_picked(n, |row| row.owner() == owner)
    }
}

// Takes n from the oldest rows that pass the test, or as much as they count; says how much. A row of which all is taken is left counting nothing.
fn spend<R: Row, F: Fn(&R) -> bool>(rows: &mut [R], n: u32, picks: F) -> u32
    requires { F.IsAlwaysCallable picks }
    ensures { (test : R → Bool) → Tests (F.post picks) test → (result ≡ min n (held R.Row.counting (filter test rows.old))) × (rows.new ≡ spent R.Row.counting test n rows.old) }
{
    let mut left = n;
    for row in rows.iter_mut() {
        if left == 0 {
            break;
        }
        if picks(row) {
            let count = row.count();
            *row = row.with_count(count.saturating_sub(left));
            left = left.saturating_sub(count);
        }
    }
    n - left
}

// Moves the rows that count something to the front, in their order; says how many they are.
// By index: with `retain`, which swaps every row into its place, a run of designations from 512 lots took 1.6 times as long.
fn close_up<R: Row>(rows: &mut [R]) -> usize
    ensures kept { take result rows.new ≡ filter (counts R.Row.counting) rows.old }
    ensures within { result ≤ length rows.old }
{
    let mut kept = 0;
    for i in 0..rows.len() {
        let row = rows[i];
        if row.count() > 0 {
            rows[kept] = row;
            kept += 1;
        }
    }
    kept
}
