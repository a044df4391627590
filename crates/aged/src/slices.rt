// Lines in slices that callers hand in. Rows that count nothing may stand there too, if the caller put them there.
ghost use Rattle.std.specs.Prelude.{◌≡◌, ◌+◌, ◌<◌, ◌≤◌, min, Bool, length, filter, MatchResult};
ghost use Rattle.aged.specs.Line.{line, append, first, held, take_oldest, rows_of, held_by, take_of, take_picked, Tests};
ghost use Rattle.aged.specs.Refusals.{Refused};

use super::{Owned, Refusal, Row};

/// Puts a row at the end, as the newest.
pub fn append<R: Row>(rows: &mut [R], used: &mut usize, row: R) -> Result<(), Refusal>
    ensures cases { MatchResult result (λ _. (0 < R.Row.counting.count row) × (used.old < length rows.old)) (λ e. Refused (R.Row.counting.count row) used.old (length rows.old) e) }
    ensures after { MatchResult result (λ _. (used.new ≡ used.old + 1) × (line used.new rows.new ≡ append row (line used.old rows.old))) (λ _. (used.new ≡ used.old) × (rows.new ≡ rows.old)) }
{
    if row.count() == 0 {
        return Err(Refusal::Empty);
    }
    if *used >= rows.len() {
        return Err(Refusal::Full);
    }
    rows[*used] = row;
    *used += 1;
    Ok(())
}

/// The oldest row.
pub fn oldest<R: Row>(rows: &[R], used: usize) -> Option<R>
    ensures { result ≡ first (line used rows.now) }
{
    line(rows, used).first().copied()
}

/// The oldest row of an owner.
pub fn oldest_of<R: Owned>(rows: &[R], used: usize, owner: usize) -> Option<R>
    ensures { result ≡ first (rows_of R.Owned.whose owner (line used rows.now)) }
{
    // A loop: a chain with `find` took 1.85 times as long.
    for row in line(rows, used) {
        if row.owner() == owner {
            return Some(*row);
        }
    }
    None
}

/// What all rows count. Every row counts less than 2 ^ 32, so the sum fits however many there are.
pub fn held<R: Row>(rows: &[R], used: usize) -> u128
    ensures { result ≡ held R.Row.counting (line used rows.now) }
{
    let rows = line(rows, used);
    rows.iter().map(|row| u128::from(row.count())).sum()
}

/// What an owner holds.
pub fn held_by<R: Owned>(rows: &[R], used: usize, owner: usize) -> u128
    ensures { result ≡ held_by R.Row.counting R.Owned.whose owner (line used rows.now) }
{
    line(rows, used)
        .iter()
        .filter(|row| row.owner() == owner)
        .map(|row| u128::from(row.count()))
        .sum()
}

/// Takes n from the oldest rows, or as much as they count; says how much.
pub fn take_oldest<R: Row>(rows: &mut [R], used: &mut usize, n: u32) -> u32
    ensures value { result ≡ min n (held R.Row.counting (line used.old rows.old)) }
    ensures after { line used.new rows.new ≡ take_oldest R.Row.counting n (line used.old rows.old) }
    ensures within { (used.new ≤ used.old) × (used.new ≤ length rows.new) }
{
    take_picked(rows, used, n, |_| true)
}

/// Takes n from the oldest rows of an owner, or as much as the owner holds; says how much.
pub fn take_of<R: Owned>(rows: &mut [R], used: &mut usize, owner: usize, n: u32) -> u32
    ensures value { result ≡ min n (held_by R.Row.counting R.Owned.whose owner (line used.old rows.old)) }
    ensures after { line used.new rows.new ≡ take_of R.Row.counting R.Owned.whose owner n (line used.old rows.old) }
    ensures within { (used.new ≤ used.old) × (used.new ≤ length rows.new) }
{
    take_picked(rows, used, n, |row| row.owner() == owner)
}

/// Empties the line.
pub fn clear(used: &mut usize)
    ensures after { used.new ≡ 0 }
{
    *used = 0;
}

// The rows of the line.
fn line<R>(rows: &[R], used: usize) -> &[R]
    ensures { result.now ≡ line used rows.now }
{
    &rows[..used.min(rows.len())]
}

// Takes n from the oldest rows that pass the test, or as much as they count; says how much.
// A row that counts nothing goes too where it passes and something is still to be taken, and else it stays.
// By index and in one pass: a pass that closes the line up, as a `Line`'s, would drop every row that counts nothing.
fn take_picked<R: Row, F: Fn(&R) -> bool>(rows: &mut [R], used: &mut usize, n: u32, picks: F) -> u32
    requires { F.IsAlwaysCallable picks }
    ensures within { (used.new ≤ used.old) × (used.new ≤ length rows.new) }
    ensures taken { (test : R → Bool) → Tests (F.post picks) test → (result ≡ min n (held R.Row.counting (filter test (line used.old rows.old)))) × (line used.new rows.new ≡ take_picked R.Row.counting test n (line used.old rows.old)) }
{
    let end = (*used).min(rows.len());
    let mut left = n;
    let mut keep = 0;
    for i in 0..end {
        let row = rows[i];
        let picked = picks(&row);
        let count = row.count();
        if left == 0 || !picked {
            rows[keep] = row;
            keep += 1;
        } else if count <= left {
            left -= count;
        } else {
            rows[keep] = row.with_count(count - left);
            keep += 1;
            left = 0;
        }
    }
    *used = keep;
    n - left
}
