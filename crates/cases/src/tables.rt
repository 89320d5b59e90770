// Tables of records and of headers: marked before a call, and looked at afterwards, number by number.
ghost use Rattle.std.specs.Prelude.{◌≡◌, ℕ, ℤ, pos, ◌+◌, ◌<◌, [], IsTrue, slice_index_or};

use crate::text::{decimal, split_at_bar, words};
use std::array;

// How many numbers a table may have.
pub const MOST: usize = 64;

// What the record table has before records are read: this number, and one more from place to place. No row of a case
// has one of them.
pub const RECORD_MARK: u32 = 1000000;

// The same of the header table.
pub const HEADER_MARK: u32 = 2000000;

// Document 01's number: all accepted, but there are fewer rows.
pub const NO_ROOM: usize = 14;

// What a reading fills.
#[derive(Clone, Copy, PartialEq, Eq)]
pub struct Tables {
    pub records: [i64; MOST],
    pub headers: [i64; MOST],
}

// Puts the numbers that words spell at the start of a table, and returns them.
pub fn fill<'a>(numbers: &[u8], table: &'a mut [i64]) -> Option<&'a [i64]> {
    if numbers.is_empty() {
        return Some(&[]);
    }
    let filled = table.get_mut(..words(numbers))?;
    for (number, word) in filled.iter_mut().zip(numbers.split(|&b| b == b' ')) {
        *number = i64::try_from(decimal(word)?).ok()?;
    }
    Some(filled)
}

impl Tables {
    // What they have before a reading.
    pub fn marked() -> Self
        ensures records { (k : ℕ) → k < 64 → slice_index_or result.records k (pos 0) ≡ pos (1000000 + k) }
        ensures headers { (k : ℕ) → k < 64 → slice_index_or result.headers k (pos 0) ≡ pos (2000000 + k) }
    {
        Tables {
            records: array::from_fn(|at| RECORD_MARK as i64 + at as i64),
            headers: array::from_fn(|at| HEADER_MARK as i64 + at as i64),
        }
    }

    // Whether they hold the numbers of some rows, those of the records from the first row on and, behind a bar, those of
    // the headers from another, and all else is as it was marked.
    pub fn hold(&self, first_header_row: usize, rows: &[u8]) -> bool
        ensures records { rows.now ≡ [] → IsTrue result → (k : ℕ) → k < 64 → slice_index_or self.now.records k (pos 0) ≡ pos (1000000 + k) }
        ensures headers { rows.now ≡ [] → IsTrue result → (k : ℕ) → k < 64 → slice_index_or self.now.headers k (pos 0) ≡ pos (2000000 + k) }
    {
        if rows.is_empty() {
            return *self == Tables::marked();
        }
        let (records, headers) = split_at_bar(rows);
        holds(&self.records, RECORD_MARK, 0, records)
            && holds(&self.headers, HEADER_MARK, first_header_row, headers)
    }
}

// Whether a table holds the numbers of some rows, from a row on, and all else is as it was marked.
pub fn holds(table: &[i64], mark: u32, row: usize, rows: &[u8]) -> bool {
    let marked = table.iter().zip(u64::from(mark)..);
    marked.enumerate().all(|(at, (&number, mark))| is_due(number, at, mark, row, rows))
}

// Whether a number is the one due at a place.
pub fn is_due(number: i64, at: usize, mark: u64, row: usize, rows: &[u8]) -> bool {
    due(at, mark, row, rows) == Some(i128::from(number))
}

// The number that the rows have at a place of the table, or the mark. A header row is four numbers; the rows of records
// start at row 0, whatever its size.
fn due(at: usize, mark: u64, row: usize, rows: &[u8]) -> Option<i128> {
    if rows.is_empty() || at / 4 < row {
        return Some(i128::from(mark));
    }
    match rows.split(|&b| b == b' ').nth(at - 4 * row) {
        Some(word) => decimal(word),
        None => Some(i128::from(mark)),
    }
}
