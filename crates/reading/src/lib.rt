// Records, one after the other, read from lent bytes into lent tables. Names follow src/protocol/record.rs of rskafka
// 0.6.0.
#![tactic(auto)]

ghost use Rattle.std.specs.Prelude.{◌+◌, ◌/◌, ◌^◌, ◌<◌, ◌≡◌, false, [], ◌∷◌, ◌++◌, leb, pos};
ghost use Rattle.numbers.specs.Pick.{pick};
ghost use Rattle.primitives.specs.Step.{map_step, times};
ghost use Rattle.records.specs.Judgement.{header_at, fields_at, record_at, run_at};
ghost use Rattle.records.specs.Rows.{tables};
ghost use Rattle.records.specs.Answers.{place_row, view_header};
ghost use Rattle.reading.specs.Walk.{put, put_headers, walked_record, walked_records, view_filled, view_walk};
ghost use Rattle.reading.specs.Promises.{FromRecordFaultPromise, CheckRecordsPromise, ReadRecordsPromise};

use primitives::{Cursor, Fault};
use records::{Record, RecordFault, RecordHeader, read_count};

// How many records and headers there are, and the place after the last record.
#[derive(Clone, Copy)]
pub struct RecordsFound {
    pub records: usize,
    pub headers: usize,
    pub end: usize,
}

// Why records are not put into tables: what they are refused by, or the rows that are needed where a table has fewer.
#[derive(Clone, Copy)]
pub enum RecordsError {
    Refused(RecordFault),
    NoRoom { records: usize, headers: usize },
}

impl From<RecordFault> for RecordsError {
    ghost from_gives = { FromRecordFaultPromise };

    fn from(f: RecordFault) -> RecordsError {
        RecordsError::Refused(f)
    }
}

// Whether `count` records stand from `at` on up to the end of the bytes, and how many headers they have.
#[tactic(auto, using(crate::proofs::Whole::check_refused, crate::proofs::Whole::check_left, crate::proofs::Whole::check_past, crate::proofs::Whole::check_got))]
pub fn check_records(bytes: &[u8], at: usize, count: usize) -> Result<RecordsFound, RecordFault>
    ensures { CheckRecordsPromise bytes.now at count result }
{
    let (headers, next) = walk(bytes, Cursor { at }, count, 0, &mut [], &mut [])?;
    let end = next.at;
    if end < bytes.len() {
        return Err(RecordFault::BytesLeft);
    }
    if bytes.len() < end {
        return Err(RecordFault::Field(Fault::PastEnd));
    }
    Ok(RecordsFound {
        records: count,
        headers,
        end,
    })
}

// The same, and their rows in both tables: record rows from the table's first row on, header rows from
// `first_header_row` on. Starts count from the first of `bytes`, which are cut where the records end and never at their
// start: the place is passed beside them. No table is touched before all is known to be right and to have room.
pub fn read_records(
    bytes: &[u8],
    at: usize,
    count: usize,
    first_header_row: usize,
    records: &mut [i64],
    headers: &mut [i64],
) -> Result<RecordsFound, RecordsError>
    ensures { ReadRecordsPromise bytes.now at count first_header_row (tables records.old headers.old) (record { result = result; tables = tables records.new headers.new }) }
{
    let found = check_records(bytes, at, count)?;
    if !has_room(records.len(), headers.len(), first_header_row, found) {
        return Err(RecordsError::NoRoom {
            records: found.records,
            headers: found.headers,
        });
    }
    let from = Cursor { at };
    walk(bytes, from, count, first_header_row, records, headers)?;
    Ok(found)
}

// Whether tables of these lengths have rows for what was found, headers from the row `first` on.
fn has_room(records: usize, headers: usize, first: usize, found: RecordsFound) -> bool
    ensures { result ≡ pick (leb found.records (records / 8)) (leb (first + found.headers) (headers / 4)) false }
{
    if records / Record::ROW < found.records {
        return false;
    }
    let rows = headers / RecordHeader::ROW;
    rows >= found.headers && first <= rows - found.headers
}

// The walk: passes `count` records, and puts their rows where the tables have such rows. With tables of no rows it is
// the check; with the lent ones, once that has passed, it fills them.
#[tactic(auto, using(crate::proofs::WalkSteps::walked_moves, crate::proofs::WalkSteps::run_stop, crate::proofs::WalkSteps::run_turn, crate::proofs::WalkSteps::run_end))]
fn walk(
    s: &[u8],
    from: Cursor,
    count: usize,
    first: usize,
    records: &mut [i64],
    headers: &mut [i64],
) -> Result<(usize, Cursor), RecordFault>
    requires { first < 2 ^ 62 }
    ensures { view_walk result (tables records.new headers.new) ≡ map_step (walked_records (tables records.old headers.old) 0 first) (run_at s.now count from.at) }
{
    let mut c = from;
    let mut sum: usize = 0;
    for row in 0..count {
        let (n, next) = walk_record(s, c, row, first + sum, records, headers)?;
        sum += n;
        c = next;
    }
    Ok((sum, c))
}

// A record. Its fields may use the bytes up to the nearer of the end that its length names and the end of all bytes: a
// length that runs past the bytes is no fault yet.
#[tactic(auto, using(crate::proofs::WalkSteps::length_within, crate::proofs::WalkSteps::record_no_length, crate::proofs::WalkSteps::record_refused, crate::proofs::WalkSteps::record_got_lem, crate::proofs::WalkSteps::record_left))]
fn walk_record(
    s: &[u8],
    c: Cursor,
    row: usize,
    first: usize,
    records: &mut [i64],
    headers: &mut [i64],
) -> Result<(usize, Cursor), RecordFault>
    requires { first < 2 ^ 63 }
    ensures { view_walk result (tables records.new headers.new) ≡ map_step (walked_record (tables records.old headers.old) row first) (record_at s.now c.at) }
{
    let (n, start) = read_count(c, s)?;
    let named = start.at + n as usize;
    let end = named.min(s.len());
    let (m, next) = walk_fields(&s[..end], start, row, first, records, headers)?;
    if next.at == named {
        return Ok((m, next));
    }
    Err(RecordFault::BytesLeft)
}

// What follows a record's length, up to the end of the bytes that are passed.
#[tactic(auto, using(crate::proofs::WalkSteps::fields_no_head, crate::proofs::WalkSteps::fields_no_headers, crate::proofs::WalkSteps::fields_got))]
fn walk_fields(
    s: &[u8],
    c: Cursor,
    row: usize,
    first: usize,
    records: &mut [i64],
    headers: &mut [i64],
) -> Result<(usize, Cursor), RecordFault>
    requires { first < 2 ^ 63 }
    ensures { view_walk result (tables records.new headers.new) ≡ map_step (walked_record (tables records.old headers.old) row first) (fields_at s.now c.at) }
{
    let (r, next) = Record::read(c, s)?;
    let n = r.headers as usize;
    put_record(records, row, r, first);
    let end = walk_headers(s, next, n, first, headers)?;
    Ok((n, end))
}

// The headers of a record, from the row `first` on.
#[tactic(auto, using(crate::proofs::WalkSteps::headers_stop, crate::proofs::WalkSteps::headers_turn, crate::proofs::WalkSteps::headers_end))]
fn walk_headers(
    s: &[u8],
    from: Cursor,
    count: usize,
    first: usize,
    headers: &mut [i64],
) -> Result<Cursor, RecordFault>
    requires { first + count < 2 ^ 64 }
    ensures { view_filled result headers.new ≡ map_step (put_headers headers.old first) (times (header_at s.now) count from.at) }
{
    let mut c = from;
    for row in first..first + count {
        let (h, next) = RecordHeader::read(c, s)?;
        put_header(headers, row, h);
        c = next;
    }
    Ok(c)
}

// A record's row.
fn put_record(t: &mut [i64], row: usize, r: Record, first: usize)
    requires { first < 2 ^ 63 }
    ensures { t.new ≡ put 8 t.old row (r.deltas.timestamp ∷ r.deltas.offset ∷ (place_row r.key ++ (place_row r.value ++ (pos first ∷ pos r.headers ∷ [])))) }
{
    let numbers: [i64; Record::ROW] = [
        r.deltas.timestamp,
        r.deltas.offset,
        r.key.start,
        r.key.len,
        r.value.start,
        r.value.len,
        first as i64,
        i64::from(r.headers),
    ];
    put_row(t, row, numbers);
}

// A header's row.
fn put_header(t: &mut [i64], row: usize, h: RecordHeader)
    ensures { t.new ≡ put 4 t.old row (view_header h) }
{
    let numbers: [i64; RecordHeader::ROW] = [h.key.start, h.key.len, h.value.start, h.value.len];
    put_row(t, row, numbers);
}

// Puts a row's numbers in where the table has such a row.
#[tactic(auto, using(crate::proofs::Tables::row_ends, crate::proofs::Tables::row_past, crate::proofs::Tables::put_in, crate::proofs::Tables::put_out))]
fn put_row<const N: usize>(t: &mut [i64], row: usize, numbers: [i64; N])
    requires { 0 < N }
    ensures { t.new ≡ put N t.old row numbers.entry }
{
    if row < t.len() / N {
        let at = row * N;
        t[at..at + N].copy_from_slice(&numbers);
    }
}
