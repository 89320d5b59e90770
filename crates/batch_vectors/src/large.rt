// Batches that are too large for any output here: rows that all show the same bytes, up to what batchLength holds and
// beyond it.
use crate::times::batch;
use crate::writer::{ACCEPTED, SHORT_OUTPUT, distance, is_answer};
use batches::ControlBatchOrRecords;
use cases::outputs::{blotted, is_left_as};
use cases::tables::fill;
use cases::text::words_from;
use layout::{ControlMode, RecordBatchTimestampType};

// How many bytes the source has, and each of them: no key may begin with it.
const SOURCE: usize = 262144;

const TAIL: u8 = 0x80;

// How many numbers each table has.
const TABLE: usize = 65536;

const OUTPUT: usize = 100;

const NUMBERS: usize = 6;

// How many records there are. All but the last have the whole source as key and as value. The last has as many headers
// as are said, and nulls. All its headers but the last have an empty key and the whole source as value.
#[derive(Clone, Copy)]
struct Rows {
    records: i64,
    headers: i64,
    last_key: i64,
    last_value: i64,
}

// large RECORDS HEADERS KEY VALUE NUMBER SIZE
pub fn agrees(mode: ControlMode, line: &[u8]) -> Option<bool> {
    let mut numbers = [0i64; NUMBERS];
    let &[records, headers, last_key, last_value, number, size] = fill(
        words_from(line, 1),
        &mut numbers,
    )?
    else {
        return None;
    };
    let rows = Rows {
        records,
        headers,
        last_key,
        last_value,
    };
    Some(is_written(mode, rows, number, distance(size)))
}

// Where batchLength holds all, the output is too short for it; and it always stays as it is.
fn is_written(mode: ControlMode, rows: Rows, number: i64, size: usize) -> bool {
    let mut records = [0i64; TABLE];
    let mut headers = [0i64; TABLE];
    let source = [TAIL; SOURCE];
    put_records(&mut records, rows);
    put_headers(&mut headers, rows);
    let before: [u8; OUTPUT] = blotted();
    let mut output = before;
    let kind = ControlBatchOrRecords::Records(distance(rows.records));
    let batch = batch(0, RecordBatchTimestampType::CreateTime);
    let measured = batch.measure(mode, 0, kind, &records, &headers, &source);
    let written = batch.write(mode, 0, kind, &records, &headers, &source, &mut output);
    is_answer(measured, number, size)
        && is_answer(written, written_number(number), 0)
        && is_left_as(&output, &before, 0, b"")
}

fn put_records(table: &mut [i64], rows: Rows) {
    let (table, _) = table.as_chunks_mut::<8>();
    for (row, numbers) in table.iter_mut().enumerate() {
        *numbers = record_row(rows, row);
    }
}

fn put_headers(table: &mut [i64], rows: Rows) {
    let (table, _) = table.as_chunks_mut::<4>();
    for (row, numbers) in table.iter_mut().enumerate() {
        *numbers = header_row(rows, row);
    }
}

fn record_row(rows: Rows, row: usize) -> [i64; 8] {
    if is_last(row, rows.records) {
        return [0, 0, 0, -1, 0, -1, 0, rows.headers];
    }
    [0, 0, 0, SOURCE as i64, 0, SOURCE as i64, 0, 0]
}

fn header_row(rows: Rows, row: usize) -> [i64; 4] {
    if is_last(row, rows.headers) {
        return [0, rows.last_key, 0, rows.last_value];
    }
    [0, 0, 0, SOURCE as i64]
}

fn is_last(row: usize, rows: i64) -> bool {
    row as i128 + 1 == i128::from(rows)
}

fn written_number(measured: i64) -> i64 {
    if measured == ACCEPTED {
        return SHORT_OUTPUT;
    }
    measured
}
