// What is printed of a case: one line where it is refused; otherwise its fields, its records with their headers, the
// bytes that are written for it, and whether it is canonical.
use crate::text::{part, print, print_bytes, print_hexadecimal};
use batches::{ControlBatchOrRecords, ReadError, RecordBatch};
use layout::{ControlMode, RecordBatchTimestampType};
use std::io;

// What the rows of a batch are taken from, and the rows themselves.
#[derive(Clone, Copy)]
struct Rows<'a> {
    source: &'a [u8],
    records: &'a [i64],
    headers: &'a [i64],
}

// How many bytes may be written for a case.
const ROOM: usize = 65536;

// The tables are those of the program `list`: 1,024 record rows and 2,048 header rows.
pub fn answer(rt: &impl Print, bytes: &[u8]) -> io::Result<()> {
    let mut records = [0i64; 8192];
    let mut headers = [0i64; 8192];
    match RecordBatch::read(ControlMode::Keyed, bytes, &mut records, &mut headers) {
        Ok(found) => print_accepted(
            rt,
            found.batch,
            found.kind,
            found.consumed,
            bytes,
            &records,
            &headers,
        ),
        Err(ReadError::NoRoom { .. }) => print(rt, b"no room\n"),
        Err(_) => print(rt, b"refused\n"),
    }
}

fn print_accepted(
    rt: &impl Print,
    batch: RecordBatch,
    kind: ControlBatchOrRecords,
    consumed: usize,
    source: &[u8],
    records: &[i64],
    headers: &[i64],
) -> io::Result<()> {
    let rows = Rows {
        source,
        records,
        headers,
    };
    print_fields(rt, batch, consumed)?;
    print_content(rt, kind, rows)?;
    print_written(rt, batch, kind, rows)?;
    if RecordBatch::is_canonical(ControlMode::Keyed, source) {
        return println!(rt; "canonical yes");
    }
    println!(rt; "canonical no")
}

fn print_fields(rt: &impl Print, b: RecordBatch, consumed: usize) -> io::Result<()> {
    print!(rt;
        "accepted {consumed} {} {}",
        b.base_offset, b.partition_leader_epoch
    )?;
    print!(rt; " {} {}", b.last_offset_delta, b.first_timestamp)?;
    print!(rt; " {} {}", b.max_timestamp, b.producer_id)?;
    print!(rt; " {} {}", b.producer_epoch, b.base_sequence)?;
    print_type(rt, b.timestamp_type)?;
    print!(rt; " {}", i64::from(b.is_transactional))
}

fn print_type(rt: &impl Print, t: RecordBatchTimestampType) -> io::Result<()> {
    match t {
        RecordBatchTimestampType::CreateTime => print(rt, b" 0"),
        RecordBatchTimestampType::LogAppendTime => print(rt, b" 1"),
    }
}

// No stored answer has a marker: the Rust has none in the key of a record, and those alone are withdrawn.
fn print_content(rt: &impl Print, kind: ControlBatchOrRecords, rows: Rows) -> io::Result<()> {
    match kind {
        ControlBatchOrRecords::ControlBatch(_) => print(rt, b" marker\n"),
        ControlBatchOrRecords::Records(count) => {
            print(rt, b" records\n")?;
            print_records(rt, rows, count)
        }
    }
}

fn print_records(rt: &impl Print, rows: Rows, count: usize) -> io::Result<()> {
    let (records, _) = rows.records.as_chunks::<8>();
    let Some(records) = records.get(..count) else {
        return println!(rt; "no room");
    };
    for record in records {
        print_record(rt, rows, *record)?;
    }
    Ok(())
}

fn print_record(rt: &impl Print, rows: Rows, record: [i64; 8]) -> io::Result<()> {
    let [
        timestamp,
        offset,
        key,
        key_len,
        value,
        value_len,
        first_header,
        headers,
    ] = record;
    print!(rt; "record {timestamp} {offset}")?;
    print_key_and_value(rt, rows.source, [key, key_len, value, value_len])?;
    let (all, _) = rows.headers.as_chunks::<4>();
    for header in part(all, first_header, headers).unwrap_or_default() {
        print!(rt; "header")?;
        print_key_and_value(rt, rows.source, *header)?;
    }
    Ok(())
}

// The end of a line: what four numbers of a row stand for.
fn print_key_and_value(rt: &impl Print, source: &[u8], numbers: [i64; 4]) -> io::Result<()> {
    let [key, key_len, value, value_len] = numbers;
    print_bytes(rt, source, key, key_len)?;
    print_bytes(rt, source, value, value_len)?;
    println!(rt; "")
}

fn print_written(
    rt: &impl Print,
    batch: RecordBatch,
    kind: ControlBatchOrRecords,
    rows: Rows,
) -> io::Result<()> {
    let Rows {
        source,
        records,
        headers,
    } = rows;
    let mut output = [0u8; ROOM];
    let keyed = ControlMode::Keyed;
    match batch.write(keyed, 0, kind, records, headers, source, &mut output) {
        Ok(n) => {
            print(rt, b"written ")?;
            print_hexadecimal(rt, &output[..n])?;
            print(rt, b"\n")
        }
        Err(_) => print(rt, b"not written\n"),
    }
}
