// What rows of lent tables ask to be written: document 01, Tables, and Writer's numbers, 21 and 22.
#![tactic(auto)]

ghost use Rattle.std.specs.Prelude.{◌/◌, ◌+◌, ◌<◌, ◌≡◌, length};
ghost use Rattle.primitives.specs.Answers.{span_as_read};
ghost use Rattle.records.specs.Rows.{tables};
ghost use Rattle.asking.specs.Asked.{asked_bytes, asked_nullable, asked_count, header_asked, head_asked};
ghost use Rattle.asking.specs.Answers.{span_of, header_of, head_of, view_answer};
ghost use Rattle.asking.specs.Promises.{WriteNumberPromise, FromIntErrorPromise, HeaderAskedPromise, RecordAskedPromise};

use primitives::Span;
use records::{Record, RecordHeader};
use std::num::TryFromIntError;
use utf8::is_utf8;

// Why a batch, or its records, are not written. Records alone are never refused for their codec, or for a
// marker.
#[derive(Clone, Copy, Debug, PartialEq, Eq)]
pub enum WriteFault {
    Codec,
    Row,
    KeyNotUtf8,
    TooLong,
    ShortOutput,
    // A marker is asked for in the form that is withdrawn.
    BareMarker,
}

#[derive(Clone, Copy)]
pub struct AskedHeader {
    pub key: Span,
    pub value: Span,
}

// What a record's row itself asks for: its headers are so many rows of their own. A key and a value may be null.
#[derive(Clone, Copy)]
pub struct AskedRecord {
    pub timestamp_delta: i64,
    pub offset_delta: i32,
    pub key: Option<Span>,
    pub value: Option<Span>,
    pub headers: usize,
}

impl WriteFault {
    // Document 01's number.
    pub fn number(self) -> u8
        ensures { WriteNumberPromise self result }
    {
        match self {
            WriteFault::Codec => 20,
            WriteFault::Row => 21,
            WriteFault::KeyNotUtf8 => 22,
            WriteFault::TooLong => 23,
            WriteFault::ShortOutput => 24,
            WriteFault::BareMarker => 41,
        }
    }
}

// A number that its type does not hold makes the row wrong.
impl From<TryFromIntError> for WriteFault {
    ghost from_gives = { FromIntErrorPromise };

    fn from(_: TryFromIntError) -> WriteFault {
        WriteFault::Row
    }
}

// A header's row. One that the table does not have is wrong.
pub fn header_asked(headers: &[i64], source: &[u8], row: usize) -> Result<AskedHeader, WriteFault>
    ensures { HeaderAskedPromise headers.now source.now row result }
{
    if headers.len() / RecordHeader::ROW <= row {
        return Err(WriteFault::Row);
    }
    header_row(headers, source, row)
}

// A record's row, whose headers stand from `first` on and are judged after it. One that the table does not have is
// wrong.
pub fn record_asked(
    records: &[i64],
    headers: &[i64],
    source: &[u8],
    row: usize,
    first: usize,
) -> Result<AskedRecord, WriteFault>
    ensures { RecordAskedPromise (tables records.now headers.now) source.now row first result }
{
    if records.len() / Record::ROW <= row {
        return Err(WriteFault::Row);
    }
    record_row(records, headers, source, row, first)
}

// A header's row that the table has. Its numbers are judged before its key.
fn header_row(headers: &[i64], source: &[u8], row: usize) -> Result<AskedHeader, WriteFault>
    requires { row < length headers.now / 4 }
    ensures { view_answer (row + 1) header_of result ≡ header_asked headers.now source.now row }
{
    let at = row * RecordHeader::ROW;
    let size = source.len();
    let key = bytes_asked(size, headers[at], headers[at + 1])?;
    let value = bytes_asked(size, headers[at + 2], headers[at + 3])?;
    let start = key.start;
    let end = start + key.len;
    if is_utf8(&source[start..end]) {
        Ok(AskedHeader { key, value })
    } else {
        Err(WriteFault::KeyNotUtf8)
    }
}

// A record's row that the table has.
fn record_row(
    records: &[i64],
    headers: &[i64],
    source: &[u8],
    row: usize,
    first: usize,
) -> Result<AskedRecord, WriteFault>
    requires { row < length records.now / 8 }
    ensures { view_answer row head_of result ≡ head_asked (tables records.now headers.now) source.now row first }
{
    let at = row * Record::ROW;
    let size = source.len();
    let timestamp_delta = records[at];
    let offset_delta = i32::try_from(records[at + 1])?;
    let key = span_asked(size, records[at + 2], records[at + 3])?;
    let value = span_asked(size, records[at + 4], records[at + 5])?;
    let rows = headers.len() / RecordHeader::ROW;
    let headers = asked_count(rows, first, records[at + 6], records[at + 7])?;
    Ok(AskedRecord {
        timestamp_delta,
        offset_delta,
        key,
        value,
        headers,
    })
}

// Bytes that may not be null.
fn bytes_asked(size: usize, start: i64, len: i64) -> Result<Span, WriteFault>
    ensures { view_answer 0 span_as_read result ≡ asked_bytes size start len 0 }
{
    span_asked(size, start, len)?.ok_or(WriteFault::Row)
}

// Start and length as a row has them: bytes of the source, or null. Start and length are never added up: their sum may
// be too large for the machine. They are tested and cast: try_from makes the writer a sixth slower.
fn span_asked(size: usize, start: i64, len: i64) -> Result<Option<Span>, WriteFault>
    ensures { view_answer 0 span_of result ≡ asked_nullable size start len 0 }
{
    if start < 0 {
        return Err(WriteFault::Row);
    }
    let start = start as usize;
    if len < 0 {
        if len == -1 {
            if start == 0 {
                return Ok(None);
            }
        }
        return Err(WriteFault::Row);
    }
    let len = len as usize;
    if size < len {
        return Err(WriteFault::Row);
    }
    if size - len < start {
        return Err(WriteFault::Row);
    }
    Ok(Some(Span { start, len }))
}

// First header row and header count as a row has them: the headers run on from `first`, within as many rows.
fn asked_count(rows: usize, first: usize, named: i64, count: i64) -> Result<usize, WriteFault>
    ensures { view_answer 0 (λ n. n) result ≡ asked_count rows first named count 0 }
{
    if named < 0 {
        return Err(WriteFault::Row);
    }
    if count < 0 {
        return Err(WriteFault::Row);
    }
    let count = count as usize;
    if named as usize != first {
        return Err(WriteFault::Row);
    }
    if rows < count {
        return Err(WriteFault::Row);
    }
    if rows - count < first {
        return Err(WriteFault::Row);
    }
    Ok(count)
}
