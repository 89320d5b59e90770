// A record up to its headers, and a header, read from lent bytes. Names follow src/protocol/record.rs of rskafka 0.6.0.
#![tactic(auto)]

ghost use Rattle.std.specs.Prelude.{◌≡◌};
ghost use Rattle.primitives.specs.Step.{map_step};
ghost use Rattle.primitives.specs.Reading.{span_at};
ghost use Rattle.primitives.specs.Answers.{number_of, view_read};
ghost use Rattle.records.specs.Judgement.{key_at, deltas_at};
ghost use Rattle.records.specs.Rows.{span_row};
ghost use Rattle.records.specs.Answers.{record_number_of, place_row};
ghost use Rattle.records.specs.Parts.{bytes_row, view_deltas};
ghost use Rattle.records.specs.Promises.{RecordNumberPromise, FromFaultPromise, FromSpanPromise, FromNullablePromise, ReadCountPromise, ReadHeaderPromise, ReadRecordPromise};

use primitives::{Cursor, Fault, Span};
use utf8::is_utf8;

// Why records are refused.
#[derive(Clone, Copy)]
pub enum RecordFault {
    Field(Fault),
    KeyNotUtf8,
    BytesLeft,
}

// Where bytes stand, as a row has it: start and length, 0 and -1 for null.
#[derive(Clone, Copy)]
pub struct Place {
    pub start: i64,
    pub len: i64,
}

#[derive(Clone, Copy)]
pub struct RecordHeader {
    pub key: Place,
    pub value: Place,
}

#[derive(Clone, Copy)]
pub struct RecordDeltas {
    pub timestamp: i64,
    pub offset: i64,
}

// What a record has before its headers, and how many these are.
#[derive(Clone, Copy)]
pub struct Record {
    pub deltas: RecordDeltas,
    pub key: Place,
    pub value: Place,
    pub headers: u32,
}

impl RecordFault {
    // Document 01's number.
    pub fn number(self) -> u8
        ensures { RecordNumberPromise self result }
    {
        match self {
            RecordFault::Field(f) => f.number(),
            RecordFault::KeyNotUtf8 => 11,
            RecordFault::BytesLeft => 13,
        }
    }
}

impl From<Fault> for RecordFault {
    ghost from_gives = { FromFaultPromise };

    fn from(f: Fault) -> RecordFault {
        RecordFault::Field(f)
    }
}

// Bytes in memory end below 2 to the 63rd, so that both numbers are themselves.
impl From<Span> for Place {
    ghost from_gives = { FromSpanPromise };

    #[tactic(auto, using(crate::proofs::Places::cast_is))]
    fn from(x: Span) -> Place {
        Place {
            start: x.start.cast_signed() as i64,
            len: x.len.cast_signed() as i64,
        }
    }
}

impl From<Option<Span>> for Place {
    ghost from_gives = { FromNullablePromise };

    fn from(x: Option<Span>) -> Place {
        match x {
            Some(x) => Place::from(x),
            None => Place { start: 0, len: -1 },
        }
    }
}

impl Record {
    // The numbers of a row.
    pub const ROW: usize = 8;

    // Attributes, which say nothing; both deltas; key, value and the number of headers.
    #[tactic(auto, using(crate::proofs::FieldSteps::head_rows))]
    pub fn read(c: Cursor, s: &[u8]) -> Result<(Record, Cursor), Fault>
        ensures { ReadRecordPromise s.now c.at result }
    {
        let (deltas, at_key) = read_deltas(c, s)?;
        let (key, at_value) = read_place(at_key, s, true)?;
        let (value, at_count) = read_place(at_value, s, true)?;
        let (headers, next) = read_count(at_count, s)?;
        let record = Record {
            deltas,
            key,
            value,
            headers,
        };
        Ok((record, next))
    }
}

impl RecordHeader {
    // The numbers of a row.
    pub const ROW: usize = 4;

    // The key is judged before the value is looked at.
    #[tactic(auto, using(crate::proofs::FieldSteps::header_rows))]
    pub fn read(c: Cursor, s: &[u8]) -> Result<(RecordHeader, Cursor), RecordFault>
        ensures { ReadHeaderPromise s.now c.at result }
    {
        let (key, at_value) = read_key(c, s)?;
        let (value, next) = read_place(at_value, s, false)?;
        Ok((RecordHeader { key, value }, next))
    }
}

#[tactic(auto, unfolding(crate::specs::Judgement::deltas_at))]
fn read_deltas(c: Cursor, s: &[u8]) -> Result<(RecordDeltas, Cursor), Fault>
    ensures { view_read number_of view_deltas result ≡ deltas_at s.now c.at }
{
    let (_, at_timestamp) = c.read_int8(s)?;
    let (timestamp, at_offset) = at_timestamp.read_varlong(s)?;
    let (offset, next) = at_offset.read_varint(s)?;
    let deltas = RecordDeltas {
        timestamp: timestamp.0,
        offset: i64::from(offset.0),
    };
    Ok((deltas, next))
}

// A header's key, which has to be UTF-8. Null is not allowed there, and would be as wrong as any negative length.
#[tactic(auto, using(crate::proofs::FieldSteps::key_ends), unfolding(crate::specs::Judgement::key_at, crate::specs::Judgement::bytes_at))]
fn read_key(c: Cursor, s: &[u8]) -> Result<(Place, Cursor), RecordFault>
    ensures { view_read record_number_of place_row result ≡ map_step bytes_row (key_at s.now c.at) }
{
    let (key, next) = c.read_span(s, false)?;
    let key = key.ok_or(Fault::NegativeLength)?;
    let start = key.start;
    let end = next.at;
    if is_utf8(&s[start..end]) {
        return Ok((Place::from(key), next));
    }
    Err(RecordFault::KeyNotUtf8)
}

// A record's length, or a number of headers. Null is not allowed there, and would be as wrong as any negative length.
#[tactic(auto, unfolding(crate::specs::Judgement::count_at))]
pub fn read_count(c: Cursor, s: &[u8]) -> Result<(u32, Cursor), Fault>
    ensures { ReadCountPromise s.now c.at result }
{
    let (n, next) = c.read_length(s, false)?;
    Ok((n.ok_or(Fault::NegativeLength)?, next))
}

// A key or a value, which may be null or not.
fn read_place(c: Cursor, s: &[u8], nullable: bool) -> Result<(Place, Cursor), Fault>
    ensures { view_read number_of place_row result ≡ map_step span_row (span_at nullable s.now c.at) }
{
    let (x, next) = c.read_span(s, nullable)?;
    Ok((Place::from(x), next))
}
