// Batches: what the library answers, and every number of both tables afterwards.
use batches::{BatchFound, ControlBatchOrRecords, ReadError, RecordBatch};
use cases::tables::{NO_ROOM, Tables, is_due};
use cases::text::{split_at_bar, unsigned, word, words_from};
use layout::{ControlMode, RecordBatchTimestampType};
use markers::ControlBatchRecord;
use opening::{BatchFault, OpenError};

// An answer is document 01's number and the numbers that are returned with it, 15 at most, and then UNNAMED.
const NUMBERS: usize = 16;

// Where an answer names nothing. No case has this number.
const UNNAMED: i64 = 3000000;

// Document 01's numbers that name more than a fault.
const ACCEPTED: i64 = 0;

const MORE_BYTES: i64 = 1;

// The places after batchLength and after magic: so many bytes are needed before the next are.
const LENGTH_END: usize = 12;

const MAGIC_END: usize = 17;

// How many numbers each table has.
#[derive(Drop)]
struct Room {
    records: usize,
    headers: usize,
}

// batch HEX R H ANSWER[|..]
pub fn agrees(mode: ControlMode, s: &[u8], line: &[u8]) -> Option<bool> {
    is_told(mode, s, words_from(line, 2))
}

// R H ANSWER[|..]: after the bar stand the rows of both tables or, where there is no room, what the check answers.
fn is_told(mode: ControlMode, s: &[u8], told: &[u8]) -> Option<bool> {
    let (told, more) = split_at_bar(told);
    let room = Room {
        records: unsigned(word(told, 0))?,
        headers: unsigned(word(told, 1))?,
    };
    let answer = words_from(told, 2);
    if unsigned(word(answer, 0))? == NO_ROOM {
        return Some(check_is(mode, s, more) && read_is(mode, s, room, answer, b"")?);
    }
    Some(check_is(mode, s, answer) && read_is(mode, s, room, answer, more)?)
}

// cuts HEX K R H ANSWER[|..]: what each part that starts at the first byte is answered. One of them has to have K
// bytes.
pub fn agrees_cut(mode: ControlMode, s: &[u8], line: &[u8]) -> Option<bool> {
    let whole = unsigned(word(line, 2))?;
    let told = words_from(line, 3);
    let agrees = |k| part_agrees(mode, &s[..k], whole, told).unwrap_or(false);
    Some(whole <= s.len() && (0..=s.len()).all(agrees))
}

fn part_agrees(mode: ControlMode, s: &[u8], whole: usize, told: &[u8]) -> Option<bool> {
    if s.len() < whole {
        return Some(needs(mode, s, needed(s.len(), whole)));
    }
    is_told(mode, s, told)
}

fn needed(len: usize, whole: usize) -> usize {
    match len {
        0..LENGTH_END => LENGTH_END,
        LENGTH_END..MAGIC_END => MAGIC_END,
        _ => whole,
    }
}

// Whether both functions need so many bytes, and the tables stay as they are.
fn needs(mode: ControlMode, s: &[u8], n: usize) -> bool {
    let mut tables = Tables::marked();
    let check = RecordBatch::check(mode, s);
    let read = RecordBatch::read(mode, s, &mut tables.records, &mut tables.headers);
    matches!(check, Err(OpenError::MoreBytes(m)) if m == n)
        && matches!(read, Err(ReadError::MoreBytes(m)) if m == n)
        && tables.hold(0, b"")
}

fn check_is(mode: ControlMode, s: &[u8], expected: &[u8]) -> bool {
    let answer = checked(RecordBatch::check(mode, s));
    spells(expected, &answer)
}

// On refusals and where there is no room a case has no rows, so that all numbers of the tables have to stand as they
// were.
fn read_is(mode: ControlMode, s: &[u8], room: Room, expected: &[u8], rows: &[u8]) -> Option<bool> {
    let mut tables = Tables::marked();
    let answer = read(RecordBatch::read(
        mode,
        s,
        tables.records.get_mut(..room.records)?,
        tables.headers.get_mut(..room.headers)?,
    ));
    Some(spells(expected, &answer) && tables.hold(0, rows))
}

// Whether words are the numbers of an answer: all of them, and no more.
fn spells(words: &[u8], answer: &[i64; NUMBERS]) -> bool {
    let mut numbers = answer.iter().enumerate();
    numbers.all(|(at, &number)| is_due(number, at, UNNAMED.unsigned_abs(), 0, words))
}

fn checked(c: Result<BatchFound, OpenError>) -> [i64; NUMBERS] {
    match c {
        Ok(found) => accepted(found),
        Err(OpenError::MoreBytes(n)) => named(MORE_BYTES, number(n), UNNAMED),
        Err(OpenError::Refused(f)) => refused(f),
    }
}

fn read(r: Result<BatchFound, ReadError>) -> [i64; NUMBERS] {
    match r {
        Ok(found) => accepted(found),
        Err(ReadError::MoreBytes(n)) => named(MORE_BYTES, number(n), UNNAMED),
        Err(ReadError::Refused(f)) => refused(f),
        Err(ReadError::NoRoom { records, headers }) => {
            named(number(NO_ROOM), number(records), number(headers))
        }
    }
}

fn accepted(found: BatchFound) -> [i64; NUMBERS] {
    let b = found.batch;
    let kind = found.kind;
    [
        ACCEPTED,
        b.base_offset,
        b.partition_leader_epoch as i64,
        b.last_offset_delta as i64,
        b.first_timestamp,
        b.max_timestamp,
        b.producer_id,
        b.producer_epoch as i64,
        b.base_sequence as i64,
        type_number(b.timestamp_type),
        i64::from(b.is_transactional),
        kind_number(kind),
        number(kind.record_count()),
        number(found.headers),
        number(found.consumed),
        UNNAMED,
    ]
}

fn refused(f: BatchFault) -> [i64; NUMBERS] {
    named(f.number() as i64, UNNAMED, UNNAMED)
}

fn named(number: i64, first: i64, second: i64) -> [i64; NUMBERS] {
    let mut answer = [UNNAMED; NUMBERS];
    answer[0] = number;
    answer[1] = first;
    answer[2] = second;
    answer
}

// One that 64 signed bits do not hold is right in no case, as -1 is not.
fn number(n: usize) -> i64 {
    i64::try_from(n).unwrap_or(-1)
}

fn type_number(t: RecordBatchTimestampType) -> i64 {
    match t {
        RecordBatchTimestampType::CreateTime => 0,
        RecordBatchTimestampType::LogAppendTime => 1,
    }
}

// 0 is records, 1 an abort, 2 a commit.
fn kind_number(kind: ControlBatchOrRecords) -> i64 {
    match kind {
        ControlBatchOrRecords::Records(_) => 0,
        ControlBatchOrRecords::ControlBatch(c) => match c {
            ControlBatchRecord::Abort => 1,
            ControlBatchRecord::Commit => 2,
        },
    }
}
