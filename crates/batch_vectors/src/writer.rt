// Batches and records that are written: what is answered, and every byte of the output afterwards, whatever its room.
use asking::WriteFault;
use batches::{ControlBatchOrRecords, RecordBatch};
use canonical::canonical_records;
use cases::outputs::{blotted, is_left_as};
use cases::tables::{MOST, fill};
use cases::text::{hexadecimal, split_at_bar, word, words_from};
use layout::{ControlMode, RecordBatchTimestampType};
use markers::ControlBatchRecord;
use writing::{measure_records, write_records};

// Document 01's numbers that depend on the output's room.
pub const ACCEPTED: i64 = 0;

pub const SHORT_OUTPUT: i64 = 24;

// How many bytes a case may expect, and the most room that there is beyond them.
const LONGEST: usize = 256;

const SPARE: usize = 100;

// How many bytes an output has.
const OUTPUT: usize = LONGEST + SPARE;

// How many numbers a case has before its tables. Of a batch: codec, kind, count of records, ten fields, and document
// 01's number. Of records: the first header row, their count, the place where they are written, and document 01's
// number.
const OF_BATCH: usize = 14;

const OF_RECORDS: usize = 4;

// What is written.
#[derive(Clone, Copy)]
enum Task {
    Batch {
        mode: ControlMode,
        batch: RecordBatch,
        codec: u8,
        kind: ControlBatchOrRecords,
    },
    Records {
        first_header_row: usize,
        count: usize,
        at: usize,
    },
}

// The same with the rows and the source that it is written from, what document 01 answers where the output has room,
// and the bytes that are expected there.
#[derive(Clone, Copy)]
struct Case<'a> {
    task: Task,
    records: &'a [i64],
    headers: &'a [i64],
    source: &'a [u8],
    number: i64,
    bytes: &'a [u8],
}

// write SOURCE BYTES CODEC KIND COUNT FIELDS.. NUMBER|ROWS|ROWS
pub fn batch_agrees(mode: ControlMode, source: &[u8], line: &[u8]) -> Option<bool> {
    let mut numbers = [0i64; OF_BATCH];
    let (asked, rows) = split_at_bar(line);
    let (task, number) = batch_asked(mode, fill(words_from(asked, 3), &mut numbers)?)?;
    is_written(task, number, source, word(line, 2), rows)
}

// write-records SOURCE BYTES FIRST COUNT AT NUMBER|ROWS|ROWS
pub fn records_agree(source: &[u8], line: &[u8]) -> Option<bool> {
    let mut numbers = [0i64; OF_RECORDS];
    let (asked, rows) = split_at_bar(line);
    let (task, number) = records_asked(fill(words_from(asked, 3), &mut numbers)?)?;
    is_written(task, number, source, word(line, 2), rows)
}

fn batch_asked(mode: ControlMode, numbers: &[i64]) -> Option<(Task, i64)> {
    let &[
        codec,
        kind,
        count,
        base_offset,
        partition_leader_epoch,
        last_offset_delta,
        first_timestamp,
        max_timestamp,
        producer_id,
        producer_epoch,
        base_sequence,
        timestamp_type,
        is_transactional,
        number,
    ] = numbers
    else {
        return None;
    };
    let batch = RecordBatch {
        base_offset,
        partition_leader_epoch: i32::try_from(partition_leader_epoch).unwrap_or(0),
        last_offset_delta: i32::try_from(last_offset_delta).unwrap_or(0),
        first_timestamp,
        max_timestamp,
        producer_id,
        producer_epoch: i16::try_from(producer_epoch).unwrap_or(0),
        base_sequence: i32::try_from(base_sequence).unwrap_or(0),
        timestamp_type: type_of(timestamp_type),
        is_transactional: is_transactional == 1,
    };
    let task = Task::Batch {
        mode,
        batch,
        codec: u8::try_from(distance(codec)).unwrap_or(0),
        kind: kind_of(kind, count),
    };
    Some((task, number))
}

fn records_asked(numbers: &[i64]) -> Option<(Task, i64)> {
    let &[first_header_row, count, at, number] = numbers else {
        return None;
    };
    let task = Task::Records {
        first_header_row: count_of(first_header_row),
        count: count_of(count),
        at: count_of(at),
    };
    Some((task, number))
}

fn type_of(n: i64) -> RecordBatchTimestampType {
    match n {
        0 => RecordBatchTimestampType::CreateTime,
        _ => RecordBatchTimestampType::LogAppendTime,
    }
}

// 0 is records, 1 an abort, 2 a commit.
fn kind_of(n: i64, count: i64) -> ControlBatchOrRecords {
    match n {
        1 => ControlBatchOrRecords::ControlBatch(ControlBatchRecord::Abort),
        2 => ControlBatchOrRecords::ControlBatch(ControlBatchRecord::Commit),
        _ => ControlBatchOrRecords::Records(count_of(count)),
    }
}

// -1 stands for as many as the machine counts.
fn count_of(n: i64) -> usize {
    usize::try_from(n).unwrap_or(usize::MAX)
}

// How far a number lies from 0, or from -1 where it is negative.
pub fn distance(n: i64) -> usize {
    let distance = if n < 0 { !n } else { n };
    distance.cast_unsigned() as usize
}

fn is_written(task: Task, number: i64, source: &[u8], spelled: &[u8], rows: &[u8]) -> Option<bool> {
    let mut bytes = [0u8; LONGEST];
    let mut records = [0i64; MOST];
    let mut headers = [0i64; MOST];
    let (record_rows, header_rows) = split_at_bar(rows);
    let case = Case {
        task,
        records: fill(record_rows, &mut records)?,
        headers: fill(header_rows, &mut headers)?,
        source,
        number,
        bytes: hexadecimal(spelled, &mut bytes)?,
    };
    Some(case.agrees())
}

// Whether an answer is document 01's number, with a size where that is 0.
pub fn is_answer(w: Result<usize, WriteFault>, number: i64, size: usize) -> bool {
    match w {
        Ok(n) => number == ACCEPTED && n == size,
        Err(f) => i64::from(f.number()) == number,
    }
}

impl Case<'_> {
    fn agrees(&self) -> bool {
        is_answer(self.measure(), self.number, self.bytes.len())
            && self.fills_every_room()
            && (self.number != ACCEPTED || self.comes_back())
    }

    fn measure(&self) -> Result<usize, WriteFault> {
        let Case {
            records,
            headers,
            source,
            ..
        } = *self;
        match self.task {
            Task::Batch {
                mode,
                batch,
                codec,
                kind,
            } => batch.measure(mode, codec, kind, records, headers, source),
            Task::Records {
                first_header_row,
                count,
                ..
            } => measure_records(records, headers, first_header_row, count, source),
        }
    }

    fn write(&self, output: &mut [u8]) -> Result<usize, WriteFault> {
        let Case {
            records,
            headers,
            source,
            ..
        } = *self;
        match self.task {
            Task::Batch {
                mode,
                batch,
                codec,
                kind,
            } => batch.write(mode, codec, kind, records, headers, source, output),
            Task::Records {
                first_header_row,
                count,
                at,
            } => write_records(
                records,
                headers,
                first_header_row,
                count,
                source,
                output,
                at,
            ),
        }
    }

    // The place in the output where the bytes begin.
    fn start(&self) -> usize {
        match self.task {
            Task::Batch { .. } => 0,
            Task::Records { at, .. } => at,
        }
    }

    fn fills_every_room(&self) -> bool {
        let before: [u8; OUTPUT] = blotted();
        (0..=self.bytes.len() + SPARE).all(|room| self.fills(before, room))
    }

    // Whether the output holds just the bytes that are expected where there is room for them, and else is as it was.
    fn fills(&self, before: [u8; OUTPUT], room: usize) -> bool {
        let mut output = before;
        let Some(space) = output.get_mut(..room) else {
            return false;
        };
        let written = self.write(space);
        if self.number == ACCEPTED && !self.has_room(room) {
            return is_answer(written, SHORT_OUTPUT, 0) && is_left_as(&output, &before, 0, b"");
        }
        is_answer(written, self.number, self.bytes.len())
            && is_left_as(&output, &before, self.start(), self.bytes)
    }

    fn has_room(&self, room: usize) -> bool {
        let room = room.checked_sub(self.start());
        room.is_some_and(|room| self.bytes.len() <= room)
    }

    fn comes_back(&self) -> bool {
        match self.task {
            Task::Batch { mode, .. } => batch_comes_back(mode, self.bytes),
            Task::Records { count, .. } => canonical_records(self.bytes, 0, count),
        }
    }
}

// Whether bytes are canonical, are read, and are written again from what was read.
fn batch_comes_back(mode: ControlMode, bytes: &[u8]) -> bool {
    let mut records = [0i64; MOST];
    let mut headers = [0i64; MOST];
    let Ok(found) = RecordBatch::read(mode, bytes, &mut records, &mut headers) else {
        return false;
    };
    let before: [u8; LONGEST] = blotted();
    let mut output = before;
    let batch = found.batch;
    let w = batch.write(mode, 0, found.kind, &records, &headers, bytes, &mut output);
    found.consumed == bytes.len()
        && RecordBatch::is_canonical(mode, bytes)
        && is_answer(w, ACCEPTED, bytes.len())
        && is_left_as(&output, &before, 0, bytes)
}
