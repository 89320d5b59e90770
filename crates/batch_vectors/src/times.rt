// What follows from the numbers of a batch: the time of a record.
use batches::RecordBatch;
use cases::text::{decimal, word, words};
use layout::RecordBatchTimestampType;

// time FIRST DELTA [TIME]
pub fn agrees(line: &[u8]) -> Option<bool> {
    let first = signed(decimal(word(line, 1))?);
    let delta = signed(decimal(word(line, 2))?);
    match words(line) {
        3 => Some(has_no_time(first, delta)),
        4 => Some(has_time(first, delta, decimal(word(line, 3))?)),
        _ => None,
    }
}

// One that 64 signed bits do not hold gives 0.
fn signed(n: i128) -> i64 {
    i64::try_from(n).unwrap_or(0)
}

// Document 01: a time is the same whichever the timestamp type.
fn has_time(first: i64, delta: i64, time: i128) -> bool {
    let time = i64::try_from(time).ok();
    time.is_some() && created(first, delta) == time && appended(first, delta) == time
}

fn has_no_time(first: i64, delta: i64) -> bool {
    created(first, delta).is_none() && appended(first, delta).is_none()
}

fn created(first: i64, delta: i64) -> Option<i64> {
    batch(first, RecordBatchTimestampType::CreateTime).record_time(delta)
}

fn appended(first: i64, delta: i64) -> Option<i64> {
    batch(first, RecordBatchTimestampType::LogAppendTime).record_time(delta)
}

// A batch whose fields are 0 but for these.
pub fn batch(first_timestamp: i64, timestamp_type: RecordBatchTimestampType) -> RecordBatch {
    RecordBatch {
        base_offset: 0,
        partition_leader_epoch: 0,
        last_offset_delta: 0,
        first_timestamp,
        max_timestamp: 0,
        producer_id: 0,
        producer_epoch: 0,
        base_sequence: 0,
        is_transactional: false,
        timestamp_type,
    }
}
