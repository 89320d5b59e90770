// What a call says: document 01's number, and the entries that it names.
ghost use Rattle.std.specs.Prelude.{◌≤◌, ◌≡◌, [], ◌∷◌, pos};
ghost use Rattle.writing.specs.Answers.{view_written};
ghost use Rattle.layout.specs.Fixed.{view_type};
ghost use Rattle.markers.specs.Markers.{view_marker};
ghost use Rattle.batches.specs.Answers.{of_marker, view_kind, view_found, view_read};
ghost use Rattle.converting.specs.Answers.{view_converted};
ghost use Rattle.oddrafisk.specs.Entries.{type_entry, kind_entry, entries_of};
ghost use Rattle.oddrafisk.specs.Promises.{Says};
ghost use Rattle.oddrafisk.specs.Statements.{Counted};
ghost use Rattle.oddrafisk.specs.Words.{counts_of};

use asking::WriteFault;
use batches::{BatchFound, ControlBatchOrRecords, ReadError};
use converting::{Conversion, ConvertError};
use layout::RecordBatchTimestampType;
use markers::ControlBatchRecord;

// What a call says of a batch.
#[derive(Drop)]
pub(crate) struct Said {
    pub(crate) number: u32,
    pub(crate) entries: [i64; 16],
}

pub(crate) fn said_of(read: Result<BatchFound, ReadError>) -> Said
    requires { Counted (view_read read) }
    ensures { Says (view_read read) (record { number = result.number; answer = result.entries }) }
{
    match read {
        Ok(found) => Said {
            number: 0,
            entries: accepted(found),
        },
        Err(ReadError::MoreBytes(n)) => Said {
            number: 1,
            entries: counts(0, 0, n),
        },
        Err(ReadError::Refused(f)) => Said {
            number: f.number() as u32,
            entries: counts(0, 0, 0),
        },
        Err(ReadError::NoRoom { records, headers }) => Said {
            number: 14,
            entries: counts(records, headers, 0),
        },
    }
}

fn accepted(found: BatchFound) -> [i64; 16]
    requires { Counted (view_found found) }
    ensures { result ≡ entries_of (view_found found) }
{
    let batch = found.batch;
    let kind = found.kind;
    [
        batch.base_offset,
        batch.partition_leader_epoch as i64,
        batch.last_offset_delta as i64,
        batch.first_timestamp,
        batch.max_timestamp,
        batch.producer_id,
        batch.producer_epoch as i64,
        batch.base_sequence as i64,
        type_number(batch.timestamp_type),
        i64::from(batch.is_transactional),
        kind_number(kind),
        kind.record_count() as i64,
        found.headers as i64,
        found.consumed as i64,
        0,
        0,
    ]
}

// No field and no kind.
fn counts(records: usize, headers: usize, bytes: usize) -> [i64; 16]
    requires { Counted (counts_of records headers bytes) }
    ensures { result ≡ entries_of (counts_of records headers bytes) }
{
    [
        0,
        0,
        0,
        0,
        0,
        0,
        0,
        0,
        0,
        0,
        0,
        records as i64,
        headers as i64,
        bytes as i64,
        0,
        0,
    ]
}

fn type_number(timestamp_type: RecordBatchTimestampType) -> i64
    ensures { result ≡ type_entry (view_type timestamp_type) }
{
    match timestamp_type {
        RecordBatchTimestampType::CreateTime => 0,
        RecordBatchTimestampType::LogAppendTime => 1,
    }
}

fn kind_number(kind: ControlBatchOrRecords) -> i64
    ensures { result ≡ kind_entry (view_kind kind) }
{
    match kind {
        ControlBatchOrRecords::Records(_) => 0,
        ControlBatchOrRecords::ControlBatch(marker) => marker_number(marker),
    }
}

fn marker_number(marker: ControlBatchRecord) -> i64
    ensures { result ≡ kind_entry (of_marker (view_marker marker)) }
{
    match marker {
        ControlBatchRecord::Abort => 1,
        ControlBatchRecord::Commit => 2,
    }
}

pub(crate) fn number_of(written: Result<usize, WriteFault>) -> u32
    ensures { result ≡ (view_written written).number }
{
    match written {
        Ok(_) => 0,
        Err(f) => f.number() as u32,
    }
}

pub(crate) fn length_of(written: Result<usize, WriteFault>) -> i64
    requires { (view_written written).bytes ≤ 2147483659 }
    ensures { result ≡ pos (view_written written).bytes }
{
    written.unwrap_or(0) as i64
}

pub(crate) fn conversion_number(converted: Result<Conversion, ConvertError>) -> u32
    ensures { result ≡ (view_converted converted).number }
{
    match converted {
        Ok(_) => 0,
        Err(ConvertError::MoreBytes(_)) => 1,
        Err(ConvertError::Refused(f)) => f.number() as u32,
        Err(ConvertError::ShortOutput) => 24,
    }
}

// The bytes taken, or needed, and the bytes given.
pub(crate) fn told_of(converted: Result<Conversion, ConvertError>) -> [i64; 2]
    requires { ((view_converted converted).taken ≤ 2147483659) × ((view_converted converted).given ≤ 2147483659) }
    ensures { result ≡ pos (view_converted converted).taken ∷ pos (view_converted converted).given ∷ [] }
{
    match converted {
        Ok(Conversion { taken, given }) => [taken as i64, given as i64],
        Err(ConvertError::MoreBytes(n)) => [n as i64, 0],
        Err(ConvertError::Refused(_) | ConvertError::ShortOutput) => [0, 0],
    }
}
