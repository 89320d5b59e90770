// What numbers ask for: the mode, the entries of a batch to be written, and the time of a record.
ghost use Rattle.std.specs.Prelude.{◌≡◌};
ghost use Rattle.asking.specs.Answers.{write_number_of};
ghost use Rattle.layout.specs.Fixed.{view_type};
ghost use Rattle.layout.specs.Time.{view_time};
ghost use Rattle.batches.specs.Answers.{view_fields};
ghost use Rattle.batches.specs.Writer.{view_wanted};
ghost use Rattle.oddrafisk.specs.Entries.{mode_of, is0or1, fields_fit, type_of, flag_of, fields_of, kind_wanted, entries_asked};
ghost use Rattle.oddrafisk.specs.Promises.{time_for};
ghost use Rattle.oddrafisk.specs.Words.{view_option, view_asked, when, AsksBy, wrong_number};

use asking::WriteFault;
use batches::{ControlBatchOrRecords, RecordBatch};
use layout::{ControlMode, RecordBatchTimestampType};
use markers::ControlBatchRecord;

// The number of the keyed mode.
const KEYED: u32 = 1;

// The entries of a batch. The first ten are its fields, in the order of the bytes; the reader answers by all, and the
// writer takes all but the headers and the bytes. Those after the bytes are 0.
const BASE_OFFSET: usize = 0;

const PARTITION_LEADER_EPOCH: usize = 1;

const LAST_OFFSET_DELTA: usize = 2;

const FIRST_TIMESTAMP: usize = 3;

const MAX_TIMESTAMP: usize = 4;

const PRODUCER_ID: usize = 5;

const PRODUCER_EPOCH: usize = 6;

const BASE_SEQUENCE: usize = 7;

const TIMESTAMP_TYPE: usize = 8;

const IS_TRANSACTIONAL: usize = 9;

const KIND: usize = 10;

const RECORDS: usize = 11;

const RESERVED: usize = 14;

// Every other number is the bare mode's, so that each has an answer.
pub(crate) fn mode_of(n: u32) -> ControlMode
    ensures { result ≡ mode_of n }
{
    if n == KEYED {
        return ControlMode::Keyed;
    }
    ControlMode::Bare
}

// The fields and the kind that are asked for, or why they are refused: the codec first. Entries that are right cost no
// test more: `ok_or` would work the fault out for them too. Inline, since what is asked for would be copied once more.
#[inline(always)]
pub(crate) fn batch_asked(
    mode: ControlMode,
    entries: &[i64; 16],
    codec: i64,
) -> Result<(RecordBatch, ControlBatchOrRecords), WriteFault>
    ensures { AsksBy mode entries.now codec result }
{
    if codec != 0 {
        return Err(WriteFault::Codec);
    }
    match entries_asked(entries) {
        Some(asked) => Ok(asked),
        None => Err(entries_fault(mode, entries[KIND])),
    }
}

// What the entries of a batch ask for, or nothing where there are some that no batch has.
fn entries_asked(entries: &[i64; 16]) -> Option<(RecordBatch, ControlBatchOrRecords)>
    ensures { view_option view_asked result ≡ entries_asked entries.now }
{
    let batch = fields_asked(entries)?;
    let kind = kind_asked(entries[KIND], entries[RECORDS])?;
    Some((batch, kind))
}

// Each field is of its width, and what is reserved is 0.
fn fields_asked(entries: &[i64; 16]) -> Option<RecordBatch>
    ensures { view_option view_fields result ≡ when (fields_fit entries.now) (fields_of entries.now) }
{
    if entries[RESERVED] != 0 || entries[RESERVED + 1] != 0 {
        return None;
    }
    Some(RecordBatch {
        base_offset: entries[BASE_OFFSET],
        partition_leader_epoch: i32::try_from(entries[PARTITION_LEADER_EPOCH]).ok()?,
        last_offset_delta: i32::try_from(entries[LAST_OFFSET_DELTA]).ok()?,
        first_timestamp: entries[FIRST_TIMESTAMP],
        max_timestamp: entries[MAX_TIMESTAMP],
        producer_id: entries[PRODUCER_ID],
        producer_epoch: i16::try_from(entries[PRODUCER_EPOCH]).ok()?,
        base_sequence: i32::try_from(entries[BASE_SEQUENCE]).ok()?,
        is_transactional: flag_asked(entries[IS_TRANSACTIONAL])?,
        timestamp_type: type_asked(entries[TIMESTAMP_TYPE])?,
    })
}

fn flag_asked(n: i64) -> Option<bool>
    ensures { view_option (λ b. b) result ≡ when (is0or1 n) (flag_of n) }
{
    match n {
        0 => Some(false),
        1 => Some(true),
        _ => None,
    }
}

fn type_asked(n: i64) -> Option<RecordBatchTimestampType>
    ensures { view_option view_type result ≡ when (is0or1 n) (type_of n) }
{
    match n {
        0 => Some(RecordBatchTimestampType::CreateTime),
        1 => Some(RecordBatchTimestampType::LogAppendTime),
        _ => None,
    }
}

// A marker needs no records, and looks at no count of them.
fn kind_asked(kind: i64, records: i64) -> Option<ControlBatchOrRecords>
    ensures { view_option view_wanted result ≡ kind_wanted kind records }
{
    match kind {
        0 => Some(ControlBatchOrRecords::Records(usize::try_from(records).ok()?)),
        1 => Some(ControlBatchOrRecords::ControlBatch(ControlBatchRecord::Abort)),
        2 => Some(ControlBatchOrRecords::ControlBatch(ControlBatchRecord::Commit)),
        _ => None,
    }
}

// Why entries that no batch has are refused: a marker in bare mode is refused whatever the other entries are.
fn entries_fault(mode: ControlMode, kind: i64) -> WriteFault
    ensures { write_number_of result ≡ wrong_number mode kind }
{
    match (mode, kind) {
        (ControlMode::Bare, 1 | 2) => WriteFault::BareMarker,
        _ => WriteFault::Row,
    }
}

// A type of neither number has no times.
pub(crate) fn time_asked(
    timestamp_type: i64,
    first_timestamp: i64,
    max_timestamp: i64,
    delta: i64,
) -> Option<i64>
    ensures { view_time result ≡ time_for timestamp_type first_timestamp max_timestamp delta }
{
    let batch = RecordBatch {
        base_offset: 0,
        partition_leader_epoch: 0,
        last_offset_delta: 0,
        first_timestamp,
        max_timestamp,
        producer_id: 0,
        producer_epoch: 0,
        base_sequence: 0,
        is_transactional: false,
        timestamp_type: type_asked(timestamp_type)?,
    };
    batch.record_time(delta)
}
