// Batches of records, read from lent bytes into lent tables, and written from lent tables and a lent source into a lent
// output. Names follow src/protocol/record.rs of rskafka 0.6.0.
#![tactic(auto)]

pub mod body;

ghost use Rattle.std.specs.Prelude.{◌+◌, ◌-◌, ◌≤◌, ◌≡◌, ◌++◌, pos, length, take, drop};
ghost use Rattle.primitives.specs.Step.{map_step};
ghost use Rattle.records.specs.Rows.{tables};
ghost use Rattle.writing.specs.Answers.{given};
ghost use Rattle.writing.specs.Promises.{WriteBy};
ghost use Rattle.layout.specs.Table.{table, uncounted, fixed_part};
ghost use Rattle.layout.specs.Batch.{control};
ghost use Rattle.layout.specs.Format.{bit, attributes_for};
ghost use Rattle.layout.specs.Fixed.{view_batch_fields, fixed_before};
ghost use Rattle.opening.specs.Judgement.{way_of, judge_at};
ghost use Rattle.opening.specs.Opened.{judged_as};
ghost use Rattle.markers.specs.Markers.{view_marker};
ghost use Rattle.batches.specs.Answers.{view_fields, view_check, view_read, answer_with_room};
ghost use Rattle.batches.specs.Reading.{tight, check_of_records_read};
ghost use Rattle.batches.specs.Writer.{written_batch, most_length, rows_asked, batch_given_by};
ghost use Rattle.batches.specs.Promises.{FromOpenErrorPromise, FromRecordsErrorPromise, FromRecordBatchPromise, FromBatchFieldsPromise, TotalSizePromise, CheckPromise, ReadBy, ReadPromise, RecordCountPromise, RecordTimePromise, MeasurePromise, WritePromise, CanonicalPromise};

use asking::WriteFault;
use body::read_body;
use canonical::canonical_records;
use layout::{BatchFields, ControlMode, Producer, RecordBatchTimestampType, Times};
use markers::ControlBatchRecord;
use numbers::{Int32, put};
use opening::{BatchFault, OpenError, open_at};
use primitives::Cursor;
use reading::{RecordsError, RecordsFound};
use writing::{measure_records, write_records};

// The bytes of a whole control batch, whose marker is written in 11.
const MARKED: usize = BatchFields::FIXED + 11;

// The fields of a batch that are handed out and in; all else is worked out.
#[derive(Clone, Copy)]
pub struct RecordBatch {
    pub base_offset: i64,
    pub partition_leader_epoch: i32,
    pub last_offset_delta: i32,
    pub first_timestamp: i64,
    pub max_timestamp: i64,
    pub producer_id: i64,
    pub producer_epoch: i16,
    pub base_sequence: i32,
    pub is_transactional: bool,
    pub timestamp_type: RecordBatchTimestampType,
}

// The kind of a batch: a marker, or as many records as rows of the record table hold.
#[derive(Clone, Copy)]
pub enum ControlBatchOrRecords {
    ControlBatch(ControlBatchRecord),
    Records(usize),
}

impl ControlBatchOrRecords {
    // A marker counts no records.
    pub fn record_count(self) -> usize
        ensures { RecordCountPromise self result }
    {
        match self {
            ControlBatchOrRecords::ControlBatch(_) => 0,
            ControlBatchOrRecords::Records(n) => n,
        }
    }
}

// What a batch is found to be: its fields, its kind, how many headers its records have, and how many bytes it has.
#[derive(Clone, Copy)]
pub struct BatchFound {
    pub batch: RecordBatch,
    pub kind: ControlBatchOrRecords,
    pub headers: usize,
    pub consumed: usize,
}

// How many bytes are needed, counted from the first of the batch; or why it is refused; or the rows that are needed
// where a table has fewer.
#[derive(Clone, Copy)]
pub enum ReadError {
    MoreBytes(usize),
    Refused(BatchFault),
    NoRoom { records: usize, headers: usize },
}

impl From<OpenError> for ReadError {
    ghost from_gives = { FromOpenErrorPromise };

    fn from(e: OpenError) -> ReadError {
        match e {
            OpenError::MoreBytes(n) => ReadError::MoreBytes(n),
            OpenError::Refused(f) => ReadError::Refused(f),
        }
    }
}

impl From<RecordsError> for ReadError {
    ghost from_gives = { FromRecordsErrorPromise };

    fn from(e: RecordsError) -> ReadError {
        match e {
            RecordsError::Refused(f) => ReadError::Refused(BatchFault::Body(f)),
            RecordsError::NoRoom { records, headers } => ReadError::NoRoom { records, headers },
        }
    }
}

impl RecordBatch {
    // The bytes of a batch, from any batchLength.
    pub fn total_size(batch_length: i32) -> i64
        ensures { TotalSizePromise batch_length result }
    {
        BatchFields::total_size(batch_length)
    }

    // What the bytes begin with, by themselves: no table is needed to judge them.
    pub fn check(mode: ControlMode, bytes: &[u8]) -> Result<BatchFound, OpenError>
        ensures { CheckPromise mode bytes.now result }
    {
        check_at(mode, bytes, 0)
    }

    // The same, and the rows of its records and of their headers in both tables. Starts count from the first byte. No
    // table is touched before all is known to be right and to have room.
    pub fn read(
        mode: ControlMode,
        bytes: &[u8],
        records: &mut [i64],
        headers: &mut [i64],
    ) -> Result<BatchFound, ReadError>
        ensures { ReadPromise mode bytes.now (tables records.old headers.old) (record { result = result; tables = tables records.new headers.new }) }
    {
        read_at(mode, bytes, 0, 0, records, headers)
    }

    // The time of a record with this delta.
    pub fn record_time(self, delta: i64) -> Option<i64>
        ensures { RecordTimePromise self delta result }
    {
        BatchFields::from(self).record_time(delta)
    }

    // How many bytes the batch has when it is written: its marker, or records from the first rows of both tables, whose
    // spans lie in the source. A marker looks at neither.
    pub fn measure(
        self,
        mode: ControlMode,
        codec: u8,
        kind: ControlBatchOrRecords,
        records: &[i64],
        headers: &[i64],
        source: &[u8],
    ) -> Result<usize, WriteFault>
        ensures { MeasurePromise mode self codec kind (tables records.now headers.now) source.now result }
    {
        if codec != 0 {
            return Err(WriteFault::Codec);
        }
        match kind {
            ControlBatchOrRecords::ControlBatch(_) => match mode {
                ControlMode::Bare => Err(WriteFault::BareMarker),
                ControlMode::Keyed => Ok(MARKED),
            },
            ControlBatchOrRecords::Records(count) => {
                let size = measure_records(records, headers, 0, count, source)?;
                Ok(BatchFields::FIXED + size)
            }
        }
    }

    // Writes the batch to the output's start. A refusal leaves the output as it was.
    pub fn write(
        self,
        mode: ControlMode,
        codec: u8,
        kind: ControlBatchOrRecords,
        records: &[i64],
        headers: &[i64],
        source: &[u8],
        output: &mut [u8],
    ) -> Result<usize, WriteFault>
        ensures { WritePromise mode self codec kind (tables records.now headers.now) source.now output.old (record { result = result; output = output.new }) }
    {
        let fields = BatchFields::from(self);
        if codec != 0 {
            return Err(WriteFault::Codec);
        }
        match kind {
            ControlBatchOrRecords::ControlBatch(marker) => match mode {
                ControlMode::Bare => Err(WriteFault::BareMarker),
                ControlMode::Keyed => write_marker(fields, marker, output),
            },
            ControlBatchOrRecords::Records(count) => write_rows(
                fields, count, records, headers, source, output,
            ),
        }
    }

    // Whether the bytes, all of them, are one batch as the writer gives it.
    pub fn is_canonical(mode: ControlMode, bytes: &[u8]) -> bool
        ensures { CanonicalPromise mode bytes.now result }
    {
        let Ok(opened) = open_at(bytes, 0) else {
            return false;
        };
        if opened.total != bytes.len() {
            return false;
        }
        if !is_tight(bytes) {
            return false;
        }
        let next = opened.next;
        if opened.is_control {
            return ControlBatchRecord::stands(mode, bytes, next);
        }
        canonical_records(bytes, next.at, opened.count)
    }
}

// The batch that starts at `at`.
fn check_at(mode: ControlMode, bytes: &[u8], at: usize) -> Result<BatchFound, OpenError>
    ensures { view_check result ≡ answer_with_room (judge_at mode bytes.now at 0) }
{
    let opened = open_at(bytes, at)?;
    let batch = RecordBatch::from(opened.fields);
    let consumed = opened.total;
    let s = &bytes[..at + consumed];
    let next = opened.next;
    if opened.is_control {
        return check_marker(mode, s, next, batch, consumed);
    }
    let read = read_body(s, next.at, opened.count, 0, &mut [], &mut []);
    as_check(read, batch, consumed)
}

// What the reading of its records, into tables of no rows, says of a batch that is checked: that the tables are short
// is no fault of the batch, and the counts are the same.
fn as_check(
    read: Result<RecordsFound, RecordsError>,
    batch: RecordBatch,
    consumed: usize,
) -> Result<BatchFound, OpenError>
    ensures { result ≡ check_of_records_read batch consumed read }
{
    match read {
        Ok(
            RecordsFound {
                records,
                headers,
                ..
            },
        )
        | Err(RecordsError::NoRoom { records, headers }) => Ok(BatchFound {
            batch,
            kind: ControlBatchOrRecords::Records(records),
            headers,
            consumed,
        }),
        Err(RecordsError::Refused(f)) => Err(OpenError::Refused(BatchFault::Body(f))),
    }
}

// A control batch, from its marker on.
fn check_marker(
    mode: ControlMode,
    s: &[u8],
    c: Cursor,
    batch: RecordBatch,
    consumed: usize,
) -> Result<BatchFound, OpenError>
    ensures { view_check result ≡ answer_with_room (judged_as (view_fields batch) 0 consumed (map_step control (way_of mode s.now c.at))) }
{
    let (marker, _) = ControlBatchRecord::read(mode, s, c)?;
    Ok(BatchFound {
        batch,
        kind: ControlBatchOrRecords::ControlBatch(marker),
        headers: 0,
        consumed,
    })
}

// The batch that starts at `at`, its header rows from `first_header_row` on.
fn read_at(
    mode: ControlMode,
    bytes: &[u8],
    at: usize,
    first_header_row: usize,
    records: &mut [i64],
    headers: &mut [i64],
) -> Result<BatchFound, ReadError>
    ensures { ReadBy (judge_at mode bytes.now at first_header_row) (tables records.old headers.old) (record { result = result; tables = tables records.new headers.new }) }
{
    let opened = open_at(bytes, at)?;
    let batch = RecordBatch::from(opened.fields);
    let consumed = opened.total;
    let s = &bytes[..at + consumed];
    let next = opened.next;
    if opened.is_control {
        return Ok(check_marker(mode, s, next, batch, consumed)?);
    }
    let found = read_body(s, next.at, opened.count, first_header_row, records, headers)?;
    Ok(BatchFound {
        batch,
        kind: ControlBatchOrRecords::Records(found.records),
        headers: found.headers,
        consumed,
    })
}

fn write_marker(
    fields: BatchFields,
    marker: ControlBatchRecord,
    output: &mut [u8],
) -> Result<usize, WriteFault>
    ensures { WriteBy (given (written_batch (record { fields = view_batch_fields fields; content = control (view_marker marker) }))) 0 output.old (record { result = result; output = output.new }) }
{
    if output.len() < MARKED {
        return Err(WriteFault::ShortOutput);
    }
    marker.put(output, BatchFields::FIXED);
    finish(fields, true, Int32(1), MARKED, output);
    Ok(MARKED)
}

// The records come first: the fixed fields in front of them have their length and checksum. They are written alike in
// both modes.
fn write_rows(
    fields: BatchFields,
    count: usize,
    records: &[i64],
    headers: &[i64],
    source: &[u8],
    output: &mut [u8],
) -> Result<usize, WriteFault>
    ensures { WriteBy (batch_given_by (view_batch_fields fields) source.now (rows_asked count (tables records.now headers.now) source.now)) 0 output.old (record { result = result; output = output.new }) }
{
    let size = write_records(
        records,
        headers,
        0,
        count,
        source,
        output,
        BatchFields::FIXED,
    )?;
    let end = BatchFields::FIXED + size;
    finish(fields, false, Int32(count as i32), end, output);
    Ok(end)
}

// Puts the fixed fields in front of a body, which stands in its place in the output and ends at `end`.
fn finish(fields: BatchFields, is_control: bool, count: Int32, end: usize, output: &mut [u8])
    requires { (fixed_part ≤ end) × (end ≤ uncounted + most_length) × (end ≤ length output.old) }
    ensures { output.new ≡ fixed_before (view_batch_fields fields) (pos (end - uncounted)) (pos (attributes_for (view_batch_fields fields) (bit is_control))) count.0 (take (end - fixed_part) (drop fixed_part output.old)) ++ drop fixed_part output.old }
{
    let attributes = fields.attributes(is_control);
    let batch_length = Int32((end - BatchFields::UNCOUNTED) as i32);
    let body = &output[BatchFields::FIXED..end];
    let fixed = fields.fixed_before(batch_length, attributes, count, body);
    put(&fixed, output, 0);
}

// The fields, as they are laid out. They are of their width.
impl From<RecordBatch> for BatchFields {
    ghost from_gives = { FromRecordBatchPromise };

    fn from(batch: RecordBatch) -> BatchFields {
        BatchFields {
            base_offset: batch.base_offset,
            partition_leader_epoch: batch.partition_leader_epoch,
            timestamp_type: batch.timestamp_type,
            is_transactional: batch.is_transactional,
            times: Times {
                last_offset_delta: batch.last_offset_delta,
                first_timestamp: batch.first_timestamp,
                max_timestamp: batch.max_timestamp,
            },
            producer: Producer {
                id: batch.producer_id,
                epoch: batch.producer_epoch,
                base_sequence: batch.base_sequence,
            },
        }
    }
}

// The batch that has these fields.
impl From<BatchFields> for RecordBatch {
    ghost from_gives = { FromBatchFieldsPromise };

    fn from(fields: BatchFields) -> RecordBatch {
        let times = fields.times;
        let producer = fields.producer;
        RecordBatch {
            base_offset: fields.base_offset,
            partition_leader_epoch: fields.partition_leader_epoch,
            last_offset_delta: times.last_offset_delta,
            first_timestamp: times.first_timestamp,
            max_timestamp: times.max_timestamp,
            producer_id: producer.id,
            producer_epoch: producer.epoch,
            base_sequence: producer.base_sequence,
            is_transactional: fields.is_transactional,
            timestamp_type: fields.timestamp_type,
        }
    }
}

// What is read and never written shows in three bytes of the fixed fields: attribute bits above bit 5, and a count of
// -1.
fn is_tight(bytes: &[u8]) -> bool
    requires { fixed_part ≤ length bytes.now }
    ensures { result ≡ tight bytes.now }
{
    if bytes[BatchFields::ATTRIBUTES] != 0 {
        return false;
    }
    if 64 <= bytes[BatchFields::ATTRIBUTES + 1] {
        return false;
    }
    bytes[BatchFields::COUNT] < 128
}
