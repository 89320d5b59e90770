// The fixed fields of a batch, read and judged: all that is met before its marker or its records.
#![tactic(auto)]

ghost use Rattle.std.specs.Prelude.{◌+◌, ◌≤◌, ◌≡◌, eqb, length, drop};
ghost use Rattle.numbers.specs.Pick.{pick};
ghost use Rattle.primitives.specs.Answers.{number_of, view_read};
ghost use Rattle.crc32c.specs.Crc.{crc32c as sum_of};
ghost use Rattle.layout.specs.Table.{table};
ghost use Rattle.layout.specs.Batch.{create_time, log_append_time};
ghost use Rattle.layout.specs.Fixed.{view_type};
ghost use Rattle.opening.specs.Judgement.{unsigned_in};
ghost use Rattle.opening.specs.Opened.{known_at};
ghost use Rattle.opening.specs.Opening.{lead_at, version_at, frame_at, Coded, view_attributes, SaysAttributes, attributes_at, times_at, producer_at, count_at, checked_at, opening_at, view_open};
ghost use Rattle.opening.specs.Answers.{batch_number_of, view_judged};
ghost use Rattle.opening.specs.Promises.{BatchNumberPromise, FromFaultPromise, FromRecordFaultPromise, FromBatchFaultPromise, OpenAtPromise};

use crc32c::crc32c;
use layout::{BatchFields, Producer, RecordBatchTimestampType, Times};
use numbers::Int16;
use primitives::{Cursor, Fault};
use records::RecordFault;

// Why a batch is refused.
#[derive(Clone, Copy)]
pub enum BatchFault {
    LengthTooSmall,
    UnknownMagic,
    ChecksumDiffers,
    UnknownCodec,
    Compressed,
    WrongCount,
    UnknownControl,
    // A marker stands alone, in the form that is withdrawn.
    BareMarker,
    Body(RecordFault),
}

// What stands before the count of batchLength begins to count.
#[derive(Clone, Copy)]
struct Lead {
    base_offset: i64,
    batch_length: i32,
}

#[derive(Clone, Copy)]
struct Version {
    partition_leader_epoch: i32,
    magic: i8,
}

// What is known of a batch once its length and magic have been met and all its bytes are there.
#[derive(Clone, Copy)]
struct Frame {
    base_offset: i64,
    partition_leader_epoch: i32,
    total: usize,
}

// How records are compressed: the codecs that Kafka's page has.
#[derive(Clone, Copy, PartialEq, Eq)]
enum RecordBatchCompression {
    NoCompression,
    Gzip,
    Snappy,
    Lz4,
    Zstd,
}

// What the attributes say.
#[derive(Clone, Copy)]
struct Attributes {
    compression: RecordBatchCompression,
    timestamp_type: RecordBatchTimestampType,
    is_transactional: bool,
    is_control: bool,
}

// What is known of a batch before its marker or its records, how many records it has, the place after the fixed fields
// and the bytes of the batch.
#[derive(Clone, Copy)]
pub struct Opened {
    pub fields: BatchFields,
    pub is_control: bool,
    pub count: usize,
    pub next: Cursor,
    pub total: usize,
}

// Why nothing is known: more bytes are needed, as many in all, counted from the batch's first; or it is refused.
#[derive(Clone, Copy)]
pub enum OpenError {
    MoreBytes(usize),
    Refused(BatchFault),
}

impl From<Fault> for BatchFault {
    ghost from_gives = { FromFaultPromise };

    fn from(f: Fault) -> BatchFault {
        BatchFault::Body(RecordFault::Field(f))
    }
}

impl From<RecordFault> for BatchFault {
    ghost from_gives = { FromRecordFaultPromise };

    fn from(f: RecordFault) -> BatchFault {
        BatchFault::Body(f)
    }
}

impl From<BatchFault> for OpenError {
    ghost from_gives = { FromBatchFaultPromise };

    fn from(f: BatchFault) -> OpenError {
        OpenError::Refused(f)
    }
}

impl BatchFault {
    // Document 01's number.
    pub fn number(self) -> u8
        ensures { BatchNumberPromise self result }
    {
        match self {
            BatchFault::LengthTooSmall => 2,
            BatchFault::UnknownMagic => 3,
            BatchFault::ChecksumDiffers => 4,
            BatchFault::UnknownCodec => 5,
            BatchFault::Compressed => 6,
            BatchFault::WrongCount => 7,
            BatchFault::UnknownControl => 12,
            BatchFault::BareMarker => 41,
            BatchFault::Body(f) => f.number(),
        }
    }
}

// All that is judged before the marker or the records. Once length and magic have been met, no byte after the batch is
// looked at.
#[tactic(auto, using(crate::proofs::Judging::opens))]
pub fn open_at(bytes: &[u8], at: usize) -> Result<Opened, OpenError>
    ensures { OpenAtPromise bytes.now at result }
{
    let frame = read_frame(bytes, at)?;
    let end = at + frame.total;
    let opened = open(&bytes[..end], at, frame)?;
    Ok(opened)
}

#[tactic(auto, unfolding(crate::specs::Opening::lead_at))]
fn read_lead(s: &[u8], c: Cursor) -> Result<(Lead, Cursor), Fault>
    ensures { view_read number_of (λ x. x) result ≡ lead_at s.now c.at }
{
    let (base_offset, at_length) = c.read_int64(s)?;
    let (batch_length, next) = at_length.read_int32(s)?;
    let lead = Lead {
        base_offset: base_offset.0,
        batch_length: batch_length.0,
    };
    Ok((lead, next))
}

#[tactic(auto, unfolding(crate::specs::Opening::version_at))]
fn read_version(s: &[u8], c: Cursor) -> Result<(Version, Cursor), Fault>
    ensures { view_read number_of (λ x. x) result ≡ version_at s.now c.at }
{
    let (partition_leader_epoch, at_magic) = c.read_int32(s)?;
    let (magic, next) = at_magic.read_int8(s)?;
    let version = Version {
        partition_leader_epoch: partition_leader_epoch.0,
        magic: magic.0,
    };
    Ok((version, next))
}

// Length and magic are judged as soon as they are there, before any later byte is asked for.
#[tactic(auto, using(crate::proofs::Frames::frames))]
fn read_frame(s: &[u8], at: usize) -> Result<Frame, OpenError>
    ensures { view_judged (λ x. x) result ≡ frame_at s.now at }
{
    let Ok((lead, next)) = read_lead(s, Cursor { at }) else {
        return Err(OpenError::MoreBytes(BatchFields::UNCOUNTED));
    };
    if lead.batch_length < BatchFields::UNCHECKED as i32 {
        return Err(OpenError::Refused(BatchFault::LengthTooSmall));
    }
    let total = BatchFields::UNCOUNTED + lead.batch_length as usize;
    let Ok((version, _)) = read_version(s, next) else {
        return Err(OpenError::MoreBytes(BatchFields::THROUGH_MAGIC));
    };
    if version.magic != BatchFields::MAGIC {
        return Err(OpenError::Refused(BatchFault::UnknownMagic));
    }
    if s.len() - at < total {
        return Err(OpenError::MoreBytes(total));
    }
    Ok(Frame {
        base_offset: lead.base_offset,
        partition_leader_epoch: version.partition_leader_epoch,
        total,
    })
}

impl TryFrom<u8> for RecordBatchCompression {
    type Error = BatchFault;

    ghost try_from_gives = { Coded };

    fn try_from(codec: u8) -> Result<RecordBatchCompression, BatchFault> {
        match codec {
            0 => Ok(RecordBatchCompression::NoCompression),
            1 => Ok(RecordBatchCompression::Gzip),
            2 => Ok(RecordBatchCompression::Snappy),
            3 => Ok(RecordBatchCompression::Lz4),
            4 => Ok(RecordBatchCompression::Zstd),
            _ => Err(BatchFault::UnknownCodec),
        }
    }
}

// Bits 0 to 5 are the lower byte's. Higher bits are ignored.
impl TryFrom<Int16> for Attributes {
    type Error = BatchFault;

    ghost try_from_gives = { SaysAttributes };

    fn try_from(raw: Int16) -> Result<Attributes, BatchFault> {
        let bytes = raw.to_be_bytes();
        let low = bytes[1];
        let compression = RecordBatchCompression::try_from(low % 8)?;
        let timestamp_type = timestamp_type_of(low / 8 % 2 == 1);
        Ok(Attributes {
            compression,
            timestamp_type,
            is_transactional: low / 16 % 2 == 1,
            is_control: low / 32 % 2 == 1,
        })
    }
}

fn timestamp_type_of(log_append: bool) -> RecordBatchTimestampType
    ensures { view_type result ≡ pick log_append log_append_time create_time }
{
    if log_append {
        RecordBatchTimestampType::LogAppendTime
    } else {
        RecordBatchTimestampType::CreateTime
    }
}

// An unknown codec is met here, whatever follows.
fn read_attributes(s: &[u8], c: Cursor) -> Result<(Attributes, Cursor), BatchFault>
    ensures { view_read batch_number_of view_attributes result ≡ attributes_at s.now c.at }
{
    let (raw, next) = c.read_int16(s)?;
    let attributes = Attributes::try_from(raw)?;
    Ok((attributes, next))
}

#[tactic(auto, unfolding(crate::specs::Opening::times_at))]
fn read_times(s: &[u8], c: Cursor) -> Result<(Times, Cursor), Fault>
    ensures { view_read number_of (λ x. x) result ≡ times_at s.now c.at }
{
    let (last_offset_delta, at_first) = c.read_int32(s)?;
    let (first_timestamp, at_max) = at_first.read_int64(s)?;
    let (max_timestamp, next) = at_max.read_int64(s)?;
    let times = Times {
        last_offset_delta: last_offset_delta.0,
        first_timestamp: first_timestamp.0,
        max_timestamp: max_timestamp.0,
    };
    Ok((times, next))
}

#[tactic(auto, unfolding(crate::specs::Opening::producer_at))]
fn read_producer(s: &[u8], c: Cursor) -> Result<(Producer, Cursor), Fault>
    ensures { view_read number_of (λ x. x) result ≡ producer_at s.now c.at }
{
    let (id, at_epoch) = c.read_int64(s)?;
    let (epoch, at_sequence) = at_epoch.read_int16(s)?;
    let (base_sequence, next) = at_sequence.read_int32(s)?;
    let producer = Producer {
        id: id.0,
        epoch: epoch.0,
        base_sequence: base_sequence.0,
    };
    Ok((producer, next))
}

// The count is judged before the codec, and a control batch's after it. A count of -1 reads as 0.
#[tactic(auto, unfolding(crate::specs::Opening::count_at))]
fn read_count(s: &[u8], c: Cursor, attributes: Attributes) -> Result<(usize, Cursor), BatchFault>
    ensures { view_read batch_number_of (λ n. n) result ≡ count_at (view_attributes attributes) s.now c.at }
{
    let (count, next) = c.read_int32(s)?;
    if count.0 < -1 {
        return Err(BatchFault::WrongCount);
    }
    if attributes.compression != RecordBatchCompression::NoCompression {
        return Err(BatchFault::Compressed);
    }
    let records = count.0.max(0) as usize;
    if attributes.is_control && records != 1 {
        return Err(BatchFault::WrongCount);
    }
    Ok((records, next))
}

// The batch's bytes end where `s` ends.
#[tactic(auto, unfolding(crate::specs::Opening::opening_at))]
fn open(s: &[u8], at: usize, frame: Frame) -> Result<Opened, BatchFault>
    requires { at + 21 ≤ length s.now }
    ensures { view_open result ≡ known_at frame.total (opening_at frame.base_offset frame.partition_leader_epoch s.now at) }
{
    if !checksum_holds(s, at) {
        return Err(BatchFault::ChecksumDiffers);
    }
    let checked = at + BatchFields::UNCOUNTED + BatchFields::UNCHECKED;
    open_checked(s, Cursor { at: checked }, frame)
}

// The checksum is over all that follows it.
#[tactic(auto, using(crate::proofs::Openings::sums))]
fn checksum_holds(s: &[u8], at: usize) -> bool
    requires { at + 21 ≤ length s.now }
    ensures { result ≡ eqb (unsigned_in table.crc s.now at) (sum_of (drop (at + 21) s.now)) }
{
    let c = Cursor {
        at: at + BatchFields::THROUGH_MAGIC,
    };
    let from = at + BatchFields::UNCOUNTED + BatchFields::UNCHECKED;
    match c.read_uint32(s) {
        Ok((crc, _)) => crc.0 == crc32c(&s[from..]),
        Err(_) => false,
    }
}

#[tactic(auto, unfolding(crate::specs::Opening::checked_at))]
fn open_checked(s: &[u8], c: Cursor, frame: Frame) -> Result<Opened, BatchFault>
    ensures { view_open result ≡ known_at frame.total (checked_at frame.base_offset frame.partition_leader_epoch s.now c.at) }
{
    let (attributes, at_times) = read_attributes(s, c)?;
    let (times, at_producer) = read_times(s, at_times)?;
    let (producer, at_count) = read_producer(s, at_producer)?;
    let (count, next) = read_count(s, at_count, attributes)?;
    let fields = BatchFields {
        base_offset: frame.base_offset,
        partition_leader_epoch: frame.partition_leader_epoch,
        timestamp_type: attributes.timestamp_type,
        is_transactional: attributes.is_transactional,
        times,
        producer,
    };
    Ok(Opened {
        fields,
        is_control: attributes.is_control,
        count,
        next,
        total: frame.total,
    })
}
