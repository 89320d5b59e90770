// The fixed fields of a batch, and how they are laid out as bytes. Names follow src/protocol/record.rs of rskafka
// 0.6.0.
#![tactic(auto)]

ghost use Rattle.std.specs.Prelude.{◌≡◌};
ghost use Rattle.numbers.specs.Pen.{pen, emit};
ghost use Rattle.layout.specs.Fixed.{view_batch_fields, frame_bytes, times_bytes, producer_bytes, fixed_bytes};
ghost use Rattle.layout.specs.Promises.{TotalSizePromise, RecordTimePromise, AttributesPromise, FixedBeforePromise};

use crc32c::{crc32c, update};
use numbers::{Int8, Int16, Int32, Int64, Uint32, put};

// Whose time the records have.
#[derive(Clone, Copy, Debug, PartialEq, Eq)]
pub enum RecordBatchTimestampType {
    CreateTime,
    LogAppendTime,
}

// Which control batches there are: none, or those whose marker is in the key of a record, as brokers write it. Bare has
// its name from the form that is withdrawn.
#[derive(Clone, Copy, Debug, PartialEq, Eq)]
pub enum ControlMode {
    Bare,
    Keyed,
}

// The last offset, counted from the base offset, and the times that the records' own are counted from and end at.
#[derive(Clone, Copy)]
pub struct Times {
    pub last_offset_delta: i32,
    pub first_timestamp: i64,
    pub max_timestamp: i64,
}

#[derive(Clone, Copy)]
pub struct Producer {
    pub id: i64,
    pub epoch: i16,
    pub base_sequence: i32,
}

// The fixed fields that say something of their own; all others are worked out.
#[derive(Clone, Copy)]
pub struct BatchFields {
    pub base_offset: i64,
    pub partition_leader_epoch: i32,
    pub timestamp_type: RecordBatchTimestampType,
    pub is_transactional: bool,
    pub times: Times,
    pub producer: Producer,
}

impl BatchFields {
    // What stands before batchLength begins to count.
    pub const UNCOUNTED: usize = 12;
    // What it counts outside the checksum.
    pub const UNCHECKED: usize = 9;
    // The fixed part that the checksum is over.
    pub const FIXED_CHECKED: usize = 40;
    // The whole fixed part.
    pub const FIXED: usize = BatchFields::ATTRIBUTES + BatchFields::FIXED_CHECKED;

    pub const MAGIC: i8 = 2;
    // The bytes up to the end of the magic, and so the place of the checksum.
    pub const THROUGH_MAGIC: usize = 17;
    // The places of the attributes and of the count.
    pub const ATTRIBUTES: usize = BatchFields::UNCOUNTED + BatchFields::UNCHECKED;

    pub const COUNT: usize = 57;

    // The bytes of a batch, from any batchLength.
    pub fn total_size(batch_length: i32) -> i64
        ensures { TotalSizePromise batch_length result }
    {
        BatchFields::UNCOUNTED as i64 + batch_length as i64
    }

    // The time of a record with this delta, or that there is none.
    pub fn record_time(self, delta: i64) -> Option<i64>
        ensures { RecordTimePromise self delta result }
    {
        self.times.first_timestamp.checked_add(delta)
    }

    // The attributes, in the one place where they are put together. The codec is 0, and so are the bits above bit 5.
    pub fn attributes(self, is_control: bool) -> Int16
        ensures { AttributesPromise self is_control result }
    {
        let timestamp = self.timestamp_type as u16;
        let transactional = u16::from(self.is_transactional);
        let control = u16::from(is_control);
        Int16((8 * timestamp + 16 * transactional + 32 * control) as i16)
    }

    // The fixed fields of a batch with this body. The checksum is over some of them, so it is put in last.
    pub fn fixed_before(
        self,
        batch_length: Int32,
        attributes: Int16,
        count: Int32,
        body: &[u8],
    ) -> [u8; 61]
        ensures { FixedBeforePromise self batch_length.0 attributes.0 count.0 body.now result }
    {
        let mut bytes = self.fixed(batch_length, Uint32(0), attributes, count);
        let checked = crc32c(&bytes[BatchFields::ATTRIBUTES..BatchFields::FIXED]);
        let crc = Uint32(update(checked, body));
        put(&crc.to_be_bytes(), &mut bytes, BatchFields::THROUGH_MAGIC);
        bytes
    }

    // The fixed fields, field by field.
    fn fixed(self, batch_length: Int32, crc: Uint32, attributes: Int16, count: Int32) -> [u8; 61]
        ensures { result ≡ fixed_bytes (view_batch_fields self) batch_length.0 crc.0 attributes.0 count.0 }
    {
        let mut bytes = [0u8; 61];
        let at_attributes = self.put_frame(batch_length, crc, &mut bytes, 0);
        let at_producer = self.put_times(attributes, &mut bytes, at_attributes);
        self.put_producer(count, &mut bytes, at_producer);
        bytes
    }

    // Up to the checksum.
    fn put_frame(self, batch_length: Int32, crc: Uint32, output: &mut [u8], at: usize) -> usize
        ensures { pen result output.new ≡ emit (frame_bytes (view_batch_fields self) batch_length.0 crc.0) (pen at output.old) }
    {
        let at_length = put(&Int64(self.base_offset).to_be_bytes(), output, at);
        let at_epoch = put(&batch_length.to_be_bytes(), output, at_length);
        let at_magic = put(
            &Int32(self.partition_leader_epoch).to_be_bytes(),
            output,
            at_epoch,
        );
        let at_crc = put(&Int8(BatchFields::MAGIC).to_be_bytes(), output, at_magic);
        put(&crc.to_be_bytes(), output, at_crc)
    }

    fn put_times(self, attributes: Int16, output: &mut [u8], at: usize) -> usize
        ensures { pen result output.new ≡ emit (times_bytes (view_batch_fields self) attributes.0) (pen at output.old) }
    {
        let times = self.times;
        let at_delta = put(&attributes.to_be_bytes(), output, at);
        let at_first = put(
            &Int32(times.last_offset_delta).to_be_bytes(),
            output,
            at_delta,
        );
        let at_max = put(
            &Int64(times.first_timestamp).to_be_bytes(),
            output,
            at_first,
        );
        put(&Int64(times.max_timestamp).to_be_bytes(), output, at_max)
    }

    fn put_producer(self, count: Int32, output: &mut [u8], at: usize) -> usize
        ensures { pen result output.new ≡ emit (producer_bytes (view_batch_fields self) count.0) (pen at output.old) }
    {
        let producer = self.producer;
        let at_epoch = put(&Int64(producer.id).to_be_bytes(), output, at);
        let at_sequence = put(&Int16(producer.epoch).to_be_bytes(), output, at_epoch);
        let at_count = put(
            &Int32(producer.base_sequence).to_be_bytes(),
            output,
            at_sequence,
        );
        put(&count.to_be_bytes(), output, at_count)
    }
}
