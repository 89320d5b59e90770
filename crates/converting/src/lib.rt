// Stored batches, brought from the form of control batches that is withdrawn to the one that is read and written.
#![tactic(auto)]

ghost use Rattle.std.specs.Prelude.{◌≤◌, ◌≡◌, ◌++◌, length, drop};
ghost use Rattle.numbers.specs.Bytes.{Bytes};
ghost use Rattle.layout.specs.Table.{fixed_part};
ghost use Rattle.layout.specs.declared.ControlMode.{ControlMode};
ghost use Rattle.opening.specs.Judgement.{refused, accepted, judge};
ghost use Rattle.markers.specs.Markers.{view_marker};
ghost use Rattle.converting.specs.Conversion.{rekeyed, conversion_of};
ghost use Rattle.converting.specs.Promises.{FromBatchFaultPromise, ConvertPromise};
ghost use Rattle.converting.specs.Giving.{GivenBy, rekeyed_size, with_length, with_checksum};

use batches::RecordBatch;
use crc32c::crc32c;
use layout::{BatchFields, ControlMode};
use markers::ControlBatchRecord;
use numbers::{Int32, Uint32, put};
use opening::{BatchFault, OpenError};
use primitives::Cursor;

// The bytes of a whole control batch: in the form that is withdrawn, and as it is written.
const BARE: usize = BatchFields::FIXED + 4;

const KEYED: usize = BatchFields::FIXED + 11;

// The place of batchLength.
const LENGTH: usize = 8;

// How many bytes the batch has, and how many are given for it.
#[derive(Clone, Copy)]
pub struct Conversion {
    pub taken: usize,
    pub given: usize,
}

// How many bytes are needed, counted from the first of the batch; or why it is refused; or that the output is too short.
#[derive(Clone, Copy)]
pub enum ConvertError {
    MoreBytes(usize),
    Refused(BatchFault),
    ShortOutput,
}

impl From<BatchFault> for ConvertError {
    ghost from_gives = { FromBatchFaultPromise };

    fn from(f: BatchFault) -> ConvertError {
        ConvertError::Refused(f)
    }
}

// Writes what is given for the batch that the bytes begin with to the output's start. No byte of the output is touched
// before all is known to be right and to have room.
pub fn convert(bytes: &[u8], output: &mut [u8]) -> Result<Conversion, ConvertError>
    ensures { ConvertPromise bytes.now output.old (record { result = result; output = output.new }) }
{
    match RecordBatch::check(ControlMode::Keyed, bytes) {
        Ok(found) => copy(&bytes[..found.consumed], output),
        Err(OpenError::MoreBytes(n)) => Err(ConvertError::MoreBytes(n)),
        Err(OpenError::Refused(f)) => match f {
            BatchFault::BareMarker => rekey(bytes, output),
            _ => Err(ConvertError::Refused(f)),
        },
    }
}

// All bytes of a batch, as they stand.
fn copy(batch: &[u8], output: &mut [u8]) -> Result<Conversion, ConvertError>
    ensures { GivenBy (accepted (record { taken = length batch.now; given = batch.now })) output.old (record { result = result; output = output.new }) }
{
    let n = batch.len();
    if output.len() < n {
        return Err(ConvertError::ShortOutput);
    }
    put(batch, output, 0);
    Ok(Conversion { taken: n, given: n })
}

// A control batch whose marker stands alone. What has been judged is not refused when it is read again.
fn rekey(bytes: &[u8], output: &mut [u8]) -> Result<Conversion, ConvertError>
    requires { Bytes bytes.now × (judge ControlMode.Keyed bytes.now ≡ refused 41) }
    ensures { GivenBy (conversion_of bytes.now) output.old (record { result = result; output = output.new }) }
{
    if output.len() < KEYED {
        return Err(ConvertError::ShortOutput);
    }
    let fixed = Cursor {
        at: BatchFields::FIXED,
    };
    let (marker, _) = ControlBatchRecord::read_bare(&bytes[..BARE], fixed)?;
    put_rekeyed(bytes, marker, output);
    Ok(Conversion {
        taken: BARE,
        given: KEYED,
    })
}

// The fixed fields as they stand and the marker as it is written; then their length and checksum over the old ones.
fn put_rekeyed(bytes: &[u8], marker: ControlBatchRecord, output: &mut [u8])
    requires { (fixed_part ≤ length bytes.now) × (rekeyed_size ≤ length output.old) }
    ensures { output.new ≡ rekeyed bytes.now (view_marker marker) ++ drop rekeyed_size output.old }
{
    put(&bytes[..BatchFields::FIXED], output, 0);
    marker.put(output, BatchFields::FIXED);
    put_length(output);
    put_checksum(output);
}

fn put_length(output: &mut [u8])
    ensures { output.new ≡ with_length output.old }
{
    let length = Int32((KEYED - BatchFields::UNCOUNTED) as i32).to_be_bytes();
    put(&length, output, LENGTH);
}

// The checksum is over all that follows it.
fn put_checksum(output: &mut [u8])
    requires { rekeyed_size ≤ length output.old }
    ensures { output.new ≡ with_checksum output.old }
{
    let crc = Uint32(crc32c(&output[BatchFields::ATTRIBUTES..KEYED])).to_be_bytes();
    put(&crc, output, BatchFields::THROUGH_MAGIC);
}
