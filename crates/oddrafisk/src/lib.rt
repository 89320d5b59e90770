// Oddrafisk for programs in other languages: numbers and slices alone. Every function answers every value of every
// parameter; bindings/c/oddrafisk.h says what a caller that is not Rattle owes.
#![tactic(auto)]

mod asked;
mod said;

ghost use Rattle.std.specs.Prelude.{◌≡◌};
ghost use Rattle.records.specs.Rows.{tables};
ghost use Rattle.writing.specs.Answers.{view_written, measured};
ghost use Rattle.oddrafisk.specs.Entries.{mode_of};
ghost use Rattle.oddrafisk.specs.Promises.{CheckPromise, ReadPromise, entries_given, MeasurePromise, WritePromise, ConvertPromise, CanonicalPromise, RecordTimePromise, Crc32cPromise, VersionPromise};
ghost use Rattle.oddrafisk.specs.Words.{WritesFor};

use asked::{batch_asked, mode_of, time_asked};
use asking::WriteFault;
use batches::{ReadError, RecordBatch};
use converting::convert;
use crc32c::crc32c;
use layout::ControlMode;
use said::{Said, conversion_number, length_of, number_of, said_of, told_of};

// What the bytes begin with, by themselves.
pub fn oddrafisk_check(mode: u32, bytes: &[u8], answer: &mut [i64; 16]) -> u32
    ensures { CheckPromise (mode_of mode) bytes.now (record { number = result; answer = answer.new }) }
{
    let found = RecordBatch::check(mode_of(mode), bytes).map_err(ReadError::from);
    let Said { number, entries } = said_of(found);
    *answer = entries;
    number
}

// The same, and the rows of its records and of their headers.
pub fn oddrafisk_read(
    mode: u32,
    bytes: &[u8],
    records: &mut [i64],
    headers: &mut [i64],
    answer: &mut [i64; 16],
) -> u32
    ensures { ReadPromise (mode_of mode) bytes.now (tables records.old headers.old) (record { said = record { number = result; answer = answer.new }; tables = tables records.new headers.new }) }
{
    let found = RecordBatch::read(mode_of(mode), bytes, records, headers);
    let Said { number, entries } = said_of(found);
    *answer = entries;
    number
}

// How many bytes a batch has when it is written.
pub fn oddrafisk_measure(
    mode: u32,
    batch: &[i64; 16],
    codec: i64,
    records: &[i64],
    headers: &[i64],
    source: &[u8],
    answer: &mut [i64; 1],
) -> u32
    ensures { MeasurePromise (mode_of mode) batch.now codec (tables records.now headers.now) source.now (record { number = result; answer = answer.new }) }
{
    let measured = measure_asked(mode_of(mode), batch, codec, records, headers, source);
    *answer = [length_of(measured)];
    number_of(measured)
}

// Writes a batch to the output's start.
pub fn oddrafisk_write(
    mode: u32,
    batch: &[i64; 16],
    codec: i64,
    records: &[i64],
    headers: &[i64],
    source: &[u8],
    output: &mut [u8],
    answer: &mut [i64; 1],
) -> u32
    ensures { WritePromise (mode_of mode) batch.now codec (tables records.now headers.now) source.now output.old (record { said = record { number = result; answer = answer.new }; output = output.new }) }
{
    let written = write_asked(
        mode_of(mode),
        batch,
        codec,
        records,
        headers,
        source,
        output,
    );
    *answer = [length_of(written)];
    number_of(written)
}

// Writes what a stored batch is converted to, to the output's start.
pub fn oddrafisk_convert(bytes: &[u8], output: &mut [u8], answer: &mut [i64; 2]) -> u32
    ensures { ConvertPromise bytes.now output.old (record { said = record { number = result; answer = answer.new }; output = output.new }) }
{
    let converted = convert(bytes, output);
    *answer = told_of(converted);
    conversion_number(converted)
}

// Whether the bytes, all of them, are one batch as the writer gives it.
pub fn oddrafisk_is_canonical(mode: u32, bytes: &[u8]) -> u32
    ensures { CanonicalPromise (mode_of mode) bytes.now result }
{
    u32::from(RecordBatch::is_canonical(mode_of(mode), bytes))
}

// The time of a record with this delta, in a batch of this type and these times; or that there is none.
pub fn oddrafisk_record_time(
    timestamp_type: i64,
    first_timestamp: i64,
    max_timestamp: i64,
    delta: i64,
    answer: &mut [i64; 1],
) -> u32
    ensures { RecordTimePromise timestamp_type first_timestamp max_timestamp delta (record { number = result; answer = answer.new }) }
{
    match time_asked(timestamp_type, first_timestamp, max_timestamp, delta) {
        Some(t) => {
            *answer = [t];
            1
        }
        None => {
            *answer = [0];
            0
        }
    }
}

// CRC-32C.
pub fn oddrafisk_crc32c(bytes: &[u8]) -> u32
    ensures { Crc32cPromise bytes.now result }
{
    crc32c(bytes)
}

// The version of this library, by which a caller finds that an archive is not its header's: major, minor and patch as
// one number.
pub fn oddrafisk_version() -> u32
    ensures { VersionPromise result }
{
    4000
}

fn measure_asked(
    mode: ControlMode,
    batch: &[i64; 16],
    codec: i64,
    records: &[i64],
    headers: &[i64],
    source: &[u8],
) -> Result<usize, WriteFault>
    ensures { view_written result ≡ measured (entries_given mode batch.now codec (tables records.now headers.now) source.now) }
{
    let (fields, kind) = batch_asked(mode, batch, codec)?;
    fields.measure(mode, 0, kind, records, headers, source)
}

fn write_asked(
    mode: ControlMode,
    batch: &[i64; 16],
    codec: i64,
    records: &[i64],
    headers: &[i64],
    source: &[u8],
    output: &mut [u8],
) -> Result<usize, WriteFault>
    ensures { WritesFor mode batch.now codec (tables records.now headers.now) source.now output.old (record { result = result; output = output.new }) }
{
    let (fields, kind) = batch_asked(mode, batch, codec)?;
    fields.write(mode, 0, kind, records, headers, source, output)
}
