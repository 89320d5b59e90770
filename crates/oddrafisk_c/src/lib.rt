// The functions of oddrafisk, exported for programs that link an archive: each is the library's own, with its contract.
// A crate that others stand on makes no archive, so the exports stand here alone.
#![tactic(auto)]

ghost use Rattle.records.specs.Rows.{tables};
ghost use Rattle.oddrafisk.specs.Entries.{mode_of};
ghost use Rattle.oddrafisk.specs.Promises.{CheckPromise, ReadPromise, MeasurePromise, WritePromise, ConvertPromise, CanonicalPromise, RecordTimePromise, Crc32cPromise, VersionPromise};

// What the bytes begin with, by themselves.
#[unsafe(no_mangle)]
pub extern "C" fn oddrafisk_check(mode: u32, bytes: &[u8], answer: &mut [i64; 16]) -> u32
    ensures { CheckPromise (mode_of mode) bytes.now (record { number = result; answer = answer.new }) }
{
    oddrafisk::oddrafisk_check(mode, bytes, answer)
}

// The same, and the rows of its records and of their headers.
#[unsafe(no_mangle)]
pub extern "C" fn oddrafisk_read(
    mode: u32,
    bytes: &[u8],
    records: &mut [i64],
    headers: &mut [i64],
    answer: &mut [i64; 16],
) -> u32
    ensures { ReadPromise (mode_of mode) bytes.now (tables records.old headers.old) (record { said = record { number = result; answer = answer.new }; tables = tables records.new headers.new }) }
{
    oddrafisk::oddrafisk_read(mode, bytes, records, headers, answer)
}

// How many bytes a batch has when it is written.
#[unsafe(no_mangle)]
pub extern "C" fn oddrafisk_measure(
    mode: u32,
    batch: &[i64; 16],
    codec: i64,
    records: &[i64],
    headers: &[i64],
    source: &[u8],
    answer: &mut [i64; 1],
) -> u32
    ensures { MeasurePromise (mode_of mode) batch.now codec (tables records.now headers.now) source.now (record { number = result; answer = answer.new }) }
{
    oddrafisk::oddrafisk_measure(mode, batch, codec, records, headers, source, answer)
}

// Writes a batch to the output's start.
#[unsafe(no_mangle)]
pub extern "C" fn oddrafisk_write(
    mode: u32,
    batch: &[i64; 16],
    codec: i64,
    records: &[i64],
    headers: &[i64],
    source: &[u8],
    output: &mut [u8],
    answer: &mut [i64; 1],
) -> u32
    ensures { WritePromise (mode_of mode) batch.now codec (tables records.now headers.now) source.now output.old (record { said = record { number = result; answer = answer.new }; output = output.new }) }
{
    oddrafisk::oddrafisk_write(mode, batch, codec, records, headers, source, output, answer)
}

// Writes what a stored batch is converted to, to the output's start.
#[unsafe(no_mangle)]
pub extern "C" fn oddrafisk_convert(bytes: &[u8], output: &mut [u8], answer: &mut [i64; 2]) -> u32
    ensures { ConvertPromise bytes.now output.old (record { said = record { number = result; answer = answer.new }; output = output.new }) }
{
    oddrafisk::oddrafisk_convert(bytes, output, answer)
}

// Whether the bytes, all of them, are one batch as the writer gives it.
#[unsafe(no_mangle)]
pub extern "C" fn oddrafisk_is_canonical(mode: u32, bytes: &[u8]) -> u32
    ensures { CanonicalPromise (mode_of mode) bytes.now result }
{
    oddrafisk::oddrafisk_is_canonical(mode, bytes)
}

// The time of a record with this delta, in a batch of this type and these times; or that there is none.
#[unsafe(no_mangle)]
pub extern "C" fn oddrafisk_record_time(
    timestamp_type: i64,
    first_timestamp: i64,
    max_timestamp: i64,
    delta: i64,
    answer: &mut [i64; 1],
) -> u32
    ensures { RecordTimePromise timestamp_type first_timestamp max_timestamp delta (record { number = result; answer = answer.new }) }
{
    oddrafisk::oddrafisk_record_time(
        timestamp_type,
        first_timestamp,
        max_timestamp,
        delta,
        answer,
    )
}

// CRC-32C.
#[unsafe(no_mangle)]
pub extern "C" fn oddrafisk_crc32c(bytes: &[u8]) -> u32
    ensures { Crc32cPromise bytes.now result }
{
    oddrafisk::oddrafisk_crc32c(bytes)
}

// The version of this library, by which a caller finds that an archive is not its header's: major, minor and patch as
// one number.
#[unsafe(no_mangle)]
pub extern "C" fn oddrafisk_version() -> u32
    ensures { VersionPromise result }
{
    oddrafisk::oddrafisk_version()
}
