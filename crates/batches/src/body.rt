// The records of a batch, read by one small reader that keeps the lent bytes beside its place, as the Rust's `Cursor`
// keeps `data` and a position in RecordBatch::read. Each function is thin: the work is done by crates/reading, on a
// plain slice and a place.
ghost use Rattle.records.specs.Rows.{tables};
ghost use Rattle.batches.specs.Promises.{BodyReaderPromise, ReadBodyPromise, ReadHeldPromise};

use reading::{RecordsError, RecordsFound, read_records};

// The bytes of a batch, from its first to its last, and the place in them from which is read. They are cut where the
// batch ends and never at its start, so that a place is a row's start as it stands.
#[derive(Drop)]
pub struct BodyReader<'a> {
    pub body: &'a [u8],
    pub at: usize,
}

impl<'a> BodyReader<'a> {
    pub fn new(body: &'a [u8], at: usize) -> BodyReader<'a>
        ensures { BodyReaderPromise body.entry at result }
    {
        BodyReader { body, at }
    }

    // The records from the reader's place up to the end of its bytes, and their rows in both tables. The place after
    // the last record is in the answer; the bytes stay as they were lent.
    pub fn read_records(
        self,
        count: usize,
        first_header_row: usize,
        records: &mut [i64],
        headers: &mut [i64],
    ) -> Result<RecordsFound, RecordsError>
        ensures { ReadHeldPromise self.entry count first_header_row (tables records.old headers.old) (record { read = record { result = result; tables = tables records.new headers.new }; body = self.exit.body }) }
    {
        read_records(
            self.body,
            self.at,
            count,
            first_header_row,
            records,
            headers,
        )
    }
}

// The same of plain bytes and a place. No reader stands in its contract, and none in those of its callers.
pub fn read_body(
    body: &[u8],
    at: usize,
    count: usize,
    first_header_row: usize,
    records: &mut [i64],
    headers: &mut [i64],
) -> Result<RecordsFound, RecordsError>
    ensures { ReadBodyPromise body.now at count first_header_row (tables records.old headers.old) (record { result = result; tables = tables records.new headers.new }) }
{
    BodyReader::new(body, at).read_records(count, first_header_row, records, headers)
}
