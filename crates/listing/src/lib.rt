// What the program `list` prints of a file: one line after the other, each handed out by value.
#![tactic(auto)]

ghost use Rattle.std.specs.Prelude.{◌≡◌, [], ◌∷◌, ◌++◌, None};
ghost use Rattle.records.specs.Rows.{tables};
ghost use Rattle.batches.specs.Answers.{view_kind, view_count};
ghost use Rattle.listing.specs.Text.{spaced, decimal, signed_decimal};
ghost use Rattle.listing.specs.Listing.{batch_line, end_line, stop_line, kind_word};
ghost use Rattle.listing.specs.Answers.{entry_of};
ghost use Rattle.listing.specs.Writing.{pushed, written, empty_line, read_turn, NextFits};
ghost use Rattle.listing.specs.Promises.{ListFirstPromise, ListAtPromise};

use batches::{BatchFound, ControlBatchOrRecords, ReadError, RecordBatch};
use layout::ControlMode;
use markers::ControlBatchRecord;

// A line with its newline, and how many of the bytes are in use. The others are 0.
#[derive(Drop)]
pub struct Line {
    pub bytes: [u8; Line::SIZE],
    pub len: usize,
}

// A line of the listing, and where the listing goes on, if it does.
#[derive(Drop)]
pub struct Entry {
    pub line: Line,
    pub next: Option<usize>,
}

// The longest file that is listed.
const MOST: usize = 65536;

// Document 01's numbers of the answers that are no faults.
const MORE_BYTES: u64 = 1;

const NO_ROOM: u64 = 14;

// The heading; or of a file that is too long this alone.
pub fn list_first(bytes: &[u8]) -> Entry
    ensures { ListFirstPromise bytes.now result }
{
    if MOST < bytes.len() {
        return last(Line::new().text(b"file too long\n"));
    }
    Entry {
        line: Line::new().text(b"base bytes kind records headers\n"),
        next: Some(0),
    }
}

// The line of the batch that starts at `place`, which is read into both tables; or the last line.
pub fn list_at(bytes: &[u8], place: usize, records: &mut [i64], headers: &mut [i64]) -> Entry
    ensures { ListAtPromise bytes.now place (tables records.old headers.old) (record { result = result; tables = tables records.new headers.new }) }
{
    if bytes.len() <= place {
        return last(end_line(bytes.len()));
    }
    let read = RecordBatch::read(ControlMode::Keyed, &bytes[place..], records, headers);
    entry_of(read, place)
}

// The line of what was read at a place.
fn entry_of(read: Result<BatchFound, ReadError>, place: usize) -> Entry
    requires { NextFits place read }
    ensures { result ≡ entry_of (read_turn place read) }
{
    match read {
        Ok(found) => {
            let batch = found.batch;
            let consumed = found.consumed;
            Entry {
                line: batch_line(batch.base_offset, consumed, found.kind, found.headers),
                next: Some(place + consumed),
            }
        }
        Err(ReadError::MoreBytes(_)) => last(stop_line(MORE_BYTES, place)),
        Err(ReadError::Refused(fault)) => last(stop_line(fault.number() as u64, place)),
        Err(ReadError::NoRoom { .. }) => last(stop_line(NO_ROOM, place)),
    }
}

fn last(line: Line) -> Entry
    ensures { result ≡ record { line = line; next = None } }
{
    Entry { line, next: None }
}

fn batch_line(base: i64, bytes: usize, kind: ControlBatchOrRecords, headers: usize) -> Line
    ensures { result ≡ written empty_line (batch_line base bytes (view_kind kind) (view_count kind) headers) }
{
    let opening = Line::new().signed(base).number(bytes as u64, b' ');
    opening
        .kind(kind)
        .number(kind.record_count() as u64, b' ')
        .number(headers as u64, b'\n')
}

fn end_line(size: usize) -> Line
    ensures { result ≡ written empty_line (end_line size) }
{
    Line::new().text(b"end at ").number(size as u64, b'\n')
}

fn stop_line(number: u64, place: usize) -> Line
    ensures { result ≡ written empty_line (stop_line number place) }
{
    Line::new()
        .text(b"stop ")
        .number(number, b' ')
        .text(b"at ")
        .number(place as u64, b'\n')
}

impl Line {
    // The bytes of a line. The longest is shorter: four numbers of at most twenty digits, a sign, a kind of seven
    // letters, four spaces and the newline.
    pub const SIZE: usize = 96;

    fn new() -> Line
        ensures { result ≡ empty_line }
    {
        Line {
            bytes: [0; Line::SIZE],
            len: 0,
        }
    }

    // A byte more. A line that is full stays as it is.
    fn byte(self, b: u8) -> Line
        ensures { result ≡ pushed self b }
    {
        let at = self.len;
        if Line::SIZE <= at {
            return self;
        }
        let mut bytes = self.bytes;
        bytes[at] = b;
        Line { bytes, len: at + 1 }
    }

    fn text(self, s: &[u8]) -> Line
        ensures { result ≡ written self s.now }
    {
        let mut line = self;
        for &b in s {
            line = line.byte(b);
        }
        line
    }

    // The word of a kind, with a space after it.
    fn kind(self, kind: ControlBatchOrRecords) -> Line
        ensures { result ≡ written self (spaced (kind_word (view_kind kind))) }
    {
        match kind {
            ControlBatchOrRecords::ControlBatch(marker) => match marker {
                ControlBatchRecord::Abort => self.text(b"abort "),
                ControlBatchRecord::Commit => self.text(b"commit "),
            },
            ControlBatchOrRecords::Records(_) => self.text(b"records "),
        }
    }

    // A number and the byte after it. Twenty digits hold every number of 64 bits; the last is put in first.
    fn number(self, n: u64, after: u8) -> Line
        ensures { result ≡ written self (decimal n ++ (after ∷ [])) }
    {
        let mut digits = [0; 20];
        let mut rest = n;
        let mut start = 0;
        for at in (1..20).rev() {
            if rest < 10 {
                start = at;
                break;
            }
            digits[at] = b'0' + (rest % 10) as u8;
            rest /= 10;
        }
        digits[start] = b'0' + rest as u8;
        self.text(&digits[start..]).byte(after)
    }

    // The same of a signed number, with a space after it.
    fn signed(self, n: i64) -> Line
        ensures { result ≡ written self (spaced (signed_decimal n)) }
    {
        let line = if n < 0 { self.byte(b'-') } else { self };
        line.number(n.unsigned_abs(), b' ')
    }
}
