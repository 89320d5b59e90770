// The canonical check of records: whether bytes are records in the very form in which they are written. A number has no
// encoding that is shorter than what is written for it, and none other that is as short: so a record is in that form
// where its length is, its attributes are 0, and its fields are as long together as they are written.
#![tactic(auto)]

ghost use Rattle.std.specs.Prelude.{◌+◌, ◌≡◌};
ghost use Rattle.primitives.specs.Step.{map_step, times};
ghost use Rattle.primitives.specs.Answers.{view_read};
ghost use Rattle.records.specs.Judgement.{header_at, fields_at};
ghost use Rattle.records.specs.Answers.{record_number_of};
ghost use Rattle.sizes.specs.Sizes.{place_size, head_size, capped};
ghost use Rattle.canonical.specs.Promises.{CanonicalRecordsPromise};
ghost use Rattle.canonical.specs.Tight.{headers_onto, fields_capped, Strictly};

use primitives::Cursor;
use records::{Record, RecordFault, RecordHeader, read_count};
use sizes::{capped, number_size, place_size};

// Whether `count` records stand from `at` on up to the end of the bytes, in the form in which they are written.
pub fn canonical_records(bytes: &[u8], at: usize, count: usize) -> bool
    ensures { CanonicalRecordsPromise bytes.now at count result }
{
    let mut c = Cursor { at };
    for _ in 0..count {
        let Some(next) = canonical_record(bytes, c) else {
            return false;
        };
        c = next;
    }
    c.at == bytes.len()
}

// A record in the form in which it is written, and the place after it. It lies within the bytes, so its fields are read
// from those that its length names.
fn canonical_record(s: &[u8], c: Cursor) -> Option<Cursor>
    ensures { Strictly s.now c.at result }
{
    let (n, start) = read_count(c, s).ok()?;
    let from = start.at;
    if c.at + number_size(i64::from(n)) != from {
        return None;
    }
    let attributes = *s.get(from)?;
    if attributes != 0 {
        return None;
    }
    let size = n as usize;
    let end = from + size;
    let fields = s.get(..end)?;
    let (written, next) = fields_size(fields, start).ok()?;
    if next.at == end && written == size {
        return Some(next);
    }
    None
}

// How many bytes would be written for what follows a record's length.
#[tactic(auto, using(crate::proofs::SizeSteps::headers_small, crate::proofs::SizeSteps::fields_got, crate::proofs::SizeSteps::fields_no_headers, crate::proofs::SizeSteps::fields_no_head))]
fn fields_size(s: &[u8], c: Cursor) -> Result<(usize, Cursor), RecordFault>
    ensures { view_read record_number_of (λ n. n) result ≡ map_step fields_capped (fields_at s.now c.at) }
{
    let (r, next) = Record::read(c, s)?;
    let (headers, end) = headers_size(s, next, r.headers)?;
    Ok((capped(head_size(r) + headers), end))
}

// How many bytes would be written for the headers of a record.
#[tactic(auto, using(crate::proofs::SizeSteps::headers_stop, crate::proofs::SizeSteps::headers_turn, crate::proofs::SizeSteps::headers_end))]
fn headers_size(s: &[u8], from: Cursor, count: u32) -> Result<(usize, Cursor), RecordFault>
    ensures { view_read record_number_of (λ n. n) result ≡ map_step (headers_onto 0) (times (header_at s.now) count from.at) }
{
    let mut c = from;
    let mut sum: usize = 0;
    for _ in 0..count {
        let (h, next) = RecordHeader::read(c, s)?;
        sum = capped(sum + header_size(h));
        c = next;
    }
    Ok((sum, c))
}

// What a record has before its headers.
fn head_size(r: Record) -> usize
    ensures { result ≡ capped (head_size r.deltas.timestamp r.deltas.offset r.key.len r.value.len r.headers) }
{
    let deltas = r.deltas;
    let numbers = number_size(deltas.timestamp)
        + number_size(deltas.offset)
        + number_size(i64::from(r.headers));
    capped(1 + numbers + place_size(r.key.len) + place_size(r.value.len))
}

fn header_size(h: RecordHeader) -> usize
    ensures { result ≡ capped (place_size h.key.len + place_size h.value.len) }
{
    capped(place_size(h.key.len) + place_size(h.value.len))
}
