// Records and their headers, written from lent tables and a lent source into a lent output.
#![tactic(auto)]

ghost use Rattle.std.specs.Prelude.{◌+◌, ◌*◌, ◌/◌, ◌^◌, ◌<◌, ◌≤◌, ◌≡◌, [], ◌∷◌, ◌++◌, map, ltb, pos, length};
ghost use Rattle.numbers.specs.Format.{zigzag, shortest};
ghost use Rattle.numbers.specs.Pen.{pen, emit};
ghost use Rattle.primitives.specs.Step.{map_step, times};
ghost use Rattle.primitives.specs.Reading.{bytes_of, shown};
ghost use Rattle.records.specs.Inside.{NullableInside};
ghost use Rattle.records.specs.Judgement.{with_headers};
ghost use Rattle.records.specs.Rows.{tables};
ghost use Rattle.records.specs.Placed.{shown_header, shown_record};
ghost use Rattle.records.specs.Written.{written_bytes, written_nullable, written_header, written_headers, written_fields};
ghost use Rattle.sizes.specs.Inside.{HeaderInside};
ghost use Rattle.sizes.specs.Sizes.{place_size, length_in, header_size, headers_size, fields_size, record_size, records_size, cap, capped};
ghost use Rattle.asking.specs.Asked.{header_asked, row_place, record_asked};
ghost use Rattle.asking.specs.Answers.{span_of, header_of, head_of, view_answer};
ghost use Rattle.writing.specs.Sized.{forget, view_row};
ghost use Rattle.writing.specs.Put.{capped_record, capped_records};
ghost use Rattle.writing.specs.Promises.{MeasureRecordsPromise, WriteRecordsPromise};

use asking::{AskedHeader, AskedRecord, WriteFault, header_asked, record_asked};
use numbers::{Varint, Varlong, put};
use primitives::Span;
use records::Record;
use sizes::{capped, number_size, span_size};

// The most bytes of records that batchLength leaves room for beside the fields that it counts.
const MOST: usize = 2147483598;

// What is asked to be written: the lent rows, and the bytes that they name.
#[derive(Clone, Copy)]
struct Rows<'a> {
    records: &'a [i64],
    headers: &'a [i64],
    source: &'a [u8],
}

// How many bytes the records of the first `count` rows take, their headers from `first_header_row` on.
pub fn measure_records(
    records: &[i64],
    headers: &[i64],
    first_header_row: usize,
    count: usize,
    source: &[u8],
) -> Result<usize, WriteFault>
    ensures { MeasureRecordsPromise (tables records.now headers.now) first_header_row count source.now result }
{
    if records.len() / Record::ROW < count {
        return Err(WriteFault::Row);
    }
    let rows = Rows {
        records,
        headers,
        source,
    };
    let n = rows.size_records(first_header_row, count)?;
    if MOST < n {
        return Err(WriteFault::TooLong);
    }
    Ok(n)
}

// The same, and their bytes in the output from `at` on. Nothing is written before all rows are known to be right, and
// their bytes to have room.
pub fn write_records(
    records: &[i64],
    headers: &[i64],
    first_header_row: usize,
    count: usize,
    source: &[u8],
    output: &mut [u8],
    at: usize,
) -> Result<usize, WriteFault>
    ensures { WriteRecordsPromise (tables records.now headers.now) first_header_row count source.now at output.old (record { result = result; output = output.new }) }
{
    let n = measure_records(records, headers, first_header_row, count, source)?;
    if output.len() < n {
        return Err(WriteFault::ShortOutput);
    }
    if output.len() - n < at {
        return Err(WriteFault::ShortOutput);
    }
    let rows = Rows {
        records,
        headers,
        source,
    };
    rows.put_records(first_header_row, count, output, at)?;
    Ok(n)
}

fn shown_size(x: Option<Span>) -> usize
    ensures { result ≡ capped (place_size (length_in (span_of x))) }
{
    match x {
        None => 1,
        Some(bytes) => span_size(bytes.len),
    }
}

fn header_size(h: AskedHeader) -> usize
    ensures { result ≡ capped (header_size (header_of h)) }
{
    let key = h.key;
    let value = h.value;
    capped(span_size(key.len) + span_size(value.len))
}

// What follows a record's length, up to its headers, where its key and its value take so many bytes.
fn head_size(timestamp_delta: i64, offset_delta: i32, bytes: usize, headers: usize) -> usize
    requires { (bytes ≤ 2 * cap) × (headers < 2 ^ 63) }
    ensures { result ≡ capped (1 + (length (shortest timestamp_delta) + (length (shortest offset_delta) + (bytes + length (shortest (pos headers)))))) }
{
    let deltas = number_size(timestamp_delta) + number_size(offset_delta as i64);
    capped(1 + deltas + bytes + number_size(headers as i64))
}

impl Rows<'_> {
    // The headers of a record, with the `head` bytes that stand before them.
    fn size_headers(self, first: usize, count: usize, head: usize) -> Result<usize, WriteFault>
        requires { (first + count ≤ length self.headers.now / 4) × (head ≤ cap) }
        ensures { view_answer (first + count) (λ n. n) result ≡ map_step (λ hs. capped (head + headers_size hs)) (times (header_asked self.entry.headers.now self.entry.source.now) count first) }
    {
        let mut sum = head;
        for row in first..first + count {
            let h = header_asked(self.headers, self.source, row)?;
            sum = capped(sum + header_size(h));
        }
        Ok(sum)
    }

    // What follows a record's length, where its headers stand from `first` on.
    #[inline(always)]
    fn fields_size(self, r: AskedRecord, first: usize) -> Result<usize, WriteFault>
        requires { first + r.headers ≤ length self.headers.now / 4 }
        ensures { view_answer (first + r.headers) (λ n. n) result ≡ map_step (λ hs. capped (fields_size (with_headers (head_of r) hs))) (times (header_asked self.entry.headers.now self.entry.source.now) r.headers first) }
    {
        let bytes = shown_size(r.key) + shown_size(r.value);
        let head = head_size(r.timestamp_delta, r.offset_delta, bytes, r.headers);
        // Most records have no headers, and need no walk over them.
        if r.headers == 0 {
            return Ok(head);
        }
        self.size_headers(first, r.headers, head)
    }

    // How many bytes a record takes, and the header row after its own.
    fn size_record(self, row: usize, first: usize) -> Result<(usize, usize), WriteFault>
        requires { row < length self.records.now / 8 }
        ensures { view_row row (λ n. n) result ≡ map_step (λ x. capped (record_size x)) (record_asked (tables self.entry.records.now self.entry.headers.now) self.entry.source.now (row_place row first)) }
    {
        let r = record_asked(self.records, self.headers, self.source, row, first)?;
        let size = self.fields_size(r, first)?;
        Ok((span_size(size), first + r.headers))
    }

    // The walk that measures, as far as a Varint holds the sum.
    fn size_records(self, first_header_row: usize, count: usize) -> Result<usize, WriteFault>
        requires { count ≤ length self.records.now / 8 }
        ensures { view_answer 0 (λ n. n) result ≡ forget (map_step (λ rs. capped (records_size rs)) (times (record_asked (tables self.entry.records.now self.entry.headers.now) self.entry.source.now) count (row_place 0 first_header_row))) }
    {
        let mut first = first_header_row;
        let mut sum: usize = 0;
        for row in 0..count {
            let (bytes, next) = self.size_record(row, first)?;
            sum = capped(sum + bytes);
            first = next;
        }
        Ok(sum)
    }
}

// A number by its kind.
#[inline(always)]
fn put_varint(n: Varint, output: &mut [u8], at: usize) -> usize
    ensures { pen result output.new ≡ emit (shortest n.0) (pen at output.old) }
{
    put_number(n.0 as i64, output, at)
}

#[inline(always)]
fn put_varlong(n: Varlong, output: &mut [u8], at: usize) -> usize
    ensures { pen result output.new ≡ emit (shortest n.0) (pen at output.old) }
{
    put_number(n.0, output, at)
}

// A Varint or a Varlong: the shortest bytes of both are the same. A number of one byte, as most are, has a way of its
// own.
#[inline(always)]
fn put_number(n: i64, output: &mut [u8], at: usize) -> usize
    ensures { pen result output.new ≡ emit (shortest n) (pen at output.old) }
{
    if is_one_byte(n) {
        return put_byte(one_byte(n), output, at);
    }
    put_long(Varlong(n), output, at)
}

fn is_one_byte(n: i64) -> bool
    ensures { result ≡ ltb (zigzag n) 128 }
{
    if n < -64 {
        return false;
    }
    n < 64
}

fn one_byte(n: i64) -> u8
    requires { zigzag n < 128 }
    ensures { result ≡ zigzag n }
{
    if 0 <= n {
        return (2 * (n as u64)) as u8;
    }
    (2 * ((-1 - n) as u64) + 1) as u8
}

fn put_byte(b: u8, output: &mut [u8], at: usize) -> usize
    ensures { pen result output.new ≡ emit (b ∷ []) (pen at output.old) }
{
    let room = output.len();
    if room <= at {
        return room;
    }
    output[at] = b;
    at + 1
}

// A number of more than one byte, of either width. Its bytes are put one by one: taken together they would be waited
// for, since they have only just been stored.
#[inline(never)]
fn put_long(n: Varlong, output: &mut [u8], from: usize) -> usize
    requires { 128 ≤ zigzag n.0 }
    ensures { pen result output.new ≡ emit (shortest n.0) (pen from output.old) }
{
    let e = n.encode();
    let second = put_byte(e.bytes[0], output, from);
    let mut at = put_byte(e.bytes[1], output, second);
    for &b in &e.bytes[2..e.len] {
        at = put_byte(b, output, at);
    }
    at
}

// A length or a count. Both are Varints, and their shortest bytes are those of a Varlong: so one that no Varint holds,
// which measuring has refused, needs no case of its own.
fn put_length(n: usize, output: &mut [u8], at: usize) -> usize
    requires { n < 2 ^ 63 }
    ensures { pen result output.new ≡ emit (shortest (pos n)) (pen at output.old) }
{
    put_varlong(Varlong(n as i64), output, at)
}

// Bytes of the source after their length.
fn put_span(source: &[u8], x: Span, output: &mut [u8], at: usize) -> usize
    requires { x.start + x.len ≤ length source.now }
    ensures { pen result output.new ≡ emit (written_bytes (bytes_of source.now (record { start = x.start; len = x.len }))) (pen at output.old) }
{
    let start = x.start;
    let end = start + x.len;
    let next = put_length(x.len, output, at);
    put(&source[start..end], output, next)
}

// The same, or null.
fn put_shown(source: &[u8], x: Option<Span>, output: &mut [u8], at: usize) -> usize
    requires { NullableInside source.now (span_of x) }
    ensures { pen result output.new ≡ emit (written_nullable (shown source.now (span_of x))) (pen at output.old) }
{
    match x {
        None => put_varint(Varint(-1), output, at),
        Some(bytes) => put_span(source, bytes, output, at),
    }
}

fn put_header(source: &[u8], h: AskedHeader, output: &mut [u8], at: usize) -> usize
    requires { HeaderInside source.now (header_of h) }
    ensures { pen result output.new ≡ emit (written_header (shown_header source.now (header_of h))) (pen at output.old) }
{
    let key = h.key;
    let value = h.value;
    let next = put_span(source, key, output, at);
    put_span(source, value, output, next)
}

// A record's length, its attributes and its deltas.
fn put_start(
    size: usize,
    timestamp_delta: i64,
    offset_delta: i32,
    output: &mut [u8],
    at: usize,
) -> usize
    requires { size < 2 ^ 63 }
    ensures { pen result output.new ≡ emit (shortest (pos size) ++ ((0 ∷ []) ++ (shortest timestamp_delta ++ shortest offset_delta))) (pen at output.old) }
{
    let at_attributes = put_length(size, output, at);
    let at_timestamp = put_byte(0, output, at_attributes);
    let at_offset = put_varlong(Varlong(timestamp_delta), output, at_timestamp);
    put_varint(Varint(offset_delta), output, at_offset)
}

// Its key, its value and the number of its headers.
fn put_middle(
    source: &[u8],
    key: Option<Span>,
    value: Option<Span>,
    count: usize,
    output: &mut [u8],
    at: usize,
) -> usize
    requires { NullableInside source.now (span_of key) × NullableInside source.now (span_of value) × (count < 2 ^ 63) }
    ensures { pen result output.new ≡ emit (written_nullable (shown source.now (span_of key)) ++ (written_nullable (shown source.now (span_of value)) ++ shortest (pos count))) (pen at output.old) }
{
    let at_value = put_shown(source, key, output, at);
    let at_count = put_shown(source, value, output, at_value);
    put_length(count, output, at_count)
}

impl Rows<'_> {
    // The headers of a record. Gives the place after them.
    fn put_headers(
        self,
        first: usize,
        count: usize,
        output: &mut [u8],
        from: usize,
    ) -> Result<usize, WriteFault>
        requires { first + count ≤ length self.headers.now / 4 }
        ensures { view_answer (first + count) (λ at. pen at output.new) result ≡ map_step (λ hs. emit (written_headers (map (shown_header self.entry.source.now) hs)) (pen from output.old)) (times (header_asked self.entry.headers.now self.entry.source.now) count first) }
    {
        let mut at = from;
        for row in first..first + count {
            let h = header_asked(self.headers, self.source, row)?;
            at = put_header(self.source, h, output, at);
        }
        Ok(at)
    }

    // A record, after the length that is given for it. Gives the place after it.
    fn put_fields(
        self,
        size: usize,
        r: AskedRecord,
        first: usize,
        output: &mut [u8],
        at: usize,
    ) -> Result<usize, WriteFault>
        requires { (size < 2 ^ 63) × (first + r.headers ≤ length self.headers.now / 4) × NullableInside self.source.now (span_of r.key) × NullableInside self.source.now (span_of r.value) }
        ensures { view_answer (first + r.headers) (λ at. pen at output.new) result ≡ map_step (λ hs. emit (shortest (pos size) ++ written_fields (shown_record self.entry.source.now (with_headers (head_of r) hs))) (pen at output.old)) (times (header_asked self.entry.headers.now self.entry.source.now) r.headers first) }
    {
        let at_key = put_start(size, r.timestamp_delta, r.offset_delta, output, at);
        let at_headers = put_middle(self.source, r.key, r.value, r.headers, output, at_key);
        self.put_headers(first, r.headers, output, at_headers)
    }

    // The place after a record, and the header row after its own.
    fn put_record(
        self,
        row: usize,
        first: usize,
        output: &mut [u8],
        at: usize,
    ) -> Result<(usize, usize), WriteFault>
        requires { row < length self.records.now / 8 }
        ensures { view_row row (λ at. pen at output.new) result ≡ map_step (λ x. emit (capped_record self.entry.source.now x) (pen at output.old)) (record_asked (tables self.entry.records.now self.entry.headers.now) self.entry.source.now (row_place row first)) }
    {
        let r = record_asked(self.records, self.headers, self.source, row, first)?;
        let size = self.fields_size(r, first)?;
        let next = self.put_fields(size, r, first, output, at)?;
        Ok((next, first + r.headers))
    }

    // The walk that writes. It reads the rows as the walk that measures does, and is run once that has accepted them.
    fn put_records(
        self,
        first_header_row: usize,
        count: usize,
        output: &mut [u8],
        from: usize,
    ) -> Result<usize, WriteFault>
        requires { count ≤ length self.records.now / 8 }
        ensures { view_answer 0 (λ at. pen at output.new) result ≡ forget (map_step (λ rs. emit (capped_records self.entry.source.now rs) (pen from output.old)) (times (record_asked (tables self.entry.records.now self.entry.headers.now) self.entry.source.now) count (row_place 0 first_header_row))) }
    {
        let mut first = first_header_row;
        let mut at = from;
        for row in 0..count {
            (at, first) = self.put_record(row, first, output, at)?;
        }
        Ok(at)
    }
}
