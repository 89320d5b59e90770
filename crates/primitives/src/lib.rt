// Reading the primitive types of the record batch: integers of fixed size, numbers of varying length, and bytes that
// follow their length. Types and names follow src/protocol/primitives.rs of rskafka 0.6.0.
#![tactic(auto)]

ghost use Rattle.std.specs.Prelude.{◌≡◌, ◌≤◌};
ghost use Rattle.primitives.specs.Reading.{byte_at, code_at, unzigzag};
ghost use Rattle.primitives.specs.Promises.{NumberPromise, ReadInt8Promise, ReadInt16Promise, ReadInt32Promise, ReadInt64Promise, ReadUint32Promise, ReadUint64Promise, ReadVarintPromise, ReadVarlongPromise, ReadLengthPromise, ReadSpanPromise};
ghost use Rattle.primitives.specs.Answers.{number_of, view_read};
ghost use Rattle.primitives.specs.Words.{window_at, Holds};

use numbers::{Int8, Int16, Int32, Int64, Uint32, Uint64, Varint, Varlong};

// A place in lent bytes, which are passed beside it. Fields are read up to the end of the bytes that are passed.
#[derive(Clone, Copy)]
pub struct Cursor {
    pub at: usize,
}

// Why a field is refused.
#[derive(Clone, Copy)]
pub enum Fault {
    PastEnd,
    BeyondLimits,
    NegativeLength,
}

// Where bytes start, counted from the first byte that is passed, and how many they are.
#[derive(Clone, Copy)]
pub struct Span {
    pub start: usize,
    pub len: usize,
}

impl Fault {
    // Document 01's number.
    pub fn number(self) -> u8
        ensures { NumberPromise self result }
    {
        match self {
            Fault::PastEnd => 8,
            Fault::BeyondLimits => 9,
            Fault::NegativeLength => 10,
        }
    }
}

impl Cursor {
    // A Varint: at most five bytes, the fifth at most 15.
    const VARINT_FULL: usize = 4;

    const VARINT_LIMIT: u64 = 16;

    // A Varlong: at most ten bytes, the tenth at most 1.
    const VARLONG_FULL: usize = 9;

    const VARLONG_LIMIT: u64 = 2;

    pub fn read_int8(self, s: &[u8]) -> Result<(Int8, Cursor), Fault>
        ensures { ReadInt8Promise s.now self.at result }
    {
        let (bytes, next) = self.take(s)?;
        Ok((Int8(i8::from_be_bytes(bytes)), next))
    }

    pub fn read_int16(self, s: &[u8]) -> Result<(Int16, Cursor), Fault>
        ensures { ReadInt16Promise s.now self.at result }
    {
        let (bytes, next) = self.take(s)?;
        Ok((Int16(i16::from_be_bytes(bytes)), next))
    }

    pub fn read_int32(self, s: &[u8]) -> Result<(Int32, Cursor), Fault>
        ensures { ReadInt32Promise s.now self.at result }
    {
        let (bytes, next) = self.take(s)?;
        Ok((Int32(i32::from_be_bytes(bytes)), next))
    }

    pub fn read_int64(self, s: &[u8]) -> Result<(Int64, Cursor), Fault>
        ensures { ReadInt64Promise s.now self.at result }
    {
        let (bytes, next) = self.take(s)?;
        Ok((Int64(i64::from_be_bytes(bytes)), next))
    }

    pub fn read_uint32(self, s: &[u8]) -> Result<(Uint32, Cursor), Fault>
        ensures { ReadUint32Promise s.now self.at result }
    {
        let (bytes, next) = self.take(s)?;
        Ok((Uint32(u32::from_be_bytes(bytes)), next))
    }

    pub fn read_uint64(self, s: &[u8]) -> Result<(Uint64, Cursor), Fault>
        ensures { ReadUint64Promise s.now self.at result }
    {
        let (bytes, next) = self.take(s)?;
        Ok((Uint64(u64::from_be_bytes(bytes)), next))
    }

    // Longer than needed is read too.
    pub fn read_varint(self, s: &[u8]) -> Result<(Varint, Cursor), Fault>
        ensures { ReadVarintPromise s.now self.at result }
    {
        let (c, next) = self.read_code(s, Cursor::VARINT_FULL, Cursor::VARINT_LIMIT)?;
        Ok((Varint(decode_zigzag_32(c as u32)), next))
    }

    // Longer than needed is read too.
    pub fn read_varlong(self, s: &[u8]) -> Result<(Varlong, Cursor), Fault>
        ensures { ReadVarlongPromise s.now self.at result }
    {
        let (c, next) = self.read_code(s, Cursor::VARLONG_FULL, Cursor::VARLONG_LIMIT)?;
        Ok((Varlong(decode_zigzag_64(c)), next))
    }

    // A Varint that counts something, or the null that -1 means where null is allowed.
    pub fn read_length(self, s: &[u8], nullable: bool) -> Result<(Option<u32>, Cursor), Fault>
        ensures { ReadLengthPromise nullable s.now self.at result }
    {
        let (n, next) = self.read_varint(s)?;
        if 0 <= n.0 {
            return Ok((Some(n.0 as u32), next));
        }
        if nullable && n.0 == -1 {
            return Ok((None, next));
        }
        Err(Fault::NegativeLength)
    }

    // Bytes that follow their length: keys and values of records and of headers.
    pub fn read_span(self, s: &[u8], nullable: bool) -> Result<(Option<Span>, Cursor), Fault>
        ensures { ReadSpanPromise nullable s.now self.at result }
    {
        let (len, next) = self.read_length(s, nullable)?;
        let Some(len) = len else {
            return Ok((None, next));
        };
        let start = next.at;
        let len = len as usize;
        if s.len() - start < len {
            return Err(Fault::PastEnd);
        }
        Ok((Some(Span { start, len }), Cursor { at: start + len }))
    }

    // The next bytes, as many as are asked for.
    fn take<const N: usize>(self, s: &[u8]) -> Result<([u8; N], Cursor), Fault>
        ensures { view_read number_of (λ bs. bs) result ≡ window_at N s.now self.at }
    {
        let Some(rest) = s.get(self.at..) else {
            return Err(Fault::PastEnd);
        };
        let Some(&bytes) = rest.first_chunk::<N>() else {
            return Err(Fault::PastEnd);
        };
        Ok((bytes, Cursor { at: self.at + N }))
    }

    fn byte(self, s: &[u8]) -> Result<(u64, Cursor), Fault>
        ensures { view_read number_of (λ b. b) result ≡ byte_at s.now self.at }
    {
        let Some(&b) = s.get(self.at) else {
            return Err(Fault::PastEnd);
        };
        Ok((u64::from(b), Cursor { at: self.at + 1 }))
    }

    // Both widths: at most `full` bytes with the top bit set, and a last one below `limit`.
    fn read_code(self, s: &[u8], full: usize, limit: u64) -> Result<(u64, Cursor), Fault>
        requires { Holds full limit }
        ensures { view_read number_of (λ c. c) result ≡ code_at full limit s.now self.at }
    {
        let mut v: u64 = 0;
        let mut p: u64 = 1;
        let mut c = self;
        for _ in 0..full {
            let (b, next) = c.byte(s)?;
            if b < 128 {
                return Ok((v + p * b, next));
            }
            v += p * (b - 128);
            p *= 128;
            c = next;
        }
        let (b, next) = c.byte(s)?;
        if b < limit {
            return Ok((v + p * b, next));
        }
        Err(Fault::BeyondLimits)
    }
}

// The mask is 0 minus the lowest bit, wrapping at the number's width.
fn decode_zigzag_32(c: u32) -> i32
    ensures { result ≡ unzigzag c }
{
    let mask = 0u32.wrapping_sub(c % 2);
    (c / 2 ^ mask).cast_signed()
}

fn decode_zigzag_64(c: u64) -> i64
    ensures { result ≡ unzigzag c }
{
    let mask = 0u64.wrapping_sub(c % 2);
    (c / 2 ^ mask).cast_signed()
}
