// Whether the library writes a number as the bytes that are expected, and puts bytes where they belong.
use cases::outputs::{blotted, is_left_as};
use cases::text::{unsigned, word};
use numbers::{Encoded, Int8, Int16, Int32, Int64, Uint32, Uint64, Varint, Varlong, put};

// How much room an output may have.
const MOST_ROOM: usize = 40;

pub fn writes(kind: &[u8], n: i128, expected: &[u8]) -> Option<bool> {
    Some(match kind {
        b"int8" => Int8(i8::try_from(n).ok()?).to_be_bytes().as_slice() == expected,
        b"int16" => Int16(i16::try_from(n).ok()?).to_be_bytes().as_slice() == expected,
        b"int32" => Int32(i32::try_from(n).ok()?).to_be_bytes().as_slice() == expected,
        b"int64" => Int64(i64::try_from(n).ok()?).to_be_bytes().as_slice() == expected,
        b"uint32" => Uint32(u32::try_from(n).ok()?).to_be_bytes().as_slice() == expected,
        b"uint64" => Uint64(u64::try_from(n).ok()?).to_be_bytes().as_slice() == expected,
        b"varint" => in_use(Varint(i32::try_from(n).ok()?).encode(), expected),
        b"varlong" => in_use(Varlong(i64::try_from(n).ok()?).encode(), expected),
        _ => return None,
    })
}

// copy HEX ROOM AT COUNT END
pub fn copies(bytes: &[u8], line: &[u8]) -> Option<bool> {
    let room = unsigned(word(line, 2))?;
    let at = unsigned(word(line, 3))?;
    let count = unsigned(word(line, 4))?;
    let end = unsigned(word(line, 5))?;
    let before: [u8; MOST_ROOM] = blotted();
    let mut output = before;
    let after = put(bytes, output.get_mut(..room)?, at);
    Some(after == end && is_left_as(&output, &before, at, bytes.get(..count)?))
}

// Whether the bytes in use are those expected, and the others 0.
fn in_use(e: Encoded, expected: &[u8]) -> bool {
    let bytes = e.bytes;
    let rest = bytes.strip_prefix(expected);
    e.len == expected.len() && rest.is_some_and(|rest| rest.iter().all(|&b| b == 0))
}
