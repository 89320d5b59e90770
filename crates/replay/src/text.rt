// Words of the lines that are printed.
ghost use Rattle.std.specs.Prelude.{◌≤◌, length, IfSome};

use std::io;

pub fn print(rt: &impl Print, text: &[u8]) -> io::Result<()> {
    rt.write_all(text)
}

// A space and the bytes of the source that two numbers of a row stand for, or null.
pub fn print_bytes(rt: &impl Print, source: &[u8], start: i64, len: i64) -> io::Result<()> {
    print!(rt; " ")?;
    if len < 0 {
        return print!(rt; "null");
    }
    print_hexadecimal(rt, part(source, start, len).unwrap_or_default())
}

pub fn print_hexadecimal(rt: &impl Print, bytes: &[u8]) -> io::Result<()> {
    print!(rt; "x")?;
    for byte in bytes {
        print!(rt; "{byte:02x}")?;
    }
    Ok(())
}

// The part of bytes or rows that two numbers of a row stand for. Where they stand for none, nothing of it is printed,
// which then differs from what is expected.
pub fn part<T>(all: &[T], start: i64, len: i64) -> Option<&[T]>
    ensures { IfSome result (λ part. length part.now ≤ length all.now) }
{
    let start = usize::try_from(start).ok()?;
    let len = usize::try_from(len).ok()?;
    all.get(start..)?.get(..len)
}
