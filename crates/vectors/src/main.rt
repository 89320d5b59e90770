// Runs the libraries `numbers`, `primitives`, `crc32c`, `utf8`, `records` and `reading`, and of `batches` the size of a
// batch, on cases whose expectations come from elsewhere: those of the text on standard input, and all strings of one
// byte and of two. It prints a line for each group of cases.
#![tactic(auto)]

mod agreement;
mod characters;
mod checksums;
mod fields;
mod rows;
mod strings;
mod totals;
mod writer;

use agreement::agrees;
use cases::groups::run;
use cases::tally::Tally;
use std::io;

fn main(rt: HostRuntime) -> io::Result<()> {
    let read = run(&rt, &mut rt.stdin(), agrees)?;
    let one = shown(&rt, strings::one_byte(), b"one byte, both widths")?;
    let two = shown(&rt, strings::two_bytes(), b"two bytes, both widths")?;
    let numbers = one + two;
    let one = shown(&rt, characters::one_byte(), b"one byte, UTF-8")?;
    let two = shown(&rt, characters::two_bytes(), b"two bytes, UTF-8")?;
    (read + numbers + one + two).print(&rt, b"all")
}

fn shown(rt: &impl Print, t: Tally, name: &[u8]) -> io::Result<Tally> {
    let t = t.settled();
    t.print(rt, name)?;
    Ok(t)
}
