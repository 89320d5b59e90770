// Lists the batches of one file, which is read from standard input.
#![tactic(auto)]

ghost use Rattle.std.specs.Counts.{IsPrefixLen};

use cases::input::{read_full, room};
use listing::{Entry, Line, list_at, list_first};
use std::io;

// One byte more than the longest file that is listed, so that a longer one shows.
const SPACE: usize = 65537;

fn main(rt: HostRuntime) -> io::Result<()> {
    let mut records = [0; 8192];
    let mut headers = [0; 8192];
    let mut file = room::<SPACE>();
    let Ok(n) = read_full(&mut rt.stdin(), &mut file) else {
        // The status stays 0: this line alone tells.
        return rt.eprintln("list: standard input cannot be read");
    };
    list(&rt, &file[..n], &mut records, &mut headers)
}

// Prints the lines of a file. The tables are the rows that a batch may have.
fn list(rt: &impl Print, bytes: &[u8], records: &mut [i64], headers: &mut [i64]) -> io::Result<()> {
    let Entry { line, mut next } = list_first(bytes);
    print(rt, line)?;
    while let Some(place) = next {
        let entry = list_at(bytes, place, records, headers);
        print(rt, entry.line)?;
        next = entry.next;
    }
    Ok(())
}

fn print(rt: &impl Print, line: Line) -> io::Result<()>
    requires { IsPrefixLen line.len line.bytes }
{
    let n = line.len;
    let bytes = line.bytes;
    rt.write_all(&bytes[..n])
}
