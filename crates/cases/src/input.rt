// What a program reads into room of a fixed size.
ghost use Rattle.std.specs.Prelude.{◌≡◌, length};
ghost use Rattle.std.specs.Io.{ReadsAtMost};

use std::io;
use std::io::Read;

// Room for a text. The length alone is promised, so that no caller looks at half a million zeros.
pub fn room<const N: usize>() -> [u8; N]
    ensures { N ≡ length result }
{
    [0; N]
}

// Reads until the room is full or the input ends, and returns how many bytes it put at the start of the room. A read
// that fails is not the end, and one read more need not find it: a connection that was reset says so once. After the
// end nothing is read, so that no byte of a file that grows is taken and then dropped, and no terminal is waited for
// again. Into no room nothing is read.
pub fn read_full(input: &mut impl Read, room: &mut [u8]) -> io::Result<usize>
    ensures { ReadsAtMost result room.new }
{
    let mut n = 0;
    while n < room.len() {
        let more = input.read(&mut room[n..])?;
        if more == 0 {
            break;
        }
        n += more;
    }
    Ok(n)
}
