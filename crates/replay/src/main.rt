// Replays stored answers of the Rust. It reads the cases that the Rust was given, answers each by the library in keyed
// mode, and prints the answers, which have to be the Rust's: compare/store makes the file stdin of cases, none of them
// a control batch that the Rust or this mode accepts, and, from the Rust alone, the file stdout. Cases stand one after
// the other, each after its length in four bytes; they have at most 65,536 bytes in all.
#![tactic(auto)]

ghost use Rattle.std.specs.Prelude.{◌<◌, length, IfSome};

mod answers;
mod text;

use answers::answer;
use cases::input::read_full;
use std::io;

// How many bytes the cases may have.
const ROOM: usize = 65536;

fn main(rt: HostRuntime) -> io::Result<()> {
    let mut input = [0u8; ROOM];
    let n = read_full(&mut rt.stdin(), &mut input)?;
    replay(&rt, &input[..n])
}

fn replay(rt: &impl Print, input: &[u8]) -> io::Result<()> {
    let mut rest = input;
    while !rest.is_empty() {
        let Some((case, others)) = split_case(rest) else {
            return println!(rt; "cut");
        };
        answer(rt, case)?;
        rest = others;
    }
    Ok(())
}

// The first case, and what stands after it; nothing where the input ends within it.
fn split_case(input: &[u8]) -> Option<(&[u8], &[u8])>
    ensures { IfSome result (λ parts. length parts.1.now < length input.now) }
{
    let (size, rest) = input.split_first_chunk()?;
    rest.split_at_checked(u32::from_be_bytes(*size) as usize)
}
