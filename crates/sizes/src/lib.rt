// How many bytes things take when they are written: a number, bytes after their length, a key or a value. Sizes of
// bytes stop at a limit that no record reaches, so that sums of them stay small.
#![tactic(auto)]

ghost use Rattle.sizes.specs.Promises.{NumberSizePromise, SpanSizePromise, PlaceSizePromise, CappedPromise};

use numbers::Varlong;

// A size from here on is held by no Varint.
const CAP: usize = 2147483648;

// A number: its shortest bytes are the same of a Varint and of a Varlong.
pub fn number_size(n: i64) -> usize
    ensures { NumberSizePromise n result }
{
    Varlong(n).encode().len
}

// As many bytes after their length. Most are so few that their length is one byte.
pub fn span_size(len: usize) -> usize
    ensures { SpanSizePromise len result }
{
    if len < 64 {
        return 1 + len;
    }
    let len = capped(len);
    capped(number_size(len as i64) + len)
}

// A key or a value, by the length that its row has: null is a negative length, and has no bytes after it.
pub fn place_size(len: i64) -> usize
    ensures { PlaceSizePromise len result }
{
    match usize::try_from(len) {
        Ok(len) => span_size(len),
        Err(_) => number_size(len),
    }
}

pub fn capped(n: usize) -> usize
    ensures { CappedPromise n result }
{
    n.min(CAP)
}
