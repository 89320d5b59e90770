// CRC-32C (Castagnoli), the checksum of RFC 3720.
#![tactic(auto)]

mod folding;
mod table;

ghost use Rattle.crc32c.specs.Promises.{Crc32cPromise, UpdatePromise};

const ONES: u32 = 0xFFFF_FFFF;

// From this length on it pays to fold.
const LONG: usize = 300;

// The checksum of all of `s`.
pub fn crc32c(s: &[u8]) -> u32
    ensures { Crc32cPromise s.now result }
{
    update(0, s)
}

// The checksum of bytes that come in parts: `state` is that of the parts before `s`, and 0 where `s` is the first.
pub fn update(state: u32, s: &[u8]) -> u32
    ensures { UpdatePromise state s.now result }
{
    let register = state ^ ONES;
    if s.len() < LONG {
        return table::divide(register, s) ^ ONES;
    }
    let rest = folding::fold(register, s);
    table::divide(0, &rest) ^ ONES
}
