// Whether bytes are UTF-8 by RFC 3629: no surrogates, no longer forms than needed, nothing above 10FFFF.
#![tactic(auto)]

ghost use Rattle.std.specs.Prelude.{◌≡◌, false, [], ◌≤◌, ◌<◌, length, get_or, drop, nat_lt, fold, max};
ghost use Rattle.std.specs.List.{list_all};
ghost use Rattle.std.specs.Range.{range_inclusive_start, range_inclusive_end, range_inclusive_exhausted};
ghost use Rattle.utf8.specs.Judgement.{tail, holds, is_utf8};
ghost use Rattle.utf8.specs.Promises.{IsUtf8Promise};
ghost use Rattle.utf8.specs.Steps.{Judged, following};

use std::ops::RangeInclusive;

// Whether `s` is a sequence of whole characters, or empty.
pub fn is_utf8(s: &[u8]) -> bool
    ensures { IsUtf8Promise s.now result }
{
    let mut rest = s;
    while let Some(&first) = rest.first() {
        if first < 0x80 {
            rest = after_two_octets(after_ascii(rest));
        } else {
            let Some(after) = after_longer(rest) else {
                return false;
            };
            rest = after;
        }
    }
    true
}

// What follows the run of ASCII that `s` begins with.
fn after_ascii(s: &[u8]) -> &[u8]
    requires { (0 < length s.now) × (get_or s.now 0 0 < 0x80) }
    ensures shorter { length result.now < length s.now }
    ensures same { is_utf8 s.now ≡ is_utf8 result.now }
{
    let rest = &s[ascii_blocks(s)..];
    let end = rest.iter().take_while(|b| **b < 0x80).count();
    &rest[end..]
}

// How many bytes there are in the blocks of 16 that `s` begins with and that are all ASCII.
fn ascii_blocks(s: &[u8]) -> usize
    ensures bound { result ≤ length s.now }
    ensures same { is_utf8 s.now ≡ is_utf8 (drop result s.now) }
{
    let (blocks, _) = s.as_chunks::<16>();
    16 * blocks.iter().take_while(|block| ascii_block(block)).count()
}

// Whether 16 bytes are ASCII. It looks at all of them whatever they are, so that the processor can do so at once.
fn ascii_block(block: &[u8; 16]) -> bool
    ensures { result ≡ nat_lt (fold max 0 block.now) 0x80 }
{
    let most = block.iter().fold(0, |most, &b| b.max(most));
    most < 0x80
}

// What follows the character that `s` begins with, by the rows of RFC 3629, section 4, and, where that has two octets,
// what follows the run of such; or None where it begins with none.
fn after_longer(s: &[u8]) -> Option<&[u8]>
    requires { (0 < length s.now) × (0x80 ≤ get_or s.now 0 0) }
    ensures { Judged [] s.now s.now result }
{
    match s[0] {
        0xC2..=0xDF => Some(after_two_octets(after_whole(s, 2, 0x80..=0xBF)?)),
        0xE0 => after_whole(s, 3, 0xA0..=0xBF),
        0xE1..=0xEC => after_whole(s, 3, 0x80..=0xBF),
        0xED => after_whole(s, 3, 0x80..=0x9F),
        0xEE..=0xEF => after_whole(s, 3, 0x80..=0xBF),
        0xF0 => after_whole(s, 4, 0x90..=0xBF),
        0xF1..=0xF3 => after_whole(s, 4, 0x80..=0xBF),
        0xF4 => after_whole(s, 4, 0x80..=0x8F),
        _ => None,
    }
}

// What follows the run of characters of two octets that `s` begins with, or `s` where it begins with none. Words in
// Greek, Cyrillic, Hebrew or Arabic are such runs, so they need not go by the rows one by one.
fn after_two_octets(s: &[u8]) -> &[u8]
    ensures shorter { length result.now ≤ length s.now }
    ensures same { is_utf8 s.now ≡ is_utf8 result.now }
{
    let mut rest = s;
    while let [0xC2..=0xDF, 0x80..=0xBF, after @ ..] = rest {
        rest = after;
    }
    rest
}

// What follows the n octets that `s` begins with, where the second is one of `seconds` and the others are tails.
fn after_whole(s: &[u8], n: usize, seconds: RangeInclusive<u8>) -> Option<&[u8]>
    requires n_bound { 2 ≤ n }
    requires fresh { range_inclusive_exhausted seconds ≡ false }
    ensures { Judged (following n (range_inclusive_start seconds) (range_inclusive_end seconds)) (drop 1 s.now) s.now result }
{
    let (octets, rest) = s.split_at_checked(n)?;
    if seconds.contains(&octets[1]) && are_tails(&octets[2..]) {
        Some(rest)
    } else {
        None
    }
}

fn are_tails(octets: &[u8]) -> bool
    ensures { result ≡ list_all (λ b. holds tail b) octets.now }
{
    octets.iter().all(|&b| is_tail(b))
}

fn is_tail(octet: u8) -> bool
    ensures { result ≡ holds tail octet }
{
    (0x80..=0xBF).contains(&octet)
}
