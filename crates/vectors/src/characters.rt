// Whether bytes are UTF-8: those of a case, with ASCII around them, and all strings of one byte and of two. The
// expectations of the latter are a second formulation, by the numbers of characters: RFC 3629, section 3, says by which
// bytes a number is spelled.
ghost use Rattle.std.specs.Prelude.{◌≤◌, length};

use cases::tally::Tally;

// How many ASCII bytes stand before the bytes of a case, and after them.
pub const AROUND: usize = 17;

// Each of them: the last of ASCII.
pub const ASCII: u8 = 0x7F;

// Whether the library judges the bytes in the middle of a text as expected, with 0 to 17 of the ASCII bytes that stand
// before them and 0 to 17 of those after them.
pub fn judges(text: &[u8], expected: bool) -> bool {
    2 * AROUND <= text.len() && judges_each(text, expected)
}

fn judges_each(text: &[u8], expected: bool) -> bool
    requires { 34 ≤ length text.now }
{
    let most = text.len() - AROUND;
    (0..=AROUND).all(|start| {
        (most..=text.len()).all(|end| utf8::is_utf8(&text[start..end]) == expected)
    })
}

pub fn one_byte() -> Tally {
    (0..=u8::MAX).fold(Tally::default(), |t, b| {
        t.with(utf8::is_utf8(&[b]) == (b < 128))
    })
}

pub fn two_bytes() -> Tally {
    (0..=u16::MAX).fold(Tally::default(), |t, string| {
        let [first, second] = string.to_be_bytes();
        let expected = (first < 128 && second < 128) || is_character(first, second);
        t.with(utf8::is_utf8(&[first, second]) == expected)
    })
}

// The numbers 80 to 7FF are spelled by two bytes. Whether the number that these two hold is one of them, and is spelled
// by these two.
fn is_character(first: u8, second: u8) -> bool {
    if first < 0xC0 || second < 0x80 {
        return false;
    }
    let v = u16::from(first - 0xC0) * 64 + u16::from(second - 0x80);
    (0x80..=0x7FF).contains(&v)
        && u16::from(first) == 0xC0 + v / 64
        && u16::from(second) == 0x80 + v % 64
}
