// The text of cases: words of a line, and the numbers and bytes that words spell.
ghost use Rattle.std.specs.Prelude.{◌≡◌, ◌+◌, ◌≤◌, ◌++◌, ◌∷◌, length, IfSome};

// What stands before the first byte that equals `b`, and what stands after it; nothing where none does.
pub fn split_once(s: &[u8], b: u8) -> Option<(&[u8], &[u8])>
    ensures { IfSome result (λ parts. s.now ≡ parts.0.now ++ b ∷ parts.1.now) }
{
    let n = s.iter().position(|&x| x == b)?;
    Some((&s[..n], &s[n + 1..]))
}

// The same at the first bar. Where there is none all stands before it.
pub fn split_at_bar(s: &[u8]) -> (&[u8], &[u8])
    ensures { length result.0.now + length result.1.now ≤ length s.now }
{
    split_once(s, b'|').unwrap_or((s, &[]))
}

// Words are separated by single spaces: an empty line has one word, which is empty.
pub fn words(line: &[u8]) -> usize {
    line.split(|&b| b == b' ').count()
}

// The word that has k words before it. It is empty where the line has no such word.
pub fn word(line: &[u8], k: usize) -> &[u8] {
    line.split(|&b| b == b' ').nth(k).unwrap_or_default()
}

// The same with all that stands after it.
pub fn words_from(line: &[u8], k: usize) -> &[u8] {
    line.splitn(k.saturating_add(1), |&b| b == b' ')
        .nth(k)
        .unwrap_or_default()
}

// The number that a word spells: digits, with a minus in front where it is negative. One that 64 bits do not hold is
// refused.
pub fn decimal(word: &[u8]) -> Option<i128> {
    let Some(digits) = word.strip_prefix(b"-") else {
        return natural(word).map(i128::from);
    };
    match natural(digits)? {
        0 => None,
        n => Some(-i128::from(n)),
    }
}

// The same of digits alone.
pub fn unsigned(word: &[u8]) -> Option<usize> {
    natural(word).map(|n| n as usize)
}

// Puts the bytes that a word spells at the start of `out`, and returns them: two capital digits a byte, or a lone minus
// for no bytes.
pub fn hexadecimal<'a>(word: &[u8], out: &'a mut [u8]) -> Option<&'a [u8]> {
    let size = match word {
        b"-" => 0,
        [] => return None,
        _ if word.len() % 2 != 0 => return None,
        _ => word.len() / 2,
    };
    let bytes = out.get_mut(..size)?;
    for (byte, digits) in bytes.iter_mut().zip(word.chunks_exact(2)) {
        *byte = digit(digits[0])? * 16 + digit(digits[1])?;
    }
    Some(bytes)
}

fn natural(word: &[u8]) -> Option<u64> {
    if word.is_empty() {
        return None;
    }
    word.iter().try_fold(0u64, |n, &b| {
        let digit = (b as char).to_digit(10)?;
        n.checked_mul(10)?.checked_add(u64::from(digit))
    })
}

// The value of a digit.
fn digit(b: u8) -> Option<u8>
    ensures { IfSome result (λ d. d ≤ 15) }
{
    match b {
        b'0'..=b'9' => Some(b - b'0'),
        b'A'..=b'F' => Some(b - b'A' + 10),
        _ => None,
    }
}
