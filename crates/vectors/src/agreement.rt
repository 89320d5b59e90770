// One case: what its line expects, held to what the library answers.
use crate::characters::AROUND;
use crate::fields::Outcome;
use crate::{characters, checksums, fields, rows, totals, writer};
use cases::text::{decimal, hexadecimal, split_once, unsigned, word, words};

// The first word says what a case is about. A line that is no case agrees with nothing. Bytes are put into space.
pub fn agrees(line: &[u8], space: &mut [u8]) -> bool {
    let agreement = match word(line, 0) {
        b"put" => written(line, space),
        b"crc32c" => summed(line, space),
        b"crc32c-run" => run_summed(line, space),
        b"utf8" => judged(line, space),
        b"total" => totals::agrees(line),
        first => read(line, first, space),
    };
    agreement.unwrap_or(false)
}

// put KIND VALUE HEX
fn written(line: &[u8], space: &mut [u8]) -> Option<bool> {
    if words(line) != 4 {
        return None;
    }
    let n = decimal(word(line, 2))?;
    let expected = hexadecimal(word(line, 3), space)?;
    writer::writes(word(line, 1), n, expected)
}

// crc32c HEX SUM
fn summed(line: &[u8], space: &mut [u8]) -> Option<bool> {
    if words(line) != 3 {
        return None;
    }
    let sum = decimal(word(line, 2))?;
    let bytes = hexadecimal(word(line, 1), space)?;
    Some(checksums::sums_to(bytes, sum))
}

// crc32c-run LENGTH SEED SUM
fn run_summed(line: &[u8], space: &mut [u8]) -> Option<bool> {
    if words(line) != 4 {
        return None;
    }
    let length = unsigned(word(line, 1))?;
    let seed = unsigned(word(line, 2))?;
    let sum = decimal(word(line, 3))?;
    let bytes = space.get_mut(..length)?;
    checksums::run(seed, bytes);
    Some(checksums::sums_to(bytes, sum))
}

// utf8 HEX VERDICT
fn judged(line: &[u8], space: &mut [u8]) -> Option<bool> {
    if words(line) != 3 {
        return None;
    }
    let verdict = match word(line, 2) {
        b"1" => true,
        b"0" => false,
        _ => return None,
    };
    space.fill(characters::ASCII);
    let count = hexadecimal(word(line, 1), space.get_mut(AROUND..)?)?.len();
    let text = space.get(..count + 2 * AROUND)?;
    Some(characters::judges(text, verdict))
}

// KIND HEX .., where KIND may have @K after it
fn read(line: &[u8], first: &[u8], space: &mut [u8]) -> Option<bool> {
    let (kind, at) = match split_once(first, b'@') {
        Some((kind, place)) => (kind, unsigned(place)?),
        None => (first, 0),
    };
    let s = hexadecimal(word(line, 1), space)?;
    match kind {
        b"records" => rows::agree(s, at, line),
        b"copy" => Some(at == 0 && writer::copies(s, line)?),
        _ => Some(fields::read(kind, s, at)? == expected(line)?),
    }
}

// KIND HEX NUMBER [..]
fn expected(line: &[u8]) -> Option<Outcome> {
    let number = word(line, 2);
    match (words(line), number) {
        (3, _) => Some(Outcome::Refused(decimal(number)?)),
        (5, b"0") => Some(Outcome::Value(decimal(word(line, 3))?, decimal(word(line, 4))?)),
        (6, b"0") => Some(Outcome::Span(
            decimal(word(line, 3))?,
            decimal(word(line, 4))?,
            decimal(word(line, 5))?,
        )),
        _ => None,
    }
}
