// The conversion: what is answered, and every byte of the output afterwards.
use cases::outputs::{blotted, is_left_as};
use cases::text::{hexadecimal, unsigned, word, words};
use converting::{Conversion, ConvertError, convert};

// Numbers that name more than a fault, or none of a batch.
const DONE: usize = 0;

const MORE_BYTES: usize = 1;

const SHORT_OUTPUT: usize = 24;

// How many words a case has.
const WORDS: usize = 7;

// How many bytes an output may have.
const LONGEST: usize = 512;

// The number that is expected, the bytes taken, or needed, and the bytes given. What is not named is 0.
#[derive(Clone, Copy, PartialEq, Eq)]
struct Answer {
    number: usize,
    taken: usize,
    given: usize,
}

// convert HEX ROOM NUMBER TAKEN GIVEN BYTES
pub fn agrees(s: &[u8], line: &[u8]) -> Option<bool> {
    if words(line) != WORDS {
        return None;
    }
    let room = unsigned(word(line, 2))?;
    let expected = Answer {
        number: unsigned(word(line, 3))?,
        taken: unsigned(word(line, 4))?,
        given: unsigned(word(line, 5))?,
    };
    let mut bytes = [0u8; LONGEST];
    converts(s, room, expected, hexadecimal(word(line, 6), &mut bytes)?)
}

// Whether the output holds just the bytes that are expected, and else is as it was, beyond its room too.
fn converts(s: &[u8], room: usize, expected: Answer, bytes: &[u8]) -> Option<bool> {
    let before: [u8; LONGEST] = blotted();
    let mut output = before;
    let converted = convert(s, output.get_mut(..room)?);
    Some(is_answer(converted, expected) && is_left_as(&output, &before, 0, bytes))
}

fn is_answer(c: Result<Conversion, ConvertError>, expected: Answer) -> bool {
    match c {
        Ok(conversion) => is_named(expected, DONE, conversion.taken, conversion.given),
        Err(ConvertError::MoreBytes(n)) => is_named(expected, MORE_BYTES, n, 0),
        Err(ConvertError::Refused(f)) => is_named(expected, usize::from(f.number()), 0, 0),
        Err(ConvertError::ShortOutput) => is_named(expected, SHORT_OUTPUT, 0, 0),
    }
}

fn is_named(expected: Answer, number: usize, taken: usize, given: usize) -> bool {
    let answer = Answer {
        number,
        taken,
        given,
    };
    expected == answer
}
