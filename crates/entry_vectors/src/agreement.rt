// One case: what its line expects, held to what the library answers.
use crate::conversion;
use cases::text::{hexadecimal, word};

// The first word says what a case is about. A line that is no case agrees with nothing. Bytes are put into space.
pub fn agrees(line: &[u8], space: &mut [u8]) -> bool {
    let agreement = match word(line, 0) {
        b"convert" => converted(line, space),
        _ => None,
    };
    agreement.unwrap_or(false)
}

fn converted(line: &[u8], space: &mut [u8]) -> Option<bool> {
    let bytes = hexadecimal(word(line, 1), space)?;
    conversion::agrees(bytes, line)
}
