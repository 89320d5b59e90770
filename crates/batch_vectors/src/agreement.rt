// One case: what its line expects, held to what the library answers.
use crate::{batch, exact, large, times, writer};
use cases::text::{hexadecimal, word, words_from};
use layout::ControlMode;

// A case whose first word is a mode holds in that mode, and every other in both. A line that is no case agrees with
// nothing. Bytes are put into space.
pub fn agrees(line: &[u8], space: &mut [u8]) -> bool {
    match word(line, 0) {
        b"bare" => agrees_in(ControlMode::Bare, words_from(line, 1), space),
        b"keyed" => agrees_in(ControlMode::Keyed, words_from(line, 1), space),
        _ => {
            agrees_in(ControlMode::Bare, line, space) && agrees_in(ControlMode::Keyed, line, space)
        }
    }
}

fn agrees_in(mode: ControlMode, line: &[u8], space: &mut [u8]) -> bool {
    agreement(mode, line, space).unwrap_or(false)
}

// The first word says what a case is about.
fn agreement(mode: ControlMode, line: &[u8], space: &mut [u8]) -> Option<bool> {
    match word(line, 0) {
        b"time" => times::agrees(line),
        b"large" => large::agrees(mode, line),
        kind => answered(mode, kind, hexadecimal(word(line, 1), space)?, line),
    }
}

fn answered(mode: ControlMode, kind: &[u8], s: &[u8], line: &[u8]) -> Option<bool> {
    match kind {
        b"batch" => batch::agrees(mode, s, line),
        b"cuts" => batch::agrees_cut(mode, s, line),
        b"write" => writer::batch_agrees(mode, s, line),
        b"write-records" => writer::records_agree(s, line),
        b"canonical" => exact::agrees(mode, s, line),
        _ => None,
    }
}
