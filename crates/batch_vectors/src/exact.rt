// The canonical check of bytes, and of every start of them.
use batches::RecordBatch;
use cases::text::{unsigned, word};
use layout::ControlMode;

// canonical HEX K: the first K bytes are canonical, and no other start is. K is 0 where none is.
pub fn agrees(mode: ControlMode, s: &[u8], line: &[u8]) -> Option<bool> {
    let whole = unsigned(word(line, 2))?;
    let is_told = |k| RecordBatch::is_canonical(mode, &s[..k]) == (0 < k && k == whole);
    Some(whole <= s.len() && (0..=s.len()).all(is_told))
}
