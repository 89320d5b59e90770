// The size of a batch, by its batchLength.
use batches::RecordBatch;
use cases::text::{decimal, word, words};

// total LENGTH TOTAL
pub fn agrees(line: &[u8]) -> Option<bool> {
    if words(line) != 3 {
        return None;
    }
    let length = i32::try_from(decimal(word(line, 1))?).ok()?;
    let total = decimal(word(line, 2))?;
    Some(i128::from(RecordBatch::total_size(length)) == total)
}
