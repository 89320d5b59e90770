// Outputs: blotted before a call, and looked at afterwards, byte by byte.
use std::array;

// What an output has before it is written to begins anew after so many bytes.
const PERIOD: usize = 251;

// What an output has before it is written to. A case makes it once, for all rooms that it tries: to work out a byte of
// it takes longer than to compare it.
pub fn blotted<const N: usize>() -> [u8; N] {
    array::from_fn(|at| 255 - (at % PERIOD) as u8)
}

// Puts it into an output of whatever size.
pub fn blot(output: &mut [u8]) {
    let before: [u8; PERIOD] = blotted();
    for (byte, &old) in output.iter_mut().zip(before.iter().cycle()) {
        *byte = old;
    }
}

// Whether an output has the bytes from a place on, and else what it had before.
pub fn is_left_as(output: &[u8], before: &[u8], start: usize, bytes: &[u8]) -> bool {
    if bytes.is_empty() {
        return output == before;
    }
    let Some((front, rest)) = output.split_at_checked(start) else {
        return false;
    };
    let Some((written, rest)) = rest.split_at_checked(bytes.len()) else {
        return false;
    };
    written == bytes
        && output.len() == before.len()
        && before.starts_with(front)
        && before.ends_with(rest)
}

// The same of an output that was blotted, of whatever size: it is looked at in parts that are blotted alike.
pub fn is_left(output: &[u8], start: usize, bytes: &[u8]) -> bool {
    let before: [u8; PERIOD] = blotted();
    let fits = bytes.is_empty()
        || output
            .get(start..)
            .is_some_and(|rest| bytes.len() <= rest.len());
    fits && output.chunks(PERIOD).enumerate().all(|(n, part)| {
        let at = n.saturating_mul(PERIOD);
        let from = start.saturating_sub(at).min(part.len());
        let rest = &bytes[at.saturating_sub(start).min(bytes.len())..];
        let here = &rest[..rest.len().min(part.len() - from)];
        is_left_as(part, &before[..part.len()], from, here)
    })
}

#[cfg(test)]
mod tests {
    use super::*;
    use std::test::Fail;

    fn told(so: bool, what: &str) -> Result<(), Fail> {
        match so {
            true => Ok(()),
            false => Err(Fail::new(what)),
        }
    }

    #[test]
    fn blots_an_output_of_whatever_size() -> Result<(), Fail> {
        let mut output = [0; 300];
        blot(&mut output);
        let ends = [output[0], output[250], output[251], output[299]];
        told(ends == [255, 5, 255, 207], "from 255 down to 5, and anew")?;
        told(output == blotted(), "as blotted says")
    }

    // The three bytes stand on both sides of the place where what was before begins anew.
    #[test]
    fn finds_the_bytes_and_what_was_before() -> Result<(), Fail> {
        let mut output: [u8; 300] = blotted();
        let nowhere = (0..303).all(|start| !is_left(&output, start, b"pin"));
        told(nowhere, "nothing is written")?;
        told(is_left(&output, 303, b""), "nothing is asked for")?;
        told(is_left(&output, 298, &[208, 207]), "as it was")?;
        told(!is_left(&output, 298, &[208, 207, 206]), "one is cut off")?;
        output[249] = b'p';
        output[250] = b'i';
        output[251] = b'n';
        let there = (0..303).all(|start| is_left(&output, start, b"pin") == (start == 249));
        told(there, "three bytes are written")?;
        told(!is_left(&output, usize::MAX, b"pin"), "past every place")?;
        told(!is_left(&output, 249, b"pi"), "one more is written")?;
        told(!is_left(&output, 249, b"pint"), "one less is written")
    }

    fn written<const N: usize>() -> [u8; N] {
        array::from_fn(|at| (at % 241) as u8)
    }

    // Bytes that begin in the first part that is blotted alike and end in the third.
    #[test]
    fn finds_bytes_of_more_than_a_part() -> Result<(), Fail> {
        let bytes: [u8; 303] = written();
        let mut output: [u8; 600] = array::from_fn(|at| match at {
            200..=502 => ((at - 200) % 241) as u8,
            _ => 255 - (at % 251) as u8,
        });
        told(is_left(&output, 200, &bytes), "303 are written")?;
        told(!is_left(&output, 200, &written::<302>()), "one more")?;
        told(!is_left(&output, 200, &written::<304>()), "one less")?;
        told(!is_left(&output, 199, &bytes), "not from there")?;
        output[400] = 8;
        told(!is_left(&output, 200, &bytes), "one is another")
    }

    #[test]
    fn looks_at_the_first_byte_and_the_last() -> Result<(), Fail> {
        let mut first: [u8; 300] = blotted();
        first[0] = 254;
        told(!is_left(&first, 7, &[248]), "the first is another")?;
        told(is_left(&first, 0, &[254]), "the first is written")?;
        let mut last: [u8; 300] = blotted();
        last[299] = 206;
        told(!is_left(&last, 7, &[248]), "the last is another")?;
        told(is_left(&last, 299, &[206]), "the last is written")?;
        told(is_left(b"", 0, b""), "there is no byte")?;
        told(!is_left(b"", 0, b"p"), "there is no room")
    }

    #[test]
    fn says_the_same_where_what_was_before_is_at_hand() -> Result<(), Fail> {
        let before: [u8; 7] = blotted();
        let output = [255, 254, b'p', b'i', b'n', 250, 249];
        let same = |bytes: &[u8]| {
            (0..9).all(|start| {
                is_left(&output, start, bytes) == is_left_as(&output, &before, start, bytes)
            })
        };
        let parts = (0..8).all(|end| (0..8).all(|from| output.get(from..end).is_none_or(same)));
        told(parts, "is_left and is_left_as")
    }
}
