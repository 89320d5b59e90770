// The checksum of bytes, taken whole and in parts.
// Whether the checksum is the one expected, of all bytes at once and of two parts, whatever the cut.
pub fn sums_to(s: &[u8], expected: i128) -> bool {
    let sum = crc32c::crc32c(s);
    i128::from(sum) == expected
        && (0..=s.len()).all(|k| crc32c::update(crc32c::update(0, &s[..k]), &s[k..]) == sum)
}

// Fills out with bytes that follow from a seed: x, at first the seed, becomes (25173 x + 13849) modulo 65536 for each
// byte, which is x / 256.
pub fn run(seed: usize, out: &mut [u8]) {
    let mut x = (seed % 65536) as u16;
    for byte in out {
        x = x.wrapping_mul(25173).wrapping_add(13849);
        *byte = (x / 256) as u8;
    }
}
