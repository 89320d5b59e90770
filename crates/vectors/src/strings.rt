// All strings of one byte and of two, read at both widths. The expectations are a second formulation, from numbers to
// bytes: it counts through the numbers, makes the bytes of each by document 01's sentence, and asks the reader for the
// number back. "A signed n maps to 2n if n is not negative and to -2n - 1 otherwise; then seven bits a byte, lowest
// first, the top bit set on all but the last." The other strings are those whose last byte has its top bit set: no
// whole number stands there.
use crate::fields;
use crate::fields::Outcome;
use cases::tally::Tally;
use std::mem;

// A field runs past the body: document 01's number 8.
const PAST_END: Outcome = Outcome::Refused(8);

// What was found so far, and which strings were met.
#[derive(Drop)]
struct Strings<'a> {
    tally: Tally,
    met: &'a mut [bool],
}

pub fn one_byte() -> Tally {
    let mut met = [false; 256];
    let mut strings = Strings::new(&mut met);
    strings.one_ended();
    strings.one_not_ended();
    strings.tally
}

pub fn two_bytes() -> Tally {
    let mut met = [false; 65536];
    let mut strings = Strings::new(&mut met);
    strings.ended_by_first();
    strings.ended_by_second();
    strings.not_ended();
    strings.tally
}

impl<'a> Strings<'a> {
    fn new(met: &'a mut [bool]) -> Self {
        Strings {
            tally: Tally::default(),
            met,
        }
    }

    // k and -1 - k, for k below 64, are the numbers that seven bits hold.
    fn one_ended(&mut self) {
        for k in 0..64u8 {
            self.one(2 * k, Outcome::Value(i128::from(k), 1));
            self.one(2 * (k + 1) - 1, Outcome::Value(-1 - i128::from(k), 1));
        }
    }

    fn one_not_ended(&mut self) {
        for b in 128..=u8::MAX {
            self.one(b, PAST_END);
        }
    }

    // What stands after the number does not matter.
    fn ended_by_first(&mut self) {
        for k in 0..64u8 {
            self.then_any(2 * k, Outcome::Value(i128::from(k), 1));
            self.then_any(2 * (k + 1) - 1, Outcome::Value(-1 - i128::from(k), 1));
        }
    }

    // k and -1 - k, for k below 8192, are the numbers that fourteen bits hold. Those that seven bits hold are read from
    // two bytes too: longer than needed.
    fn ended_by_second(&mut self) {
        for k in 0..8192u16 {
            self.in_two(2 * k, Outcome::Value(i128::from(k), 2));
            self.in_two(2 * (k + 1) - 1, Outcome::Value(-1 - i128::from(k), 2));
        }
    }

    fn not_ended(&mut self) {
        for first in 128..=u8::MAX {
            self.then_more(first);
        }
    }

    fn then_any(&mut self, first: u8, expected: Outcome) {
        for second in 0..=u8::MAX {
            self.two(first, second, expected);
        }
    }

    fn then_more(&mut self, first: u8) {
        for second in 128..=u8::MAX {
            self.two(first, second, PAST_END);
        }
    }

    fn in_two(&mut self, code: u16, expected: Outcome) {
        self.two((128 + code % 128) as u8, (code / 128 % 128) as u8, expected);
    }

    fn one(&mut self, b: u8, expected: Outcome) {
        let is_first = self.meets(usize::from(b));
        self.both_widths(&[b], expected, is_first);
    }

    fn two(&mut self, first: u8, second: u8, expected: Outcome) {
        let string = [first, second];
        let is_first = self.meets(usize::from(u16::from_be_bytes(string)));
        self.both_widths(&string, expected, is_first);
    }

    // Whether a string is met for the first time. One that is met again differs, so that where none differs the count
    // of cases tells that all strings were met.
    fn meets(&mut self, string: usize) -> bool {
        match self.met.get_mut(string) {
            Some(met) => !mem::replace(met, true),
            None => false,
        }
    }

    fn both_widths(&mut self, s: &[u8], expected: Outcome, is_first: bool) {
        self.tally = self
            .tally
            .with(is_first && fields::varint(s, 0) == expected)
            .with(is_first && fields::varlong(s, 0) == expected);
    }
}
