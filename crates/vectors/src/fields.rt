// What the library answers where it reads, in the terms of document 01.
use primitives::{Cursor, Fault, Span};

#[derive(Clone, Copy, PartialEq, Eq)]
pub enum Outcome {
    // Document 01's number.
    Refused(i128),
    // The value, and the place after it.
    Value(i128, i128),
    // The start, the length, and the place after the bytes.
    Span(i128, i128, i128),
}

// Of a kind that is none there is no answer.
pub fn read(kind: &[u8], s: &[u8], at: usize) -> Option<Outcome> {
    let c = Cursor { at };
    match kind {
        b"int8" => Some(value(c.read_int8(s), |n| i128::from(n.0))),
        b"int16" => Some(value(c.read_int16(s), |n| i128::from(n.0))),
        b"int32" => Some(value(c.read_int32(s), |n| i128::from(n.0))),
        b"int64" => Some(value(c.read_int64(s), |n| i128::from(n.0))),
        b"uint32" => Some(value(c.read_uint32(s), |n| i128::from(n.0))),
        b"uint64" => Some(value(c.read_uint64(s), |n| i128::from(n.0))),
        b"varint" => Some(varint(s, at)),
        b"varlong" => Some(varlong(s, at)),
        b"length" => Some(value(c.read_length(s, false), length)),
        b"nulllength" => Some(value(c.read_length(s, true), length)),
        b"span" => Some(span(c.read_span(s, false))),
        b"nullspan" => Some(span(c.read_span(s, true))),
        _ => None,
    }
}

pub fn varint(s: &[u8], at: usize) -> Outcome {
    value((Cursor { at }).read_varint(s), |n| i128::from(n.0))
}

pub fn varlong(s: &[u8], at: usize) -> Outcome {
    value((Cursor { at }).read_varlong(s), |n| i128::from(n.0))
}

fn value<T, F: Fn(T) -> i128>(read: Result<(T, Cursor), Fault>, number: F) -> Outcome
    requires { F.IsAlwaysCallable number }
{
    match read {
        Ok((n, next)) => Outcome::Value(number(n), place(next.at)),
        Err(f) => refused(f),
    }
}

// Null is the length -1.
fn length(n: Option<u32>) -> i128 {
    n.map_or(-1, i128::from)
}

fn span(read: Result<(Option<Span>, Cursor), Fault>) -> Outcome {
    match read {
        Ok((Some(span), next)) => {
            Outcome::Span(place(span.start), place(span.len), place(next.at))
        }
        Ok((None, next)) => Outcome::Span(0, -1, place(next.at)),
        Err(f) => refused(f),
    }
}

fn refused(f: Fault) -> Outcome {
    Outcome::Refused(i128::from(f.number()))
}

fn place(at: usize) -> i128 {
    at as i128
}
