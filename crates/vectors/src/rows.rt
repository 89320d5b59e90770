// Records: what the library answers, and every number of both tables afterwards.
use cases::tables::{NO_ROOM, Tables};
use cases::text::{split_at_bar, unsigned, word, words};
use reading::{RecordsError, RecordsFound, check_records, read_records};
use records::RecordFault;

// The place, how many records are read, the first header row, and how many numbers each table has.
#[derive(Drop)]
struct Question {
    at: usize,
    count: usize,
    first_header_row: usize,
    records: usize,
    headers: usize,
}

// Document 01's number, the counts of records and headers, and the end: 0 where the number names none.
#[derive(Clone, Copy, PartialEq, Eq)]
struct Answer {
    number: usize,
    records: usize,
    headers: usize,
    end: usize,
}

// records HEX COUNT FIRST R H NUMBER [RECORDS HEADERS END[|ROWS|ROWS]]
pub fn agree(s: &[u8], at: usize, line: &[u8]) -> Option<bool> {
    let (line, rows) = split_at_bar(line);
    let question = asked_by(at, line)?;
    let answer = told_by(line)?;
    answered(s, question, answer, rows)
}

fn asked_by(at: usize, line: &[u8]) -> Option<Question> {
    Some(Question {
        at,
        count: unsigned(word(line, 2))?,
        first_header_row: unsigned(word(line, 3))?,
        records: unsigned(word(line, 4))?,
        headers: unsigned(word(line, 5))?,
    })
}

fn told_by(line: &[u8]) -> Option<Answer> {
    let number = unsigned(word(line, 6))?;
    match words(line) {
        7 => Some(refusal(number)),
        10 => Some(Answer {
            number,
            records: unsigned(word(line, 7))?,
            headers: unsigned(word(line, 8))?,
            end: unsigned(word(line, 9))?,
        }),
        _ => None,
    }
}

// The tables are marked, both functions are asked, and every number of the tables is looked at. On refusals and where
// there is no room a case has no rows, so that all have to stand as they were.
fn answered(s: &[u8], q: Question, expected: Answer, rows: &[u8]) -> Option<bool> {
    let mut tables = Tables::marked();
    let check = checked(check_records(s, q.at, q.count));
    let read = read(read_records(
        s,
        q.at,
        q.count,
        q.first_header_row,
        tables.records.get_mut(..q.records)?,
        tables.headers.get_mut(..q.headers)?,
    ));
    Some(both_are(check, read, expected) && tables.hold(q.first_header_row, rows))
}

fn checked(r: Result<RecordsFound, RecordFault>) -> Answer {
    match r {
        Ok(found) => accepted(found),
        Err(f) => refused(f),
    }
}

fn read(r: Result<RecordsFound, RecordsError>) -> Answer {
    match r {
        Ok(found) => accepted(found),
        Err(RecordsError::NoRoom { records, headers }) => Answer {
            number: NO_ROOM,
            records,
            headers,
            end: 0,
        },
        Err(RecordsError::Refused(f)) => refused(f),
    }
}

fn accepted(found: RecordsFound) -> Answer {
    Answer {
        number: 0,
        records: found.records,
        headers: found.headers,
        end: found.end,
    }
}

fn refused(f: RecordFault) -> Answer {
    refusal(usize::from(f.number()))
}

fn refusal(number: usize) -> Answer {
    Answer {
        number,
        records: 0,
        headers: 0,
        end: 0,
    }
}

// The check has no table that could lack room, and a reading that lacks it names no end.
fn both_are(check: Answer, read: Answer, expected: Answer) -> bool {
    if expected.number != NO_ROOM {
        return check == expected && read == expected;
    }
    let accepted = Answer {
        number: 0,
        ..expected
    };
    let no_room = Answer { end: 0, ..expected };
    check == accepted && read == no_room
}
