// The text of cases: its lines, and the groups that headings make of them.
ghost use Rattle.std.specs.Prelude.{◌+◌, ◌<◌, ◌≤◌, min, length, IfOk};

use crate::input::{read_full, room};
use crate::tally::Tally;
use std::io;
use std::io::Read;

// How many bytes a text may have.
pub const ROOM: usize = 524288;

// How many bytes a case may spell.
const SPACE: usize = 4096;

#[derive(Clone, Copy)]
pub enum Line {
    Heading,
    Remark,
    Case,
}

// The cases met so far, and those of the group that is being run: none before the first heading.
#[derive(Default, Drop)]
pub struct Groups {
    pub all: Tally,
    pub group: Option<Tally>,
}

// Runs the cases of the text on an input, each by what says whether its line agrees, given space for the bytes that it
// spells, and prints a line for each group.
pub fn run<F: Fn(&[u8], &mut [u8]) -> bool>(
    rt: &impl Print,
    input: &mut impl Read,
    agrees: F,
) -> io::Result<Tally>
    requires { F.IsAlwaysCallable agrees }
    ensures { IfOk result (λ all. 0 < all.cases + all.differ) }
{
    let mut text = room::<ROOM>();
    let n = read_full(input, &mut text)?;
    let all = run_text(rt, &text[..n], agrees)?;
    Ok(whole(all, n))
}

// A last line with no line feed is no whole line, and differs.
fn run_text<F: Fn(&[u8], &mut [u8]) -> bool>(
    rt: &impl Print,
    text: &[u8],
    agrees: F,
) -> io::Result<Tally>
    requires { F.IsAlwaysCallable agrees }
{
    let mut space = [0u8; SPACE];
    let mut groups = Groups::default();
    let mut at = 0;
    while at < text.len() {
        let end = line_end(text, at);
        if end == text.len() {
            return groups.with(false).ended(rt);
        }
        let line = &text[at..end];
        groups = match Line::from(line) {
            Line::Heading => groups.headed(rt, line)?,
            Line::Remark => groups,
            Line::Case => groups.with(agrees(line, &mut space)),
        };
        at = end + 1;
    }
    groups.ended(rt)
}

// The place of the first line feed from `from` on, or the end of the text, also where `from` lies past it.
pub fn line_end(text: &[u8], from: usize) -> usize
    ensures { (min from (length text.now) ≤ result) × (result ≤ length text.now) }
{
    for i in from..text.len() {
        if text[i] == b'\n' {
            return i;
        }
    }
    text.len()
}

// The counts of a text of so many bytes. One that fills its room may have been cut, and one without cases shows
// nothing: either counts as a case that differs.
pub fn whole(t: Tally, n: usize) -> Tally
    ensures { 0 < result.cases + result.differ }
{
    let t = t.settled();
    if n < ROOM { t } else { t.with(false) }
}

impl From<&[u8]> for Line {
    fn from(line: &[u8]) -> Self {
        match line {
            [b'=', b' ', ..] => Line::Heading,
            [] | [b'#', ..] => Line::Remark,
            _ => Line::Case,
        }
    }
}

impl Groups {
    // A heading ends the group before it. Its name is printed at once, and its counts once all its cases were met.
    pub fn headed(self, rt: &impl Print, heading: &[u8]) -> io::Result<Self> {
        let all = self.ended(rt)?;
        rt.write_all(heading.get(2..).unwrap_or_default())?;
        Ok(Groups {
            all,
            group: Some(Tally::default()),
        })
    }

    // A case before the first heading belongs to no group, and differs.
    pub fn with(self, agrees: bool) -> Self {
        match self.group {
            Some(group) => Groups {
                all: self.all,
                group: Some(group.with(agrees)),
            },
            None => Groups {
                all: self.all.with(false),
                group: None,
            },
        }
    }

    // All cases up to here. A group with no case counts as one that differs.
    pub fn ended(self, rt: &impl Print) -> io::Result<Tally> {
        let Some(group) = self.group else {
            return Ok(self.all);
        };
        let group = group.settled();
        println!(rt; ": {group}")?;
        Ok(self.all + group)
    }
}
