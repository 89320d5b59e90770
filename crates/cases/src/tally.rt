// How many cases were run, and how many of them differed.
ghost use Rattle.std.specs.Prelude.{◌≡◌, ◌+◌, ◌-◌, ◌^◌, ◌<◌, min, if◌then◌else◌};

use std::ops::Add;
use std::{fmt, io};

#[derive(Clone, Copy, Default)]
pub struct Tally {
    pub cases: u64,
    pub differ: u64,
}

impl Tally {
    pub fn with(self, agrees: bool) -> Self
        ensures { 0 < result.cases }
    {
        self + Tally::from(agrees)
    }

    // A group with no case has shown nothing, and counts as one that differs.
    pub fn settled(self) -> Self
        ensures { 0 < result.cases + result.differ }
    {
        match self.cases {
            0 => Tally {
                cases: 0,
                differ: 1,
            },
            _ => self,
        }
    }

    pub fn print(self, rt: &impl Print, name: &[u8]) -> io::Result<()> {
        rt.write_all(name)?;
        println!(rt; ": {self}")
    }
}

// One case.
impl From<bool> for Tally {
    ghost from_gives = { λ agrees t. (t.cases ≡ 1) × (t.differ ≡ (if agrees then 0 else 1)) };

    fn from(agrees: bool) -> Self {
        Tally {
            cases: 1,
            differ: u64::from(!agrees),
        }
    }
}

impl Add for Tally {
    type Output = Tally;

    ghost add_gives = { λ a b sum. (sum.cases ≡ min (a.cases + b.cases) (2 ^ 64 - 1)) × (sum.differ ≡ min (a.differ + b.differ) (2 ^ 64 - 1)) };

    fn add(self, other: Tally) -> Tally {
        Tally {
            cases: self.cases.saturating_add(other.cases),
            differ: self.differ.saturating_add(other.differ),
        }
    }
}

impl fmt::Display for Tally {
    fn fmt<W: fmt::Write>(&self, f: &mut fmt::Formatter<W>) -> fmt::Result {
        let Tally { cases, differ } = *self;
        write!(f, "{cases} cases, {differ} differ")
    }
}
