// What the program prints: how many cases had each outcome, and why it reads no further.
use crate::outcomes::Outcome;
use std::{fmt, io};
use stored_reader::packed::{Case, Kind};

// How many cases had each outcome.
#[derive(Clone, Copy, Default)]
struct Tally {
    equal: u64,
    different: u64,
    too_large: u64,
}

impl Tally {
    fn count(&mut self, outcome: Outcome) {
        let counted = match outcome {
            Outcome::Equal => &mut self.equal,
            Outcome::Different => &mut self.different,
            Outcome::TooLarge => &mut self.too_large,
        };
        *counted = counted.wrapping_add(1);
    }

    fn total(&self) -> u64 {
        self.equal
            .wrapping_add(self.different)
            .wrapping_add(self.too_large)
    }
}

impl fmt::Display for Tally {
    fn fmt<W: fmt::Write>(&self, f: &mut fmt::Formatter<W>) -> fmt::Result {
        write!(
            f,
            "equal {}, different {}, too large {}",
            self.equal, self.different, self.too_large
        )
    }
}

// All cases, the gathers and the scatters among them, and those of each number of an answer.
#[derive(Clone, Copy, Default)]
pub struct Counts {
    all: Tally,
    gathers: Tally,
    scatters: Tally,
    numbers: [Tally; 11],
}

impl Counts {
    pub fn count(&mut self, case: &Case, outcome: Outcome) {
        self.all.count(outcome);
        match case.kind {
            Kind::Gather => self.gathers.count(outcome),
            Kind::Scatter => self.scatters.count(outcome),
        }
        if let Some(tally) = self.numbers.get_mut(case.answered().number as usize) {
            tally.count(outcome);
        }
    }
}

impl fmt::Display for Counts {
    fn fmt<W: fmt::Write>(&self, f: &mut fmt::Formatter<W>) -> fmt::Result {
        writeln!(f, "stored cases: {}", self.all.total())?;
        writeln!(f, "equal: {}", self.all.equal)?;
        writeln!(f, "different: {}", self.all.different)?;
        writeln!(f, "too large: {}", self.all.too_large)?;
        writeln!(f, "gathers: {}", self.gathers)?;
        writeln!(f, "scatters: {}", self.scatters)?;
        for (number, tally) in self.numbers.iter().enumerate() {
            writeln!(f, "answer {number}: {tally}")?;
        }
        Ok(())
    }
}

// Why the cases are not replayed to their end. A number is that of a case; of `MoreStored`, how many the header says.
#[derive(Debug, Drop)]
pub enum Stopped {
    Io(io::Error),
    EndsBefore(u64),
    EndsInside(u64),
    TooLong(u64),
    Unlisted(u64),
    MoreStored(u64),
}

impl From<io::Error> for Stopped {
    fn from(error: io::Error) -> Stopped {
        Stopped::Io(error)
    }
}

impl fmt::Display for Stopped {
    fn fmt<W: fmt::Write>(&self, f: &mut fmt::Formatter<W>) -> fmt::Result {
        match self {
            Stopped::Io(error) => write!(f, "{error}"),
            Stopped::EndsBefore(case) => write!(f, "the file ends before case {case}"),
            Stopped::EndsInside(case) => write!(f, "the file ends inside case {case}"),
            Stopped::TooLong(case) => {
                write!(f, "longer than the buffer of 512 words: case {case}")
            }
            Stopped::Unlisted(case) => write!(f, "a field has no listed value: case {case}"),
            Stopped::MoreStored(count) => {
                write!(f, "more is stored than the cases of the header: {count}")
            }
        }
    }
}
