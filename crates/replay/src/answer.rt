// What a run answers, and what is recorded of it.
use engine::state::RunOutcome;
use std::fmt;

// What no run writes: fills the areas before a run, so that what is left as it was can be seen.
pub(crate) const FILL: u32 = 2779096485;

#[derive(Clone, Copy, PartialEq, Eq)]
pub(crate) struct Numbers {
    pub(crate) number: u32,
    pub(crate) place: u32,
    pub(crate) count: u32,
    pub(crate) calls: u64,
}

impl Numbers {
    // Neither area of a refused run is written.
    pub(crate) fn is_refusal(self) -> bool {
        matches!(self.number, 4..=9 | 18)
    }
}

impl From<RunOutcome> for Numbers {
    fn from(r: RunOutcome) -> Self {
        Numbers {
            number: r.outcome.number,
            place: r.outcome.place,
            count: r.outcome.count,
            calls: r.calls,
        }
    }
}

impl fmt::Display for Numbers {
    fn fmt<W: fmt::Write>(&self, f: &mut fmt::Formatter<W>) -> fmt::Result {
        write!(
            f,
            "{} {} {} calls {}",
            self.number, self.place, self.count, self.calls
        )
    }
}

// The numbers, and what both areas hold after the run.
#[derive(PartialEq, Eq, Drop)]
pub(crate) struct Answer {
    pub(crate) numbers: Numbers,
    pub(crate) tokens: Vec<u32>,
    pub(crate) report: Vec<u32>,
}

// An answer that came otherwise than it is recorded.
#[derive(Clone, Copy)]
pub(crate) struct Difference {
    pub(crate) running: u32,
    pub(crate) recorded: Numbers,
    pub(crate) came: Numbers,
}

impl fmt::Display for Difference {
    fn fmt<W: fmt::Write>(&self, f: &mut fmt::Formatter<W>) -> fmt::Result {
        write!(
            f,
            "answer {}: recorded {}, came {}",
            self.running, self.recorded, self.came
        )?;
        if self.came == self.recorded {
            write!(f, ", and an area differs")?;
        }
        Ok(())
    }
}
