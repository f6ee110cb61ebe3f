// Counts of what was run, by kind and by number, and of what differed.
use crate::case::{Case, Operation};
use crate::comparison::{Difference, Stored};
use crate::row::Row;
use std::fmt;

// Behind a demand's five values: its reason, counted from 1, and its load.
const REASON: usize = 5;

const LOAD: usize = 6;

// In house_books too, of which this program would need one line and no house.
fn count(n: &mut u64) {
    *n = n.saturating_add(1);
}

// Lines of the summary: four profiles with six operations each.
const LINES: usize = 24;

// The cases of a line.
#[derive(Clone, Copy, Default)]
pub struct Counts {
    cases: u64,
    accepted: u64,
    equal: u64,
}

impl Counts {
    fn count(&mut self, accepted: bool, equal: bool) {
        count(&mut self.cases);
        if accepted {
            count(&mut self.accepted);
        }
        if equal {
            count(&mut self.equal);
        }
    }
}

impl fmt::Display for Counts {
    fn fmt<W: fmt::Write>(&self, f: &mut fmt::Formatter<W>) -> fmt::Result {
        let Counts {
            cases,
            accepted,
            equal,
        } = *self;
        let refused = cases.saturating_sub(accepted);
        write!(f, "{cases:>6}{accepted:>6}{refused:>6}")?;
        if cases == equal {
            write!(f, "  all equal")
        } else {
            write!(f, "{:>6} differ", cases.saturating_sub(equal))
        }
    }
}

// How many were run, how many of them differed, and which one first, counted from 1, by what.
#[derive(Default, Drop)]
pub struct Differences {
    all: u64,
    differ: u64,
    first: Option<(u64, Difference)>,
}

impl Differences {
    pub fn count(&mut self, difference: Option<Difference>) {
        count(&mut self.all);
        if let Some(difference) = difference {
            count(&mut self.differ);
            self.first.get_or_insert((self.all, difference));
        }
    }
}

impl fmt::Display for Differences {
    fn fmt<W: fmt::Write>(&self, f: &mut fmt::Formatter<W>) -> fmt::Result {
        write!(f, "{:>6}", self.all)?;
        match &self.first {
            None => write!(f, "  all equal"),
            Some((place, difference)) => write!(
                f,
                "{:>6} differ, the first is {place} at {difference}",
                self.differ
            ),
        }
    }
}

// How many of each number that arose; number 0 is acceptance, as in the data.
#[derive(Default, Drop)]
pub struct Numbers {
    counts: [u64; 25],
}

impl Numbers {
    fn count(&mut self, number: u32) {
        if let Some(n) = self.counts.get_mut(number as usize) {
            count(n);
        }
    }

    pub fn accepted(&self) -> u64 {
        self.counts[0]
    }
}

impl fmt::Display for Numbers {
    fn fmt<W: fmt::Write>(&self, f: &mut fmt::Formatter<W>) -> fmt::Result {
        for (number, n) in self.counts.iter().enumerate().skip(1) {
            if *n != 0 {
                writeln!(f, "number{number:>6}{n:>6}")?;
            }
        }
        Ok(())
    }
}

#[derive(Default, Drop)]
pub struct CaseTally {
    pub differences: Differences,
    pub numbers: Numbers,
    // By the line of the summary.
    pub counts: [Counts; LINES],
    // Of accepted demands, by reason and by load.
    pub reasons: [[u64; 3]; 6],
}

impl CaseTally {
    pub fn count(&mut self, case: &Case<'_>, difference: Option<Difference>) {
        if let Some(counts) = self.counts.get_mut(case.line.wrapping_sub(1)) {
            counts.count(case.answer.is_ok(), difference.is_none());
        }
        self.numbers.count(case.answer.err().unwrap_or(0));
        self.differences.count(difference);
        if let (Operation::Demand, Ok(stored)) = (case.operation, case.answer) {
            self.count_reason(stored);
        }
    }

    fn count_reason(&mut self, stored: Stored<'_>) {
        let reason = stored.value(REASON) as usize;
        let load = stored.value(LOAD) as usize;
        if let Some(loads) = self.reasons.get_mut(reason.wrapping_sub(1))
            && let Some(n) = loads.get_mut(load)
        {
            count(n);
        }
    }
}

#[derive(Default, Drop)]
pub struct RowTally {
    pub differences: Differences,
    pub numbers: Numbers,
    pub calls: [u64; 14],
}

impl RowTally {
    pub fn count(&mut self, row: &Row<'_>, difference: Option<Difference>) {
        if let Some(n) = self
            .calls
            .get_mut(usize::from(row.call_number).wrapping_sub(1))
        {
            count(n);
        }
        self.numbers
            .count(row.answer.err().map_or(0, |refusal| refusal.number));
        self.differences.count(difference);
    }
}
