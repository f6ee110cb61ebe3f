// What a call on a book is given, and the rows of what it hands back.
use crate::refusal::{Cause, Refusal};
use crate::table::row;
use book::{BookState, Reply};
use std::io;
use zone::State;

// What is said of a book beside its state's temperatures.
#[derive(Clone, Copy)]
pub struct Counts {
    pub entries: usize,
    pub used: usize,
    pub last_version: u64,
}

// What no call on these books hands back, so that what was given can be told from what was found.
pub const MADE_UP: Counts = Counts {
    entries: 9999,
    used: 79,
    last_version: 77,
};

// As `made_up` of house_books, of which this program would need one value and no house.
pub fn nothing() -> BookState {
    BookState {
        state: State {
            nodes: 0,
            temps: [0.0; 121],
        },
        count: MADE_UP.entries,
        used: MADE_UP.used,
        last_version: MADE_UP.last_version,
    }
}

pub fn taken_up(bytes: &[u8]) -> Reply {
    book::take_up(nothing(), bytes)
}

// Number and index of a refusal, 0 twice for none.
fn number_and_index<T>(outcome: &Result<T, Refusal>) -> (u32, usize) {
    match outcome {
        Ok(_) => (0, 0),
        Err(refusal) => (refusal.number, refusal.index),
    }
}

pub fn number_of<T>(outcome: &Result<T, Refusal>) -> u32 {
    number_and_index(outcome).0
}

pub fn print_outcome<T>(
    rt: &impl Print,
    came: &Result<T, Refusal>,
    expected: Result<(), Refusal>,
) -> io::Result<()> {
    let (number, index) = number_and_index(came);
    let (expected_number, expected_index) = number_and_index(&expected);
    row(rt, "  refusal", number, expected_number)?;
    row(rt, "  index", index, expected_index)
}

impl Counts {
    pub fn print(self, rt: &impl Print, came: BookState) -> io::Result<()> {
        row(rt, "  entries", came.count, self.entries)?;
        row(rt, "  used bytes", came.used, self.used)?;
        row(rt, "  last version", came.last_version, self.last_version)
    }
}

// What is expected of a call on a book.
#[derive(Clone, Copy)]
pub struct Expected {
    outcome: Result<(), Refusal>,
    counts: Counts,
}

impl Counts {
    pub fn accepted(self) -> Expected {
        Expected {
            outcome: Ok(()),
            counts: self,
        }
    }

    pub fn refused(self, cause: Cause, index: usize) -> Expected {
        Expected {
            outcome: Err(cause.at(index)),
            counts: self,
        }
    }
}

impl Expected {
    pub fn print(self, rt: &impl Print, came: Reply) -> io::Result<()> {
        print_outcome(rt, &came.answer.map_err(Refusal::from), self.outcome)?;
        self.counts.print(rt, came.values)
    }
}
