// A small book: 40 hours that pass from version 1 to version 2 and from version 2 to version 3.
use book::{BookState, Reply};
use house_books::{
    CUT_OFF, ENTRY, HEAD, House, LIMITS, LONG_ENTRY, Mark, Plan, begin_and_append, made_up,
    same_book_states, taken_up,
};
use std::fmt;
use zone::Limits;

// Its hours, and the first of version 2 and of version 3.
pub const HOURS: usize = 40;

pub const TWO: usize = 14;

pub const THREE: usize = 27;

pub const PLAN: Plan = Plan {
    two: Some(TWO),
    three: Some(THREE),
};

// Its bytes, and room for as many hours that all have version 3.
pub const USED: usize = HEAD + ENTRY * HOURS + LIMITS * (HOURS - THREE);

pub const ROOM: usize = HEAD + LONG_ENTRY * HOURS;

// The hours of the small book in the versions of a plan, and what the last append handed back.
#[derive(Clone, Copy)]
pub struct Book<'a> {
    pub house: &'a House,
    pub plan: Plan,
    pub bytes: [u8; ROOM],
    pub end: BookState,
}

impl<'a> Book<'a> {
    // None where an hour is refused.
    pub fn in_versions(house: &'a House, plan: Plan) -> Option<Book<'a>> {
        let mut bytes = [CUT_OFF; ROOM];
        let end = begin_and_append(house, HOURS, plan, &mut bytes)?;
        Some(Book {
            house,
            plan,
            bytes,
            end,
        })
    }

    // The head and so many of its hours.
    pub fn hours(&self, count: usize) -> Option<&[u8]> {
        self.bytes.get(..self.plan.place_of(count))
    }

    // Their values, taken up.
    pub fn taken(&self, count: usize) -> BookState {
        self.hours(count).and_then(taken_up).unwrap_or(made_up())
    }

    // A copy to which an hour is appended behind the given ones, and what that answered. The version may be one that no hour has.
    pub fn appended(&self, given: BookState, version: u64, limits: Limits) -> (Reply, [u8; ROOM]) {
        let mut b = self.bytes;
        let reply = self.house.append_with(given, version, limits, &mut b);
        (reply, b)
    }

    // Taken up it is the book that the last append handed back.
    fn is_whole(&self) -> bool {
        let counted = self.end.count == HOURS && self.end.used == self.plan.place_of(HOURS);
        let taken = self.bytes.get(..self.end.used).and_then(taken_up);
        counted && taken.is_some_and(|values| same_book_states(&values, &self.end))
    }
}

impl fmt::Display for Book<'_> {
    fn fmt<W: fmt::Write>(&self, f: &mut fmt::Formatter<W>) -> fmt::Result {
        write!(f, "{} bytes: {}", self.end.used, Mark(self.is_whole()))
    }
}
