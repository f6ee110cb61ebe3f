// Small books that pass to a newer version at each of their hours in turn, with one version byte changed, and what take-up answers
// of them.
use crate::expected::{Expected, expected_with_version, is_answered};
use crate::small_book::{Book, HOURS};
use big_endian::byte_at;
use book::BookError;
use house_books::{
    House, Plan, Tally, VERSION_BYTES, VERSION_PLACE, Version, count_one, with_bytes,
};
use zone::Refusal;

// The books, how many of the answers to changed bytes were as expected, and which answers were expected: `held` counts acceptances.
#[derive(Clone, Copy, Default)]
pub struct Changes {
    pub books: Tally,
    pub answers: Tally,
    pub unknown: u64,
    pub false_there: u64,
    pub false_next: u64,
    pub dropped: u64,
    pub held: u64,
}

impl Changes {
    fn count(&mut self, expected: Expected, entry: usize, byte: u8) {
        match expected {
            Ok(entries) if entries.count == HOURS => count_one(&mut self.held),
            Ok(_) => count_one(&mut self.dropped),
            Err(BookError::Zone(Refusal::FalseEntry(at))) if at != entry => count_one(
                &mut self.false_next,
            ),
            Err(_) if Version::try_from(byte).is_err() => count_one(&mut self.unknown),
            Err(_) => count_one(&mut self.false_there),
        }
    }

    // The version byte of an entry changed to each version that hours have and to some that none has; a byte that has the version
    // already is no change.
    fn count_entry(&mut self, book: &mut Book, entry: usize) {
        let Book { plan, .. } = *book;
        let Some(b) = book.bytes.get_mut(..plan.place_of(HOURS)) else {
            return self.answers.count(false);
        };
        let place = plan.place_of(entry).saturating_add(VERSION_PLACE);
        let own = byte_at(b, place);
        for byte in VERSION_BYTES.into_iter().filter(|byte| *byte != own) {
            let expected = expected_with_version(b, plan, entry, byte);
            let right = with_bytes(b, place, [byte], |bytes| is_answered(bytes, expected));
            self.answers.count(right);
            self.count(expected, entry, byte);
        }
    }

    // A book begun and filled, in the versions of a plan.
    fn count_book(&mut self, house: &House, plan: Plan) {
        let Some(mut book) = Book::in_versions(house, plan) else {
            return self.books.count(false);
        };
        self.books.count(book.end.used == plan.place_of(HOURS));
        for entry in 0..HOURS {
            self.count_entry(&mut book, entry);
        }
    }
}

// From 1 to 2 at an hour, from 1 to 3, and from 2 to 3, with as many hours of 1 as of 2 before it: from a change at the first hour, so
// that no hour has the older version, to one behind the last, so that all have it.
pub fn check_versions(house: &House) -> Changes {
    let mut changes = Changes::default();
    for change in 0..=HOURS {
        for (two, three) in [(change, HOURS), (change, change), (change / 2, change)] {
            let plan = Plan {
                two: Some(two),
                three: Some(three),
            };
            changes.count_book(house, plan);
        }
    }
    changes
}
