// A small book with one byte changed, and what take-up answers of it.
use crate::expected::{Expected, expected_at, is_answered};
use crate::small_book::{Book, PLAN, USED};
use big_endian::byte_at;
use book::BookError;
use house_books::{HEAD, LIMITS, LIMITS_PLACE, Tally, Version, count_one, with_bytes};
use std::ops::Range;
use zone::Refusal;

// One bit, all bits or the highest, by the place.
pub const CHANGES: [u8; 5] = [1, 255, 16, 128, 2];

// How many of the answers to changed bytes were as expected, and which answers were expected: `held` counts acceptances.
#[derive(Clone, Copy, Default)]
pub struct Damages {
    pub answers: Tally,
    pub refused_head: u64,
    pub other_head: u64,
    pub false_limit: u64,
    pub false_entry: u64,
    pub held_limit: u64,
    pub held: u64,
}

// Where a byte of a book stands.
#[derive(Clone, Copy)]
enum Part {
    Head,
    Limits,
    RestOfEntry,
}

impl Part {
    fn at(place: usize) -> Part {
        let entry = PLAN.whole_before(place);
        let within = place.saturating_sub(PLAN.place_of(entry));
        let limits = LIMITS_PLACE..LIMITS_PLACE + LIMITS;
        if place < HEAD {
            Part::Head
        } else if PLAN.version_at(entry) == Version::Three && limits.contains(&within) {
            Part::Limits
        } else {
            Part::RestOfEntry
        }
    }
}

impl Damages {
    fn count(&mut self, part: Part, expected: Expected, right: bool) {
        self.answers.count(right);
        match (part, expected) {
            (Part::Limits, Ok(_)) => count_one(&mut self.held_limit),
            (Part::Head | Part::RestOfEntry, Ok(_)) => count_one(&mut self.held),
            (Part::Head, Err(BookError::Zone(Refusal::FalseEntry(_)))) => count_one(
                &mut self.other_head,
            ),
            (Part::Head, Err(_)) => count_one(&mut self.refused_head),
            (Part::Limits, Err(_)) => count_one(&mut self.false_limit),
            (Part::RestOfEntry, Err(_)) => count_one(&mut self.false_entry),
        }
    }

    fn count_at(&mut self, book: &mut Book, place: usize) {
        let house = book.house;
        let b = &mut book.bytes[..USED];
        let changed = byte_at(b, place) ^ CHANGES[place % CHANGES.len()];
        let (expected, right) = with_bytes(b, place, [changed], |bytes| {
            let expected = expected_at(house, bytes, PLAN, place);
            (expected, is_answered(bytes, expected))
        });
        self.count(Part::at(place), expected, right);
    }
}

// A byte changed at each of the places in turn.
pub fn check_damages(book: &mut Book, places: Range<usize>) -> Damages {
    let mut damages = Damages::default();
    for place in places {
        damages.count_at(book, place);
    }
    damages
}
