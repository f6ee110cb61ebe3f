// A book of old hours with a byte or a bit changed: what take-up and the converter answer of it.
// Specification, Where an entry ends.
use crate::conversions::is_converted;
use crate::damage::CHANGES;
use crate::expected::{expected_at, is_answered};
use crate::old_book::{HOURS, OldBook, is_old};
use big_endian::byte_at;
use book::BookError;
use house_books::{SECOND_RATE_PLACE, Tally, count_one, with_bytes};
use zone::Refusal;

const BITS: [u8; 8] = [1, 2, 4, 8, 16, 32, 64, 128];

// Take-ups and conversions, each as expected; and how many changes were refused, or accepted.
#[derive(Clone, Copy, Default)]
pub struct OldDamages {
    pub answers: Tally,
    pub conversions: Tally,
    pub refused: u64,
    pub held: u64,
}

impl OldDamages {
    fn count_at(&mut self, book: &mut OldBook, place: usize) {
        let OldBook { house, plan, .. } = *book;
        let Some(b) = book.old.get_mut(..plan.place_of(HOURS)) else {
            return self.answers.count(false);
        };
        let changed = byte_at(b, place) ^ CHANGES[place % CHANGES.len()];
        let (expected, right, converted) = with_bytes(b, place, [changed], |bytes| {
            let expected = expected_at(house, bytes, plan, place);
            let right = is_answered(bytes, expected);
            (expected, right, is_converted(bytes, expected))
        });
        self.answers.count(right);
        self.conversions.count(converted);
        match expected {
            Ok(_) => count_one(&mut self.held),
            Err(_) => count_one(&mut self.refused),
        }
    }
}

// A byte changed at each place in turn.
pub fn check_old_damages(book: &mut OldBook) -> OldDamages {
    let mut damages = OldDamages::default();
    for place in 0..book.used() {
        damages.count_at(book, place);
    }
    damages
}

// Each bit of the second float set in turn, in the hours with the fixed rate: second float all zero bits.
pub fn check_second_floats(book: &mut OldBook) -> Tally {
    let mut tally = Tally::default();
    let plan = book.plan;
    for hour in (0..HOURS).filter(|hour| is_old(*hour)) {
        let false_entry = Err(BookError::Zone(Refusal::FalseEntry(hour)));
        let Some(b) = book.old.get_mut(..plan.place_of(HOURS)) else {
            return Tally { all: 1, right: 0 };
        };
        let from = plan.place_of(hour).saturating_add(SECOND_RATE_PLACE);
        for place in from..from.saturating_add(8) {
            for bit in BITS {
                let right = with_bytes(b, place, [bit], |bytes| is_answered(bytes, false_entry));
                tally.count(right);
            }
        }
    }
    tally
}
