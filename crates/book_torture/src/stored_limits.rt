// Other limits in the entries of the small book's version 3: out of their range, and within it.
use crate::expected::{Expected, expected_at, is_answered};
use crate::small_book::{Book, HOURS, PLAN, THREE, USED};
use big_endian::read_u64_be;
use book::BookError;
use house_books::{COOLING_LIMIT_PLACE, LIMITS_PLACE, Tally, count_one, with_bytes};
use zone::Refusal;

// Patterns of floats that no limit may be: -1, next above the highest limit (1e7 W), the NaN that a calculation gives and another,
// infinity, minus infinity, and the number next to 0 below it.
pub const OUTSIDE: [u64; 7] = [
    0xbff0_0000_0000_0000,
    0x4163_12d0_0000_0001,
    0x7ff8_0000_0000_0000,
    0xfff0_0000_0000_0001,
    0x7ff0_0000_0000_0000,
    0xfff0_0000_0000_0000,
    0x8000_0000_0000_0001,
];

// That a limit may be: 0, -0, the highest, 200.5, and the number next to 0 above it.
const WITHIN: [u64; 5] = [
    0,
    0x8000_0000_0000_0000,
    0x4163_12d0_0000_0000,
    0x4069_1000_0000_0000,
    1,
];

// Limits out of range, which are refused there, and others in it, which are refused there (`false_entry`) or accepted (`held`).
#[derive(Clone, Copy, Default)]
pub struct OtherLimits {
    pub outside: Tally,
    pub within: Tally,
    pub false_entry: u64,
    pub held: u64,
}

impl OtherLimits {
    // The limit that stands at this place changed to each of the values; one that it has already is no change.
    fn count_at(&mut self, book: &mut Book, entry: usize, place: usize) {
        let house = book.house;
        let b = &mut book.bytes[..USED];
        let own = read_u64_be(b, place);
        for bits in OUTSIDE.into_iter().filter(|bits| *bits != own) {
            let refused = Err(BookError::Zone(Refusal::FalseEntry(entry)));
            let right = with_bytes(
                b,
                place,
                bits.to_be_bytes(),
                |bytes| is_answered(bytes, refused),
            );
            self.outside.count(right);
        }
        for bits in WITHIN.into_iter().filter(|bits| *bits != own) {
            let (expected, right) = with_bytes(b, place, bits.to_be_bytes(), |bytes| {
                let expected = expected_at(house, bytes, PLAN, place);
                (expected, is_answered(bytes, expected))
            });
            self.count_within(expected, right);
        }
    }

    fn count_within(&mut self, expected: Expected, right: bool) {
        self.within.count(right);
        match expected {
            Ok(_) => count_one(&mut self.held),
            Err(_) => count_one(&mut self.false_entry),
        }
    }
}

// Both limits of each hour of version 3.
pub fn check_stored_limits(book: &mut Book) -> OtherLimits {
    let mut limits = OtherLimits::default();
    for entry in THREE..HOURS {
        let start = PLAN.place_of(entry);
        for within in [LIMITS_PLACE, COOLING_LIMIT_PLACE] {
            limits.count_at(book, entry, start.saturating_add(within));
        }
    }
    limits
}
