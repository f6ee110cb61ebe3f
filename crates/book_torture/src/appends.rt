// Appends behind hours of the small book: of versions that no hour has, with limits out of their range, and into little room.
use crate::small_book::{Book, HOURS, PLAN, ROOM};
use crate::stored_limits::OUTSIDE;
use book::{BookError, BookState, Reply};
use house_books::{Tally, Version, accepted, is_refused, limits_at, same_book_states};
use std::num::f64_from_bits_with_nan;
use zone::{Limits, Refusal};

// Versions that no hour has; the lowest byte of the last is one.
const UNKNOWN: [u64; 4] = [0, 4, 255, 259];

// Appends that were refused in one way, or accepted in another.
#[derive(Clone, Copy, Default)]
pub struct Appends {
    pub unknown: Tally,
    pub out_of_range: Tally,
    pub not_looked_at: Tally,
}

// A book of which so many hours are taken up.
#[derive(Clone, Copy)]
struct Taken<'a, 'b> {
    whole: &'a Book<'b>,
    given: BookState,
}

impl Taken<'_, '_> {
    // The version may be one that no hour has.
    fn append(&self, version: u64, limits: Limits) -> (Reply, [u8; ROOM]) {
        self.whole.appended(self.given, version, limits)
    }

    // It is refused so, and nothing is changed.
    fn refuses(&self, version: u64, limits: Limits, refusal: BookError) -> bool {
        let (reply, b) = self.append(version, limits);
        b == self.whole.bytes && is_refused(reply, &self.given, refusal)
    }

    // The entry is the one with the usual limits.
    fn does_not_look_at(&self, limits: Limits, version: Version) -> bool {
        let (reply, b) = self.append(u64::from(version), limits);
        let (usual, usual_b) = self.append(u64::from(version), limits_at(self.given.count));
        let both = accepted(reply).zip(accepted(usual));
        b == usual_b && both.is_some_and(|(x, y)| same_book_states(&x, &y))
    }

    // The usual limits but for one that lies outside the range.
    fn bad_limits(&self, bits: u64) -> [Limits; 2] {
        let value = f64_from_bits_with_nan(bits);
        let usual = limits_at(self.given.count);
        [
            Limits {
                heating: value,
                ..usual
            },
            Limits {
                cooling: value,
                ..usual
            },
        ]
    }
}

impl Appends {
    // Of a version that no hour has: refused before the limits are looked at.
    fn count_unknown(&mut self, taken: Taken) {
        let limits = Limits {
            heating: -1.0,
            cooling: -1.0,
        };
        let refusal = BookError::Zone(Refusal::FalseEntry(taken.given.count));
        for version in UNKNOWN {
            self.unknown.count(taken.refuses(version, limits, refusal));
        }
    }

    // A bad limit is refused in version 3, and in an older one, where that may follow, not looked at.
    fn count_limits(&mut self, taken: Taken, limits: Limits, last: Version) {
        let refusal = BookError::Zone(Refusal::LimitValue);
        self.out_of_range.count(taken.refuses(3, limits, refusal));
        for version in [Version::One, Version::Two] {
            if last <= version {
                self.not_looked_at
                    .count(taken.does_not_look_at(limits, version));
            }
        }
    }
}

// Behind each number of hours of the small book.
pub fn check_appends(whole: &Book) -> Appends {
    let mut appends = Appends::default();
    for count in 0..=HOURS {
        let taken = Taken {
            whole,
            given: whole.taken(count),
        };
        let last = PLAN.entries(count).last_version;
        appends.count_unknown(taken);
        for bits in OUTSIDE {
            for limits in taken.bad_limits(bits) {
                appends.count_limits(taken, limits, last);
            }
        }
    }
    appends
}
