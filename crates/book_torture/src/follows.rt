// True entries of each version behind each number of hours of the small book. An append that is given a made-up last version writes
// them also where they may not follow; take-up holds them to the order.
use crate::expected::is_answered;
use crate::small_book::{Book, HOURS, PLAN};
use book::{BookError, BookState};
use house_books::{Tally, VERSIONS, Version, accepted, limits_at};
use zone::Refusal;

// What an append takes for the last version where any version is to be written.
const MADE_UP: u64 = 1;

// Entries that may follow, entries that may not, and either without its last byte.
#[derive(Clone, Copy, Default)]
pub struct Follows {
    pub may: Tally,
    pub may_not: Tally,
    pub short: Tally,
}

impl Follows {
    fn count(&mut self, whole: &Book, count: usize, version: Version) {
        let given = BookState {
            last_version: MADE_UP,
            ..whole.taken(count)
        };
        let (reply, b) = whole.appended(given, u64::from(version), limits_at(count));
        let before = PLAN.entries(count);
        let after = before.followed_by(version);
        let Some(bytes) = accepted(reply).and_then(|_| b.get(..after.used)) else {
            return self.may.count(false);
        };
        if version < before.last_version {
            self.may_not.count(is_answered(
                bytes,
                Err(BookError::Zone(Refusal::FalseEntry(count))),
            ));
        } else {
            self.may.count(is_answered(bytes, Ok(after)));
        }
        let short = bytes.split_last();
        self.short.count(short.is_some_and(|(_, short)| is_answered(short, Ok(before))));
    }
}

// Behind each number of hours, of each version.
pub fn check_follows(whole: &Book) -> Follows {
    let mut follows = Follows::default();
    for count in 0..=HOURS {
        for version in VERSIONS {
            follows.count(whole, count, version);
        }
    }
    follows
}
