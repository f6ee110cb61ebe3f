// Appends of hours with the fixed rate behind each number of hours of a book of old hours: refused with 8 in its place among the refusals.
use crate::old_book::{HOURS, OldBook, ROOM, old_conditions_of};
use book::{BookError, BookState};
use house_books::{ENTRY, Tally, is_refused, limits_at, made_up, taken_up};
use zone::{Limits, Refusal};

// Of versions that may follow, with good limits, with one out of range, and into no room; of versions that may not follow or that no hour has.
#[derive(Clone, Copy, Default)]
pub struct OldAppends {
    pub retired: Tally,
    pub before_limits: Tally,
    pub before_room: Tally,
    pub behind_version: Tally,
}

// A limit that none may be.
const OUTSIDE: Limits = Limits {
    heating: -1.0,
    cooling: 0.0,
};

// An hour with the fixed rate, refused so, and nothing is changed. The first hour of each book is one.
fn refuses(
    whole: &OldBook,
    given: BookState,
    version: u64,
    limits: Limits,
    room: usize,
    refusal: Refusal,
) -> bool {
    let mut b = whole.old;
    let size = given.used.saturating_add(room).min(ROOM);
    let conditions = old_conditions_of(0);
    let reply = whole
        .house
        .append_hour(given, &conditions, version, limits, &mut b[..size]);
    b == whole.old && is_refused(reply, &given, BookError::Zone(refusal))
}

impl OldAppends {
    fn count_behind(&mut self, whole: &OldBook, given: BookState) {
        let limits = limits_at(given.count);
        for version in 0..5 {
            let right = |limits, room, refusal| refuses(
                whole, given, version, limits, room, refusal,
            );
            if (given.last_version..4).contains(&version) {
                let refusal = Refusal::ConditionsCode;
                self.retired.count(right(limits, ROOM, refusal));
                self.before_limits.count(right(OUTSIDE, ROOM, refusal));
                self.before_room.count(right(limits, ENTRY - 1, refusal));
            } else {
                let refusal = Refusal::FalseEntry(given.count);
                self.behind_version.count(right(limits, ROOM, refusal));
            }
        }
    }
}

pub fn check_old_appends(whole: &OldBook) -> OldAppends {
    let mut appends = OldAppends::default();
    for count in 0..=HOURS {
        let hours = whole.old.get(..whole.plan.place_of(count));
        let given = hours.and_then(taken_up).unwrap_or(made_up());
        appends.count_behind(whole, given);
    }
    appends
}
