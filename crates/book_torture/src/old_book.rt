// A book of old hours: as it was written while calls still took the fixed rate, rate code 0. Beside it stands the book of the same hours as appends write them
// now, with target and windows open both that rate. Demands and temperatures are the same in both.
use big_endian::{bytes_at, put_bytes};
use book::BookState;
use house_books::{
    CONDITIONS, CONDITIONS_PLACE, CUT_OFF, ENTRY, HEAD, House, LONG_ENTRY, Plan, accepted,
    conditions, head, limits_at, made_up, put_fixed_rate, same_book_states, taken_up,
};

pub const HOURS: usize = 12;

// From version 1 on, a third of the hours each.
pub const PLAN: Plan = Plan {
    two: Some(4),
    three: Some(8),
};

// From version 2 on: such a book can be converted.
pub const LATER: Plan = Plan {
    two: Some(0),
    three: Some(6),
};

// Room for as many hours of version 3.
pub const ROOM: usize = HEAD + LONG_ENTRY * HOURS;

// Each fourth has windows.
pub fn is_old(hour: usize) -> bool {
    hour % 4 != 3
}

// By hours of the house, of which every fifth has one rate.
pub fn conditions_of(hour: usize) -> [u8; CONDITIONS] {
    let fifth = hour.saturating_mul(5);
    if is_old(hour) {
        conditions(fifth)
    } else {
        conditions(fifth.saturating_add(1))
    }
}

// The same hour as it was written.
pub fn old_conditions_of(hour: usize) -> [u8; CONDITIONS] {
    let mut b = [0; ENTRY];
    put_bytes(&mut b, CONDITIONS_PLACE, &conditions_of(hour));
    if is_old(hour) {
        put_fixed_rate(&mut b);
    }
    bytes_at(&b, CONDITIONS_PLACE)
}

// The hours from the given ones on, as appends take them; none where one of them is refused.
pub fn append_rest(
    house: &House,
    given: BookState,
    plan: Plan,
    buf: &mut [u8],
) -> Option<BookState> {
    let mut state = given;
    for hour in given.count..HOURS {
        let version = u64::from(plan.version_at(hour));
        let reply = house.append_hour(state, &conditions_of(hour), version, limits_at(hour), buf);
        state = accepted(reply)?;
    }
    Some(state)
}

#[derive(Clone, Copy)]
pub struct OldBook<'a> {
    pub house: &'a House,
    pub plan: Plan,
    pub old: [u8; ROOM],
    pub anew: [u8; ROOM],
    pub end: BookState,
}

impl<'a> OldBook<'a> {
    // In the versions of a plan; none where an hour is refused.
    pub fn in_versions(house: &'a House, plan: Plan) -> Option<OldBook<'a>> {
        let mut anew = [CUT_OFF; ROOM];
        let begun = accepted(book::begin(made_up(), &head(), &mut anew))?;
        let end = append_rest(house, begun, plan, &mut anew)?;
        let mut old = anew;
        for hour in 0..HOURS {
            let place = plan.place_of(hour).saturating_add(CONDITIONS_PLACE);
            put_bytes(&mut old, place, &old_conditions_of(hour));
        }
        Some(OldBook {
            house,
            plan,
            old,
            anew,
            end,
        })
    }

    pub fn used(&self) -> usize {
        self.plan.place_of(HOURS)
    }

    // Taken up it is the book that the last append handed back.
    pub fn is_taken_up(&self) -> bool {
        let counted = self.end.count == HOURS && self.end.used == self.used();
        let taken = self.old.get(..self.used()).and_then(taken_up);
        counted && taken.is_some_and(|values| same_book_states(&values, &self.end))
    }
}
