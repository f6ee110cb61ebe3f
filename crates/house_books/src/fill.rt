// A book begun and filled hour by hour.
use crate::house::{House, head};
use crate::plan::Plan;
use crate::replies::{accepted, made_up};
use crate::version::Version;
use book::BookState;

// The next hour in a version, which must be handed back.
fn append(house: &House, given: BookState, version: Version, buf: &mut [u8]) -> Option<BookState> {
    let number = u64::from(version);
    accepted(house.append(given, number, buf)).filter(|after| after.last_version == number)
}

// The hours from the given ones on up to so many, in the versions of a plan; none where one of them is refused.
pub fn append_hours(
    house: &House,
    given: BookState,
    hours: usize,
    plan: Plan,
    buf: &mut [u8],
) -> Option<BookState> {
    let mut state = given;
    for hour in given.count..hours {
        state = append(house, state, plan.version_at(hour), buf)?;
    }
    Some(state)
}

// A book begun, which must hand back version 1, and filled with so many hours.
pub fn begin_and_append(
    house: &House,
    hours: usize,
    plan: Plan,
    buf: &mut [u8],
) -> Option<BookState> {
    let begun = accepted(book::begin(made_up(), &head(), buf))?;
    if begun.last_version != 1 {
        return None;
    }
    append_hours(house, begun, hours, plan, buf)
}
