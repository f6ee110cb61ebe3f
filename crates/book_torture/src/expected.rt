// What take-up must answer of a small book that was changed. Of a changed byte it is worked out by reading the book entry by entry;
// of a version byte alone by the plan of versions and by whether the hour was cooled; of a rest by its length and version byte.
use crate::small_book::{HOURS, PLAN};
use crate::walk::{last_state, walk_on};
use book::{BookError, BookState};
use house_books::{
    Entries, Entry, FRONT, HEAD, House, Plan, Version, has_entries, is_take_up_refused,
    same_states, taken_up,
};
use zone::Refusal;

// The head alone.
const NO_ENTRIES: Entries = Entries {
    count: 0,
    used: HEAD,
    last_version: Version::One,
};

// What an acceptance hands back, but for the state.
pub type Expected = Result<Entries, BookError>;

// The values handed back are those of so many entries, with the temperatures that stand in the last.
fn holds(values: &BookState, b: &[u8], entries: Entries) -> bool {
    let has_state = entries.count == 0
        || last_state(b, entries).is_some_and(|state| same_states(&values.state, &state));
    has_entries(values, entries) && has_state
}

// Whether take-up answers so.
pub fn is_answered(b: &[u8], expected: Expected) -> bool {
    match expected {
        Ok(entries) => taken_up(b).is_some_and(|values| holds(&values, b, entries)),
        Err(refusal) => is_take_up_refused(b, refusal),
    }
}

// Versions 1 and 2 share the power of a cooled hour differently; any other hour is the same under both.
fn is_cooled(b: &[u8], plan: Plan, entry: usize) -> bool {
    Entry::of_hour(b, plan, entry).is_some_and(|e| e.cooling() < 0.0)
}

// In a version of the same length, which is not below the last and under which the hour is the same.
fn may_be_true(b: &[u8], plan: Plan, entry: usize, version: Version) -> bool {
    let same_length = version.entry_length() == plan.version_at(entry).entry_length();
    same_length && plan.entries(entry).last_version <= version && !is_cooled(b, plan, entry)
}

// The entry is true in its new version: what the next one, in its own, makes of the book.
fn expected_behind(plan: Plan, entry: usize, version: Version) -> Expected {
    let next = entry.saturating_add(1);
    if HOURS <= next {
        return Ok(Entries {
            last_version: version,
            ..plan.entries(HOURS)
        });
    }
    if plan.version_at(next) < version {
        return Err(BookError::Zone(Refusal::FalseEntry(next)));
    }
    Ok(plan.entries(HOURS))
}

// Of a small book in the versions of a plan, the version byte of an entry changed to this one. Of a longer version than its own the
// entry reaches into the next one, or past the end, and is dropped; of a shorter one it ends early. Its length is false in both.
pub fn expected_with_version(b: &[u8], plan: Plan, entry: usize, byte: u8) -> Expected {
    let Ok(version) = Version::try_from(byte) else {
        return Err(BookError::Zone(Refusal::FalseEntry(entry)));
    };
    let rest = plan.place_of(HOURS).saturating_sub(plan.place_of(entry));
    if rest < version.entry_length() {
        Ok(plan.entries(entry))
    } else if may_be_true(b, plan, entry, version) {
        expected_behind(plan, entry, version)
    } else {
        Err(BookError::Zone(Refusal::FalseEntry(entry)))
    }
}

// Of so many bytes with this version byte behind a small book of so many hours. Whole or not, they are no entry.
pub fn expected_of_rest(count: usize, rest: usize, byte: u8) -> Expected {
    let is_dropped = rest < FRONT
        || Version::try_from(byte).is_ok_and(|version| rest < version.entry_length());
    if is_dropped {
        Ok(PLAN.entries(count))
    } else {
        Err(BookError::Zone(Refusal::FalseEntry(count)))
    }
}

// A byte of the head changed: its refusal, or what the other zone makes of the entries.
fn expected_in_head(b: &[u8]) -> Expected {
    walk_on(&House::read(b)?, b, NO_ENTRIES)
}

// A byte changed, of a book in the versions of a plan. Where it stands in an entry the entries before it are true, and the walk begins at its own.
pub fn expected_at(house: &House, b: &[u8], plan: Plan, place: usize) -> Expected {
    if place < HEAD {
        expected_in_head(b)
    } else {
        walk_on(house, b, plan.entries(plan.whole_before(place)))
    }
}
