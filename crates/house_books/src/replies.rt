// What the calls answer: an acceptance with what it hands back, or a refusal, which hands back what was given.
use crate::plan::Entries;
use big_endian::same_floats;
use book::{BookError, BookState, Reply};
use zone::State;

// What no call on these books hands back, so that what was given can be told from what was found.
pub fn made_up() -> BookState {
    let state = State {
        nodes: 0,
        temps: [0.0; 121],
    };
    BookState {
        state,
        count: 9999,
        used: 79,
        last_version: 77,
    }
}

pub fn accepted(reply: Reply) -> Option<BookState> {
    reply.answer.ok().map(|()| reply.values)
}

// No derived equality: by that a NaN is unlike itself, and zeros of either sign are equal. In replay too, which would need
// two conjunctions and no house.
pub fn same_states(a: &State, b: &State) -> bool {
    a.nodes == b.nodes && same_floats(&a.temps, &b.temps)
}

pub fn same_book_states(a: &BookState, b: &BookState) -> bool {
    let counted = a.count == b.count && a.used == b.used && a.last_version == b.last_version;
    counted && same_states(&a.state, &b.state)
}

// Refused so, with the values that were given.
pub fn is_refused(reply: Reply, given: &BookState, refusal: BookError) -> bool {
    reply.answer == Err(refusal) && same_book_states(&reply.values, given)
}

// The values of a book that is taken up.
pub fn taken_up(bytes: &[u8]) -> Option<BookState> {
    accepted(book::take_up(made_up(), bytes))
}

pub fn is_take_up_refused(bytes: &[u8], refusal: BookError) -> bool {
    is_refused(book::take_up(made_up(), bytes), &made_up(), refusal)
}

pub fn has_entries(values: &BookState, entries: Entries) -> bool {
    let counted = values.count == entries.count && values.used == entries.used;
    counted && values.last_version == u64::from(entries.last_version)
}
