// Whether what a call hands back is what it was given, bit by bit. No derived equality: by that a NaN is unlike itself, and zeros
// of either sign are equal. In house_books too, of which this program would need two conjunctions and no house.
use big_endian::same_floats;
use book::BookState;
use zone::State;

pub fn same_state(a: &State, b: &State) -> bool {
    a.nodes == b.nodes && same_floats(&a.temps, &b.temps)
}

pub fn same_book_state(a: &BookState, b: &BookState) -> bool {
    let counted = a.count == b.count && a.used == b.used && a.last_version == b.last_version;
    counted && same_state(&a.state, &b.state)
}
