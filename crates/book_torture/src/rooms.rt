// The next hour appended into buffers that have room for so many bytes behind the book: refused with 16 up to one byte below its
// own length.
use crate::small_book::{Book, ROOM, TWO};
use book::{BookError, BookState};
use house_books::{
    ENTRY, LONG_ENTRY, Tally, VERSIONS, Version, accepted, count_one, is_refused, same_book_states,
};

// The most room is more than any entry needs.
const MOST: usize = LONG_ENTRY + 3;

// Appends into each room; those of version 3 that were refused where an entry of version 2 has room, and those accepted with none
// to spare.
#[derive(Clone, Copy, Default)]
pub struct Rooms {
    pub appends: Tally,
    pub too_long: u64,
    pub exact: u64,
}

// With too little room nothing is changed, else the bytes and values are those of an append with more room.
fn is_right(whole: &Book, given: BookState, version: Version, room: usize) -> bool {
    let number = u64::from(version);
    let length = version.entry_length();
    let size = given.used.saturating_add(room).min(ROOM);
    let mut narrow = whole.bytes;
    let mut wide = whole.bytes;
    let reply = whole.house.append(given, number, &mut narrow[..size]);
    if room < length {
        return narrow == whole.bytes && is_refused(reply, &given, BookError::BufferShort);
    }
    let end = given.used.saturating_add(length);
    let roomy = accepted(whole.house.append(given, number, &mut wide));
    let same = accepted(reply)
        .zip(roomy)
        .is_some_and(|(x, y)| x.used == end && same_book_states(&x, &y));
    same && narrow == wide
}

impl Rooms {
    fn count(&mut self, version: Version, room: usize, right: bool) {
        self.appends.count(right);
        if right && version == Version::Three && (ENTRY..LONG_ENTRY).contains(&room) {
            count_one(&mut self.too_long);
        }
        if right && room == version.entry_length() {
            count_one(&mut self.exact);
        }
    }
}

// Behind the last hour of version 1, which every version may follow.
pub fn check_rooms(whole: &Book) -> Rooms {
    let given = whole.taken(TWO);
    let mut rooms = Rooms::default();
    for room in 0..=MOST {
        for version in VERSIONS {
            rooms.count(version, room, is_right(whole, given, version, room));
        }
    }
    rooms
}
