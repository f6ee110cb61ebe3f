// Books with entries of version 3, which may follow 1 and 2, never the reverse, and bytes behind them.
// Specification, Limits of the plant; Append; Take-up.
use crate::chilled_ceiling::differing::differing;
use crate::chilled_ceiling::limit_entries::{BOOK, COOLING, COUNTS, HEATING, print_entries};
use crate::chilled_ceiling::room::{ENTRY, HEAD, LIMITED_ENTRY, Room, warm_hour};
use crate::failure;
use crate::limits::{MOST, Meeting};
use crate::refusal::Cause;
use crate::replies::{Counts, Expected, MADE_UP, taken_up};
use crate::table::row;
use crate::zone_read::ZoneRead;
use book::BookState;
use std::io;

// The used length with an entry of version 1, with one of version 3 behind it, and with another.
const FIRST: usize = HEAD + ENTRY;

const SECOND: usize = FIRST + LIMITED_ENTRY;

pub const BUFFER: usize = SECOND + LIMITED_ENTRY;

const OF_ONE: Counts = Counts {
    entries: 1,
    used: FIRST,
    last_version: 1,
};

const OF_TWO: Counts = Counts {
    entries: 2,
    used: SECOND,
    last_version: 3,
};

const OF_THREE: Counts = Counts {
    entries: 3,
    used: BUFFER,
    last_version: 3,
};

// A book of one entry of version 3, and behind it room for a length and a version byte.
const BEHIND: usize = BOOK + 5;

// The warm hour appended in this version, and what the book then says.
fn print_append(
    rt: &impl Print,
    zone: &ZoneRead,
    given: BookState,
    version: u64,
    buffer: &mut [u8],
    expected: Expected,
) -> io::Result<BookState> {
    let meeting = Meeting::with(version, HEATING, COOLING);
    let reply = zone.append(given, &warm_hour(), meeting, buffer);
    expected.print(rt, reply)?;
    Ok(reply.values)
}

// An append into a buffer with a byte less than the entry needs, of which nothing is written.
fn print_short(rt: &impl Print, zone: &ZoneRead, given: BookState) -> io::Result<()> {
    let mut short = [0; BUFFER - 1];
    let expected = OF_TWO.refused(Cause::BufferShort, 0);
    println!(rt; "in version 3, with one byte too little")?;
    print_append(rt, zone, given, 3, &mut short, expected)?;
    let changed = differing(&short, &[0; BUFFER - 1]);
    row(rt, "  bytes of the buffer changed", changed, 0)
}

fn print_order(rt: &impl Print, zone: &ZoneRead) -> io::Result<()> {
    let mut book = [0; BUFFER];
    let mut last = zone.begin(&mut book).values;
    let refused = OF_TWO.refused(Cause::FalseEntry, 2);
    for (title, version, expected) in [
        ("a book with an entry of version 1", 1, OF_ONE.accepted()),
        ("behind it an append in version 3", 3, OF_TWO.accepted()),
        ("behind it in version 2", 2, refused),
        ("in version 1", 1, refused),
    ] {
        println!(rt; "{title}")?;
        last = print_append(rt, zone, last, version, &mut book, expected)?;
    }
    print_short(rt, zone, last)?;
    println!(rt; "with just the room")?;
    print_append(rt, zone, last, 3, &mut book, OF_THREE.accepted())?;
    print_cuts(rt, &book)
}

fn print_cuts(rt: &impl Print, book: &[u8; BUFFER]) -> io::Result<()> {
    println!(rt; "take-up of all")?;
    OF_THREE.accepted().print(rt, taken_up(book))?;
    println!(rt; "without the last byte")?;
    let cut = &book[..BUFFER - 1];
    OF_TWO.accepted().print(rt, taken_up(cut))?;
    println!(rt; "with what an entry of version 2 has of the second")?;
    let cut = &book[..FIRST + ENTRY];
    OF_ONE.accepted().print(rt, taken_up(cut))
}

// Bytes of 0 behind an entry: What is dropped at the end is a rest under 5 bytes; with 5 there is a version byte, 0, which
// no hour has and which makes any rest of 5 bytes or more count as a whole entry, a false one.
fn print_rests(rt: &impl Print, book: &[u8; BEHIND]) -> io::Result<()> {
    println!(rt; "take-up of an entry of version 3 with 4 bytes behind it")?;
    let cut = &book[..BEHIND - 1];
    COUNTS.accepted().print(rt, taken_up(cut))?;
    println!(rt; "with 5 bytes behind it")?;
    let refused = MADE_UP.refused(Cause::FalseEntry, 1);
    refused.print(rt, taken_up(book))
}

fn print_behind(rt: &impl Print, zone: &ZoneRead) -> io::Result<()> {
    let mut book = [0; BEHIND];
    zone.book_of_one(&warm_hour(), Meeting::limited(MOST, MOST), &mut book);
    print_rests(rt, &book)
}

pub fn print_books(rt: &impl Print, room: &Room) -> failure::Result<()> {
    print_entries(rt, room)?;
    print_order(rt, &room.zone)?;
    print_behind(rt, &room.zone)?;
    Ok(())
}
