// The hours' entries in books: what differs between the versions, and that a book never passes back.
use crate::chilled_ceiling::differing::{TEMPERATURES, differing, temperature_bytes};
use crate::chilled_ceiling::room::{CONDITIONS, ENTRY, HEAD, Room, cold_hour, warm_hour};
use crate::failure;
use crate::limits::Meeting;
use crate::refusal::Cause;
use crate::replies::{Counts, taken_up};
use crate::table::{holds, row};
use crate::zone_read::ZoneRead;
use std::io;

// A book of one entry, and the places of the entry's parts in it.
const BOOK: usize = HEAD + ENTRY;

pub const VERSION: usize = HEAD + 4;

pub const CONDITIONS_FROM: usize = VERSION + 1;

// Behind the conditions heating, cooling, rate and trigger.
const TEMPERATURES_FROM: usize = CONDITIONS_FROM + CONDITIONS + 33;

// With room for one entry more.
pub const BUFFER: usize = BOOK + ENTRY;

// Of a book of so many entries without limits.
pub fn counts_of(entries: u8, last_version: u64) -> Counts {
    Counts {
        entries: usize::from(entries),
        used: HEAD + ENTRY * usize::from(entries),
        last_version,
    }
}

// An hour's entry in a book of its own, and the bytes of the temperatures that the hour step gives in its version. An append
// goes on from start-up's state, and has an hour of its own.
#[derive(Clone, Copy)]
struct Entry {
    book: [u8; BOOK],
    stepped: [u8; TEMPERATURES],
}

impl Entry {
    fn of(room: &Room, conditions: &[u8], version: u64) -> Entry {
        let meeting = Meeting::unlimited(version);
        let mut book = [0; BOOK];
        room.zone.book_of_one(conditions, meeting, &mut book);
        let step = room.zone.hour_step(room.start, conditions, meeting);
        Entry {
            book,
            stepped: temperature_bytes(step.state),
        }
    }

    fn unlike_hour_step(&self) -> usize {
        differing(&self.book[TEMPERATURES_FROM..], &self.stepped)
    }
}

// Each entry's temperatures beside the hour step's in its version.
fn print_temperatures(rt: &impl Print, one: &Entry, two: &Entry) -> io::Result<()> {
    println!(rt; "  bytes of temperatures unlike those of the hour step")?;
    row(rt, "    in version 1", one.unlike_hour_step(), 0)?;
    row(rt, "    in version 2", two.unlike_hour_step(), 0)
}

fn print_warm(rt: &impl Print, room: &Room) -> io::Result<()> {
    let conditions = warm_hour();
    let first = Entry::of(room, &conditions, 1);
    let second = Entry::of(room, &conditions, 2);
    let (one, two) = (&first.book, &second.book);
    println!(rt; "the warm hour's entries in version 1 and in version 2")?;
    row(rt, "  version byte of the first", one[VERSION], 1)?;
    row(rt, "  version byte of the second", two[VERSION], 2)?;
    let before = differing(&one[..VERSION], &two[..VERSION]);
    row(rt, "  bytes before it that differ", before, 0)?;
    let of_hour = differing(
        &one[CONDITIONS_FROM..TEMPERATURES_FROM],
        &two[CONDITIONS_FROM..TEMPERATURES_FROM],
    );
    row(rt, "  of conditions and demand", of_hour, 0)?;
    let temperatures = differing(&one[TEMPERATURES_FROM..], &two[TEMPERATURES_FROM..]);
    holds(rt, "  the temperatures differ", temperatures != 0)?;
    print_temperatures(rt, &first, &second)
}

fn print_cold(rt: &impl Print, room: &Room) -> io::Result<()> {
    let conditions = cold_hour();
    let first = Entry::of(room, &conditions, 1);
    let second = Entry::of(room, &conditions, 2);
    let (one, two) = (&first.book, &second.book);
    println!(rt; "the cold hour's entries in version 1 and in version 2")?;
    row(rt, "  bytes that differ", differing(one, two), 1)?;
    let version = differing(&one[VERSION..VERSION + 1], &two[VERSION..VERSION + 1]);
    row(rt, "  of them the version byte", version, 1)?;
    print_temperatures(rt, &first, &second)
}

// The cold hour appended in these versions.
fn print_order(rt: &impl Print, zone: &ZoneRead) -> io::Result<()> {
    let conditions = cold_hour();
    let mut book = [0; BUFFER];
    let begun = zone.begin(&mut book);
    println!(rt; "a book begun")?;
    counts_of(0, 1).accepted().print(rt, begun)?;
    let mut last = begun.values;
    for (title, version, expected) in [
        ("an append in version 2", 2, counts_of(1, 2).accepted()),
        (
            "behind it an append in version 1",
            1,
            counts_of(1, 2).refused(Cause::FalseEntry, 1),
        ),
        (
            "behind it an append in version 2",
            2,
            counts_of(2, 2).accepted(),
        ),
    ] {
        println!(rt; "{title}")?;
        let reply = zone.append(last, &conditions, Meeting::unlimited(version), &mut book);
        expected.print(rt, reply)?;
        last = reply.values;
    }
    println!(rt; "take-up of both")?;
    counts_of(2, 2).accepted().print(rt, taken_up(&book))
}

pub fn print_books(rt: &impl Print, room: &Room) -> failure::Result<()> {
    print_warm(rt, room)?;
    print_cold(rt, room)?;
    print_order(rt, &room.zone)?;
    Ok(())
}
