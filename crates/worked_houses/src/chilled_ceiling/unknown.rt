// Versions that no hour has: refused at an hour step and at an append, and nothing is changed.
use crate::chilled_ceiling::books::{BUFFER, counts_of};
use crate::chilled_ceiling::differing::{differing, unlike_anywhere};
use crate::chilled_ceiling::room::{Room, warm_hour};
use crate::failure;
use crate::limits::Meeting;
use crate::refusal::{Cause, Refusal};
use crate::replies::print_outcome;
use crate::table::row;
use crate::zone_read::ZoneRead;
use book::BookState;
use std::io;
use zone::State;

// One less than the oldest, one more than the newest, one with 1 in its lowest byte, as an entry would hold it, and the greatest.
const UNKNOWN: [(&str, u64); 4] = [("0", 0), ("4", 4), ("257", 257), ("2 ^ 64 - 1", u64::MAX)];

// Whether a state is the one that was given.
fn print_kept(rt: &impl Print, came: State, given: State) -> io::Result<()> {
    row(rt, "  nodes", came.nodes, given.nodes)?;
    let changed = unlike_anywhere(came, given);
    row(rt, "  bytes of temperatures changed", changed, 0)
}

fn print_steps(rt: &impl Print, room: &Room) -> io::Result<()> {
    for (name, version) in UNKNOWN {
        println!(rt; "an hour step in version {name}")?;
        let meeting = Meeting::unlimited(version);
        let step = room.zone.hour_step(room.start, &warm_hour(), meeting);
        let answer = step.answer.map_err(Refusal::from);
        print_outcome(rt, &answer, Err(Cause::FalseEntry.at(0)))?;
        print_kept(rt, step.state, room.start)?;
    }
    Ok(())
}

// An append behind one entry of version 1, which the book holds.
fn print_append(
    rt: &impl Print,
    zone: &ZoneRead,
    given: BookState,
    version: u64,
    book: &mut [u8; BUFFER],
) -> io::Result<()> {
    let before = *book;
    let reply = zone.append(given, &warm_hour(), Meeting::unlimited(version), book);
    let expected = counts_of(1, 1).refused(Cause::FalseEntry, 1);
    expected.print(rt, reply)?;
    print_kept(rt, reply.values.state, given.state)?;
    row(
        rt,
        "  bytes of the buffer changed",
        differing(book, &before),
        0,
    )
}

fn print_appends(rt: &impl Print, zone: &ZoneRead) -> io::Result<()> {
    let mut book = [0; BUFFER];
    let one = zone.book_of_one(&warm_hour(), Meeting::unlimited(1), &mut book);
    print!(rt; "behind one entry of version 1 an append ")?;
    for (name, version) in UNKNOWN {
        println!(rt; "in version {name}")?;
        print_append(rt, zone, one.values, version, &mut book)?;
    }
    Ok(())
}

pub fn print_unknown(rt: &impl Print, room: &Room) -> failure::Result<()> {
    print_steps(rt, room)?;
    print_appends(rt, &room.zone)?;
    Ok(())
}
