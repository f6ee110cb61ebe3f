// The rows about a book of House P.
// Specification, Entry versions.
use crate::failure;
use crate::house_p::house::{ENTRY, HEAD, HOUSE_P, hour_of};
use crate::limits::Meeting;
use crate::refusal::Refusal;
use crate::replies::{Counts, number_of, taken_up};
use crate::table::row;
use crate::zone_read::ZoneRead;
use book::Reply;
use std::io;

// The entry version of the original's rule.
const VERSION: u64 = 1;

// A book of one entry.
const BOOK: usize = HEAD + ENTRY;

fn print_used(
    rt: &impl Print,
    title: &str,
    reply: Reply,
    entries: usize,
    used: usize,
) -> io::Result<()> {
    println!(rt; "{title}")?;
    let answer = reply.answer.map_err(Refusal::from);
    row(rt, "  refusal", number_of(&answer), 0)?;
    let counts = Counts {
        entries,
        used,
        last_version: VERSION,
    };
    counts.print(rt, reply.values)
}

fn print_cuts(rt: &impl Print, book: &[u8; BOOK]) -> io::Result<()> {
    let cut = taken_up(&book[..BOOK - 1]);
    print_used(rt, "take-up of the book cut at 395", cut, 0, HEAD)?;
    print_used(
        rt,
        "take-up of the book cut at 396",
        taken_up(book),
        1,
        BOOK,
    )
}

// Begun, one hour appended, and taken up.
pub fn print_book(rt: &impl Print) -> failure::Result<()> {
    let head = HOUSE_P.head();
    let zone = ZoneRead::read(&head)?;
    let conditions = hour_of(21.0, 24.0).conditions();
    let mut book = [0; BOOK];
    let begun = zone.begin(&mut book);
    print_used(rt, "begin", begun, 0, HEAD)?;
    let meeting = Meeting::unlimited(VERSION);
    let appended = zone.append(begun.values, &conditions, meeting, &mut book);
    print_used(rt, "append", appended, 1, BOOK)?;
    print_cuts(rt, &book)?;
    Ok(())
}
