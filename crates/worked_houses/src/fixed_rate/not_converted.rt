// Books with version 1 entries are not converted. Refused: 24, such a book, tested after it is accepted, then 16 for the output.
// Specification, Conversion.
use crate::failure;
use crate::fixed_rate::conversion::Conversion;
use crate::fixed_rate::houses::{Sample, ceiling_from_1, house_p, windows};
use crate::fixed_rate::stored::{RATE_CODE, SECOND_RATE};
use crate::fixed_rate::taken_up::eight_fixed_hours;
use crate::house_p::house::{ENTRY, HEAD, HOUSE_P};
use crate::house_p::questions::{USED, eight_hours};
use crate::refusal::{Cause, Refusal};
use crate::zone_read::ZoneRead;
use big_endian::{put_byte, put_bytes};
use std::io;

// The first of House P's eight hours that is of version 3, hour 5.
const THREE: usize = HEAD + 5 * ENTRY;

// Head and first entry.
const ONE: usize = HEAD + ENTRY;

// Into so much room.
fn print_row(
    rt: &impl Print,
    title: &str,
    bytes: &[u8],
    room: usize,
    refusal: Refusal,
) -> io::Result<()> {
    println!(rt; "{title}")?;
    Conversion::into(bytes, room).print_refused(rt, refusal)
}

// House P's eight hours, of which the first two have version 1. With code 1 nothing would be another.
fn print_version_1(rt: &impl Print, zone: &ZoneRead) -> io::Result<()> {
    let code_0 = eight_fixed_hours(zone);
    let code_1 = eight_hours(zone);
    let version_1 = Cause::Version1Entry.at(0);
    let title = "House P's eight hours, two of version 1, code 0: 24";
    print_row(rt, title, &code_0, USED, version_1)?;
    print_row(rt, "code 1: 24", &code_1, USED, version_1)?;
    let title = "the first alone, code 0";
    print_row(rt, title, code_0.get(..ONE).unwrap_or(&[]), USED, version_1)?;
    print_row(
        rt,
        "code 1",
        code_1.get(..ONE).unwrap_or(&[]),
        USED,
        version_1,
    )?;
    let title = "all, into a byte too little: 24 before 16";
    print_row(rt, title, &code_0, USED - 1, version_1)?;
    print_row(rt, "into no room", &code_0, 0, version_1)?;
    let mut damaged = code_0;
    put_byte(&mut damaged, THREE + RATE_CODE, 2);
    let title = "with a false hour 5: 18 before 24";
    print_row(rt, title, &damaged, USED, Cause::FalseEntry.at(5))?;
    let title = "the head without its last byte: 1";
    print_row(
        rt,
        title,
        code_0.get(..HEAD - 1).unwrap_or(&[]),
        USED,
        Cause::HeadShort.at(0),
    )
}

// Of versions 2 and 3.
fn print_room(rt: &impl Print, title: &str, sample: &Sample) -> io::Result<()> {
    let short = Cause::BufferShort.at(0);
    let room = sample.counts.used.saturating_sub(1);
    println!(rt; "{title}")?;
    let title = "into a byte too little: 16";
    print_row(rt, title, sample.books.old(), room, short)?;
    let title = "the same hours with code 1";
    print_row(rt, title, sample.books.appended(), room, short)?;
    print_row(rt, "into no room", sample.books.old(), 0, short)
}

// A false entry of House P, and its head alone.
fn print_first(rt: &impl Print, house_p: &Sample) -> io::Result<()> {
    let mut damaged = [0; ONE];
    put_bytes(&mut damaged, 0, house_p.books.old());
    put_byte(&mut damaged, HEAD + SECOND_RATE, 128);
    let title = "its first hour, -0.0 behind the rate, into no room: 18 before 16";
    print_row(rt, title, &damaged, 0, Cause::FalseEntry.at(0))?;
    let title = "its head alone, into a byte too little";
    let short = Cause::BufferShort.at(0);
    print_row(rt, title, &HOUSE_P.head(), HEAD - 1, short)
}

pub fn print_not_converted(rt: &impl Print) -> failure::Result<()> {
    let head = HOUSE_P.head();
    let zone = ZoneRead::read(&head)?;
    print_version_1(rt, &zone)?;
    let from_1 = ceiling_from_1()?;
    let title = "the room with a chilled ceiling, a first hour of version 1: 24";
    let room = from_1.counts.used;
    let version_1 = Cause::Version1Entry.at(0);
    print_row(rt, title, from_1.books.old(), room, version_1)?;
    print_room(rt, "the room with windows", &windows()?)?;
    let five_hours = house_p()?;
    print_room(rt, "House P's five hours of versions 2 and 3", &five_hours)?;
    print_first(rt, &five_hours)?;
    Ok(())
}
