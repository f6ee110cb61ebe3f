// Books converted: each hour of code 0 has code 1 and its rate twice, and nothing else is another.
use crate::bytes::CONDITIONS;
use crate::chilled_ceiling::differing::differing;
use crate::chilled_ceiling::room::CONDITIONS as CEILING;
use crate::convection::room::CONDITIONS as SIX_SURFACES;
use crate::failure;
use crate::fixed_rate::conversion::Conversion;
use crate::fixed_rate::houses::{Sample, ceiling, house_p, six_surfaces, windows};
use crate::fixed_rate::stored::{CONDITIONS as CONDITIONS_FROM, RATE_CODE, behind};
use crate::fixed_rate::taken_up::print_same;
use crate::house_p::house::{ENTRY, HEAD, HOUSE_P};
use crate::table::{decimals, row};
use crate::why::answers::{Because, why};
use crate::zone_read::ZoneRead;
use big_endian::{byte_at, bytes_at, put_byte, put_bytes, read_f64_be};
use std::io;
use zone::Reason;

// Of so many entries, how many bytes of rate code and rates differ.
fn rates_unlike(a: &[u8], b: &[u8], head: usize, entries: usize) -> usize {
    let mut unlike = 0usize;
    let mut place = head;
    for _ in 0..entries {
        let rates = place.saturating_add(RATE_CODE);
        let differ = differing(&bytes_at::<17>(a, rates), &bytes_at::<17>(b, rates));
        unlike = unlike.saturating_add(differ);
        place = behind(a, place);
    }
    unlike
}

// Why the first hour of a book is what it is. It has a fixed rate in the old book, and none in the new one.
fn print_why(
    rt: &impl Print,
    asked: &str,
    book: &[u8],
    length: usize,
    sample: &Sample,
) -> failure::Result<()> {
    let zone = ZoneRead::read(book)?;
    let start = zone.start_up()?;
    let from = zone.length.saturating_add(CONDITIONS_FROM);
    let conditions = book.get(from..).and_then(|rest| rest.get(..length));
    let conditions = conditions.unwrap_or(&[]);
    let expected = Ok(Because(Reason::NoChoice, sample.load));
    why(rt, asked, &zone, start, conditions, expected)?;
    Ok(())
}

fn print_conversion(
    rt: &impl Print,
    house: &str,
    length: usize,
    sample: &Sample,
) -> failure::Result<()> {
    let Sample {
        books,
        counts,
        changed,
        ..
    } = sample;
    let old = books.old();
    let converted = Conversion::of(old);
    let new = converted.bytes();
    println!(rt; "{house}: converted")?;
    converted.print_accepted(rt, counts.entries, counts.used, books.appended())?;
    let head = ZoneRead::read(old)?.length;
    row(
        rt,
        "  bytes unlike the old book's",
        differing(new, old),
        *changed,
    )?;
    let unlike = rates_unlike(old, new, head, counts.entries);
    row(rt, "  of them code and rates", unlike, *changed)?;
    print_why(rt, "  reason of hour 0, as it was", old, length, sample)?;
    print_why(rt, "  converted", new, length, sample)?;
    println!(rt; "taken up")?;
    print_same(rt, new, old, *counts)?;
    println!(rt; "converted again")?;
    Conversion::of(new).print_accepted(rt, counts.entries, counts.used, new)?;
    Ok(())
}

// The demand of the hour with windows in the converted book.
fn print_trigger(rt: &impl Print, windows: &Sample) -> io::Result<()> {
    let converted = Conversion::of(windows.books.old());
    let demand = HEAD + ENTRY + CONDITIONS_FROM + CONDITIONS;
    let new = converted.bytes();
    println!(rt; "the hour with a rate that triggers heating, converted")?;
    decimals(rt, "  rate", read_f64_be(new, demand + 16), 1.0)?;
    row(rt, "  has a trigger", byte_at(new, demand + 24), 1)?;
    decimals(rt, "  its rate", read_f64_be(new, demand + 25), 2.0)
}

// The rates of hour 2 of the room with windows.
fn print_zeros(rt: &impl Print, windows: &Sample) -> io::Result<()> {
    let converted = Conversion::of(windows.books.old());
    let rates = HEAD + 2 * ENTRY + RATE_CODE;
    let new = converted.bytes();
    println!(rt; "the hour with a fixed rate of -0.0, converted")?;
    row(rt, "  rate code", byte_at(new, rates), 1)?;
    decimals(rt, "  target", read_f64_be(new, rates + 1), -0.0)?;
    decimals(rt, "  windows open", read_f64_be(new, rates + 9), -0.0)
}

// With and without bytes behind it that are no entry: they are no part of the book. With just the room, too.
fn print_rests(rt: &impl Print, sample: &Sample) -> io::Result<()> {
    let used = sample.counts.used;
    let entries = sample.counts.entries;
    let new = sample.books.appended();
    let mut with_rest = [0; HEAD + 7 * ENTRY];
    put_bytes(&mut with_rest, 0, sample.books.old());
    // The version byte of the rest: an entry of version 1 that is a byte too short.
    put_byte(&mut with_rest, used.saturating_add(4), 1);
    for (title, rest) in [
        ("with 4 bytes behind it", 4),
        ("with 5, of version 1", 5),
        ("with all but a byte of an entry of version 1", ENTRY - 1),
    ] {
        let bytes = with_rest.get(..used.saturating_add(rest)).unwrap_or(&[]);
        println!(rt; "{title}: no part of it")?;
        Conversion::of(bytes).print_accepted(rt, entries, used, new)?;
    }
    println!(rt; "without its last byte: the last hour is no part of it")?;
    let cut = sample
        .books
        .old()
        .get(..used.saturating_sub(1))
        .unwrap_or(&[]);
    let left = HEAD + 2 * ENTRY + 2 * (ENTRY + 16);
    Conversion::of(cut).print_accepted(rt, 4, left, new.get(..left).unwrap_or(&[]))?;
    println!(rt; "with just the room")?;
    Conversion::into(sample.books.old(), used).print_accepted(rt, entries, used, new)
}

// A book without hours is converted too.
fn print_empty(rt: &impl Print) -> io::Result<()> {
    let head = HOUSE_P.head();
    let mut with_rest = [0; HEAD + 4];
    put_bytes(&mut with_rest, 0, &head);
    for (title, bytes) in [
        ("House P's head alone: converted", &head[..]),
        ("with 4 bytes behind it", &with_rest[..]),
    ] {
        println!(rt; "{title}")?;
        Conversion::of(bytes).print_accepted(rt, 0, HEAD, &head)?;
    }
    Ok(())
}

pub fn print_conversions(rt: &impl Print) -> failure::Result<()> {
    let five_hours = house_p()?;
    print_conversion(rt, "House P", CONDITIONS, &five_hours)?;
    print_rests(rt, &five_hours)?;
    print_empty(rt)?;
    print_conversion(rt, "the room with a chilled ceiling", CEILING, &ceiling()?)?;
    let with_windows = windows()?;
    print_conversion(rt, "the room with windows", CONDITIONS, &with_windows)?;
    print_trigger(rt, &with_windows)?;
    print_zeros(rt, &with_windows)?;
    print_conversion(
        rt,
        "the room of six surfaces",
        SIX_SURFACES,
        &six_surfaces()?,
    )
}
