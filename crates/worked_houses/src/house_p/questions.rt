// Books of House P asked when it got warm, their temperatures worked out by hand.
//
// Each hour has what other systems give to the air, and neither heating nor cooling. From the air y0 and the inner surface
// x0 above 20, the gains A lead to 144 y = 100 y0 + 0.625 x0 + A and x = 0.625 y + 0.25 x0 (house_p/limited.rt has the
// equations from balance). The surface's area is all there is, so the operative temperature is the mean of y and x. Every
// number here is a float, and so is every step to it.
// Specification, Questions over a book; House P.
use crate::answers::{above, nearest, within};
use crate::bytes::Hour;
use crate::failure;
use crate::house_p::house::{ENTRY, HEAD, HOUSE_P, hour_of};
use crate::limits::{MOST as MOST_POWER, Meeting};
use crate::refusal::{Cause, Refusal};
use crate::zone_read::ZoneRead;
use book::BookState;
use std::io;

pub const LONG_ENTRY: usize = 232;

// The eight hours, two of version 1, three of version 2, three of version 3, and a rest too short for an entry.
pub const USED: usize = HEAD + 5 * ENTRY + 3 * LONG_ENTRY;

const REST: usize = 4;

pub const ROOM: usize = USED + REST;

// The last byte of the air's temperature after hour 3.
const DAMAGED: usize = HEAD + 4 * ENTRY - 1;

const TWO_HOURS: usize = HEAD + 2 * ENTRY;

// The greatest value that may be asked for.
const MOST: f64 = 1e6;

// The air of hour 7, 2 ^ -36 above 22, and the operative temperature then, 13 * 2 ^ -40 above that of hour 4. Next to a
// million floats lie 2 ^ -33 apart: the distances of the two hours from there are one float.
const AIR: f64 = 22.000000000014552;

const WARMEST: f64 = 21.625000000011823;

// An hour behind the book's last, which brings the air to this temperature.
fn hour_to(
    zone: &ZoneRead,
    given: BookState,
    air: f64,
    version: u64,
    book: &mut [u8],
) -> BookState {
    let temps = given.state.temps;
    let before = 100.0 * (temps[2] - 20.0) + 0.625 * (temps[1] - 20.0);
    let hour = Hour {
        convective: 144.0 * (air - 20.0) - before,
        ..hour_of(-100.0, 100.0)
    };
    let meeting = Meeting::with(version, MOST_POWER, MOST_POWER);
    zone.append(given, &hour.conditions(), meeting, book).values
}

// A book of hours, each with the air's temperature after it and its version.
fn write_hours(zone: &ZoneRead, hours: &[(f64, u64)], book: &mut [u8]) {
    let mut last = zone.begin(book).values;
    for (air, version) in hours {
        last = hour_to(zone, last, *air, *version, book);
    }
}

// The inner surface, and so the operative temperature, in the order of the hours: 20.625 and 20.8125, 20 and 19.875, the
// same two again, 21.25 and 21.625, 20 and 19.75, 20 and 20, and for hour 7 a little above those of hour 4.
const EIGHT: [(f64, u64); 8] = [
    (21.0, 1),
    (19.75, 1),
    (21.0, 2),
    (19.75, 2),
    (22.0, 2),
    (19.5, 3),
    (20.0, 3),
    (AIR, 3),
];

// from at or below a given value to above it; start-up is at 20.
fn print_above(rt: &impl Print, book: &[u8]) -> io::Result<()> {
    for (asked, value, expected) in [
        ("  first above 20.5", 20.5, Some(0)),
        ("  20, start-up's own", 20.0, Some(0)),
        ("  19.9, below start-up's", 19.9, Some(2)),
        ("  20.9, below the air's", 20.9, Some(4)),
        ("  19.875, that of hours 1 and 3", 19.875, Some(2)),
        ("  20.8125, that of hours 0 and 2", 20.8125, Some(4)),
        ("  19.75, that of hour 5", 19.75, Some(6)),
        ("  21.625, that of hour 4", 21.625, Some(7)),
        ("  that of hour 7, the greatest", WARMEST, None),
        ("  19.7, below all", 19.7, None),
        ("  1e6", MOST, None),
        ("  -1e6", -MOST, None),
    ] {
        above(rt, asked, book, value, Ok(expected))?;
    }
    Ok(())
}

// within an inclusive band
fn print_within(rt: &impl Print, book: &[u8]) -> io::Result<()> {
    for (asked, lower, upper, hours) in [
        ("  hours at 20.8125", 20.8125, 20.8125, 2),
        ("  at 20, also start-up's", 20.0, 20.0, 1),
        ("  19.875 to 20.8125", 19.875, 20.8125, 5),
        ("  20.9 to 21.5, only of the air", 20.9, 21.5, 0),
        ("  19.75 to hour 7's", 19.75, WARMEST, 8),
        ("  19.75 to hour 4's", 19.75, 21.625, 7),
        ("  -1e6 to 1e6", -MOST, MOST, 8),
        ("  0.0 to -0.0", 0.0, -0.0, 0),
    ] {
        within(rt, asked, book, lower, upper, Ok(hours))?;
    }
    Ok(())
}

// the distance rounded once, the earlier on a tie
fn print_nearest(rt: &impl Print, book: &[u8]) -> io::Result<()> {
    for (asked, value, hour) in [
        ("  nearest 20.8125, hours 0 and 2", 20.8125, 0),
        ("  21.21875, between hours 0 and 4", 21.21875, 0),
        ("  20.40625, between hours 0 and 6", 20.40625, 0),
        ("  19.9375, between hours 1 and 6", 19.9375, 1),
        ("  20, start-up's own", 20.0, 6),
        ("  21.5, between the air's", 21.5, 4),
        ("  22", 22.0, 7),
        ("  1e6, hours 4 and 7 when rounded", MOST, 4),
        ("  -1e6", -MOST, 5),
    ] {
        nearest(rt, asked, book, value, Ok(Some(hour)))?;
    }
    Ok(())
}

// A value that no question takes.
fn print_value(
    rt: &impl Print,
    book: &[u8],
    title: &str,
    x: f64,
    refusal: Refusal,
) -> io::Result<()> {
    println!(rt; "{title}")?;
    above(rt, "  first above", book, x, Err(refusal))?;
    within(rt, "  hours from there to 1e6", book, x, MOST, Err(refusal))?;
    within(rt, "  from -1e6 to there", book, -MOST, x, Err(refusal))?;
    nearest(rt, "  nearest", book, x, Err(refusal))
}

// Of a book that is refused, and of one whose values are refused.
fn print_each(rt: &impl Print, book: &[u8], refusal: Refusal) -> io::Result<()> {
    print_value(rt, book, "a value that is no number", f64::NAN, refusal)?;
    within(rt, "  hours from 21 to 20", book, 21.0, 20.0, Err(refusal))
}

const TURNED_AWAY: Cause = Cause::QuestionValue;

// An empty book has no hour, and its values are tested too.
fn print_empty(rt: &impl Print, book: &[u8]) -> io::Result<()> {
    let turned_away = TURNED_AWAY.at(0);
    above(rt, "  first above 19", book, 19.0, Ok(None))?;
    within(rt, "  hours from -1e6 to 1e6", book, -MOST, MOST, Ok(0))?;
    nearest(rt, "  nearest 20", book, 20.0, Ok(None))?;
    print_each(rt, book, turned_away)?;
    for (title, x) in [
        ("infinite", f64::INFINITY),
        ("infinite below 0", f64::NEG_INFINITY),
        ("the float above 1e6", MOST.next_up()),
        ("the float below -1e6", -MOST.next_up()),
    ] {
        print_value(rt, book, title, x, turned_away)?;
    }
    Ok(())
}

fn print_cuts(rt: &impl Print, book: &[u8; ROOM]) -> io::Result<()> {
    let seven = &book[..USED - 1];
    println!(rt; "without the last byte: hour 7 is dropped")?;
    above(rt, "  first above 21.625", seven, 21.625, Ok(None))?;
    within(rt, "  hours from -1e6 to 1e6", seven, -MOST, MOST, Ok(7))?;
    nearest(rt, "  nearest 22", seven, 22.0, Ok(Some(4)))?;
    println!(rt; "the head alone")?;
    print_empty(rt, &book[..HEAD])?;
    println!(rt; "the head without its last byte: 1 before 20")?;
    print_each(rt, &book[..HEAD - 1], Cause::HeadShort.at(0))
}

// Of air and surface at 0 the mean is 0. Two hours of version 1: the air at -28 leads to the surface at -10 and the mean of
// both at -19, then the air at 0 to the surface at 0.
fn print_frozen(rt: &impl Print, zone: &ZoneRead) -> io::Result<()> {
    let mut book = [0; TWO_HOURS];
    write_hours(zone, &[(-28.0, 1), (0.0, 1)], &mut book);
    println!(rt; "two hours, at -19 and 0")?;
    within(rt, "  hours from 0.0 to -0.0", &book, 0.0, -0.0, Ok(1))?;
    within(rt, "  from -0.0 to 0.0", &book, -0.0, 0.0, Ok(1))?;
    above(rt, "  first above -0.0", &book, -0.0, Ok(None))?;
    above(rt, "  first above -19", &book, -19.0, Ok(Some(1)))?;
    nearest(rt, "  nearest -9.5, between both", &book, -9.5, Ok(Some(0)))?;
    nearest(rt, "  20, start-up's own", &book, 20.0, Ok(Some(1)))
}

// Of the eight hours.
pub fn print_answers(rt: &impl Print, book: &[u8]) -> io::Result<()> {
    print_above(rt, book)?;
    print_within(rt, book)?;
    print_nearest(rt, book)
}

fn print_whole(rt: &impl Print, book: &[u8; ROOM]) -> io::Result<()> {
    println!(rt; "eight hours of versions 1, 2 and 3 with 4 bytes behind them")?;
    print_answers(rt, book)?;
    print_each(rt, book, TURNED_AWAY.at(0))?;
    print_cuts(rt, book)
}

fn print_damaged(rt: &impl Print, book: &[u8]) -> io::Result<()> {
    let false_entry = Cause::FalseEntry.at(3);
    println!(rt; "hour 3 damaged: 18 before 20")?;
    above(rt, "  first above 20.5", book, 20.5, Err(false_entry))?;
    print_each(rt, book, false_entry)
}

pub fn eight_hours(zone: &ZoneRead) -> [u8; ROOM] {
    let mut book = [0; ROOM];
    write_hours(zone, &EIGHT, &mut book);
    book
}

pub fn print_questions(rt: &impl Print) -> failure::Result<()> {
    let head = HOUSE_P.head();
    let zone = ZoneRead::read(&head)?;
    let mut book = eight_hours(&zone);
    print_whole(rt, &book)?;
    book[DAMAGED] = 1;
    print_damaged(rt, &book)?;
    print_frozen(rt, &zone)?;
    Ok(())
}
