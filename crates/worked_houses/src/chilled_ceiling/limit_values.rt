// Limits out of range, 19, and where that is tested: after 9.
// Specification, Limits of the plant; Ranges.
use crate::chilled_ceiling::books::counts_of;
use crate::chilled_ceiling::differing::{differing, unlike};
use crate::chilled_ceiling::limit_books::BUFFER;
use crate::chilled_ceiling::room::{CONDITIONS, HEAD, Room, warm_hour};
use crate::failure;
use crate::limits::{MOST, Meeting};
use crate::refusal::{Cause, Refusal};
use crate::replies::{Counts, print_outcome};
use crate::table::row;
use crate::zone_read::ZoneRead;
use big_endian::write_f64_be;
use book::BookState;
use std::io;

// The smallest float above 0.
const SMALLEST: f64 = 5e-324;

// Places of the first element's external temperature and of the heating setpoint.
const EXTERNAL: usize = 113;

const HEATING_SETPOINT: usize = 48;

// As many entries as a book may hold.
const MOST_ENTRIES: usize = 8784;

// A refused hour leaves the temperatures.
fn print_step(
    rt: &impl Print,
    room: &Room,
    conditions: &[u8],
    meeting: Meeting,
    expected: Result<(), Refusal>,
) -> io::Result<()> {
    let step = room.zone.hour_step(room.start, conditions, meeting);
    print_outcome(rt, &step.answer.map_err(Refusal::from), expected)?;
    if expected.is_err() {
        let changed = unlike(step.state, room.start);
        row(rt, "  bytes of temperatures changed", changed, 0)?;
    }
    Ok(())
}

// The warm hour with limits that are out of range, then with such as are not.
fn print_ranges(rt: &impl Print, room: &Room) -> io::Result<()> {
    let conditions = warm_hour();
    let refused = Err(Cause::LimitValue.at(0));
    for (said, x) in [
        ("-1", -1.0),
        ("the float below 0", -SMALLEST),
        ("the float above 1e7", MOST.next_up()),
        ("infinite", f64::INFINITY),
        ("no number", f64::NAN),
    ] {
        println!(rt; "version 3, greatest heating {said}")?;
        let heating = Meeting::limited(x, 0.0);
        print_step(rt, room, &conditions, heating, refused)?;
        println!(rt; "greatest cooling {said}")?;
        let cooling = Meeting::limited(0.0, x);
        print_step(rt, room, &conditions, cooling, refused)?;
    }
    for (said, x) in [("0", 0.0), ("-0.0", -0.0), ("1e7", MOST)] {
        println!(rt; "version 3, both limits {said}")?;
        let both = Meeting::limited(x, x);
        print_step(rt, room, &conditions, both, Ok(()))?;
    }
    Ok(())
}

// The warm hour with a float of its own.
fn hour_with(at: usize, x: f64) -> [u8; CONDITIONS] {
    let mut conditions = warm_hour();
    write_f64_be(&mut conditions, at, x);
    conditions
}

fn print_order(rt: &impl Print, room: &Room) -> io::Result<()> {
    let warm = warm_hour();
    let far = hour_with(EXTERNAL, 101.0);
    let crossed = hour_with(HEATING_SETPOINT, 25.0);
    let good = Meeting::limited(MOST, MOST);
    let bad = Meeting::limited(-1.0, 0.0);
    for (title, conditions, meeting, expected) in [
        (
            "limits good, element 1 outside at 101: 9",
            &far,
            good,
            Err(Cause::ConditionsValue.at(1)),
        ),
        (
            "a limit of -1 too: 9",
            &far,
            bad,
            Err(Cause::ConditionsValue.at(1)),
        ),
        (
            "limits good, heating setpoint above the cooling one: 10",
            &crossed,
            good,
            Err(Cause::CoolingBelowHeating.at(0)),
        ),
        (
            "a limit of -1 too: 19",
            &crossed,
            bad,
            Err(Cause::LimitValue.at(0)),
        ),
        (
            "a limit of -1 in version 4: 18",
            &warm,
            Meeting::with(4, -1.0, 0.0),
            Err(Cause::FalseEntry.at(0)),
        ),
        ("in version 2", &warm, Meeting::with(2, -1.0, 0.0), Ok(())),
        ("in version 1", &warm, Meeting::with(1, -1.0, 0.0), Ok(())),
    ] {
        println!(rt; "{title}")?;
        print_step(rt, room, conditions, meeting, expected)?;
    }
    Ok(())
}

// A refused append of the warm hour, which hands back what it was given.
fn print_append(
    rt: &impl Print,
    zone: &ZoneRead,
    given: BookState,
    meeting: Meeting,
    buffer: &mut [u8],
    cause: Cause,
) -> io::Result<()> {
    let reply = zone.append(given, &warm_hour(), meeting, buffer);
    let counts = Counts {
        entries: given.count,
        ..counts_of(1, 1)
    };
    counts.refused(cause, 0).print(rt, reply)
}

// Behind one entry of version 1.
fn print_appends(rt: &impl Print, zone: &ZoneRead) -> io::Result<()> {
    let mut book = [0; BUFFER];
    let held = zone.book_of_one(&warm_hour(), Meeting::unlimited(1), &mut book);
    let held = held.values;
    let before = book;
    let full = BookState {
        count: MOST_ENTRIES,
        ..held
    };
    let good = Meeting::limited(MOST, MOST);
    let bad = Meeting::limited(0.0, -1.0);
    let mut short = [0; HEAD];
    println!(rt; "behind one entry an append in version 3, greatest cooling -1")?;
    print_append(rt, zone, held, bad, &mut book, Cause::LimitValue)?;
    println!(rt; "with no room: 19 before 16")?;
    print_append(rt, zone, held, bad, &mut short, Cause::LimitValue)?;
    println!(rt; "behind 8,784 entries: 17")?;
    print_append(rt, zone, full, bad, &mut book, Cause::BookFull)?;
    row(
        rt,
        "  bytes of the buffer changed",
        differing(&book, &before),
        0,
    )?;
    println!(rt; "limits good, with no room: 16")?;
    print_append(rt, zone, held, good, &mut short, Cause::BufferShort)
}

pub fn print_values(rt: &impl Print, room: &Room) -> failure::Result<()> {
    print_ranges(rt, room)?;
    print_order(rt, room)?;
    print_appends(rt, &room.zone)?;
    Ok(())
}
