// A book of the room asked when it got warm. Its temperatures are those of the call `temp_operative` on
// the state after each hour: of a wall and a window the mean goes by their areas.
// Specification, Questions over a book.
use crate::answers::{above, nearest, within};
use crate::chilled_ceiling::hours::KEPT;
use crate::chilled_ceiling::limit_entries::{COOLING, HEATING};
use crate::chilled_ceiling::room::{
    COOLING_SETPOINT, ENTRY, HEAD, HEATING_SETPOINT, LIMITED_ENTRY, cold_hour, warm_hour,
};
use crate::failure;
use crate::limits::Meeting;
use crate::table::shown;
use crate::zone_read::ZoneRead;
use book::BookState;
use std::io;

const BUFFER: usize = HEAD + 3 * ENTRY + LIMITED_ENTRY;

// The operative temperature after each hour.
#[derive(Clone, Copy)]
struct Temperatures {
    too_warm: f64,
    heated: f64,
    cooled: f64,
    limited: f64,
}

// The temperature that an hour ended with.
fn print_after(
    rt: &impl Print,
    zone: &ZoneRead,
    said: &str,
    last: BookState,
) -> failure::Result<f64> {
    let temperature = zone.operative(last.state)?;
    shown(rt, said, temperature)?;
    Ok(temperature)
}

// Version 3 has a cooling limit that holds.
fn write_four(
    rt: &impl Print,
    zone: &ZoneRead,
    book: &mut [u8; BUFFER],
) -> failure::Result<Temperatures> {
    // Row by row, since each state has a name of its own.
    let meeting = |version| Meeting::with(version, HEATING, COOLING);
    let warm = warm_hour();
    let cold = cold_hour();
    let begun = zone.begin(book).values;
    let first = zone.append(begun, &warm, meeting(1), book).values;
    let second = zone.append(first, &cold, meeting(2), book).values;
    let third = zone.append(second, &warm, meeting(2), book).values;
    let fourth = zone.append(third, &warm, meeting(3), book).values;
    print_after(rt, zone, "  start-up", begun)?;
    Ok(Temperatures {
        too_warm: print_after(rt, zone, "  warm, version 1", first)?,
        heated: print_after(rt, zone, "  cold, version 2", second)?,
        cooled: print_after(rt, zone, "  warm, version 2", third)?,
        limited: print_after(rt, zone, "  warm, version 3", fourth)?,
    })
}

// Each hour by its own temperature.
fn print_own(rt: &impl Print, book: &[u8], t: Temperatures) -> io::Result<()> {
    for (asked, value, hour) in [
        ("  nearest hour 0's", t.too_warm, 0),
        ("  hour 1's", t.heated, 1),
        ("  hour 2's", t.cooled, 2),
        ("  hour 3's", t.limited, 3),
    ] {
        nearest(rt, asked, book, value, Ok(Some(hour)))?;
    }
    for (asked, value, expected) in [
        ("  first above hour 0's", t.too_warm, Some(3)),
        ("  above hour 1's", t.heated, Some(2)),
        ("  above hour 2's", t.cooled, Some(0)),
        ("  above hour 3's", t.limited, None),
    ] {
        above(rt, asked, book, value, Ok(expected))?;
    }
    for (asked, lower, upper, hours) in [
        ("  hours from hour 1's to hour 2's", t.heated, t.cooled, 2),
        ("  from hour 2's to hour 0's", t.cooled, t.too_warm, 2),
        ("  from hour 1's to hour 3's", t.heated, t.limited, 4),
    ] {
        within(rt, asked, book, lower, upper, Ok(hours))?;
    }
    Ok(())
}

fn print_setpoints(rt: &impl Print, book: &[u8]) -> io::Result<()> {
    nearest(
        rt,
        "  nearest the cooling setpoint",
        book,
        COOLING_SETPOINT,
        Ok(Some(2)),
    )?;
    nearest(
        rt,
        "  nearest the heating setpoint",
        book,
        HEATING_SETPOINT,
        Ok(Some(1)),
    )?;
    within(
        rt,
        "  hours between the setpoints",
        book,
        HEATING_SETPOINT - KEPT,
        COOLING_SETPOINT + KEPT,
        Ok(2),
    )
}

pub fn print_questions(rt: &impl Print, zone: &ZoneRead) -> failure::Result<()> {
    let mut book = [0; BUFFER];
    println!(rt; "a book of four hours, operative temperature after each")?;
    let temperatures = write_four(rt, zone, &mut book)?;
    print_own(rt, &book, temperatures)?;
    print_setpoints(rt, &book)?;
    Ok(())
}
