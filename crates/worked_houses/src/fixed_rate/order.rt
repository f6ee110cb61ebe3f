// The place of the 8 of code 0 among the other refusals: behind 4, 5, 17, 18, 6 and 7, before 9, 19 and all that follows.
use crate::bytes::{CONDITIONS, Hour};
use crate::chilled_ceiling::differing::differing;
use crate::failure;
use crate::fixed_rate::calls::Offered;
use crate::fixed_rate::refused::{HEATED, REFUSED};
use crate::house_p::house::{ENTRY, HEAD, HOUSE_P, SINGULAR, hour_of, start};
use crate::limits::{MOST, Meeting};
use crate::refusal::{Answer, Cause, Refusal};
use crate::replies::{Counts, print_outcome};
use crate::table::row;
use crate::zone_read::ZoneRead;
use big_endian::write_f64_be;
use book::BookState;
use std::io;
use zone::State;

// The element's external temperature in an hour's conditions.
const EXTERNAL: usize = 113;

// As many entries as a book may hold.
const MOST_ENTRIES: usize = 8784;

const GOOD: Meeting = Meeting {
    version: 3,
    limits: zone::Limits {
        heating: MOST,
        cooling: MOST,
    },
};

// A node less than House P has.
const TOO_FEW: State = State {
    nodes: 2,
    temps: [20.0; 121],
};

fn fixed(heat: f64, cool: f64) -> Hour {
    hour_of(heat, cool).with_fixed_rate(0.0)
}

// Of a zone as a record: 5, 4 and 6 come before the conditions.
fn print_before(rt: &impl Print) -> failure::Result<()> {
    let head = HOUSE_P.head();
    let conditions = fixed(21.0, 24.0).conditions();
    for (title, useful_area, count, cause) in [
        (
            "a fixed rate, a node too few, no useful area",
            0.0,
            1,
            Cause::ZoneValue,
        ),
        ("and no elements", 0.0, 0, Cause::Structure),
        (
            "the zone as it is, a node too few",
            HOUSE_P.useful_area,
            1,
            Cause::StateInvalid,
        ),
    ] {
        let mut zone = ZoneRead::read(&head)?;
        zone.zone.useful_area = useful_area;
        zone.zone.count = count;
        let offered = Offered {
            zone: &zone,
            before: TOO_FEW,
            conditions: &conditions,
            meeting: GOOD,
        };
        let refusal = cause.at(0);
        offered.print(rt, title, Err(refusal), Err(refusal))?;
    }
    Ok(())
}

fn print_short(rt: &impl Print, zone: &ZoneRead) -> io::Result<()> {
    let conditions = fixed(21.0, 24.0).conditions();
    let offered = Offered {
        zone,
        before: start(),
        conditions: conditions.get(..CONDITIONS - 1).unwrap_or(&[]),
        meeting: GOOD,
    };
    let refusal = Cause::ConditionsSize.at(0);
    let title = "a fixed rate, a byte too few: 7";
    offered.print(rt, title, Err(refusal), Err(refusal))
}

// The four calls refuse the code, the reason what is wrong beside it.
fn print_beside(
    rt: &impl Print,
    zone: &ZoneRead,
    title: &str,
    conditions: &[u8],
    reason: Refusal,
) -> io::Result<()> {
    let offered = Offered {
        zone,
        before: start(),
        conditions,
        meeting: GOOD,
    };
    offered.print(rt, title, REFUSED, Err(reason))
}

fn print_behind(rt: &impl Print, zone: &ZoneRead) -> io::Result<()> {
    for (title, hour, cause) in [
        (
            "a fixed rate, and a supply at 101: 8 before 9",
            fixed(21.0, 24.0).with_supply(101.0),
            Cause::ConditionsValue,
        ),
        (
            "a fixed rate of 1001",
            hour_of(21.0, 24.0).with_fixed_rate(1001.0),
            Cause::ConditionsValue,
        ),
        (
            "setpoints 22/21: 8 before 10",
            fixed(22.0, 21.0),
            Cause::CoolingBelowHeating,
        ),
        (
            "ventilation setpoint 20: 8 before 11",
            Hour {
                vent: 20.0,
                ..fixed(21.0, 24.0)
            },
            Cause::VentilationBelowHeating,
        ),
    ] {
        print_beside(rt, zone, title, &hour.conditions(), cause.at(0))?;
    }
    let mut far = fixed(21.0, 24.0).conditions();
    write_f64_be(&mut far, EXTERNAL, 101.0);
    let title = "element 1 outside at 101";
    print_beside(rt, zone, title, &far, Cause::ConditionsValue.at(1))
}

// No capacity, no loss.
fn print_singular(rt: &impl Print) -> failure::Result<()> {
    let head = SINGULAR.head();
    let zone = ZoneRead::read(&head)?;
    let conditions = fixed(20.0, 24.0).conditions();
    let title = "no capacity, no loss: 8 before 12";
    print_beside(rt, &zone, title, &conditions, Cause::Divisor.at(0))?;
    Ok(())
}

// Limits are no matter to the demand, the update and the reason.
fn print_limits(rt: &impl Print, zone: &ZoneRead) -> io::Result<()> {
    let conditions = fixed(21.0, 24.0).conditions();
    let offered = Offered {
        zone,
        before: start(),
        conditions: &conditions,
        meeting: Meeting::limited(-1.0, 0.0),
    };
    let title = "a fixed rate, and a heating limit of -1: 8 before 19";
    offered.print(rt, title, REFUSED, HEATED)
}

// An update's own arguments come last, an unknown version comes first.
fn print_own(rt: &impl Print, zone: &ZoneRead) -> io::Result<()> {
    let code_0 = fixed(21.0, 24.0).conditions();
    let code_1 = hour_of(21.0, 24.0).conditions();
    for (title, conditions, cause) in [
        (
            "update, share of 2, a fixed rate",
            &code_0,
            Cause::ConditionsCode,
        ),
        (
            "  target and windows open 0",
            &code_1,
            Cause::ConditionsValue,
        ),
    ] {
        let update = zone.update(start(), conditions, 0.0, 2.0, 0.0);
        let came = update.map(|_| "accepted");
        row(rt, title, Answer(came), Answer(Err(cause.at(0))))?;
    }
    println!(rt; "an hour step in version 4, a fixed rate: 18 before 8")?;
    let step = zone.hour_step(start(), &code_0, Meeting::unlimited(4));
    let answer = step.answer.map_err(Refusal::from);
    print_outcome(rt, &answer, Err(Cause::FalseEntry.at(0)))
}

// What is appended behind one entry of version 2.
#[derive(Clone, Copy)]
struct Append<'a> {
    title: &'a str,
    count: usize,
    meeting: Meeting,
    room: usize,
    fixed: bool,
    refusal: Refusal,
}

// With the room of an entry behind it, or of none.
const ONE: usize = HEAD + ENTRY;

const ROOM: usize = ONE + ENTRY;

// The entries of these calls are counted and not read.
fn print_append(
    rt: &impl Print,
    zone: &ZoneRead,
    book: &[u8; ROOM],
    held: BookState,
    append: Append,
) -> io::Result<()> {
    let hour = hour_of(21.0, 24.0);
    let hour = if append.fixed {
        hour.with_fixed_rate(0.0)
    } else {
        hour
    };
    let given = BookState {
        count: append.count,
        ..held
    };
    let mut b = *book;
    println!(rt; "{}", append.title)?;
    let room = append.room.min(ROOM);
    let conditions = hour.conditions();
    let reply = zone.append(given, &conditions, append.meeting, &mut b[..room]);
    let answer = reply.answer.map_err(Refusal::from);
    print_outcome(rt, &answer, Err(append.refusal))?;
    let counts = Counts {
        entries: append.count,
        used: ONE,
        last_version: 2,
    };
    counts.print(rt, reply.values)?;
    row(rt, "  bytes changed", differing(&b, book), 0)
}

fn print_appends(rt: &impl Print, zone: &ZoneRead) -> io::Result<()> {
    let first = hour_of(21.0, 24.0).conditions();
    let mut book = [0; ROOM];
    let held = zone.book_of_one(&first, Meeting::unlimited(2), &mut book);
    let usual = Append {
        title: "behind an entry of version 2, a fixed rate: 8",
        count: 1,
        meeting: Meeting::unlimited(2),
        room: ROOM,
        fixed: true,
        refusal: Cause::ConditionsCode.at(0),
    };
    for append in [
        usual,
        Append {
            title: "in version 1: 18",
            meeting: Meeting::unlimited(1),
            refusal: Cause::FalseEntry.at(1),
            ..usual
        },
        Append {
            title: "in version 4: 18",
            meeting: Meeting::unlimited(4),
            refusal: Cause::FalseEntry.at(1),
            ..usual
        },
        Append {
            title: "behind 8,784 entries: 17",
            count: MOST_ENTRIES,
            refusal: Cause::BookFull.at(0),
            ..usual
        },
        Append {
            title: "with no room: 8",
            room: ONE,
            ..usual
        },
        Append {
            title: "with no room, target and windows open 0: 16",
            room: ONE,
            fixed: false,
            refusal: Cause::BufferShort.at(0),
            ..usual
        },
    ] {
        print_append(rt, zone, &book, held.values, append)?;
    }
    Ok(())
}

pub fn print_order(rt: &impl Print, zone: &ZoneRead) -> failure::Result<()> {
    print_before(rt)?;
    print_short(rt, zone)?;
    print_behind(rt, zone)?;
    print_singular(rt)?;
    print_limits(rt, zone)?;
    print_own(rt, zone)?;
    print_appends(rt, zone)?;
    Ok(())
}
