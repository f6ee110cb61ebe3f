// The rooms' hours: by an update with a given power, and by the hour step in each entry version.
use crate::convection::room::{AIR, Room, conditions_of};
use crate::convection::rooms::{self, Given};
use crate::failure;
use crate::limits::{MOST, Meeting};
use crate::refusal::Refusal;
use crate::table::{decimals, row};
use crate::zone_read::ZoneRead;
use std::io;
use zone::{HeatBalance, State};

// Setpoints that ask for nothing here.
const COLD: f64 = -100.0;

const HOT: f64 = 100.0;

fn print_after(rt: &impl Print, room: &Room, after: State, air: f64) -> io::Result<()> {
    decimals(rt, "  air", after.temps[AIR], air)?;
    let unexpected = room.not_midway(after, air);
    row(rt, "  surfaces not midway", unexpected, 0)
}

fn print_given(rt: &impl Print, balance: HeatBalance, given: Given) -> io::Result<()> {
    let came = balance.internal_boundary;
    for (asked, came, expected) in [
        (
            "  given to all surfaces, W",
            came.fabric_int_air_convective,
            given.total,
        ),
        (
            "    horizontal",
            came.fabric_int_air_convective_horizontal,
            given.horizontal,
        ),
        (
            "    upwards",
            came.fabric_int_air_convective_upwards,
            given.upwards,
        ),
        (
            "    downwards",
            came.fabric_int_air_convective_downwards,
            given.downwards,
        ),
    ] {
        decimals(rt, asked, came, expected)?;
    }
    Ok(())
}

// An update with this power, which brings the air to `air`.
fn print_update(
    rt: &impl Print,
    title: &str,
    room: &Room,
    power: f64,
    air: f64,
    given: Given,
) -> failure::Result<()> {
    let head = room.head();
    let zone = ZoneRead::read(&head)?;
    let conditions = conditions_of(COLD, HOT);
    println!(rt; "{title}")?;
    let (after, balance) = zone.update(room.before(), &conditions, power, 1.0, 0.0)?;
    print_after(rt, room, after, air)?;
    print_given(rt, balance, given)?;
    Ok(())
}

fn print_updates(rt: &impl Print) -> failure::Result<()> {
    let level = rooms::level();
    for (title, power, air, part) in [
        ("the room at 0: update with 2304 W", 2304.0, 16.0, 1.0),
        ("with -2304 W", -2304.0, -16.0, -1.0),
        ("with 0 W", 0.0, 0.0, 0.0),
    ] {
        print_update(rt, title, &level, power, air, rooms::level_given(part))?;
    }
    for (title, room, power, air, given) in [
        (
            "a room whose directions turn in the hour: update from -16 to 16",
            rooms::turned(),
            3904.0,
            16.0,
            rooms::turned_given(),
        ),
        (
            "a room with terms of either sign in each direction: update to 16",
            rooms::either_sign(),
            2280.0,
            16.0,
            rooms::either_sign_given(),
        ),
        (
            "a room whose terms have other sums in another order: update to 16",
            rooms::in_order(),
            2224.0,
            16.0,
            rooms::in_order_given(),
        ),
        (
            "a room with walls alone: update to -16",
            rooms::walls(),
            -2304.0,
            -16.0,
            rooms::walls_given(),
        ),
    ] {
        print_update(rt, title, &room, power, air, given)?;
    }
    Ok(())
}

// The level room's hours from 0 toward a setpoint of 16 or -16, `kilowatt_hours` being the demand, each with the `part` of 2304 W that
// is left.
fn print_hours(
    rt: &impl Print,
    heat: f64,
    cool: f64,
    kilowatt_hours: f64,
    rows: &[(&str, Meeting, f64)],
) -> failure::Result<()> {
    let room = rooms::level();
    let head = room.head();
    let zone = ZoneRead::read(&head)?;
    let conditions = conditions_of(heat, cool);
    for (title, meeting, part) in rows {
        println!(rt; "{title}")?;
        let step = zone.hour_step(room.before(), &conditions, *meeting);
        let (demand, balance) = step.answer.map_err(Refusal::from)?;
        let both = demand.space_heat_demand + demand.space_cool_demand;
        decimals(rt, "  heating and cooling, kWh", both, kilowatt_hours)?;
        print_after(rt, &room, step.state, *part * 16.0)?;
        print_given(rt, balance, rooms::level_given(*part))?;
    }
    Ok(())
}

fn print_heated(rt: &impl Print) -> failure::Result<()> {
    print_hours(
        rt,
        16.0,
        HOT,
        2304.0 / 1000.0,
        &[
            (
                "the room at 0: hour step to 16, version 1",
                Meeting::unlimited(1),
                1.0,
            ),
            ("version 2", Meeting::unlimited(2), 1.0),
            (
                "version 3, limits of 1e7",
                Meeting::limited(MOST, MOST),
                1.0,
            ),
            (
                "version 3, heating limit 1152 W: it holds",
                Meeting::limited(1152.0, 0.0),
                0.5,
            ),
            (
                "version 3, heating limit 0",
                Meeting::limited(0.0, 0.0),
                0.0,
            ),
        ],
    )
}

// By the temperatures after the hour it would be upwards at the floor, and downwards at the ceilings.
fn print_cooled(rt: &impl Print) -> failure::Result<()> {
    print_hours(
        rt,
        COLD,
        -16.0,
        -2304.0 / 1000.0,
        &[
            (
                "the room at 0: hour step to -16, version 1",
                Meeting::unlimited(1),
                -1.0,
            ),
            ("version 2", Meeting::unlimited(2), -1.0),
            (
                "version 3, limits of 1e7",
                Meeting::limited(MOST, MOST),
                -1.0,
            ),
            (
                "version 3, cooling limit 576 W: it holds",
                Meeting::limited(0.0, 576.0),
                -0.25,
            ),
        ],
    )
}

pub fn print_rooms(rt: &impl Print) -> failure::Result<()> {
    print_updates(rt)?;
    print_heated(rt)?;
    print_cooled(rt)
}
