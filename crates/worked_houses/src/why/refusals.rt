// Hours that the demand refuses, each asked for its demand and for its reason: the same number and index, before any reason. A fixed rate the demand refuses
// by itself, 8, and the reason's refusals are those that they were.
use crate::bytes::{CONDITIONS, Hour};
use crate::failure;
use crate::refusal::{Answer, Cause, Refusal};
use crate::table::row;
use crate::why::answers::why;
use crate::why::room::{Room, hour_of};
use crate::zone_read::ZoneRead;
use big_endian::write_f64_be;
use std::io;
use zone::State;
use zone::ZoneTemperatureControlBasis::Air;

// A node less than the room has.
const TOO_FEW: usize = 2;

// Places in an hour's conditions: the rate code, the second rate and the element's external temperature.
const RATE_CODE: usize = 96;

const SECOND_RATE: usize = 105;

const EXTERNAL: usize = 113;

// What the demand refuses, and what the reason does.
#[derive(Clone, Copy)]
struct Expected {
    demand: Refusal,
    reason: Refusal,
}

fn print_each(
    rt: &impl Print,
    title: &str,
    zone: &ZoneRead,
    before: State,
    conditions: &[u8],
    expected: Expected,
) -> io::Result<()> {
    let Expected { demand, reason } = expected;
    let came = zone.demand(before, conditions).map(|_| "a demand");
    println!(rt; "{title}")?;
    row(rt, "  demand", Answer(came), Answer(Err(demand)))?;
    why(rt, "  reason", zone, before, conditions, Err(reason))
}

fn print_both(
    rt: &impl Print,
    title: &str,
    zone: &ZoneRead,
    before: State,
    conditions: &[u8],
    expected: Refusal,
) -> io::Result<()> {
    let both = Expected {
        demand: expected,
        reason: expected,
    };
    print_each(rt, title, zone, before, conditions, both)
}

// A room with these bytes as its conditions.
fn print_conditions(
    rt: &impl Print,
    title: &str,
    room: Room,
    conditions: &[u8],
    expected: Refusal,
) -> failure::Result<()> {
    let head = room.head();
    let zone = ZoneRead::read(&head)?;
    print_both(rt, title, &zone, room.before(), conditions, expected)?;
    Ok(())
}

fn usual() -> Hour {
    hour_of(18.0, 25.0, 23.0)
}

// The room's zone with another useful area and so many elements, and a node too few. A zone that its record makes bad is
// tested before the state.
fn print_records(rt: &impl Print) -> failure::Result<()> {
    let room = Room::warm();
    let head = room.head();
    let conditions = usual().conditions();
    let before = State {
        nodes: TOO_FEW,
        temps: [0.0; 121],
    };
    for (title, useful_area, count, cause) in [
        (
            "a zone without useful area, and a node too few",
            0.0,
            1,
            Cause::ZoneValue,
        ),
        ("and without elements", 0.0, 0, Cause::Structure),
        (
            "the zone as it is, a node too few",
            room.useful_area,
            1,
            Cause::StateInvalid,
        ),
    ] {
        let mut zone = ZoneRead::read(&head)?;
        zone.zone.useful_area = useful_area;
        zone.zone.count = count;
        print_both(rt, title, &zone, before, &conditions, cause.at(0))?;
    }
    Ok(())
}

fn print_hours(rt: &impl Print, rows: &[(&str, Room, Hour, Cause)]) -> failure::Result<()> {
    for (title, room, hour, cause) in rows {
        print_conditions(rt, title, *room, &hour.conditions(), cause.at(0))?;
    }
    Ok(())
}

// The element's external temperature is 101, the rate code this.
fn with_hot_element(code: u8) -> [u8; CONDITIONS] {
    let mut conditions = usual().conditions();
    write_f64_be(&mut conditions, EXTERNAL, 101.0);
    conditions[RATE_CODE] = code;
    conditions
}

// Bytes that no hour gives.
fn print_bytes(rt: &impl Print) -> failure::Result<()> {
    let warm = Room::warm();
    let mut fixed = usual().with_fixed_rate(0.0).conditions();
    fixed[SECOND_RATE] = 128;
    print_conditions(
        rt,
        "the element at 101",
        warm,
        &with_hot_element(1),
        Cause::ConditionsValue.at(1),
    )?;
    print_conditions(
        rt,
        "and rate code 2",
        warm,
        &with_hot_element(2),
        Cause::ConditionsCode.at(0),
    )?;
    print_conditions(
        rt,
        "a fixed rate, and -0.0 behind it",
        warm,
        &fixed,
        Cause::ConditionsCode.at(0),
    )
}

fn print_short(rt: &impl Print, conditions: &[u8; CONDITIONS]) -> failure::Result<()> {
    let short = &conditions[..CONDITIONS - 1];
    let expected = Cause::ConditionsSize.at(0);
    print_conditions(rt, "a byte too few", Room::warm(), short, expected)
}

fn print_state_and_conditions(rt: &impl Print) -> failure::Result<()> {
    let too_hot = Room::at(Air, 1000000.5, 27.0);
    let supply = usual().with_supply(101.0);
    print_hours(
        rt,
        &[(
            "the surface above a million",
            too_hot,
            usual(),
            Cause::StateInvalid,
        )],
    )?;
    print_short(rt, &usual().conditions())?;
    print_hours(
        rt,
        &[(
            "a supply at 101",
            Room::warm(),
            supply,
            Cause::ConditionsValue,
        )],
    )?;
    print_bytes(rt)
}

// An hour without a choice of rates: with this rate twice, and with the fixed rate, which the demand refuses before it looks at anything else of the hour.
fn print_no_choice(
    rt: &impl Print,
    title: &str,
    room: Room,
    hour: Hour,
    rate: f64,
    cause: Cause,
) -> failure::Result<()> {
    let twice = hour.with_rates(rate, rate).conditions();
    let fixed = hour.with_fixed_rate(rate).conditions();
    let reason = cause.at(0);
    let apart = Expected {
        demand: Cause::ConditionsCode.at(0),
        reason,
    };
    let head = room.head();
    let zone = ZoneRead::read(&head)?;
    print_both(rt, title, &zone, room.before(), &twice, reason)?;
    let title = "with a fixed rate";
    print_each(rt, title, &zone, room.before(), &fixed, apart)?;
    Ok(())
}

// Each with rates that leave no choice too, whatever the temperatures are.
fn print_setpoints(rt: &impl Print) -> failure::Result<()> {
    let warm = Room::warm();
    let same = "with target and windows open 0";
    for (title, hour, cause) in [
        (
            "setpoints 26/25",
            hour_of(26.0, 25.0, 26.0),
            Cause::CoolingBelowHeating,
        ),
        (
            "24/25, ventilation 23",
            hour_of(24.0, 25.0, 23.0),
            Cause::VentilationBelowHeating,
        ),
    ] {
        print_hours(rt, &[(title, warm, hour, cause)])?;
        print_no_choice(rt, same, warm, hour, 0.0, cause)?;
    }
    Ok(())
}

// A surface that holds nothing and hardly any useful area: beside 2.5 W/K no capacity is left, and gains have no place to go.
fn bare(useful_area: f64) -> Room {
    Room {
        area: 1.0,
        k: 0.0,
        useful_area,
        ..Room::warm()
    }
}

fn print_solves(rt: &impl Print) -> failure::Result<()> {
    print_hours(
        rt,
        &[
            ("no capacity, no loss", bare(1e-20), usual(), Cause::Divisor),
            (
                "hardly any, and 1e7 W of other systems",
                bare(0.001),
                usual().with_gains(1e7),
                Cause::Temperature,
            ),
        ],
    )
}

// Hardly any useful area: the greatest heating and cooling do not move the temperature. With a rate of 1 free is 21.
fn print_no_effect(rt: &impl Print) -> failure::Result<()> {
    let room = Room {
        useful_area: 1e-12,
        ..Room::warm()
    };
    for (title, hour) in [
        (
            "heating without effect: no choice of rates",
            hour_of(22.0, 25.0, 23.0),
        ),
        (
            "cooling without effect: no choice of rates",
            hour_of(18.0, 20.0, 23.0),
        ),
    ] {
        print_no_choice(rt, title, room, hour, 1.0, Cause::NoEffect)?;
    }
    print_hours(
        rt,
        &[
            (
                "free not above ventilation setpoint",
                room,
                hour_of(18.0, 20.0, 23.0).with_rates(1.0, 4.0),
                Cause::NoEffect,
            ),
            (
                "still above",
                room,
                hour_of(10.0, 17.0, 20.0).with_rates(1.0, 4.0),
                Cause::NoEffect,
            ),
        ],
    )
}

pub fn print_refusals(rt: &impl Print) -> failure::Result<()> {
    print_records(rt)?;
    print_state_and_conditions(rt)?;
    print_setpoints(rt)?;
    print_solves(rt)?;
    print_no_effect(rt)
}
