// The rows of Specification, House P.
use crate::bytes::Hour;
use crate::failure;
use crate::house_p::house::{HOUSE_P, SINGULAR, hour_of, start};
use crate::refusal::Cause;
use crate::replies::number_of;
use crate::table::{row, value};
use crate::zone_read::ZoneRead;
use std::io;
use zone::State;

fn print_temps(rt: &impl Print, state: State) -> io::Result<()> {
    value(rt, "  external surface", state.temps[0], 20.0, "20")?;
    value(rt, "  internal surface", state.temps[1], 20.0, "20")?;
    value(rt, "  air", state.temps[2], 20.0, "20")
}

fn print_start_up(rt: &impl Print, zone: &ZoneRead) -> failure::Result<()> {
    let start = zone.start_up();
    row(rt, "start-up, refusal", number_of(&start), 0)?;
    print_temps(rt, start?)?;
    Ok(())
}

fn print_free(rt: &impl Print, zone: &ZoneRead) -> failure::Result<()> {
    let conditions = hour_of(20.0, 24.0).conditions();
    let (after, _) = zone.update(start(), &conditions, 0.0, 0.0, 0.0)?;
    row(rt, "free temperatures, nodes", after.nodes, 3)?;
    print_temps(rt, after)?;
    Ok(())
}

// What is asked, what is expected, and that in words.
type Expected = (&'static str, f64, &'static str);

// The demand of an hour with these setpoints.
fn print_demand(
    rt: &impl Print,
    zone: &ZoneRead,
    hour: Hour,
    heating: Expected,
    cooling: Expected,
) -> failure::Result<()> {
    let demand = zone.demand(start(), &hour.conditions())?;
    let (asked, expected, words) = heating;
    value(rt, asked, demand.space_heat_demand, expected, words)?;
    let (asked, expected, words) = cooling;
    value(rt, asked, demand.space_cool_demand, expected, words)?;
    Ok(())
}

fn print_demands(rt: &impl Print, zone: &ZoneRead) -> failure::Result<()> {
    print_demand(
        rt,
        zone,
        hour_of(20.0, 24.0),
        ("setpoints 20/24, heating", 0.0, "0"),
        ("setpoints 20/24, cooling", 0.0, "0"),
    )?;
    print_demand(
        rt,
        zone,
        hour_of(21.0, 24.0),
        ("setpoints 21/24, heating", 144.0 / 1000.0, "144/1000"),
        ("setpoints 21/24, cooling", 0.0, "0"),
    )?;
    print_demand(
        rt,
        zone,
        hour_of(15.0, 19.0),
        ("setpoints 15/19, heating", 0.0, "0"),
        ("setpoints 15/19, cooling", -144.0 / 1000.0, "-144/1000"),
    )
}

fn print_refused(
    rt: &impl Print,
    asked: &str,
    zone: &ZoneRead,
    hour: Hour,
    expected: Cause,
) -> io::Result<()> {
    let demand = zone.demand(start(), &hour.conditions());
    row(rt, asked, number_of(&demand), expected as u32)
}

pub fn print_zone(rt: &impl Print) -> failure::Result<()> {
    let head = HOUSE_P.head();
    let read = ZoneRead::read(&head);
    row(rt, "head, refusal", number_of(&read), 0)?;
    let zone = read?;
    row(rt, "head, bytes", zone.length, head.len())?;
    print_start_up(rt, &zone)?;
    print_free(rt, &zone)?;
    print_demands(rt, &zone)?;
    print_refused(
        rt,
        "setpoints 22/21, refusal",
        &zone,
        hour_of(22.0, 21.0),
        Cause::CoolingBelowHeating,
    )?;
    print_refused(
        rt,
        "no capacity, no loss, refusal",
        &ZoneRead::read(&SINGULAR.head())?,
        hour_of(20.0, 24.0),
        Cause::Divisor,
    )?;
    Ok(())
}

// Operative and air temperature both 24 at the lower rate and 16 at the upper, supply 8.
pub fn print_rates(rt: &impl Print) -> io::Result<()> {
    for (asked, target, ach_min, ach_max, expected, words) in [
        ("rates 1 to 5, target 24", 24.0, 1.0, 5.0, 1.0, "1"),
        ("rates 1 to 5, target 16", 16.0, 1.0, 5.0, 5.0, "5"),
        ("rates 1 to 5, target 8", 8.0, 1.0, 5.0, 5.0, "5"),
        ("rates 2 to 1, target 24", 24.0, 2.0, 1.0, 1.0, "1"),
    ] {
        let rate = zone::ach_req_to_reach_temperature(
            target, ach_min, ach_max, 24.0, 16.0, 24.0, 16.0, 8.0,
        );
        value(rt, asked, rate, expected, words)?;
    }
    Ok(())
}
