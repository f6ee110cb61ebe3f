// The room's temperatures by rate, and the rates of its demand: the rows of its hours go by them.
use crate::failure::{self, Failure};
use crate::table::decimals;
use crate::why::room::{AIR, Room, hour_of};
use crate::zone_read::ZoneRead;
use zone::ZoneTemperatureControlBasis::{self as Basis, Air, Operative};

// What is asked, by which temperature, at which rate, and what is expected.
type Row = (&'static str, Basis, f64, f64);

// The temperatures after an hour without demand.
pub fn print_rows(
    rt: &impl Print,
    title: &str,
    room: Room,
    supply: f64,
    rows: &[Row],
) -> failure::Result<()> {
    let head = room.head();
    let zone = ZoneRead::read(&head)?;
    let conditions = hour_of(18.0, 25.0, 23.0).with_supply(supply).conditions();
    println!(rt; "{title}")?;
    for (asked, basis, rate, expected) in rows {
        let (after, _) = zone.update(room.before(), &conditions, 0.0, 0.0, *rate)?;
        let came = match basis {
            Air => after.temps[AIR],
            Operative => zone.operative(after)?,
        };
        decimals(rt, asked, came, *expected)?;
    }
    Ok(())
}

// Half of the way from 27 to 19 is 23, three quarters of it are 21.
fn print_rates(rt: &impl Print) -> failure::Result<()> {
    let room = Room::warm();
    let head = room.head();
    let conditions = hour_of(21.0, 25.0, 23.0).conditions();
    let demand = ZoneRead::read(&head)?.demand(room.before(), &conditions)?;
    let Some(trigger) = demand.ach_to_trigger_heating else {
        return Err(Failure::NoTriggerRate);
    };
    println!(rt; "the room at 27, setpoints 21/25, ventilation 23")?;
    decimals(rt, "  rate found", demand.ach_cooling, 1.0)?;
    decimals(rt, "  rate that triggers heating", trigger, 2.0)?;
    Ok(())
}

pub fn print_temperatures(rt: &impl Print) -> failure::Result<()> {
    print_rows(
        rt,
        "the room at 27, supply 15, without demand",
        Room::warm(),
        15.0,
        &[
            ("  air, no ventilation", Air, 0.0, 27.0),
            ("  with one air change", Air, 1.0, 23.0),
            ("  with two", Air, 2.0, 21.0),
            ("  with four", Air, 4.0, 19.0),
        ],
    )?;
    print_rows(
        rt,
        "surface at 35 and air at 19, supply 15, without demand",
        Room::at(Operative, 35.0, 19.0),
        15.0,
        &[
            ("  air, no ventilation", Air, 0.0, 27.0),
            ("  with four", Air, 4.0, 19.0),
            ("  operative, no ventilation", Operative, 0.0, 29.0),
            ("  with one air change", Operative, 1.0, 26.0),
            ("  with four", Operative, 4.0, 23.0),
        ],
    )?;
    print_rows(
        rt,
        "surface at 19 and air at 35, supply 26, without demand",
        Room::at(Operative, 19.0, 35.0),
        26.0,
        &[
            ("  air, no ventilation", Air, 0.0, 27.0),
            ("  operative, no ventilation", Operative, 0.0, 25.0),
            ("  with four", Operative, 4.0, 24.5),
        ],
    )?;
    print_rates(rt)
}
