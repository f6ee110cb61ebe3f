// The warm and the cold hour: demand, then the hour step in version 1 and in version 2 from the same state.
use crate::chilled_ceiling::room::{
    CONDITIONS, COOLING_SETPOINT, HEATING_SETPOINT, Room, cold_hour, warm_hour,
};
use crate::failure;
use crate::limits::Meeting;
use crate::refusal::Refusal;
use crate::replies::number_of;
use crate::table::{holds, row, shown, value};
use crate::zone_read::ZoneRead;
use std::io;
use zone::{Demand, State};

// A distance that is no more than rounding, and one that the room's people notice.
pub const KEPT: f64 = 1e-9;

const MISSED: f64 = 0.1;

pub fn print_start<'a>(rt: &impl Print, head: &'a [u8]) -> failure::Result<Room<'a>> {
    let zone = ZoneRead::read(head)?;
    let start = zone.start_up();
    row(rt, "start-up, refusal", number_of(&start), 0)?;
    Ok(Room {
        zone,
        start: start?,
    })
}

// An hour of the room from its start, that was asked for its demand and is met in one way or another.
#[derive(Clone, Copy)]
pub struct Hour<'a> {
    room: &'a Room<'a>,
    conditions: [u8; CONDITIONS],
    pub asked: Demand,
}

impl<'a> Hour<'a> {
    pub fn ask(
        rt: &impl Print,
        room: &'a Room<'a>,
        conditions: [u8; CONDITIONS],
    ) -> failure::Result<Hour<'a>> {
        let asked = room.zone.demand(room.start, &conditions)?;
        shown(rt, "  heating, kWh", asked.space_heat_demand)?;
        shown(rt, "  cooling, kWh", asked.space_cool_demand)?;
        Ok(Hour {
            room,
            conditions,
            asked,
        })
    }
}

impl Hour<'_> {
    // Neither version nor limits change anything of the demand.
    fn print_demand(&self, rt: &impl Print, came: Demand) -> io::Result<()> {
        let asked = self.asked;
        for (name, came, asked) in [
            (
                "  heating, kWh",
                came.space_heat_demand,
                asked.space_heat_demand,
            ),
            (
                "  cooling, kWh",
                came.space_cool_demand,
                asked.space_cool_demand,
            ),
        ] {
            value(rt, name, came, asked, "as asked")?;
        }
        Ok(())
    }

    // The state after the hour.
    pub fn meet(&self, rt: &impl Print, meeting: Meeting) -> failure::Result<State> {
        let Room { zone, start } = self.room;
        let step = zone.hour_step(*start, &self.conditions, meeting);
        let (demand, _) = step.answer.map_err(Refusal::from)?;
        self.print_demand(rt, demand)?;
        Ok(step.state)
    }

    // The state after the hour with this power, by this fraction and at the rate that was asked.
    pub fn update(&self, power: f64, fraction: f64) -> Result<State, Refusal> {
        let Room { zone, start } = self.room;
        let share = if power == 0.0 {
            0.0
        } else {
            power * fraction / power
        };
        let rate = self.asked.ach_cooling;
        let (after, _) = zone.update(*start, &self.conditions, power, share, rate)?;
        Ok(after)
    }

    // The temperature under control after the hour in this version, printed with its distance from a setpoint.
    fn print_met(&self, rt: &impl Print, version: u64, setpoint: f64) -> failure::Result<f64> {
        println!(rt; "met in version {version}")?;
        let after = self.meet(rt, Meeting::unlimited(version))?;
        let temperature = self.room.zone.operative(after)?;
        shown(rt, "  operative temperature", temperature)?;
        shown(rt, "  from the setpoint", distance(temperature, setpoint))?;
        Ok(temperature)
    }
}

pub fn distance(a: f64, b: f64) -> f64 {
    (a - b).abs()
}

fn print_kept(rt: &impl Print, temperature: f64, setpoint: f64) -> io::Result<()> {
    let kept = distance(temperature, setpoint) < KEPT;
    holds(rt, "  the room keeps the setpoint", kept)
}

fn print_warm(rt: &impl Print, room: &Room) -> failure::Result<()> {
    println!(rt;
        "a warm hour, cooling setpoint 24, heating fraction 0.3, cooling fraction 0.7: asked"
    )?;
    let hour = Hour::ask(rt, room, warm_hour())?;
    let one = hour.print_met(rt, 1, COOLING_SETPOINT)?;
    holds(
        rt,
        "  the room is too warm",
        COOLING_SETPOINT + MISSED < one,
    )?;
    let two = hour.print_met(rt, 2, COOLING_SETPOINT)?;
    print_kept(rt, two, COOLING_SETPOINT)?;
    Ok(())
}

fn print_cold(rt: &impl Print, room: &Room) -> failure::Result<()> {
    println!(rt; "a cold hour, heating setpoint 21: asked")?;
    let hour = Hour::ask(rt, room, cold_hour())?;
    let one = hour.print_met(rt, 1, HEATING_SETPOINT)?;
    let two = hour.print_met(rt, 2, HEATING_SETPOINT)?;
    value(rt, "  operative temperature", two, one, "version 1's")?;
    print_kept(rt, two, HEATING_SETPOINT)?;
    Ok(())
}

pub fn print_hours(rt: &impl Print, room: &Room) -> failure::Result<()> {
    print_warm(rt, room)?;
    print_cold(rt, room)
}
