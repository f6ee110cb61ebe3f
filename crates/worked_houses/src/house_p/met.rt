// What is expected of an hour of House P from balance, and what came, row by row.
// Specification, House P; Limits of the plant.
use crate::failure;
use crate::house_p::house::start;
use crate::limits::Meeting;
use crate::refusal::Refusal;
use crate::table::decimals;
use crate::zone_read::ZoneRead;
use std::io;
use zone::{Demand, HeatBalance, State};

// The demand in kWh, the temperatures above 20, the total gains and what of them goes to the air.
#[derive(Clone, Copy)]
pub struct Met {
    pub heating: f64,
    pub cooling: f64,
    pub outer: f64,
    pub inner: f64,
    pub air: f64,
    pub gains: f64,
    pub to_air: f64,
}

// Row by row, since each value is in a field of its own: a table of them would be longer.
impl Met {
    // demand is reported uncut
    fn print_demand(self, rt: &impl Print, came: Demand) -> io::Result<()> {
        decimals(rt, "  heating, kWh", came.space_heat_demand, self.heating)?;
        decimals(rt, "  cooling, kWh", came.space_cool_demand, self.cooling)
    }

    fn print_temperatures(self, rt: &impl Print, came: State) -> io::Result<()> {
        decimals(rt, "  external surface", came.temps[0], 20.0 + self.outer)?;
        decimals(rt, "  internal surface", came.temps[1], 20.0 + self.inner)?;
        decimals(rt, "  air", came.temps[2], 20.0 + self.air)
    }

    // The balance is that of the limited power.
    fn print_gains(self, rt: &impl Print, came: HeatBalance) -> io::Result<()> {
        decimals(
            rt,
            "  total gains, W",
            came.external_boundary.heating_or_cooling_system_gains,
            self.gains,
        )?;
        decimals(
            rt,
            "  of them to the air",
            came.air_node.heating_or_cooling_system_gains,
            self.to_air,
        )
    }

    // Where the air's part of the gains goes, by the temperatures above 20.
    fn print_losses(self, rt: &impl Print, came: HeatBalance) -> io::Result<()> {
        decimals(
            rt,
            "  to warm the air",
            came.air_node.energy_to_change_internal_temperature,
            -100.0 * self.air,
        )?;
        decimals(
            rt,
            "  by the bridges",
            came.air_node.thermal_bridges,
            -43.0625 * self.air,
        )?;
        decimals(
            rt,
            "  by the fabric",
            came.air_node.fabric_heat_loss,
            -2.5 * (self.air - self.inner),
        )
    }
}

// What is printed of an hour beside its demand and its gains.
#[derive(Clone, Copy, PartialEq, Eq)]
pub enum Detail {
    NoMore,
    Temperatures,
    TemperaturesAndLosses,
}

pub fn print_hour(
    rt: &impl Print,
    zone: &ZoneRead,
    conditions: &[u8],
    meeting: Meeting,
    expected: Met,
    detail: Detail,
) -> failure::Result<()> {
    let step = zone.hour_step(start(), conditions, meeting);
    let (demand, balance) = step.answer.map_err(Refusal::from)?;
    expected.print_demand(rt, demand)?;
    if detail != Detail::NoMore {
        expected.print_temperatures(rt, step.state)?;
    }
    expected.print_gains(rt, balance)?;
    if detail == Detail::TemperaturesAndLosses {
        expected.print_losses(rt, balance)?;
    }
    Ok(())
}
