// What the choice of an air change rate looks at: temperatures, the rates that reach them, whether windows cool and whether they cool enough; and what it
// gives.
ghost use Rattle.std.specs.Prelude.{◌≡◌, not, ◌&&◌, []};
ghost use Rattle.std.specs.Float.Ieee.{lt};
ghost use Rattle.solver.specs.Closeness.{close_in_windows_test};
ghost use Rattle.zone.specs.Inner.Demand.{rate_to_reach, windows_cool};

use crate::format::conditions::Conditions;
use crate::physics::ventilation::ach_req_to_reach_temperature;
use solver::close_in_windows_test;

// Of a calculation's temperatures, what the choice of a rate looks at.
#[derive(Clone, Copy)]
pub struct ZoneTemperatures {
    pub temp_control: f64,
    pub temp_int_air: f64,
}

// The free temperature, the chosen rate and the rate that triggers heating.
#[derive(Clone, Copy)]
pub struct VentilationChoice {
    pub temp_free: f64,
    pub ach_cooling: f64,
    pub ach_to_trigger_heating: Option<f64>,
}

// The rate that brings the control temperature to a wanted one. (Target rate and windows' are two numbers in the conditions and in
// `ach_req_to_reach_temperature`, which is exported: a struct would be packed and unpacked only to pass through.)
#[tactic(auto, unfolding(crate::specs::Inner::Demand::rate_to_reach))]
pub fn ach_to_reach(
    h: &Conditions,
    target: f64,
    windows: f64,
    free: ZoneTemperatures,
    vent_max: ZoneTemperatures,
    temperature: f64,
) -> f64
    ensures { result ≡ rate_to_reach h.now target windows free vent_max temperature }
{
    ach_req_to_reach_temperature(
        temperature,
        target,
        windows,
        free.temp_control,
        vent_max.temp_control,
        free.temp_int_air,
        vent_max.temp_int_air,
        h.avg_air_supply_temp,
    )
}

#[tactic(auto, unfolding(crate::specs::Inner::Demand::windows_cool))]
pub fn windows_cool(h: &Conditions, free: ZoneTemperatures, vent_max: ZoneTemperatures) -> bool
    ensures { result ≡ windows_cool h.now free vent_max }
{
    vent_max.temp_control < free.temp_control
        && h.temp_setpnt_cool_vent < free.temp_control
        && h.avg_air_supply_temp < free.temp_int_air
}

// Too warm even with the rate that windows need.
pub fn above_cooling_setpoint(temp_extra: f64, temp_setpnt_cool: f64) -> bool
    ensures { result ≡ (lt temp_setpnt_cool temp_extra && not (close_in_windows_test temp_extra temp_setpnt_cool)) }
{
    temp_setpnt_cool < temp_extra && !close_in_windows_test(temp_extra, temp_setpnt_cool)
}
