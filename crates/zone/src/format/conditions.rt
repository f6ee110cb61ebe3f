// The record of an hour's conditions.
use crate::record::building_element::ElementHour;

// A fixed air change rate, or a target with the rate of open windows. The enum, a field of the conditions, is one of the forms of Specification, Forms that
// are kept.
#[derive(Clone, Copy)]
pub enum AirChangesPerHourArgument {
    Cooling(f64),
    TargetAndWindowsOpen(f64, f64),
}

// Whether an hour may have the fixed rate, code 0. A call's may not, and is refused with 8; one that is written already is judged as it stands, and the
// reason for its rate is still told.
#[derive(Clone, Copy)]
pub enum FixedRate {
    Retired,
    StillTaken,
}

// What the bytes of an hour say. The names are those of the arguments of `space_heat_cool_demand`; a zone's elements have the first of `elements`.
#[derive(Clone, Copy)]
pub struct Conditions {
    pub delta_t_h: f64,
    pub temp_ext_air: f64,
    pub gains_internal: f64,
    pub gains_solar: f64,
    pub frac_convective_heat: f64,
    pub frac_convective_cool: f64,
    pub temp_setpnt_heat: f64,
    pub temp_setpnt_cool: f64,
    pub temp_setpnt_cool_vent: f64,
    pub avg_air_supply_temp: f64,
    pub gains_heat_cool_convective: f64,
    pub gains_heat_cool_radiative: f64,
    pub ach_args: AirChangesPerHourArgument,
    pub elements: [ElementHour; 24],
}
