// A zone, hour by hour: heads, start-up, operative temperature, demand, why it is what it is, update and hour step.
// What the layers above may use is exported here, and each record that a definition speaks of.
#![tactic(auto)]

mod calls;
mod check;
mod format;
mod hour;
mod physics;
mod promised;
mod record;

pub use calls::start_up::init_node_temps;
pub use calls::state::{Demand, Load, Reason, Reply, State};
pub use check::versions::{has_limits, hour_version};
pub use check::zone_tests::zone_test;
pub use format::conditions::{AirChangesPerHourArgument, Conditions, FixedRate};
pub use format::head::read_head;
pub use format::layout::{FIRST_ELEMENT_HOUR, FIRST_RATE, RATE_CODE, SECOND_RATE};
pub use format::limits::{Limits, read_limits};
pub use format::temperatures::read_temperatures;
pub use hour::hourly_calculation::HourlyCalculation;
pub use hour::load::HeatCoolLoad;
pub use hour::windows::VentilationChoice;
pub use physics::balance::{
    HeatBalance, HeatBalanceAirNode, HeatBalanceExternalBoundary, HeatBalanceInternalBoundary,
};
pub use physics::operative::operative_of;
pub use physics::ventilation::{ach_req_to_reach_temperature, calc_vent_heat_transfer_coeff};
pub use promised::promises;
pub use record::building_element::{
    Coefficients, Element, ElementHour, HeatFlowDirection, Kind, SurfaceConvection, h_ci,
    h_pli_transparent, standard_coefficients,
};
pub use record::material_properties::MaterialProperties;
pub use record::refusal::Refusal;
pub use record::zone_record::{Zone, ZoneTemperatureControlBasis};
