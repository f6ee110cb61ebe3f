// Ventilation: its heat transfer coefficient, and the air change rate that reaches a temperature.
ghost use Rattle.std.specs.Prelude.{◌≡◌};
ghost use Rattle.zone.specs.Physics.Ventilation.{
  calc_vent_heat_transfer_coeff,
  or_minimum,
  raised_to,
  capped_at,
  ach_req_to_reach_temperature,
};

use crate::record::material_properties::{air_properties, density_kg_per_m3};
use crate::record::units::SECONDS_PER_HOUR;

// H_ve, in W / K.
pub fn calc_vent_heat_transfer_coeff(volume: f64, air_changes_per_hour: f64) -> f64
    ensures { result ≡ calc_vent_heat_transfer_coeff volume air_changes_per_hour }
{
    let q_ve = air_changes_per_hour * volume / SECONDS_PER_HOUR;
    let air = air_properties();
    density_kg_per_m3(air) * air.specific_heat_capacity * q_ve
}

// A NaN becomes the minimum.
#[tactic(auto, using(crate::proofs::Laws::Nan::differs_is), unfolding(crate::specs::Physics::Ventilation::or_minimum))]
fn or_minimum(ach: f64, ach_min: f64) -> f64
    ensures { result ≡ or_minimum ach ach_min }
{
    if ach.is_nan() { ach_min } else { ach }
}

// This and `capped_at` are not `max` and `min`, which may give the other one of two zeros.
#[tactic(auto, unfolding(crate::specs::Physics::Ventilation::raised_to))]
fn raised_to(ach: f64, ach_min: f64) -> f64
    ensures { result ≡ raised_to ach ach_min }
{
    if ach < ach_min { ach_min } else { ach }
}

#[tactic(auto, unfolding(crate::specs::Physics::Ventilation::capped_at))]
fn capped_at(ach: f64, ach_max: f64) -> f64
    ensures { result ≡ capped_at ach ach_max }
{
    if ach_max < ach { ach_max } else { ach }
}

// The air change rate with which the zone reaches the target, between those of two solved temperatures.
#[tactic(auto, unfolding(crate::specs::Physics::Ventilation::ach_req_to_reach_temperature))]
pub fn ach_req_to_reach_temperature(
    temp_target: f64,
    ach_min: f64,
    ach_max: f64,
    temp_ach_min: f64,
    temp_ach_max: f64,
    temp_int_air_min: f64,
    temp_int_air_max: f64,
    temp_supply: f64,
) -> f64
    ensures { result ≡ ach_req_to_reach_temperature temp_target ach_min ach_max temp_ach_min temp_ach_max temp_int_air_min temp_int_air_max temp_supply }
{
    if temp_ach_min <= temp_ach_max
        || temp_int_air_min <= temp_int_air_max
        || temp_int_air_min <= temp_supply
    {
        return ach_min;
    }
    let frac_interp = (temp_target - temp_ach_min) / (temp_ach_max - temp_ach_min);
    let temp_int_air_req = temp_int_air_min + frac_interp * (temp_int_air_max - temp_int_air_min);
    if temp_int_air_req <= temp_supply {
        return ach_max;
    }
    let ach_req = (ach_max
        * frac_interp
        * ((temp_int_air_max - temp_supply) / (temp_int_air_min - temp_supply))
        + ach_min * (1.0 - frac_interp))
        / ((temp_int_air_req - temp_supply) / (temp_int_air_min - temp_supply));
    let number = or_minimum(ach_req, ach_min);
    let raised = raised_to(number, ach_min);
    capped_at(raised, ach_max)
}
