// The load that is wanted, and the demand by interpolation between the free and the loaded temperature.
ghost use Rattle.std.specs.Prelude.{◌≡◌, not, ◌&&◌, []};
ghost use Rattle.std.specs.Float.Ieee.{lt};
ghost use Rattle.solver.specs.F64.{◌-ᶠ◌, ◌*ᶠ◌, ◌/ᶠ◌, decimal};
ghost use Rattle.solver.specs.Closeness.{close_in_demand};
ghost use Rattle.zone.specs.Hour.Demand.{wanted, frac_upper, interp_heat_cool_demand, demand_record};
ghost use Rattle.zone.specs.Answers.{answered};

use crate::calls::state::Demand;
use crate::format::conditions::Conditions;
use crate::hour::solves::{frac_conv_gains_heat_cool_of, gains_heat_cool_of};
use crate::hour::windows::VentilationChoice;
use crate::record::refusal::Refusal;
use crate::record::units::WATTS_PER_KILOWATT;
use solver::close_in_demand;

// The setpoint to be reached and the load with which the second calculation is made, with its convective fraction.
#[derive(Clone, Copy)]
pub struct HeatCoolLoad {
    pub setpoint: f64,
    pub load: f64,
    pub fraction: f64,
}

fn above(temp_free: f64, temp_setpnt_cool: f64) -> bool
    ensures { result ≡ (lt temp_setpnt_cool temp_free && not (close_in_demand temp_free temp_setpnt_cool)) }
{
    temp_setpnt_cool < temp_free && !close_in_demand(temp_free, temp_setpnt_cool)
}

// The second test is against the cooling setpoint, as in the original.
fn below(temp_free: f64, temp_setpnt_heat: f64, temp_setpnt_cool: f64) -> bool
    ensures { result ≡ (lt temp_free temp_setpnt_heat && not (close_in_demand temp_free temp_setpnt_cool)) }
{
    temp_free < temp_setpnt_heat && !close_in_demand(temp_free, temp_setpnt_cool)
}

// The load is ten watts for each square metre.
#[tactic(auto, unfolding(crate::specs::Hour::Demand::wanted))]
pub fn wanted_of(useful_area: f64, h: &Conditions, temp_free: f64) -> Option<HeatCoolLoad>
    ensures { result ≡ wanted useful_area h.now temp_free }
{
    if above(temp_free, h.temp_setpnt_cool) {
        return Some(HeatCoolLoad {
            setpoint: h.temp_setpnt_cool,
            load: -10.0 * useful_area,
            fraction: h.frac_convective_cool,
        });
    }
    if below(temp_free, h.temp_setpnt_heat, h.temp_setpnt_cool) {
        return Some(HeatCoolLoad {
            setpoint: h.temp_setpnt_heat,
            load: 10.0 * useful_area,
            fraction: h.frac_convective_heat,
        });
    }
    None
}

// The convective fraction of the gains with the load.
#[tactic(auto, unfolding(crate::specs::Hour::Demand::frac_upper))]
pub fn frac_upper(h: &Conditions, load: f64, fraction: f64) -> f64
    ensures { result ≡ frac_upper h.now load fraction }
{
    let gains = gains_heat_cool_of(h);
    let frac_conv = frac_conv_gains_heat_cool_of(h);
    (gains * frac_conv + load * fraction) / (gains + load)
}

fn kwh_of(delta_t_h: f64, setpoint: f64, load: f64, temp_free: f64, temp_upper: f64) -> f64
    ensures { result ≡ load *ᶠ (setpoint -ᶠ temp_free) /ᶠ (temp_upper -ᶠ temp_free) /ᶠ decimal 1000 0 *ᶠ delta_t_h }
{
    load * (setpoint - temp_free) / (temp_upper - temp_free) / WATTS_PER_KILOWATT * delta_t_h
}

// By interpolation between the free and the loaded temperature.
#[tactic(auto, unfolding(crate::specs::Hour::Demand::interp_heat_cool_demand))]
pub fn interp_heat_cool_demand(
    delta_t_h: f64,
    setpoint: f64,
    load: f64,
    temp_free: f64,
    temp_upper: f64,
) -> Result<f64, Refusal>
    ensures { answered result ≡ interp_heat_cool_demand delta_t_h setpoint load temp_free temp_upper }
{
    if close_in_demand(temp_upper - temp_free, 0.0) {
        return Err(Refusal::NoEffect);
    }
    if close_in_demand(setpoint, temp_free) {
        return Ok(0.0);
    }
    Ok(kwh_of(delta_t_h, setpoint, load, temp_free, temp_upper))
}

// Heating where positive, cooling where negative.
#[tactic(auto, unfolding(crate::specs::Hour::Demand::demand_record))]
pub fn demand_record(kwh: f64, v: VentilationChoice) -> Demand
    ensures { result ≡ demand_record kwh v }
{
    let mut space_heat_demand = 0.0;
    let mut space_cool_demand = 0.0;
    if kwh < 0.0 {
        space_cool_demand = kwh;
    } else if 0.0 < kwh {
        space_heat_demand = kwh;
    }
    Demand {
        space_heat_demand,
        space_cool_demand,
        ach_cooling: v.ach_cooling,
        ach_to_trigger_heating: v.ach_to_trigger_heating,
    }
}
