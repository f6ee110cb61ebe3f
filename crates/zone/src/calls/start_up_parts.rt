// What start-up begins with, and when its temperatures have settled.
ghost use Rattle.std.specs.Prelude.{◌≡◌, map};
ghost use Rattle.zone.specs.Calls.State.{slots_of};
ghost use Rattle.zone.specs.Calls.StartUp.{first_hour, start_up_conditions, temp_start, start_state, all_close, close};

use crate::format::conditions::{AirChangesPerHourArgument, Conditions};
use crate::physics::node_layout::{to_nodes, to_slots};
use crate::record::building_element::{Element, ElementHour};
use crate::record::zone_record::Zone;
use solver::isclose;
use std::array::from_fn;

// The head's first-hour parts.
fn first_hours(elements: &[Element; 24]) -> [ElementHour; 24]
    ensures { result ≡ map first_hour elements.now }
{
    from_fn(|e| elements[e].first_hour)
}

// Start-up's conditions, with the head's first-hour parts.
pub fn start_up_conditions(z: &Zone) -> Conditions
    ensures { result ≡ start_up_conditions z.now }
{
    Conditions {
        delta_t_h: 8760.0,
        temp_ext_air: z.temp_ext_air_init,
        gains_internal: 0.0,
        gains_solar: 0.0,
        frac_convective_heat: 0.4,
        frac_convective_cool: 0.4,
        temp_setpnt_heat: z.temp_setpnt_init,
        temp_setpnt_cool: z.temp_setpnt_init,
        temp_setpnt_cool_vent: z.temp_setpnt_cool_vent_init,
        avg_air_supply_temp: z.temp_ext_air_init,
        gains_heat_cool_convective: 0.0,
        gains_heat_cool_radiative: 0.0,
        ach_args: AirChangesPerHourArgument::Cooling(0.0),
        elements: first_hours(&z.building_elements),
    }
}

fn temp_start(z: &Zone) -> f64
    ensures { result ≡ temp_start z.now }
{
    (z.temp_ext_air_init + z.temp_setpnt_init) / 2.0
}

// The temperatures before the first pass, in slots.
#[tactic(auto, unfolding(crate::specs::Calls::State::slots_of))]
pub fn start_slots(z: &Zone) -> [f64; 121]
    ensures { result ≡ slots_of z.now (start_state z.now) }
{
    let temp = temp_start(z);
    let temps = [temp; 121];
    to_slots(z, &temps)
}

fn all_close(a: &[f64], b: &[f64]) -> bool
    ensures { result ≡ all_close a.now b.now }
{
    a.iter().zip(b).all(|(x, y)| isclose(*x, *y))
}

#[tactic(auto, unfolding(crate::specs::Calls::StartUp::close, crate::specs::Calls::State::state_of))]
pub fn close(z: &Zone, before: &[f64; 121], after: &[f64; 121]) -> bool
    ensures { result ≡ close z.now before.now after.now }
{
    let new_temps = to_nodes(z, after);
    let old_temps = to_nodes(z, before);
    all_close(&new_temps, &old_temps)
}
