// States, demands and heat balances in the flat arrays of C, which has no Option: a trigger is 0.0 or 1.0 there, with its rate.
ghost use Rattle.std.specs.Prelude.{◌≡◌};
ghost use Rattle.hem_zone.specs.Arrays.{state_in, demand_out, balance_out};

use zone::{Demand, HeatBalance, State};

// The state of which the first `nodes` temperatures count.
pub fn state_in(temps: &[f64; 121], nodes: u64) -> State
    ensures { result ≡ state_in temps.now nodes }
{
    State {
        nodes: nodes as usize,
        temps: *temps,
    }
}

// Heating, cooling, chosen rate, trigger 0.0 or 1.0, trigger rate (0.0 if none).
pub fn demand_out(d: Demand) -> [f64; 5]
    ensures { result ≡ demand_out d }
{
    let heating = d.space_heat_demand;
    let cooling = d.space_cool_demand;
    let ach = d.ach_cooling;
    match d.ach_to_trigger_heating {
        None => [heating, cooling, ach, 0.0, 0.0],
        Some(rate) => [heating, cooling, ach, 1.0, rate],
    }
}

// The 7 + (4 + 3) + 14 values in the order of the structs.
pub fn balance_out(b: HeatBalance) -> [f64; 28]
    ensures { result ≡ balance_out b }
{
    let air = b.air_node;
    let int = b.internal_boundary;
    let ext = b.external_boundary;
    [
        air.solar_gains,
        air.internal_gains,
        air.heating_or_cooling_system_gains,
        air.energy_to_change_internal_temperature,
        air.thermal_bridges,
        air.infiltration_ventilation,
        air.fabric_heat_loss,
        int.fabric_int_air_convective,
        int.fabric_int_sol,
        int.fabric_int_int_gains,
        int.fabric_int_heat_cool,
        int.fabric_int_air_convective_horizontal,
        int.fabric_int_air_convective_upwards,
        int.fabric_int_air_convective_downwards,
        ext.solar_gains,
        ext.internal_gains,
        ext.heating_or_cooling_system_gains,
        ext.thermal_bridges,
        ext.infiltration_ventilation,
        ext.fabric_ext_air_convective,
        ext.fabric_ext_air_radiative,
        ext.fabric_ext_sol,
        ext.fabric_ext_sky,
        ext.opaque_fabric_ext,
        ext.transparent_fabric_ext,
        ext.ground_fabric_ext,
        ext.ztc_fabric_ext,
        ext.ztu_fabric_ext,
    ]
}
