// The heat balance of a time step, in W. Its functions are, as their definitions, for any coefficients and any length of step,
// and a call gives them the standards' numbers and the hour's length.
ghost use Rattle.std.specs.Prelude.{◌≡◌, []};
ghost use Rattle.zone.specs.Physics.HeatBalance.{air_node, heat_balance};
ghost use Rattle.zone.specs.Inner.ConvectiveSums.{internal_boundary_from};
ghost use Rattle.zone.specs.Inner.FabricSums.{external_boundary_from};

use crate::format::conditions::Conditions;
use crate::physics::convection::{ConvectiveSums, convective_sums};
use crate::physics::fabric::{FabricSums, fabric_sums};
use crate::physics::ventilation::calc_vent_heat_transfer_coeff;
use crate::record::building_element::Coefficients;
use crate::record::zone_record::Zone;

// Gains of heating or cooling in W, and their convective fraction.
#[derive(Clone, Copy)]
pub struct HeatCoolGains {
    pub gains_heat_cool: f64,
    pub f_hc_c: f64,
}

#[derive(Clone, Copy)]
pub struct HeatBalanceAirNode {
    pub solar_gains: f64,
    pub internal_gains: f64,
    pub heating_or_cooling_system_gains: f64,
    pub energy_to_change_internal_temperature: f64,
    pub thermal_bridges: f64,
    pub infiltration_ventilation: f64,
    pub fabric_heat_loss: f64,
}

// The original's four, then the sums of the convective total's terms by direction of heat flow.
#[derive(Clone, Copy)]
pub struct HeatBalanceInternalBoundary {
    pub fabric_int_air_convective: f64,
    pub fabric_int_sol: f64,
    pub fabric_int_int_gains: f64,
    pub fabric_int_heat_cool: f64,
    pub fabric_int_air_convective_horizontal: f64,
    pub fabric_int_air_convective_upwards: f64,
    pub fabric_int_air_convective_downwards: f64,
}

#[derive(Clone, Copy)]
pub struct HeatBalanceExternalBoundary {
    pub solar_gains: f64,
    pub internal_gains: f64,
    pub heating_or_cooling_system_gains: f64,
    pub thermal_bridges: f64,
    pub infiltration_ventilation: f64,
    pub fabric_ext_air_convective: f64,
    pub fabric_ext_air_radiative: f64,
    pub fabric_ext_sol: f64,
    pub fabric_ext_sky: f64,
    pub opaque_fabric_ext: f64,
    pub transparent_fabric_ext: f64,
    pub ground_fabric_ext: f64,
    pub ztc_fabric_ext: f64,
    pub ztu_fabric_ext: f64,
}

#[derive(Clone, Copy)]
pub struct HeatBalance {
    pub air_node: HeatBalanceAirNode,
    pub internal_boundary: HeatBalanceInternalBoundary,
    pub external_boundary: HeatBalanceExternalBoundary,
}

fn air_node(
    c: Coefficients,
    c_int: f64,
    h_ve: f64,
    tb_heat_trans_coeff: f64,
    hour: &Conditions,
    delta_t: f64,
    gains: HeatCoolGains,
    temp_prev: f64,
    temp_internal: f64,
) -> HeatBalanceAirNode
    ensures { result ≡ air_node c c_int h_ve tb_heat_trans_coeff hour.now delta_t gains.gains_heat_cool gains.f_hc_c temp_prev temp_internal }
{
    let gains_solar = c.f_sol_c * hour.gains_solar;
    let gains_internal = c.f_int_c * hour.gains_internal;
    let gains_system = gains.f_hc_c * gains.gains_heat_cool;
    let energy_to_change_temp = -(c_int / delta_t) * (temp_internal - temp_prev);
    let loss_thermal_bridges = tb_heat_trans_coeff * (temp_internal - hour.temp_ext_air);
    let loss_infiltration_ventilation = h_ve * (temp_internal - hour.avg_air_supply_temp);
    let loss_fabric = (gains_solar + gains_internal + gains_system + energy_to_change_temp)
        - (loss_thermal_bridges + loss_infiltration_ventilation);
    HeatBalanceAirNode {
        solar_gains: gains_solar,
        internal_gains: gains_internal,
        heating_or_cooling_system_gains: gains_system,
        energy_to_change_internal_temperature: energy_to_change_temp,
        thermal_bridges: -loss_thermal_bridges,
        infiltration_ventilation: -loss_infiltration_ventilation,
        fabric_heat_loss: -loss_fabric,
    }
}

fn internal_boundary(
    c: Coefficients,
    s: ConvectiveSums,
    hour: &Conditions,
    gains: HeatCoolGains,
) -> HeatBalanceInternalBoundary
    ensures { result ≡ internal_boundary_from c s hour.now gains.gains_heat_cool gains.f_hc_c }
{
    HeatBalanceInternalBoundary {
        fabric_int_air_convective: s.total,
        fabric_int_sol: (1.0 - c.f_sol_c) * hour.gains_solar,
        fabric_int_int_gains: (1.0 - c.f_int_c) * hour.gains_internal,
        fabric_int_heat_cool: (1.0 - gains.f_hc_c) * gains.gains_heat_cool,
        fabric_int_air_convective_horizontal: s.horizontal,
        fabric_int_air_convective_upwards: s.upwards,
        fabric_int_air_convective_downwards: s.downwards,
    }
}

fn external_boundary(
    s: FabricSums,
    a: HeatBalanceAirNode,
    hour: &Conditions,
    gains_heat_cool: f64,
) -> HeatBalanceExternalBoundary
    ensures { result ≡ external_boundary_from s a hour.now gains_heat_cool }
{
    HeatBalanceExternalBoundary {
        solar_gains: hour.gains_solar,
        internal_gains: hour.gains_internal,
        heating_or_cooling_system_gains: gains_heat_cool,
        thermal_bridges: a.thermal_bridges,
        infiltration_ventilation: a.infiltration_ventilation,
        fabric_ext_air_convective: s.convective,
        fabric_ext_air_radiative: s.radiative,
        fabric_ext_sol: s.sol,
        fabric_ext_sky: s.sky,
        opaque_fabric_ext: s.opaque,
        transparent_fabric_ext: s.transparent,
        ground_fabric_ext: s.to_ground,
        ztc_fabric_ext: s.ztc,
        ztu_fabric_ext: s.ztu,
    }
}

// The definition's parameters in its order. No part takes zone, `temp_prev` and `hour` together, so an `HourStart` would only be taken apart: `convective_sums`
// takes no hour, `fabric_sums` no `temp_prev`, `air_node` one number of `temp_prev` and three of the zone.
pub fn heat_balance(
    c: Coefficients,
    z: &Zone,
    temp_prev: &[f64; 121],
    hour: &Conditions,
    delta_t: f64,
    gains: HeatCoolGains,
    ach: f64,
    vector_x: &[f64; 121],
) -> HeatBalance
    ensures { result ≡ heat_balance c z.now temp_prev.now hour.now delta_t gains.gains_heat_cool gains.f_hc_c ach vector_x.now }
{
    let h_ve = calc_vent_heat_transfer_coeff(z.volume, ach);
    let c_int = c.k_m_int * z.useful_area;
    let air = air_node(
        c,
        c_int,
        h_ve,
        z.tb_heat_trans_coeff,
        hour,
        delta_t,
        gains,
        temp_prev[120],
        vector_x[120],
    );
    let convective = convective_sums(c, z, temp_prev, vector_x);
    let sums = fabric_sums(z, hour, vector_x);
    HeatBalance {
        air_node: air,
        internal_boundary: internal_boundary(c, convective, hour, gains),
        external_boundary: external_boundary(sums, air, hour, gains.gains_heat_cool),
    }
}
