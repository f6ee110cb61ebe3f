// The calculations of one hour: the last column is factored for each rate, and each load substituted. Before them the hour's numbers. `last` and `temps` are
// lent apart, as in cooling_potential.rt.
ghost use Rattle.std.specs.Prelude.{◌≡◌, []};
ghost use Rattle.zone.specs.Hour.Demand.{gains_heat_cool, frac_conv_gains_heat_cool};
ghost use Rattle.zone.specs.Inner.Hour.{free_gains};
ghost use Rattle.zone.specs.Inner.Prepared.{solved_in, free_in, solved_with};
ghost use Rattle.zone.specs.Inner.PreparedHour.{prepared_in};

use crate::format::conditions::Conditions;
use crate::hour::time_step::PreparedHour;
use crate::physics::balance::HeatCoolGains;
use crate::physics::ventilation::calc_vent_heat_transfer_coeff;
use solver::{SolveError, close_in_demand};

// The gains from heating or cooling that are there before any demand.
pub fn gains_heat_cool_of(h: &Conditions) -> f64
    ensures { result ≡ gains_heat_cool h.now }
{
    h.gains_heat_cool_convective + h.gains_heat_cool_radiative
}

// Their convective fraction.
#[tactic(auto, unfolding(crate::specs::Hour::Demand::frac_conv_gains_heat_cool, crate::specs::Hour::Demand::share_or_zero))]
pub fn frac_conv_gains_heat_cool_of(h: &Conditions) -> f64
    ensures { result ≡ frac_conv_gains_heat_cool h.now }
{
    let gains = gains_heat_cool_of(h);
    if close_in_demand(gains, 0.0) {
        0.0
    } else {
        h.gains_heat_cool_convective / gains
    }
}

// Both.
pub fn free_gains_of(h: &Conditions) -> HeatCoolGains
    ensures { result ≡ free_gains h.now }
{
    HeatCoolGains {
        gains_heat_cool: gains_heat_cool_of(h),
        f_hc_c: frac_conv_gains_heat_cool_of(h),
    }
}

impl PreparedHour<'_, '_> {
    // The temperatures with a load at one rate; the rate's last column is left for further loads.
    #[tactic(auto, unfolding(crate::specs::Inner::Prepared::solved_in))]
    pub fn calc_temperatures(
        &self,
        gains: HeatCoolGains,
        ach: f64,
        last: &mut [f64; 25],
        temps: &mut [f64; 121],
    ) -> Result<(), SolveError>
        ensures { solved_with result (temps.new, last.new) ≡ solved_in (prepared_in self.now) self.now.zone.now.volume gains.gains_heat_cool gains.f_hc_c ach }
    {
        let h_ve = calc_vent_heat_transfer_coeff(self.zone.volume, ach);
        self.factor_rate(h_ve, last)?;
        self.solve_load(h_ve, gains, last, temps)
    }

    // The temperatures without demand at one rate.
    pub fn free_temperatures(
        &self,
        ach: f64,
        last: &mut [f64; 25],
        temps: &mut [f64; 121],
    ) -> Result<(), SolveError>
        ensures { solved_with result (temps.new, last.new) ≡ free_in (prepared_in self.now) self.now.zone.now.volume self.now.hour.now ach }
    {
        self.calc_temperatures(free_gains_of(self.hour), ach, last, temps)
    }
}
