// One time step of a zone: BS EN ISO 52016-1, 6.5.6. Its systems share their terms; all but one column of the matrix is factored once, and the right
// side without gains reduced once. Then the last column is factored for each air change rate, and each load substituted.
ghost use Rattle.std.specs.Prelude.{◌≡◌, []};
ghost use Rattle.solver.specs.Numbers.{divisor};
ghost use Rattle.solver.specs.Result.{require};
ghost use Rattle.solver.specs.Answers.{answered, number_in};
ghost use Rattle.solver.specs.Promise.{solved};
ghost use Rattle.zone.specs.Inner.Assembled.{gains_per_area_from, zone_diagonal_from, zone_right_side_from};
ghost use Rattle.zone.specs.Inner.Prepared.{last_in, rate_valid, load_in};
ghost use Rattle.zone.specs.Inner.PreparedHour.{terms_in, prepared_in};

use crate::format::conditions::Conditions;
use crate::hour::control::Control;
use crate::hour::kept::KeptMatrix;
use crate::physics::balance::HeatCoolGains;
use crate::record::building_element::Coefficients;
use crate::record::zone_record::Zone;
use solver::{RightSide, SolveError};

// An hour that is prepared for several rates and loads: its zone and what the hour says, the internal heat capacity over the timestep and the air before the
// hour, the matrix with its columns factored, the right side without gains, reduced, and what the setpoints are held against.
#[derive(Clone, Copy)]
pub struct PreparedHour<'k, 'h> {
    pub coefficients: Coefficients,
    pub zone: &'h Zone,
    pub hour: &'h Conditions,
    pub c_int_per_delta_t: f64,
    pub temp_int_air: f64,
    pub kept: &'k KeptMatrix,
    pub base: RightSide,
    pub control: Control,
}

impl PreparedHour<'_, '_> {
    fn zone_diagonal(&self, h_ve: f64) -> f64
        ensures { result ≡ zone_diagonal_from (terms_in self.now) h_ve }
    {
        self.c_int_per_delta_t + self.kept.sums.convective + h_ve + self.zone.tb_heat_trans_coeff
    }

    // The last column of one rate, factored; refused where the matrix has a divisor that is zero or not finite.
    pub fn factor_rate(&self, h_ve: f64, last: &mut [f64; 25]) -> Result<(), SolveError>
        ensures column { last.new ≡ last_in (prepared_in self.now) h_ve }
        ensures divisors { answered result ≡ require (rate_valid (prepared_in self.now) last.new) divisor }
    {
        let n = self.kept.factors.chains.n.min(24);
        *last = self.kept.column;
        last[n] = self.zone_diagonal(h_ve);
        self.kept.factors.factor_last(last)
    }

    fn gains_per_area(&self, gains: HeatCoolGains) -> f64
        ensures { result ≡ gains_per_area_from (terms_in self.now) gains.gains_heat_cool gains.f_hc_c }
    {
        let c = self.coefficients;
        ((1.0 - c.f_int_c) * self.hour.gains_internal
            + (1.0 - c.f_sol_c) * self.hour.gains_solar
            + (1.0 - gains.f_hc_c) * gains.gains_heat_cool)
            / self.kept.sums.area_el_total
    }

    fn zone_right_side(&self, h_ve: f64, gains: HeatCoolGains) -> f64
        ensures { result ≡ zone_right_side_from (terms_in self.now) h_ve gains.gains_heat_cool gains.f_hc_c }
    {
        let c = self.coefficients;
        let h = self.hour;
        self.c_int_per_delta_t * self.temp_int_air
            + h_ve * h.avg_air_supply_temp
            + self.zone.tb_heat_trans_coeff * h.temp_ext_air
            + c.f_int_c * h.gains_internal
            + c.f_sol_c * h.gains_solar
            + gains.f_hc_c * gains.gains_heat_cool
    }

    // The temperatures after the step for one rate, whose last column is factored, and one load.
    #[tactic(auto, unfolding(crate::specs::Inner::Prepared::load_of))]
    pub fn solve_load(
        &self,
        h_ve: f64,
        gains: HeatCoolGains,
        last: &[f64; 25],
        temps: &mut [f64; 121],
    ) -> Result<(), SolveError>
        ensures { solved (number_in result) temps.new ≡ load_in (prepared_in self.now) last.now h_ve gains.gains_heat_cool gains.f_hc_c }
    {
        let surface = self.gains_per_area(gains);
        let air = self.zone_right_side(h_ve, gains);
        self.kept
            .factors
            .substitute_load(&self.base, last, surface, air, temps)
    }
}
