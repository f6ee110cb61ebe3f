// A whole hour: its factors, kept or made, and its right side; then its demand, or an update.
ghost use Rattle.std.specs.Prelude.{◌≡◌};
ghost use Rattle.solver.specs.FastSolver.{at_most24};
ghost use Rattle.zone.specs.Answers.{answered_with};
ghost use Rattle.zone.specs.Hour.Demand.{delta_t, temperatures_with};
ghost use Rattle.zone.specs.Inner.Hour.{demand_solved};
ghost use Rattle.zone.specs.Inner.Kept.{opens_of, directions_of, keep_factors, hour_held};
ghost use Rattle.zone.specs.Inner.KeptMatrix.{held_in};
ghost use Rattle.zone.specs.Inner.Prepared.{solved_with};
ghost use Rattle.zone.specs.Inner.PreparedHour.{hour_in};

use crate::calls::state::Demand;
use crate::format::conditions::Conditions;
use crate::hour::control::Control;
use crate::hour::hour::Meeting;
use crate::hour::hour_start::HourStart;
use crate::hour::kept::{KeptMatrix, directions_of};
use crate::hour::simulation_time::delta_t_of;
use crate::hour::time_step::PreparedHour;
use crate::physics::assembly::{Key, assemble_sides};
use crate::physics::balance::HeatCoolGains;
use crate::physics::operative::areas_of;
use crate::record::refusal::Refusal;
use solver::{RightSide, SolveError};
use std::array::from_fn;

// The open treatments of the elements.
fn opens_of(h: &Conditions) -> [u8; 24]
    ensures { result ≡ opens_of h.now }
{
    from_fn(|e| h.elements[e].treatments_open)
}

impl KeptMatrix {
    // An hour whose matrix is held, prepared: its right side is reduced once.
    pub(crate) fn prepared<'k, 'h>(&'k self, start: &HourStart<'h>) -> PreparedHour<'k, 'h>
        requires { self.now.factors.chains.n ≡ at_most24 start.now.zone.now.count }
        ensures { hour_in result ≡ hour_held start.now.coefficients start.now.zone.now start.now.temp_prev.now start.now.hour.now (held_in self.now) }
    {
        let z = start.zone;
        let c = start.coefficients;
        let delta_t = delta_t_of(start.hour);
        let mut base = RightSide {
            b: [0.0; 121],
            inner: [0.0; 24],
        };
        assemble_sides(z, start.hour, delta_t, start.temp_prev, &mut base.b);
        self.factors.reduce_base(&mut base);
        let control = Control::of(z, areas_of(z), self.sums.area_el_total);
        PreparedHour {
            coefficients: c,
            zone: z,
            hour: start.hour,
            c_int_per_delta_t: c.k_m_int * z.useful_area / delta_t,
            temp_int_air: start.temp_prev[120],
            kept: self,
            base,
            control,
        }
    }

    // An hour after another: its columns are factored where they are not held. Apart from `prepared`: lent on in a result, a `&mut self` has no value
    // after the call that `held` could name.
    pub(crate) fn keep_hour(&mut self, start: &HourStart<'_>)
        ensures held { held_in self.new
            ≡ keep_factors start.now.coefficients start.now.zone.now (directions_of start.now.coefficients start.now.zone.now start.now.temp_prev.now) (opens_of start.now.hour.now)
            (delta_t start.now.hour.now) (held_in self.old) }
        ensures count { self.new.factors.chains.n ≡ at_most24 start.now.zone.now.count }
    {
        let key = Key {
            delta_t: delta_t_of(start.hour),
            directions: directions_of(start.coefficients, start.zone, start.temp_prev),
            opens: opens_of(start.hour),
        };
        self.keep_factors(start.coefficients, start.zone, &key);
    }
}

impl HourStart<'_> {
    // The demand of an hour alone, and where it is met the temperatures after the hour.
    pub fn demand_alone(&self, meeting: Meeting, after: &mut [f64; 121]) -> Result<Demand, Refusal>
        ensures { answered_with result after.new
            ≡ demand_solved self.now.coefficients self.now.zone.now self.now.temp_prev.now self.now.hour.now meeting after.old }
    {
        let mut kept = KeptMatrix::none();
        kept.keep_hour(self);
        kept.prepared(self).demand_met(meeting, after)
    }

    // The temperatures after an hour alone with given gains.
    pub fn update_alone(
        &self,
        gains: HeatCoolGains,
        ach: f64,
        after: &mut [f64; 121],
    ) -> Result<(), SolveError>
        ensures { solved_with result after.new
            ≡ temperatures_with self.now.coefficients self.now.zone.now self.now.temp_prev.now self.now.hour.now gains.gains_heat_cool gains.f_hc_c ach }
    {
        let mut kept = KeptMatrix::none();
        kept.keep_hour(self);
        kept.prepared(self).update(gains, ach, after)
    }
}
