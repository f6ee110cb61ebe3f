// The update of the temperatures by given gains of heating or cooling.
ghost use Rattle.std.specs.Prelude.{◌≡◌, ◌&&◌};
ghost use Rattle.zone.specs.Record.BuildingElement.{standard_coefficients};
ghost use Rattle.zone.specs.Check.Ranges.{gains_range, fraction_range, rate_range};
ghost use Rattle.zone.specs.Calls.Hour.{step, update_temperatures};
ghost use Rattle.zone.specs.Answers.{answered};
ghost use Rattle.zone.specs.Calls.Answers.{reply_in, update_reply};

use crate::calls::state::{Reply, State};
use crate::check::arguments::tested;
use crate::check::ranges::{FRACTION, GAINS, RATE};
use crate::format::conditions::{Conditions, FixedRate};
use crate::hour::hour_start::HourStart;
use crate::hour::simulation_time::delta_t_of;
use crate::physics::balance::{HeatBalance, HeatCoolGains, heat_balance};
use crate::record::building_element::standard_coefficients;
use crate::record::refusal::Refusal;
use crate::record::zone_record::Zone;

#[tactic(auto, using(crate::proofs::Laws::Ranges::ranges))]
fn load_in_range(gains: HeatCoolGains, ach: f64) -> bool
    ensures { result ≡ (gains_range gains.gains_heat_cool && fraction_range gains.f_hc_c && rate_range ach) }
{
    GAINS.contains(gains.gains_heat_cool) & FRACTION.contains(gains.f_hc_c) & RATE.contains(ach)
}

impl State {
    // The step, once its arguments are tested: the state after it and its heat balance.
    #[tactic(auto, using(crate::proofs::Laws::Hour::step_refused, crate::proofs::Laws::Hour::step_accepted))]
    fn step(
        &self,
        z: &Zone,
        h: &Conditions,
        gains: HeatCoolGains,
        ach: f64,
    ) -> Result<(State, HeatBalance), Refusal>
        ensures { answered result ≡ step standard_coefficients z.now self.now h.now gains.gains_heat_cool gains.f_hc_c ach }
    {
        let before = self.slots(z);
        let start = HourStart {
            coefficients: standard_coefficients(),
            zone: z,
            temp_prev: &before,
            hour: h,
        };
        let mut temps = [0.0; 121];
        start.update_alone(gains, ach, &mut temps)?;
        let balance = heat_balance(
            standard_coefficients(),
            z,
            &before,
            h,
            delta_t_of(h),
            gains,
            ach,
            &temps,
        );
        Ok((State::of_slots(z, &temps), balance))
    }

    #[tactic(auto, unfolding(crate::specs::Calls::Hour::update_temperatures))]
    fn updated(
        &self,
        z: &Zone,
        conditions: &[u8],
        gains: HeatCoolGains,
        ach: f64,
    ) -> Result<(State, HeatBalance), Refusal>
        ensures { answered result ≡ update_temperatures standard_coefficients z.now self.now conditions.now gains.gains_heat_cool gains.f_hc_c ach }
    {
        let h = tested(FixedRate::Retired, z, self, conditions)?;
        if load_in_range(gains, ach) {
            return self.step(z, &h, gains, ach);
        }
        Err(Refusal::ConditionsValue(0))
    }

    // One hour with these gains, of which a fraction is convective, and this air change rate.
    pub fn update_temperatures(
        self,
        z: &Zone,
        conditions: &[u8],
        gains_heat_cool: f64,
        frac_convective: f64,
        ach: f64,
    ) -> Reply<HeatBalance>
        ensures { reply_in result ≡ update_reply self (update_temperatures standard_coefficients z.now self conditions.now gains_heat_cool frac_convective ach) }
    {
        let gains = HeatCoolGains {
            gains_heat_cool,
            f_hc_c: frac_convective,
        };
        Reply::of(self, self.updated(z, conditions, gains, ach))
    }
}
