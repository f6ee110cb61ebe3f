// Demand of an hour, and the hour step: the demand is asked and met.
ghost use Rattle.std.specs.Prelude.{◌≡◌};
ghost use Rattle.zone.specs.Record.BuildingElement.{standard_coefficients};
ghost use Rattle.zone.specs.Calls.Hour.{demand, hour_step};
ghost use Rattle.zone.specs.Calls.Answers.{hour_stepped, reply_in, demand_reply, hour_step_reply};
ghost use Rattle.zone.specs.Answers.{answered};
ghost use Rattle.zone.specs.declared.format.conditions.FixedRate.TheVariants.{Retired};
ghost use Rattle.zone.specs.Inner.Hour.{step_balance};

use crate::calls::state::{Demand, Reply, State};
use crate::check::arguments::{tested, tested_step};
use crate::format::conditions::FixedRate;
use crate::format::limits::Limits;
use crate::hour::hour::Meeting;
use crate::hour::hour_start::HourStart;
use crate::hour::rule::Rule;
use crate::hour::simulation_time::delta_t_of;
use crate::physics::balance::{HeatBalance, heat_balance};
use crate::record::building_element::standard_coefficients;
use crate::record::refusal::Refusal;
use crate::record::zone_record::Zone;

impl HourStart<'_> {
    // The heat balance of an hour step, from the demand and the temperatures after the hour.
    fn step_balance(&self, rule: Rule, d: Demand, after: &[f64; 121]) -> HeatBalance
        ensures { result ≡ step_balance self.now.coefficients self.now.zone.now self.now.temp_prev.now self.now.hour.now rule d after.now }
    {
        let c = self.coefficients;
        let h = self.hour;
        let g = rule.gains(h, d);
        heat_balance(
            c,
            self.zone,
            self.temp_prev,
            h,
            delta_t_of(h),
            g,
            d.ach_cooling,
            after,
        )
    }
}

impl State {
    #[tactic(auto, using(crate::proofs::Laws::Hour::demand_answered), unfolding(crate::specs::Calls::Hour::demand))]
    fn demand(&self, z: &Zone, conditions: &[u8]) -> Result<Demand, Refusal>
        ensures { answered result ≡ demand Retired standard_coefficients z.now self.now conditions.now }
    {
        let h = tested(FixedRate::Retired, z, self, conditions)?;
        let start = HourStart {
            coefficients: standard_coefficients(),
            zone: z,
            temp_prev: &self.slots(z),
            hour: &h,
        };
        let mut after = [0.0; 121];
        start.demand_alone(Meeting::NotMet, &mut after)
    }

    pub fn space_heat_cool_demand(self, z: &Zone, conditions: &[u8]) -> Reply<Demand>
        ensures { reply_in result ≡ demand_reply self (demand Retired standard_coefficients z.now self conditions.now) }
    {
        Reply {
            answer: self.demand(z, conditions),
            state: self,
        }
    }

    // The state after the hour, with the answer of an hour step.
    #[tactic(auto, using(crate::proofs::Laws::Hour::hour_untested, crate::proofs::Laws::Hour::hour_refused, crate::proofs::Laws::Hour::hour_accepted))]
    fn stepped(
        &self,
        z: &Zone,
        conditions: &[u8],
        rule: Rule,
    ) -> Result<(State, (Demand, HeatBalance)), Refusal>
        ensures { hour_stepped result ≡ hour_step Retired standard_coefficients z.now rule.version rule.limits self.now conditions.now }
    {
        let h = tested_step(z, rule, self, conditions)?;
        let start = HourStart {
            coefficients: standard_coefficients(),
            zone: z,
            temp_prev: &self.slots(z),
            hour: &h,
        };
        let mut temps = [0.0; 121];
        let d = start.demand_alone(Meeting::WithGains(rule), &mut temps)?;
        let balance = start.step_balance(rule, d, &temps);
        Ok((State::of_slots(z, &temps), (d, balance)))
    }

    // By the rule of an entry version.
    #[tactic(auto, using(crate::proofs::Laws::Answers::step_replied))]
    pub fn hour_step(
        self,
        z: &Zone,
        conditions: &[u8],
        version: u64,
        limits: Limits,
    ) -> Reply<(Demand, HeatBalance)>
        ensures { reply_in result ≡ hour_step_reply self (hour_step Retired standard_coefficients z.now version limits self conditions.now) }
    {
        let rule = Rule { version, limits };
        Reply::of(self, self.stepped(z, conditions, rule))
    }
}
