// The hour step as the book asks for it: of a zone and a version that are tested already, and without its heat balance.
ghost use Rattle.std.specs.Prelude.{◌≡◌, OnErr};
ghost use Rattle.zone.specs.Answers.{changed_by};
ghost use Rattle.zone.specs.Calls.Answers.{reply_in};
ghost use Rattle.zone.specs.Calls.NextHour.{next_hour, next_hour_reply};
ghost use Rattle.zone.specs.Record.BuildingElement.{standard_coefficients};

use crate::calls::state::{Demand, Reply, State};
use crate::check::arguments::tested_hour_and_limits;
use crate::format::conditions::FixedRate;
use crate::format::limits::Limits;
use crate::hour::hour::Meeting;
use crate::hour::hourly_calculation::HourlyCalculation;
use crate::hour::rule::Rule;
use crate::record::refusal::Refusal;
use crate::record::zone_record::Zone;

impl HourlyCalculation<'_> {
    // The answer of an hour after another; where it is accepted, `after` is the state after the hour. (Lent, as memory is
    // fixed: handed up in the Result, as hour step and update do, it took 3,056 bytes more of `hem_append`'s stack.)
    #[tactic(auto, using(crate::proofs::Laws::Hour::next_untested, crate::proofs::Laws::Hour::next_refused, crate::proofs::Laws::Hour::next_accepted))]
    fn step_after(
        &mut self,
        fixed: FixedRate,
        state: &State,
        conditions: &[u8],
        rule: Rule,
        after: &mut State,
    ) -> Result<Demand, Refusal>
        ensures hour { changed_by result after.new
            ≡ next_hour fixed self.old.coefficients self.old.zone.now rule.version rule.limits state.now conditions.now }
        ensures kept_state { OnErr result (after.new ≡ after.old) }
        ensures of_same { (self.new.zone ≡ self.old.zone) × (self.new.coefficients ≡ self.old.coefficients) }
    {
        let z = self.zone;
        let h = tested_hour_and_limits(fixed, z, rule, state, conditions)?;
        let mut temps = [0.0; 121];
        let d = self.demand_after(&state.slots(z), &h, Meeting::WithGains(rule), &mut temps)?;
        *after = State::of_slots(z, &temps);
        Ok(d)
    }

    // One hour after another, from the state that is given. (It is lent: handed over by value, it took 928 bytes more of `hem_take_up`'s stack.)
    pub fn next_hour(
        &mut self,
        fixed: FixedRate,
        state: &State,
        conditions: &[u8],
        version: u64,
        limits: Limits,
    ) -> Reply<Demand>
        ensures hour { reply_in result
            ≡ next_hour_reply state.now (next_hour fixed self.old.coefficients self.old.zone.now version limits state.now conditions.now) }
        ensures of_same { (self.new.zone ≡ self.old.zone) × (self.new.coefficients ≡ self.old.coefficients) }
    {
        let mut after = *state;
        let rule = Rule { version, limits };
        let answer = self.step_after(fixed, state, conditions, rule, &mut after);
        Reply {
            answer,
            state: after,
        }
    }
}

impl State {
    // An hour alone.
    pub fn next_hour(
        self,
        fixed: FixedRate,
        z: &Zone,
        conditions: &[u8],
        version: u64,
        limits: Limits,
    ) -> Reply<Demand>
        ensures { reply_in result ≡ next_hour_reply self (next_hour fixed standard_coefficients z.now version limits self conditions.now) }
    {
        HourlyCalculation::of(z).next_hour(fixed, &self, conditions, version, limits)
    }
}
