// Refusals 4 to 9 of a call, and 18 and 19 of an hour step: the zone, the version, the state, the conditions, the limits. (Tests of a call's arguments, not
// of the program.)
ghost use Rattle.std.specs.Prelude.{◌≡◌, ◌&&◌, take, eqb};
ghost use Rattle.zone.specs.Answers.{answered};
ghost use Rattle.zone.specs.Record.BuildingElement.{node_count};
ghost use Rattle.zone.specs.declared.format.conditions.FixedRate.TheVariants.{Retired};
ghost use Rattle.zone.specs.Calls.State.{all_within_state_bound, zone_and_state_test};
ghost use Rattle.zone.specs.Calls.Hour.{tested_hour, tested, tested_hour_and_limits, tested_step};

use crate::calls::state::State;
use crate::check::versions::hour_version;
use crate::check::zone_tests::zone_test;
use crate::format::conditions::{Conditions, FixedRate};
use crate::format::read_conditions::read_conditions;
use crate::hour::rule::Rule;
use crate::record::refusal::Refusal;
use crate::record::zone_record::Zone;
use solver::within_state_bound;

fn state_valid(z: &Zone, s: &State) -> bool
    ensures { result ≡ (eqb s.now.nodes (node_count z.now) && all_within_state_bound (take s.now.nodes s.now.temps)) }
{
    let within = s.temps.iter().take(s.nodes).all(|x| within_state_bound(*x));
    (s.nodes == z.node_count()) & within
}

// 4, 5, then 6.
#[tactic(auto, unfolding(crate::specs::Calls::State::zone_and_state_test, crate::specs::Calls::State::state_test))]
pub fn zone_and_state_test(z: &Zone, s: &State) -> Result<(), Refusal>
    ensures { answered result ≡ zone_and_state_test z.now s.now }
{
    zone_test(z)?;
    if state_valid(z, s) {
        Ok(())
    } else {
        Err(Refusal::StateInvalid)
    }
}

// Of a zone that is tested: 6, then 7, 8, 9.
#[tactic(auto, unfolding(crate::specs::Calls::Hour::tested_hour, crate::specs::Calls::State::state_test))]
fn tested_hour(
    fixed: FixedRate,
    z: &Zone,
    s: &State,
    conditions: &[u8],
) -> Result<Conditions, Refusal>
    ensures { answered result ≡ tested_hour fixed z.now s.now conditions.now }
{
    if state_valid(z, s) {
        return read_conditions(fixed, z, conditions);
    }
    Err(Refusal::StateInvalid)
}

// The zone first: 4, 5.
#[tactic(auto, unfolding(crate::specs::Calls::Hour::tested))]
pub fn tested(
    fixed: FixedRate,
    z: &Zone,
    s: &State,
    conditions: &[u8],
) -> Result<Conditions, Refusal>
    ensures { answered result ≡ tested fixed z.now s.now conditions.now }
{
    zone_test(z)?;
    tested_hour(fixed, z, s, conditions)
}

// An hour's of a zone and a version that are tested: 6, then 7, 8, 9, then the limits, 19.
#[tactic(auto, unfolding(crate::specs::Calls::Hour::tested_hour_and_limits))]
pub fn tested_hour_and_limits(
    fixed: FixedRate,
    z: &Zone,
    rule: Rule,
    s: &State,
    conditions: &[u8],
) -> Result<Conditions, Refusal>
    ensures { answered result ≡ tested_hour_and_limits fixed z.now rule.version rule.limits s.now conditions.now }
{
    let hour = tested_hour(fixed, z, s, conditions)?;
    if rule.limits_valid() {
        return Ok(hour);
    }
    Err(Refusal::LimitValue)
}

// An hour step's: the zone, 4, 5; then the version, 18. The fixed rate is retired.
#[tactic(auto, unfolding(crate::specs::Calls::Hour::tested_step))]
pub fn tested_step(
    z: &Zone,
    rule: Rule,
    s: &State,
    conditions: &[u8],
) -> Result<Conditions, Refusal>
    ensures { answered result ≡ tested_step Retired z.now rule.version rule.limits s.now conditions.now }
{
    zone_test(z)?;
    if hour_version(rule.version) {
        return tested_hour_and_limits(FixedRate::Retired, z, rule, s, conditions);
    }
    Err(Refusal::FalseEntry(0))
}
