// Start-up: passes under constant conditions until the temperatures settle.
ghost use Rattle.std.specs.Prelude.{◌≡◌};
ghost use Rattle.solver.specs.Result.{ok, bind};
ghost use Rattle.zone.specs.Answers.{answered, answered_with};
ghost use Rattle.zone.specs.Inner.Hour.{ends, settled_state};
ghost use Rattle.zone.specs.Record.BuildingElement.{standard_coefficients};
ghost use Rattle.zone.specs.Calls.State.{slots_of, state_of};
ghost use Rattle.zone.specs.Calls.StartUp.{start_state, settle, init_node_temps};

use crate::calls::start_up_parts::{close, start_slots, start_up_conditions};
use crate::calls::state::{Demand, State};
use crate::check::zone_tests::zone_test;
use crate::hour::hour::Meeting;
use crate::hour::hourly_calculation::HourlyCalculation;
use crate::record::refusal::Refusal;
use crate::record::zone_record::Zone;

// Whether a pass is the last: it is refused, or its temperatures are close to those before it.
fn ends(z: &Zone, demand: Result<Demand, Refusal>, t: &[f64; 121], after: &[f64; 121]) -> bool
    ensures { result ≡ ends z.now t.now (answered_with demand after.now) }
{
    demand.is_err() || close(z, t, after)
}

// What the last pass gives: the state of the temperatures t, or the refusal.
fn settled(z: &Zone, demand: Result<Demand, Refusal>, t: &[f64; 121]) -> Result<State, Refusal>
    ensures { answered result ≡ settled_state z.now (answered_with demand t.now) }
{
    demand?;
    Ok(State::of_slots(z, t))
}

impl HourlyCalculation<'_> {
    // Each pass is an hour whose demand is met with start-up's fraction, 0.4, and the demand's rate, which is the fixed 0. The pass that settles does not store its
    // temperatures; the loop is left with those before it, with a refusal, or at the limit. It is a `loop` that breaks with its value, a form that is kept
    // (Specification, Forms that are kept).
    fn settle(&mut self) -> Result<State, Refusal>
        ensures state { answered result
            ≡ bind (settle self.old.coefficients self.old.zone.now self.old.zone.now.start_up_limit (slots_of self.old.zone.now (start_state self.old.zone.now)))
            λ t. ok (state_of self.old.zone.now t) }
        ensures of_same { (self.new.zone ≡ self.old.zone) × (self.new.coefficients ≡ self.old.coefficients) }
    {
        let z = self.zone;
        let h = start_up_conditions(z);
        let mut t = start_slots(z);
        let mut after = [0.0; 121];
        let limit = z.start_up_limit;
        let mut passes = 0;
        loop {
            if limit <= passes {
                break Err(Refusal::NotSettled);
            }
            let demand = self.demand_after(&t, &h, Meeting::Alone, &mut after);
            if ends(z, demand, &t, &after) {
                break settled(z, demand, &t);
            }
            t = after;
            passes += 1;
        }
    }

    // Start-up: the zone is tested, then passes are made until two temperature vectors are close. The last pass's matrix is kept for the first hour.
    #[tactic(auto, unfolding(crate::specs::Calls::StartUp::init_node_temps))]
    pub fn start_up(&mut self) -> Result<State, Refusal>
        ensures state { answered result ≡ init_node_temps self.old.coefficients self.old.zone.now }
        ensures of_same { (self.new.zone ≡ self.old.zone) × (self.new.coefficients ≡ self.old.coefficients) }
    {
        zone_test(self.zone)?;
        self.settle()
    }
}

// Start-up with no hour after it.
pub fn init_node_temps(z: &Zone) -> Result<State, Refusal>
    ensures { answered result ≡ init_node_temps standard_coefficients z.now }
{
    HourlyCalculation::of(z).start_up()
}
