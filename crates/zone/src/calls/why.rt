// Why an hour has its air change rate and its load. Nothing is changed.
ghost use Rattle.std.specs.Prelude.{◌≡◌};
ghost use Rattle.zone.specs.Answers.{answered};
ghost use Rattle.zone.specs.Record.BuildingElement.{standard_coefficients};
ghost use Rattle.zone.specs.Calls.Why.{load_of, why_of, why};

use crate::calls::state::{Demand, Load, Reason, State};
use crate::check::arguments::tested;
use crate::format::conditions::FixedRate;
use crate::hour::hour::Meeting;
use crate::hour::hour_start::HourStart;
use crate::record::building_element::standard_coefficients;
use crate::record::refusal::Refusal;
use crate::record::zone_record::Zone;

// By the demand's numbers.
#[tactic(auto, unfolding(crate::specs::Calls::Why::load_of))]
fn load_asked(d: Demand) -> Load
    ensures { result ≡ load_of d }
{
    if 0.0 < d.space_heat_demand {
        return Load::Heating;
    }
    if d.space_cool_demand < 0.0 {
        return Load::Cooling;
    }
    Load::Neither
}

impl HourStart<'_> {
    // An hour that is tested: what the demand refuses is refused, before any reason.
    #[tactic(auto, using(crate::proofs::Laws::Why::why_not_asked, crate::proofs::Laws::Why::why_no_reason))]
    fn why(&self) -> Result<(Reason, Load), Refusal>
        ensures { answered result ≡ why_of self.now.coefficients self.now.zone.now self.now.temp_prev.now self.now.hour.now }
    {
        let mut after = [0.0; 121];
        let d = self.demand_alone(Meeting::NotMet, &mut after)?;
        let reason = self.reason()?;
        Ok((reason, load_asked(d)))
    }
}

impl State {
    // The reason for the hour's air change rate, and what its demand asks for.
    #[tactic(auto, unfolding(crate::specs::Calls::Why::why))]
    pub fn why(&self, z: &Zone, conditions: &[u8]) -> Result<(Reason, Load), Refusal>
        ensures { answered result ≡ why standard_coefficients z.now self.now conditions.now }
    {
        let h = tested(FixedRate::StillTaken, z, self, conditions)?;
        let start = HourStart {
            coefficients: standard_coefficients(),
            zone: z,
            temp_prev: &self.slots(z),
            hour: &h,
        };
        start.why()
    }
}
