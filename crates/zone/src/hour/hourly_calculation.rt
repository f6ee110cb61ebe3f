// A zone hour after hour: the factored matrix of an hour is kept for the next.
ghost use Rattle.std.specs.Prelude.{◌≡◌};
ghost use Rattle.zone.specs.Answers.{answered_with};
ghost use Rattle.zone.specs.Inner.Hour.{demand_solved};
ghost use Rattle.zone.specs.Inner.Kept.{Kept, Kept_prop};
ghost use Rattle.zone.specs.Inner.KeptMatrix.{held_in};
ghost use Rattle.zone.specs.Record.BuildingElement.{standard_coefficients};

use crate::calls::state::Demand;
use crate::format::conditions::Conditions;
use crate::hour::hour::Meeting;
use crate::hour::hour_start::HourStart;
use crate::hour::kept::KeptMatrix;
use crate::record::building_element::{Coefficients, standard_coefficients};
use crate::record::refusal::Refusal;
use crate::record::zone_record::Zone;

// A zone, the coefficients in force, and the matrix that is kept from hour to hour: of this zone with these coefficients, or none. So its answers
// are those of an hour alone.
#[derive(Drop)]
pub struct HourlyCalculation<'z> {
    pub zone: &'z Zone,
    pub coefficients: Coefficients,
    kept: KeptMatrix,
    ghost of_zone: { Kept coefficients zone.now (held_in kept) } by { Kept_prop coefficients zone.now (held_in kept) },
}

impl<'z> HourlyCalculation<'z> {
    // Before the first hour: no matrix is held.
    pub fn of(zone: &'z Zone) -> HourlyCalculation<'z>
        ensures { (result.zone.now ≡ zone.now) × (result.coefficients ≡ standard_coefficients) }
    {
        HourlyCalculation {
            zone,
            coefficients: standard_coefficients(),
            kept: KeptMatrix::none(),
        }
    }

    // The demand of an hour after another, and where it is met the temperatures after the hour.
    pub(crate) fn demand_after(
        &mut self,
        temp_prev: &[f64; 121],
        hour: &Conditions,
        meeting: Meeting,
        after: &mut [f64; 121],
    ) -> Result<Demand, Refusal>
        ensures demand { answered_with result after.new
            ≡ demand_solved self.old.coefficients self.old.zone.now temp_prev.now hour.now meeting after.old }
        ensures of_same { (self.new.zone ≡ self.old.zone) × (self.new.coefficients ≡ self.old.coefficients) }
    {
        let start = HourStart {
            coefficients: self.coefficients,
            zone: self.zone,
            temp_prev,
            hour,
        };
        self.kept.keep_hour(&start);
        self.kept.prepared(&start).demand_met(meeting, after)
    }
}
