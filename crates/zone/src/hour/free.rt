// An hour without demand at one rate.
ghost use Rattle.std.specs.Prelude.{◌≡◌};
ghost use Rattle.zone.specs.Answers.{answered};
ghost use Rattle.zone.specs.Hour.Demand.{control_temperature};
ghost use Rattle.zone.specs.Inner.Demand.{zone_temperatures};
ghost use Rattle.zone.specs.Inner.Why.{free_at};

use crate::hour::control::Control;
use crate::hour::hour_start::HourStart;
use crate::hour::solves::free_gains_of;
use crate::hour::windows::ZoneTemperatures;
use crate::physics::matrix::area_total;
use crate::physics::operative::areas_of;
use crate::record::refusal::Refusal;
use crate::record::zone_record::Zone;

// The temperature that the setpoints are held against, and the air's.
fn zone_temperatures_of(z: &Zone, t: &[f64; 121]) -> ZoneTemperatures
    ensures { result ≡ zone_temperatures (control_temperature z.now) t.now }
{
    let area = areas_of(z);
    let total = area_total(&area[..z.element_count()]);
    Control::of(z, area, total).zone_temperatures(t)
}

impl HourStart<'_> {
    // The temperatures without demand at a rate: an update by the gains that are there before any.
    #[tactic(auto, unfolding(crate::specs::Inner::Why::free_at))]
    pub fn free_at(&self, ach: f64) -> Result<ZoneTemperatures, Refusal>
        ensures { answered result ≡ free_at self.now.coefficients self.now.zone.now self.now.temp_prev.now self.now.hour.now ach }
    {
        let mut after = [0.0; 121];
        self.update_alone(free_gains_of(self.hour), ach, &mut after)?;
        Ok(zone_temperatures_of(self.zone, &after))
    }
}
