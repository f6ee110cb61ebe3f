// The operative temperature of a state.
ghost use Rattle.std.specs.Prelude.{◌≡◌};
ghost use Rattle.zone.specs.Answers.{answered};
ghost use Rattle.zone.specs.Calls.State.{operative};

use crate::calls::state::State;
use crate::check::arguments::zone_and_state_test;
use crate::physics::operative::operative_of;
use crate::record::refusal::Refusal;
use crate::record::zone_record::Zone;

impl State {
    // In °C.
    #[tactic(auto, unfolding(crate::specs::Calls::State::operative))]
    pub fn temp_operative(&self, z: &Zone) -> Result<f64, Refusal>
        ensures { answered result ≡ operative z.now self.now }
    {
        zone_and_state_test(z, self)?;
        Ok(operative_of(z, &self.temps))
    }
}
