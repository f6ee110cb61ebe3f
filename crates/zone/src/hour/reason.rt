// Why an hour has its air change rate: the tests of the list of reasons, one after the other, each with the calculation that it needs.
// Target rate and windows' are two numbers, as in windows.rt.
ghost use Rattle.std.specs.Prelude.{◌≡◌};
ghost use Rattle.zone.specs.Answers.{answered};
ghost use Rattle.zone.specs.Inner.Why.{found_reason, open_reason, choice_reason, reason_in};

use crate::calls::state::Reason;
use crate::format::conditions::AirChangesPerHourArgument;
use crate::hour::hour_start::HourStart;
use crate::hour::windows::{ZoneTemperatures, above_cooling_setpoint, ach_to_reach};
use crate::record::refusal::Refusal;

impl HourStart<'_> {
    // With the rate found.
    #[tactic(auto, unfolding(crate::specs::Inner::Why::found_reason))]
    fn found_reason(&self, ach: f64) -> Result<Reason, Refusal>
        ensures { answered result ≡ found_reason self.now.coefficients self.now.zone.now self.now.temp_prev.now self.now.hour.now ach }
    {
        let extra = self.free_at(ach)?;
        if above_cooling_setpoint(extra.temp_control, self.hour.temp_setpnt_cool) {
            return Ok(Reason::StillAboveCoolingSetpoint);
        }
        Ok(Reason::WindowsEnough)
    }

    // With windows open.
    #[tactic(auto, unfolding(crate::specs::Inner::Why::open_reason, crate::specs::Inner::Demand::rate_to_reach))]
    fn open_reason(
        &self,
        target: f64,
        windows: f64,
        free: ZoneTemperatures,
    ) -> Result<Reason, Refusal>
        ensures { answered result ≡ open_reason self.now.coefficients self.now.zone.now self.now.temp_prev.now self.now.hour.now target windows free }
    {
        let h = self.hour;
        let vent_max = self.free_at(windows)?;
        if !(vent_max.temp_control < free.temp_control) {
            return Ok(Reason::WindowsDoNotCool);
        }
        let ach = ach_to_reach(h, target, windows, free, vent_max, h.temp_setpnt_cool_vent);
        self.found_reason(ach)
    }

    // With the target rate.
    #[tactic(auto, unfolding(crate::specs::Inner::Why::choice_reason))]
    fn choice_reason(&self, target: f64, windows: f64) -> Result<Reason, Refusal>
        ensures { answered result ≡ choice_reason self.now.coefficients self.now.zone.now self.now.temp_prev.now self.now.hour.now target windows }
    {
        let free = self.free_at(target)?;
        if !(self.hour.temp_setpnt_cool_vent < free.temp_control) {
            return Ok(Reason::NotAboveVentilationSetpoint);
        }
        if !(self.hour.avg_air_supply_temp < free.temp_int_air) {
            return Ok(Reason::NotAboveSupply);
        }
        self.open_reason(target, windows, free)
    }

    // A fixed rate, or two that are equal, are no choice.
    #[tactic(auto, unfolding(crate::specs::Inner::Why::reason_in))]
    pub fn reason(&self) -> Result<Reason, Refusal>
        ensures { answered result ≡ reason_in self.now.coefficients self.now.zone.now self.now.temp_prev.now self.now.hour.now self.now.hour.now.ach_args }
    {
        // Copied before the match (Specification, Forms that are kept).
        let ach_args = self.hour.ach_args;
        match ach_args {
            AirChangesPerHourArgument::Cooling(_) => Ok(Reason::NoChoice),
            AirChangesPerHourArgument::TargetAndWindowsOpen(target, windows) => {
                if windows == target {
                    return Ok(Reason::NoChoice);
                }
                self.choice_reason(target, windows)
            }
        }
    }
}
