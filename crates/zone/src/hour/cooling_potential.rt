// Cooling by ventilation: the choice of an air change rate. `last` and `temps` are lent apart: a calculation at another rate has a last column of its own and
// the same `temps`. Target rate and windows' are two numbers, as in windows.rt.
ghost use Rattle.std.specs.Prelude.{◌≡◌, []};
ghost use Rattle.zone.specs.Answers.{answered_with};
ghost use Rattle.zone.specs.Inner.Demand.{cool_by_windows, with_choice, choose_rate, cooling_potential};
ghost use Rattle.zone.specs.Inner.PreparedHour.{of_hour};

use crate::format::conditions::AirChangesPerHourArgument;
use crate::hour::time_step::PreparedHour;
use crate::hour::windows::{
    VentilationChoice, ZoneTemperatures, above_cooling_setpoint, ach_to_reach, windows_cool,
};
use crate::record::refusal::Refusal;

impl PreparedHour<'_, '_> {
    // With the rate that windows need: it is chosen and its last column left, or the cooling system is used at the target rate.
    #[tactic(auto, unfolding(crate::specs::Inner::Demand::cool_by_windows))]
    fn cool_by_windows(
        &self,
        target: f64,
        temp_free: f64,
        ach: f64,
        trigger: Option<f64>,
        last: &mut [f64; 25],
        temps: &mut [f64; 121],
    ) -> Result<VentilationChoice, Refusal>
        ensures { answered_with result last.new ≡ of_hour cool_by_windows self.now target temp_free ach trigger last.old }
    {
        let mut extra = [0.0; 25];
        self.free_temperatures(ach, &mut extra, temps)?;
        let temp_extra = self.control.temperature(temps);
        if above_cooling_setpoint(temp_extra, self.hour.temp_setpnt_cool) {
            return Ok(VentilationChoice {
                temp_free,
                ach_cooling: target,
                ach_to_trigger_heating: trigger,
            });
        }
        *last = extra;
        Ok(VentilationChoice {
            temp_free: temp_extra,
            ach_cooling: ach,
            ach_to_trigger_heating: trigger,
        })
    }

    #[tactic(auto, unfolding(crate::specs::Inner::Demand::with_choice))]
    fn with_choice(
        &self,
        target: f64,
        windows: f64,
        free: ZoneTemperatures,
        vent_max: ZoneTemperatures,
        last: &mut [f64; 25],
        temps: &mut [f64; 121],
    ) -> Result<VentilationChoice, Refusal>
        ensures { answered_with result last.new ≡ of_hour with_choice self.now target windows free vent_max last.old }
    {
        let h = self.hour;
        let trigger = Some(ach_to_reach(h, target, windows, free, vent_max, h.temp_setpnt_heat));
        if windows_cool(h, free, vent_max) {
            let ach = ach_to_reach(h, target, windows, free, vent_max, h.temp_setpnt_cool_vent);
            return self.cool_by_windows(target, free.temp_control, ach, trigger, last, temps);
        }
        Ok(VentilationChoice {
            temp_free: free.temp_control,
            ach_cooling: target,
            ach_to_trigger_heating: trigger,
        })
    }

    #[tactic(auto, unfolding(crate::specs::Inner::Demand::choose_rate))]
    fn choose_rate(
        &self,
        target: f64,
        windows: f64,
        free: ZoneTemperatures,
        last: &mut [f64; 25],
        temps: &mut [f64; 121],
    ) -> Result<VentilationChoice, Refusal>
        ensures { answered_with result last.new ≡ of_hour choose_rate self.now target windows free last.old }
    {
        let mut open = [0.0; 25];
        self.free_temperatures(windows, &mut open, temps)?;
        let vent_max = self.control.zone_temperatures(temps);
        self.with_choice(target, windows, free, vent_max, last, temps)
    }

    // Given the last column of the rate without windows, and leaving that of the chosen rate.
    #[tactic(auto, unfolding(crate::specs::Inner::Demand::cooling_potential))]
    pub fn calc_cooling_potential_from_ventilation(
        &self,
        free: ZoneTemperatures,
        last: &mut [f64; 25],
        temps: &mut [f64; 121],
    ) -> Result<VentilationChoice, Refusal>
        ensures { answered_with result last.new ≡ of_hour cooling_potential self.now free self.now.hour.now.ach_args last.old }
    {
        // Copied before the match (Specification, Forms that are kept).
        let ach_args = self.hour.ach_args;
        match ach_args {
            AirChangesPerHourArgument::Cooling(ach) => Ok(VentilationChoice {
                temp_free: free.temp_control,
                ach_cooling: ach,
                ach_to_trigger_heating: None,
            }),
            AirChangesPerHourArgument::TargetAndWindowsOpen(target, windows) => {
                if windows != target {
                    return self.choose_rate(target, windows, free, last, temps);
                }
                Ok(VentilationChoice {
                    temp_free: free.temp_control,
                    ach_cooling: target,
                    ach_to_trigger_heating: None,
                })
            }
        }
    }
}
