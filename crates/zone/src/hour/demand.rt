// Space heating and cooling demand. `last` and `temps` are lent apart, as in cooling_potential.rt.
ghost use Rattle.std.specs.Prelude.{◌≡◌, Some, []};
ghost use Rattle.zone.specs.Answers.{answered, answered_with};
ghost use Rattle.zone.specs.Hour.Demand.{ach_target};
ghost use Rattle.zone.specs.Inner.Demand.{loaded_demand, demand_from_free, demand_in};
ghost use Rattle.zone.specs.Inner.PreparedHour.{of_hour};

use crate::calls::state::Demand;
use crate::format::conditions::AirChangesPerHourArgument;
use crate::hour::load::{
    HeatCoolLoad, demand_record, frac_upper, interp_heat_cool_demand, wanted_of,
};
use crate::hour::solves::gains_heat_cool_of;
use crate::hour::time_step::PreparedHour;
use crate::hour::windows::{VentilationChoice, ZoneTemperatures};
use crate::physics::balance::HeatCoolGains;
use crate::physics::ventilation::calc_vent_heat_transfer_coeff;
use crate::record::refusal::Refusal;

fn ach_target(ach_args: AirChangesPerHourArgument) -> f64
    ensures { result ≡ ach_target ach_args }
{
    match ach_args {
        AirChangesPerHourArgument::Cooling(ach) => ach,
        AirChangesPerHourArgument::TargetAndWindowsOpen(target, _) => target,
    }
}

impl PreparedHour<'_, '_> {
    #[tactic(auto, unfolding(crate::specs::Inner::Demand::loaded_demand))]
    fn loaded_demand(
        &self,
        v: VentilationChoice,
        w: HeatCoolLoad,
        last: &[f64; 25],
        temps: &mut [f64; 121],
    ) -> Result<Demand, Refusal>
        ensures { answered result ≡ of_hour loaded_demand self.now v (Some w) last.now }
    {
        let h = self.hour;
        let gains = HeatCoolGains {
            gains_heat_cool: gains_heat_cool_of(h) + w.load,
            f_hc_c: frac_upper(h, w.load, w.fraction),
        };
        let h_ve = calc_vent_heat_transfer_coeff(self.zone.volume, v.ach_cooling);
        self.solve_load(h_ve, gains, last, temps)?;
        let temp_upper = self.control.temperature(temps);
        let kwh = interp_heat_cool_demand(
            h.delta_t_h,
            w.setpoint,
            w.load,
            v.temp_free,
            temp_upper,
        )?;
        Ok(demand_record(kwh, v))
    }

    #[tactic(auto, unfolding(crate::specs::Inner::Demand::loaded_demand))]
    fn demand_for_load(
        &self,
        v: VentilationChoice,
        wanted: Option<HeatCoolLoad>,
        last: &[f64; 25],
        temps: &mut [f64; 121],
    ) -> Result<Demand, Refusal>
        ensures { answered result ≡ of_hour loaded_demand self.now v wanted last.now }
    {
        match wanted {
            None => Ok(demand_record(0.0, v)),
            Some(w) => self.loaded_demand(v, w, last, temps),
        }
    }

    #[tactic(auto, unfolding(crate::specs::Inner::Demand::demand_from_free))]
    fn demand_from_free(
        &self,
        free: ZoneTemperatures,
        last: &mut [f64; 25],
        temps: &mut [f64; 121],
    ) -> Result<Demand, Refusal>
        ensures { answered_with result last.new ≡ of_hour demand_from_free self.now self.now.zone.now.useful_area free last.old }
    {
        let v = self.calc_cooling_potential_from_ventilation(free, last, temps)?;
        let wanted = wanted_of(self.zone.useful_area, self.hour, v.temp_free);
        self.demand_for_load(v, wanted, last, temps)
    }

    // The demand; where it is accepted, the last column of the chosen rate is left for its last calculation.
    #[tactic(auto, unfolding(crate::specs::Inner::Demand::demand_in))]
    pub fn demand(&self, last: &mut [f64; 25], temps: &mut [f64; 121]) -> Result<Demand, Refusal>
        ensures { answered_with result last.new ≡ of_hour demand_in self.now self.now.zone.now.useful_area }
    {
        let h = self.hour;
        if h.temp_setpnt_cool < h.temp_setpnt_heat {
            return Err(Refusal::CoolingBelowHeating);
        }
        if h.temp_setpnt_cool_vent < h.temp_setpnt_heat {
            return Err(Refusal::VentilationBelowHeating);
        }
        self.free_temperatures(ach_target(h.ach_args), last, temps)?;
        let indoor = self.control.zone_temperatures(temps);
        self.demand_from_free(indoor, last, temps)
    }
}
