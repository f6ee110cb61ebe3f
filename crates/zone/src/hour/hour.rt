// An hour's calculations, of an hour that is prepared: a given load, or the demand and where it is met the temperatures after the hour.
ghost use Rattle.std.specs.Prelude.{◌≡◌, []};
ghost use Rattle.zone.specs.Answers.{answered_with};
ghost use Rattle.zone.specs.Inner.PreparedHour.{of_hour, prepared_in};
ghost use Rattle.zone.specs.Inner.Hour.{met_load, update_in, demand_met_in};
ghost use Rattle.zone.specs.Inner.Prepared.{solved_with};

use crate::calls::state::Demand;
use crate::format::conditions::Conditions;
use crate::hour::rule::{Rule, delivered_of};
use crate::hour::time_step::PreparedHour;
use crate::physics::balance::HeatCoolGains;
use crate::physics::ventilation::calc_vent_heat_transfer_coeff;
use crate::record::refusal::Refusal;
use solver::SolveError;

// Whether the demand is met, and how: with the total gains and their convective share, by the rule of an entry version, or alone with the
// fraction of heating. No Option, as there are three cases.
#[derive(Clone, Copy)]
pub enum Meeting {
    NotMet,
    WithGains(Rule),
    Alone,
}

// The load of the last calculation.
fn met_load(h: &Conditions, d: Demand, meeting: Meeting) -> Option<HeatCoolGains>
    ensures { result ≡ met_load h.now d meeting }
{
    match meeting {
        Meeting::NotMet => None,
        Meeting::WithGains(rule) => Some(rule.gains(h, d)),
        Meeting::Alone => Some(HeatCoolGains {
            gains_heat_cool: delivered_of(h, d),
            f_hc_c: h.frac_convective_heat,
        }),
    }
}

impl PreparedHour<'_, '_> {
    // The demand, and the last calculation by the last column that the demand left. Where the demand is not met, `after` stays as it is.
    #[tactic(auto, unfolding(crate::specs::Inner::Hour::demand_met_in))]
    pub fn demand_met(&self, meeting: Meeting, after: &mut [f64; 121]) -> Result<Demand, Refusal>
        ensures { answered_with result after.new ≡ of_hour demand_met_in self.now self.now.zone.now.useful_area meeting after.old }
    {
        let mut last = [0.0; 25];
        let mut temps = [0.0; 121];
        let d = self.demand(&mut last, &mut temps)?;
        if let Some(gains) = met_load(self.hour, d, meeting) {
            let h_ve = calc_vent_heat_transfer_coeff(self.zone.volume, d.ach_cooling);
            self.solve_load(h_ve, gains, &last, after)?;
        }
        Ok(d)
    }

    // The temperatures with given gains.
    #[tactic(auto, unfolding(crate::specs::Inner::Hour::update_in))]
    pub fn update(
        &self,
        gains: HeatCoolGains,
        ach: f64,
        after: &mut [f64; 121],
    ) -> Result<(), SolveError>
        ensures { solved_with result after.new ≡ update_in (prepared_in self.now) self.now.zone.now.volume gains ach }
    {
        let mut last = [0.0; 25];
        self.calc_temperatures(gains, ach, &mut last, after)
    }
}
