// The rule of an entry version: whether its limits are in range, the power that a demand delivers, the total gains with it and their convective share.
// Specification, Entry versions; Limits of the plant.
ghost use Rattle.std.specs.Prelude.{◌≡◌, []};
ghost use Rattle.zone.specs.Calls.Hour.{limits_valid, delivered, limited, delivered_by, delivered_fraction, convective_share};
ghost use Rattle.zone.specs.Inner.Hour.{gains_by};

use crate::calls::state::Demand;
use crate::check::ranges::POWER_LIMIT;
use crate::check::versions::has_limits;
use crate::format::conditions::Conditions;
use crate::format::limits::Limits;
use crate::hour::solves::gains_heat_cool_of;
use crate::physics::balance::HeatCoolGains;
use crate::record::units::WATTS_PER_KILOWATT;
use solver::close_in_demand;

// From this entry version on delivered power below 0 has the fraction of cooling.
const COOLING_FRACTION_VERSION: u64 = 2;

// An entry version, with the greatest powers of the plant. Versions are numbers: they stand in order, and a call may name any.
// A call is given a version and its limits apart; `hour_step` and `next_hour` make a `Rule` of both at once.
#[derive(Clone, Copy)]
pub struct Rule {
    pub version: u64,
    pub limits: Limits,
}

// What a demand delivers in W, with no limit.
pub fn delivered_of(h: &Conditions, d: Demand) -> f64
    ensures { result ≡ delivered h.now d }
{
    (d.space_heat_demand + d.space_cool_demand) * WATTS_PER_KILOWATT / h.delta_t_h
}

// A power strictly beyond a limit becomes the limit, one of cooling with a minus.
#[tactic(auto, unfolding(crate::specs::Calls::Hour::limited))]
fn limited(limits: Limits, w: f64) -> f64
    ensures { result ≡ limited limits w }
{
    if limits.heating < w {
        return limits.heating;
    }
    let most_cooling = -limits.cooling;
    if w < most_cooling { most_cooling } else { w }
}

impl Rule {
    // Both limits lie in their range; of an hour without limits they are not looked at.
    #[tactic(auto, using(crate::proofs::Laws::Ranges::ranges))]
    pub fn limits_valid(self) -> bool
        ensures { result ≡ limits_valid self.version self.limits }
    {
        if has_limits(self.version) {
            POWER_LIMIT.contains(self.limits.heating) & POWER_LIMIT.contains(self.limits.cooling)
        } else {
            true
        }
    }

    // What a demand delivers in W, by this rule.
    #[tactic(auto, unfolding(crate::specs::Calls::Hour::delivered_by))]
    fn delivered(self, h: &Conditions, d: Demand) -> f64
        ensures { result ≡ delivered_by self.version self.limits h.now d }
    {
        let w = delivered_of(h, d);
        if has_limits(self.version) {
            return limited(self.limits, w);
        }
        w
    }

    // The convective fraction of what is delivered: from version 2 on that of cooling where it is below 0, else that of heating.
    #[tactic(auto, unfolding(crate::specs::Calls::Hour::delivered_fraction))]
    fn delivered_fraction(self, h: &Conditions, w: f64) -> f64
        ensures { result ≡ delivered_fraction self.version h.now w }
    {
        if COOLING_FRACTION_VERSION <= self.version && w < 0.0 {
            h.frac_convective_cool
        } else {
            h.frac_convective_heat
        }
    }

    // The convective share of the total gains.
    #[tactic(auto, unfolding(crate::specs::Calls::Hour::convective_share, crate::specs::Hour::Demand::share_or_zero))]
    fn convective_share(self, h: &Conditions, w: f64, g: f64) -> f64
        ensures { result ≡ convective_share self.version h.now w g }
    {
        if close_in_demand(g, 0.0) {
            return 0.0;
        }
        let fraction = self.delivered_fraction(h, w);
        (h.gains_heat_cool_convective + w * fraction) / g
    }

    // The total gains of an hour whose demand is met.
    pub fn gains(self, h: &Conditions, d: Demand) -> HeatCoolGains
        ensures { result ≡ gains_by self h.now d }
    {
        let w = self.delivered(h, d);
        let gains_heat_cool = gains_heat_cool_of(h) + w;
        HeatCoolGains {
            gains_heat_cool,
            f_hc_c: self.convective_share(h, w, gains_heat_cool),
        }
    }
}
