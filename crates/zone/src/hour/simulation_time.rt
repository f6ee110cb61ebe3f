// What is used of the original's simulation time: the length of one timestep. Each call is one timestep, and a book's entries are their order.
ghost use Rattle.std.specs.Prelude.{◌≡◌, []};
ghost use Rattle.zone.specs.Hour.Demand.{delta_t};

use crate::format::conditions::Conditions;
use crate::record::units::SECONDS_PER_HOUR;

// The timestep in seconds.
pub fn delta_t_of(h: &Conditions) -> f64
    ensures { result ≡ delta_t h.now }
{
    h.delta_t_h * SECONDS_PER_HOUR
}
