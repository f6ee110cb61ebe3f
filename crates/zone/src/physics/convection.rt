// The elements at the internal boundary of a heat balance: the heat that the air gives to their inner surfaces by convection.
ghost use Rattle.std.specs.Prelude.{◌≡◌};
ghost use Rattle.solver.specs.FastSolver.{at_most24};
ghost use Rattle.solver.specs.Repeat.{repeat};
ghost use Rattle.zone.specs.Inner.ConvectiveSums.{add_loss, add_loss_at, no_convection};

use crate::record::building_element::{Coefficients, HeatFlowDirection, h_ci};
use crate::record::zone_record::Zone;

// The sums over the elements at the internal boundary: one over all, then three by direction of heat flow.
#[derive(Clone, Copy, Default)]
pub struct ConvectiveSums {
    pub total: f64,
    pub horizontal: f64,
    pub upwards: f64,
    pub downwards: f64,
}

impl ConvectiveSums {
    // One element's term to the total and to the sum of its direction.
    fn add_loss(&mut self, direction: HeatFlowDirection, x: f64)
        ensures { self.new ≡ add_loss direction x self.old }
    {
        self.total += x;
        match direction {
            HeatFlowDirection::Horizontal => self.horizontal += x,
            HeatFlowDirection::Upwards => self.upwards += x,
            HeatFlowDirection::Downwards => self.downwards += x,
        }
    }
}

// Direction and h_ci are those of the temperatures before the step, the heat has those after it.
pub fn convective_sums(
    c: Coefficients,
    z: &Zone,
    temp_prev: &[f64; 121],
    vector_x: &[f64; 121],
) -> ConvectiveSums
    ensures { result ≡ repeat 0 (at_most24 z.now.count) (add_loss_at c z.now.building_elements temp_prev.now vector_x.now) no_convection }
{
    let n = z.element_count();
    let mut sums = ConvectiveSums::default();
    for e in 0..n {
        let el = &z.building_elements[e];
        let at_surface = h_ci(c, el.pitch, temp_prev[120], temp_prev[5 * e + 4]);
        let loss = el.area * (at_surface.h_ci * (vector_x[120] - vector_x[5 * e + 4]));
        sums.add_loss(at_surface.direction, loss);
    }
    sums
}
