// The operative temperature.
ghost use Rattle.std.specs.Prelude.{◌≡◌, ◌≤◌};
ghost use Rattle.solver.specs.Sums.{sum2, terms};
ghost use Rattle.solver.specs.FastSolver.{at_most24};
ghost use Rattle.zone.specs.Physics.System.{area_of, zone_two_nodes};
ghost use Rattle.zone.specs.Physics.NodeLayout.{first_node};
ghost use Rattle.zone.specs.Physics.TempOperative.{mean_of};
ghost use Rattle.zone.specs.Inner.Assembly.{at};
ghost use Rattle.zone.specs.Inner.Operative.{radiant_of_nodes, temp_operative_of, areas_of};
ghost use Rattle.zone.specs.Calls.State.{operative_of};

use crate::physics::matrix::area_total;
use crate::physics::terms::{sum2_of, with_terms};
use crate::record::building_element::number_of_nodes;
use crate::record::zone_record::Zone;
use solver::Sum2;

// For `temp_operative_by_temp_vector`, which is asked several times in an hour.
pub fn areas_of(z: &Zone) -> [f64; 24]
    ensures { result ≡ areas_of z.now }
{
    with_terms(
        z.element_count(),
        |e| z.building_elements[e].area,
        [0.0; 24],
    )
}

fn mean_of(x: f64, y: f64) -> f64
    ensures { result ≡ mean_of x y }
{
    (x + y) / 2.0
}

// From the elements' areas and their total. Of a slice of areas it would have to ask that they are at most 24, for the slots of `t`; so it takes any count.
pub fn temp_operative_by_temp_vector(
    count: usize,
    area: &[f64; 24],
    area_el_total: f64,
    t: &[f64; 121],
) -> f64
    ensures { result ≡ temp_operative_of (at_most24 count) (at area.now) area_el_total t.now }
{
    let n = count.min(24);
    let temp_int_air = t[120];
    let temp_mean_radiant = sum2_of(n, |e| area[e] * t[5 * e + 4]) / area_el_total;
    mean_of(temp_int_air, temp_mean_radiant)
}

// The same sum of temperatures in node order, and the node of the air. Its loop is not `sum2_of`, as it counts the nodes too.
#[derive(Clone, Copy)]
struct RadiantSum {
    sum: f64,
    air: usize,
}

#[tactic(auto, using(crate::proofs::Laws::Element::nodes_few, crate::proofs::Laws::Element::nodes_some), unfolding(crate::specs::Physics::NodeLayout::first_node))]
fn radiant_sum_of_nodes(z: &Zone, temps: &[f64; 121]) -> RadiantSum
    ensures { (result.sum ≡ sum2 (terms 0 (at_most24 z.now.count) (radiant_of_nodes (area_of z.now.building_elements) (zone_two_nodes z.now) temps.now)))
        × (result.air ≡ first_node (zone_two_nodes z.now) (at_most24 z.now.count))
        × (result.air ≤ 120) }
{
    let mut total = Sum2::zero();
    let mut node = 0;
    for el in &z.building_elements[..z.element_count()] {
        node += number_of_nodes(el.kind);
        total = total.add(el.area * temps[node - 1]);
    }
    RadiantSum {
        sum: total.sum(),
        air: node,
    }
}

// The operative temperature of node temperatures, whatever they are.
pub fn operative_of(z: &Zone, temps: &[f64; 121]) -> f64
    ensures { result ≡ operative_of z.now temps.now }
{
    let area_el_total = area_total(&areas_of(z)[..z.element_count()]);
    let radiant = radiant_sum_of_nodes(z, temps);
    let air = radiant.air;
    let temp_int_air = temps[air];
    let temp_mean_radiant = radiant.sum / area_el_total;
    mean_of(temp_int_air, temp_mean_radiant)
}
