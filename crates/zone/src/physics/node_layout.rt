// Between node order, in which states are handed out and stored, and slots.
// Specification, Node order.
ghost use Rattle.std.specs.Prelude.{◌≡◌, ◌+◌, ◌≤◌};
ghost use Rattle.zone.specs.Physics.System.{zone_two_nodes};
ghost use Rattle.zone.specs.Physics.NodeLayout.{copy_nodes, to_slots, to_nodes};

use crate::record::building_element::number_of_nodes;
use crate::record::zone_record::Zone;

#[tactic(auto, using(crate::proofs::Laws::Copies::copied_is))]
fn copy_nodes(k: usize, from: usize, to: usize, a: &[f64; 121], b: &mut [f64; 121])
    requires { (from + k ≤ 121) × (to + k ≤ 121) }
    ensures { b.new ≡ copy_nodes k from to a.now b.old }
{
    b[to..to + k].copy_from_slice(&a[from..from + k]);
}

#[tactic(auto, using(crate::proofs::Laws::Element::nodes_few, crate::proofs::Laws::Loops::repeat_turn, crate::proofs::Laws::Loops::repeat_end, crate::proofs::Laws::Zones::number_is), unfolding(crate::specs::Physics::NodeLayout::first_node, crate::specs::Physics::NodeLayout::to_slots))]
pub fn to_slots(z: &Zone, temps: &[f64; 121]) -> [f64; 121]
    ensures { result ≡ to_slots z.now.count (zone_two_nodes z.now) temps.now }
{
    let n = z.element_count();
    let mut slots = [0.0; 121];
    let mut node = 0;
    for e in 0..n {
        let k = number_of_nodes(z.building_elements[e].kind);
        copy_nodes(k, node, 5 * e + 5 - k, temps, &mut slots);
        node += k;
    }
    slots[120] = temps[node];
    slots
}

#[tactic(auto, using(crate::proofs::Laws::Element::nodes_few, crate::proofs::Laws::Loops::repeat_turn, crate::proofs::Laws::Loops::repeat_end, crate::proofs::Laws::Zones::number_is), unfolding(crate::specs::Physics::NodeLayout::first_node, crate::specs::Physics::NodeLayout::to_nodes))]
pub fn to_nodes(z: &Zone, slots: &[f64; 121]) -> [f64; 121]
    ensures { result ≡ to_nodes z.now.count (zone_two_nodes z.now) slots.now }
{
    let n = z.element_count();
    let mut temps = [0.0; 121];
    let mut node = 0;
    for e in 0..n {
        let k = number_of_nodes(z.building_elements[e].kind);
        copy_nodes(k, 5 * e + 5 - k, node, slots, &mut temps);
        node += k;
    }
    temps[node] = slots[120];
    temps
}
