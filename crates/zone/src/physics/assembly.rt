// What all elements bring into one time step's systems: the rows of their chains, the couplings of their inner surfaces and two sums; and the right sides.
ghost use Rattle.std.specs.Prelude.{◌≡◌, true, replicate};
ghost use Rattle.solver.specs.F64.{zero64};
ghost use Rattle.solver.specs.FastSolver.{at_most24};
ghost use Rattle.solver.specs.Repeat.{repeat};
ghost use Rattle.zone.specs.Physics.Slots.{with_terms};
ghost use Rattle.zone.specs.Physics.System.{two_nodes_of, area_el_total};
ghost use Rattle.zone.specs.Inner.Assembly.{at};
ghost use Rattle.zone.specs.Inner.KeptMatrix.{chains_in, key_in};
ghost use Rattle.zone.specs.Inner.Assembled.{element_sides};
ghost use Rattle.zone.specs.Inner.Kept.{h_ci_in, rows_by, chains_by, couplings_by, convective_by_sum, same_key};

use crate::format::conditions::Conditions;
use crate::physics::equations::{right_sides_of, rows_of};
use crate::physics::matrix::{Surfaces, area_total, set_rows};
use crate::physics::operative::areas_of;
use crate::physics::slots::{element_slots, set_slots};
use crate::physics::terms::with_terms;
use crate::record::building_element::{
    Coefficients, HeatFlowDirection, h_ci_of_direction, is_two_nodes,
};
use crate::record::zone_record::Zone;
use solver::{Chains, Factors};
use std::num::f64_to_bits_with_nan;

// For which hour a matrix is assembled: its timestep, the directions of heat flow at the elements' inner surfaces and the open treatments.
// Arrays of fixed length, for there is no heap; h_ci needs the directions alone, and the chains the open treatments alone.
#[derive(Clone, Copy)]
pub struct Key {
    pub delta_t: f64,
    pub directions: [HeatFlowDirection; 24],
    pub opens: [u8; 24],
}

impl Key {
    // Whether the other gives the elements of this zone the same matrix.
    pub fn same(&self, z: &Zone, other: &Key) -> bool
        ensures { result ≡ same_key true self.now.delta_t other.now.delta_t (at_most24 z.now.count) (key_in self.now) other.now.directions other.now.opens }
    {
        let n = z.element_count();
        f64_to_bits_with_nan(self.delta_t) == f64_to_bits_with_nan(other.delta_t)
            && (&self.directions[..n] == &other.directions[..n]
                && &self.opens[..n] == &other.opens[..n])
    }

    // h_ci of each element, by its direction of heat flow.
    fn h_ci(&self, c: Coefficients, z: &Zone) -> [f64; 24]
        ensures { result ≡ with_terms (at_most24 z.now.count) (h_ci_in c self.now.directions) (replicate 24 zero64) }
    {
        with_terms(
            z.element_count(),
            |e| h_ci_of_direction(c, self.directions[e]),
            [0.0; 24],
        )
    }
}

// The rows of all elements' chains.
#[tactic(auto, using(crate::proofs::Laws::Loops::repeat_turn, crate::proofs::Laws::Loops::repeat_end, crate::proofs::Laws::Elements::element_is), unfolding(crate::specs::Inner::Kept::rows_by))]
fn assemble_chains(z: &Zone, key: &Key, surfaces: &Surfaces, chains: &mut Chains)
    ensures rows { chains_in chains.new
        ≡ repeat 0 (at_most24 z.now.count) (rows_by z.now.building_elements key.now.opens key.now.delta_t (at surfaces.now.h_ci) (at surfaces.now.share))
        (chains_in chains.old) }
    ensures others { (chains.new.n ≡ chains.old.n) × (chains.new.two_nodes ≡ chains.old.two_nodes) }
{
    let n = z.element_count();
    for e in 0..n {
        let el = z.building_elements[e];
        let h_ci = surfaces.h_ci[e];
        let rows = rows_of(el, key.delta_t, key.opens[e], h_ci, surfaces.share[e]);
        set_rows(e, rows, chains);
    }
}

// The right sides of all elements without the gains.
// Single parameters: each turn takes the element's part of zone, hour and temperatures, and an `HourStart`, handed on to none, would only be taken apart.
#[tactic(auto, using(crate::proofs::Laws::Loops::repeat_turn, crate::proofs::Laws::Loops::repeat_end, crate::proofs::Laws::Elements::elements_are), unfolding(crate::specs::Inner::Assembly::element_right_sides, crate::specs::Inner::Assembled::element_sides))]
pub fn assemble_sides(z: &Zone, h: &Conditions, delta_t: f64, t: &[f64; 121], b: &mut [f64; 121])
    ensures { b.new ≡ element_sides (at_most24 z.now.count) z.now.building_elements h.now.elements delta_t t.now b.old }
{
    let n = z.element_count();
    for e in 0..n {
        let el = z.building_elements[e];
        let hour = &h.elements[e];
        let before = element_slots(t, e);
        let sides = right_sides_of(el, delta_t, hour, &before);
        set_slots(b, e, &sides);
    }
}

// The sums over all elements.
#[derive(Clone, Copy)]
pub struct ElementSums {
    pub area_el_total: f64,
    pub convective: f64,
}

// What all elements bring into the matrix.
pub fn assemble_elements(c: Coefficients, z: &Zone, key: &Key, factors: &mut Factors) -> ElementSums
    ensures two_nodes { factors.new.chains.two_nodes
        ≡ with_terms (at_most24 z.now.count) (two_nodes_of z.now.building_elements) factors.old.chains.two_nodes }
    ensures chains { chains_in factors.new.chains
        ≡ chains_by (at_most24 z.now.count) z.now.building_elements key.now.opens key.now.delta_t (h_ci_in c key.now.directions) (chains_in factors.old.chains) }
    ensures dense { factors.new.lu.matrix
        ≡ couplings_by (at_most24 z.now.count) z.now.building_elements (h_ci_in c key.now.directions) factors.old.lu.matrix }
    ensures others { (factors.new.chains.n ≡ factors.old.chains.n) × (factors.new.lu.interchanges ≡ factors.old.lu.interchanges) }
    ensures sums { (result.area_el_total ≡ area_el_total (at_most24 z.now.count) z.now.building_elements)
        × (result.convective ≡ convective_by_sum (at_most24 z.now.count) z.now.building_elements (h_ci_in c key.now.directions)) }
{
    let n = z.element_count();
    let es = &z.building_elements;
    let area = areas_of(z);
    let mut surfaces = Surfaces {
        n,
        area,
        h_ri: with_terms(n, |e| es[e].h_ri, [0.0; 24]),
        h_ci: key.h_ci(c, z),
        share: [0.0; 24],
        area_total: area_total(&area[..n]),
    };
    surfaces.share = surfaces.shares();
    let before = factors.chains.two_nodes;
    factors.chains.two_nodes = with_terms(n, |e| is_two_nodes(es[e].kind), before);
    assemble_chains(z, key, &surfaces, &mut factors.chains);
    surfaces.couple_rows(&mut factors.lu.matrix);
    ElementSums {
        area_el_total: surfaces.area_total,
        convective: surfaces.convective_sum(),
    }
}
