// The record of a zone.
ghost use Rattle.std.specs.Prelude.{◌≡◌, ◌≤◌};
ghost use Rattle.solver.specs.FastSolver.{at_most24};
ghost use Rattle.zone.specs.Inner.Head.{no_zone};
ghost use Rattle.zone.specs.Record.BuildingElement.{node_count};

use crate::format::decode::no_element;
use crate::record::building_element::{Element, number_of_nodes};

#[derive(Clone, Copy)]
pub enum ZoneTemperatureControlBasis {
    Air,
    Operative,
}

// A zone as its head gives it. The first `count` of `building_elements` are its elements: an array with a count beside it, since the engine's memory
// is fixed and it has no heap.
#[derive(Clone, Copy)]
pub struct Zone {
    pub temp_setpnt_basis: ZoneTemperatureControlBasis,
    pub count: usize,
    pub start_up_limit: usize,
    pub useful_area: f64,
    pub volume: f64,
    pub tb_heat_trans_coeff: f64,
    pub temp_ext_air_init: f64,
    pub temp_setpnt_init: f64,
    pub temp_setpnt_cool_vent_init: f64,
    pub building_elements: [Element; 24],
}

impl Zone {
    // No zone: what no bytes are read as. A head is read into it.
    pub fn none() -> Zone
        ensures { result ≡ no_zone }
    {
        Zone {
            temp_setpnt_basis: ZoneTemperatureControlBasis::Air,
            count: 0,
            start_up_limit: 0,
            useful_area: 0.0,
            volume: 0.0,
            tb_heat_trans_coeff: 0.0,
            temp_ext_air_init: 0.0,
            temp_setpnt_init: 0.0,
            temp_setpnt_cool_vent_init: 0.0,
            building_elements: [no_element(); 24],
        }
    }

    // How many elements a calculation takes: no more than there are places. It is a number and no slice of them, as most loops go by the element's number
    // over slots or over the hour's entries too.
    #[tactic(auto, using(crate::proofs::Laws::Counts::min_24))]
    pub(crate) fn element_count(&self) -> usize
        ensures { (result ≡ at_most24 self.now.count) × (result ≤ 24) }
    {
        self.count.min(24)
    }

    // The nodes of the zone's elements, and the internal air.
    pub fn node_count(&self) -> usize
        ensures { result ≡ node_count self.now }
    {
        let mut total = 1;
        for e in &self.building_elements[..self.element_count()] {
            total += number_of_nodes(e.kind);
        }
        total
    }
}
