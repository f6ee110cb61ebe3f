// The factored matrix of an hour, kept for the next.
ghost use Rattle.std.specs.Prelude.{◌≡◌};
ghost use Rattle.zone.specs.Inner.Kept.{directions_of, none_held, emptied, keep_factors};
ghost use Rattle.zone.specs.Inner.KeptMatrix.{is_held, arrays_in, held_in, holds};
ghost use Rattle.solver.specs.FastSolver.{at_most24};

use crate::physics::assembly::{ElementSums, Key, assemble_elements};
use crate::physics::terms::with_terms;
use crate::record::building_element::{Coefficients, HeatFlowDirection, heat_flow_direction};
use crate::record::zone_record::Zone;
use solver::{Chains, Factors, Lu};

// The directions of heat flow, from the temperatures before the step.
pub fn directions_of(c: Coefficients, z: &Zone, t: &[f64; 121]) -> [HeatFlowDirection; 24]
    ensures { result ≡ directions_of c z.now t.now }
{
    with_terms(
        z.element_count(),
        |e| heat_flow_direction(c, z.building_elements[e].pitch, t[120], t[5 * e + 4]),
        [HeatFlowDirection::Horizontal; 24],
    )
}

// The factored matrix of an hour, kept for the next: the next hour's is the same where the key is, and then it is neither assembled nor factored
// again. `key` is none where none is held; `column` is the last column as it was assembled. The key alone is an
// Option: the arrays stay in their place, held or not, as memory is fixed.
#[derive(Clone, Copy)]
pub struct KeptMatrix {
    pub(crate) key: Option<Key>,
    pub(crate) sums: ElementSums,
    pub(crate) factors: Factors,
    pub(crate) column: [f64; 25],
}

impl KeptMatrix {
    // No matrix.
    pub fn none() -> KeptMatrix
        ensures { held_in result ≡ none_held }
    {
        KeptMatrix {
            key: None,
            sums: ElementSums {
                area_el_total: 0.0,
                convective: 0.0,
            },
            factors: Factors {
                chains: Chains {
                    n: 0,
                    two_nodes: [false; 24],
                    diag: [0.0; 120],
                    next: [0.0; 120],
                    prev: [0.0; 120],
                },
                lu: Lu {
                    matrix: [0.0; 625],
                    interchanges: [0; 25],
                },
                valid: false,
            },
            column: [0.0; 25],
        }
    }

    // What is held is let go of.
    fn clear(&mut self)
        ensures { held_in self.new ≡ none_held }
    {
        *self = KeptMatrix::none();
    }

    // Whether the matrix of this hour is held.
    fn holds(&self, z: &Zone, key: &Key) -> bool
        ensures { result ≡ holds self.now (at_most24 z.now.count) key.now.directions key.now.opens key.now.delta_t }
    {
        self.key.as_ref().is_some_and(|kept| kept.same(z, key))
    }

    // The arrays of a matrix that is held become zeros, in which another is assembled.
    fn empty(&mut self)
        ensures { arrays_in self.new.factors ≡ emptied (is_held self.old.key) (arrays_in self.old.factors) }
    {
        if self.key.is_some() {
            self.clear();
        }
    }

    // The hour's matrix but its last column, factored, unless it is held.
    pub(crate) fn keep_factors(&mut self, c: Coefficients, z: &Zone, key: &Key)
        ensures held { held_in self.new ≡ keep_factors c z.now key.now.directions key.now.opens key.now.delta_t (held_in self.old) }
        ensures count { self.new.factors.chains.n ≡ at_most24 z.now.count }
    {
        let n = z.element_count();
        if self.holds(z, key) {
            self.factors.chains.n = n;
            return;
        }
        self.empty();
        self.factors.chains.n = n;
        self.sums = assemble_elements(c, z, key, &mut self.factors);
        self.column = self.factors.last_column();
        self.factors.factor_columns();
        self.key = Some(*key);
    }
}
