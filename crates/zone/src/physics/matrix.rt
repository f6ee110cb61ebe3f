// The coefficients that all elements of a zone bring into the matrix.
ghost use Rattle.std.specs.Prelude.{◌≡◌, ◌<◌, ◌≤◌, replicate};
ghost use Rattle.solver.specs.F64.{zero64};
ghost use Rattle.solver.specs.Repeat.{repeat};
ghost use Rattle.solver.specs.Sums.{sum2, terms};
ghost use Rattle.zone.specs.Physics.Slots.{with_terms};
ghost use Rattle.zone.specs.Inner.Assembly.{at, share_by, convective_by, rows_in, set_rows, couple, couple_row};
ghost use Rattle.zone.specs.Inner.KeptMatrix.{chains_in};

use crate::physics::equations::Rows;
use crate::physics::slots::{set_entry, set_slots};
use crate::physics::terms::{sum2_of, with_terms};
use solver::Chains;

// The total of all elements' areas.
pub fn area_total(areas: &[f64]) -> f64
    ensures { result ≡ sum2 areas.now }
{
    sum2_of(areas.len(), |e| areas[e])
}

// What the couplings and the sums need of the inner surfaces of n elements: h_ci by the direction of heat flow, and the share of the total area.
// Arrays with their count, for there is no heap. The shares are filled last, as they need the total of the areas.
#[derive(Clone, Copy)]
pub struct Surfaces {
    pub n: usize,
    pub area: [f64; 24],
    pub h_ri: [f64; 24],
    pub h_ci: [f64; 24],
    pub share: [f64; 24],
    pub area_total: f64,
    ghost few: { n ≤ 24 },
}

// The bound of e is asked for as in slots.rt.
#[tactic(auto, unfolding(crate::specs::Inner::Assembly::set_rows))]
pub fn set_rows(e: usize, r: Rows, chains: &mut Chains)
    requires { e < 24 }
    ensures rows { chains_in chains.new ≡ set_rows e (rows_in r) (chains_in chains.old) }
    ensures others { (chains.new.n ≡ chains.old.n) × (chains.new.two_nodes ≡ chains.old.two_nodes) }
{
    set_slots(&mut chains.diag, e, &r.diag);
    set_slots(&mut chains.next, e, &r.next);
    set_slots(&mut chains.prev, e, &r.prev);
}

impl Surfaces {
    // Of the total area.
    pub fn shares(&self) -> [f64; 24]
        ensures { result ≡ with_terms self.now.n (share_by (at self.now.area) self.now.area_total) (replicate 24 zero64) }
    {
        with_terms(self.n, |e| self.area[e] / self.area_total, [0.0; 24])
    }

    // The convective sum of the zone's own coefficient (38).
    pub fn convective_sum(&self) -> f64
        ensures { result ≡ sum2 (terms 0 self.now.n (convective_by (at self.now.area) (at self.now.h_ci))) }
    {
        sum2_of(self.n, |e| self.area[e] * self.h_ci[e])
    }

    #[tactic(auto, using(crate::proofs::Laws::Loops::repeat_turn, crate::proofs::Laws::Loops::repeat_end))]
    fn couplings(&self, i: usize, m: &mut [f64; 625])
        requires { i < self.now.n }
        ensures { m.new ≡ repeat 0 self.now.n (couple (at self.now.share) (at self.now.h_ri i) i) m.old }
    {
        let h_ri = self.h_ri[i];
        // By k: after a loop over the row's part of `m`, zipped with the shares, the proof knows nothing of that part (its goal has any list there), and
        // `enumerate` leaves the shares their index.
        for k in 0..self.n {
            set_entry(m, i, k, 0.0 - self.share[k] * h_ri);
        }
    }

    #[tactic(auto, unfolding(crate::specs::Inner::Assembly::couple_row))]
    fn couple_row(&self, i: usize, m: &mut [f64; 625])
        requires { i < self.now.n }
        ensures { m.new
            ≡ couple_row self.now.n (at self.now.area) (at self.now.h_ri) (at self.now.h_ci) (at self.now.share) i m.old }
    {
        let n = self.n;
        let h = self.h_ci[i];
        self.couplings(i, m);
        set_entry(m, i, n, -h);
        set_entry(m, n, i, -self.area[i] * h);
    }

    #[tactic(auto, using(crate::proofs::Laws::Loops::repeat_turn, crate::proofs::Laws::Loops::repeat_end))]
    pub fn couple_rows(&self, m: &mut [f64; 625])
        ensures { m.new
            ≡ repeat 0 self.now.n (couple_row self.now.n (at self.now.area) (at self.now.h_ri) (at self.now.h_ci) (at self.now.share)) m.old }
    {
        for i in 0..self.n {
            self.couple_row(i, m);
        }
    }
}
