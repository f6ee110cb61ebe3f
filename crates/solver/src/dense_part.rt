// The dense part's own: the adjusted diagonals go in, right sides are gathered from their slots, and its unknowns go back to them.
ghost use Rattle.std.specs.Prelude.{◌≡◌, Float};
ghost use Rattle.solver.specs.Repeat.{repeat};
ghost use Rattle.solver.specs.FastSolver.{set_inner_diagonals, scatter_inner, scatter_dense};
ghost use Rattle.solver.specs.Inner.Reduced.{gathered, gather_reduced, gather_loaded};

use crate::chain::Count;
use crate::rows::set_entry;

// The adjusted inner diagonals go into the dense part. Of the chains it has their diagonals alone, as its definition does: the chains themselves would say
// less of what is read.
#[tactic(auto, using(crate::proofs::Laws::Counting::repeat_turn, crate::proofs::Laws::Counting::repeat_end), unfolding(crate::specs::FastSolver::set_inner_diagonals))]
pub fn set_inner_diagonals(diag: &[f64; 120], count: Count, dense: &mut [f64; 625])
    ensures { dense.new ≡ set_inner_diagonals count.n diag.now dense.old }
{
    for e in 0..count.n {
        set_entry(dense, e, e, diag[5 * e + 4]);
    }
}

// The unknowns of the dense part go back to their slots.
#[tactic(auto, using(crate::proofs::Laws::Counting::repeat_turn, crate::proofs::Laws::Counting::repeat_end))]
fn scatter_inner(v: &[f64; 25], count: Count, t: &mut [f64; 121])
    ensures { t.new ≡ repeat 0 count.n (scatter_inner v.now) t.old }
{
    for e in 0..count.n {
        t[5 * e + 4] = v[e];
    }
}

#[tactic(auto, unfolding(crate::specs::FastSolver::scatter_dense))]
pub fn scatter_dense(v: &[f64; 25], count: Count, t: &mut [f64; 121])
    ensures { t.new ≡ scatter_dense count.n v.now t.old }
{
    scatter_inner(v, count, t);
    t[120] = v[count.n];
}

// A right side that is reduced but for the last step of each chain, and what that step subtracts at each inner surface.
#[derive(Clone, Copy)]
pub struct RightSide {
    pub b: [f64; 121],
    pub inner: [f64; 24],
}

impl RightSide {
    // The dense part's right side: at each inner surface what f makes of its right side, less what the last step subtracts; and the air's.
    #[tactic(auto, using(crate::proofs::Laws::Counting::repeat_turn, crate::proofs::Laws::Counting::repeat_end))]
    fn gathered<F: Fn(f64) -> f64>(&self, count: Count, air: f64, f: F) -> [f64; 25]
        requires callable { (x : Float) → F.pre f x }
        ensures { (term : Float → Float) → ((x y : Float) → F.post f x y → y ≡ term x) → result ≡ gathered count.n term self.now.b self.now.inner air }
    {
        let mut v = [0.0; 25];
        for e in 0..count.n {
            v[e] = f(self.b[5 * e + 4]) - self.inner[e];
        }
        v[count.n] = air;
        v
    }

    // Without a load.
    #[tactic(auto, unfolding(crate::specs::Inner::Reduced::gather_reduced))]
    pub(crate) fn gather(&self, count: Count) -> [f64; 25]
        ensures { result ≡ gather_reduced count.n self.now.b self.now.inner }
    {
        self.gathered(count, self.b[120], |b| b)
    }

    // With a load: gains at each inner surface, and the air's right side.
    #[tactic(auto, unfolding(crate::specs::Inner::Reduced::gather_loaded))]
    pub(crate) fn gather_loaded(&self, gains: f64, air: f64, count: Count) -> [f64; 25]
        ensures { result ≡ gather_loaded count.n self.now.b self.now.inner gains air }
    {
        self.gathered(count, air, |b| b + gains)
    }
}
