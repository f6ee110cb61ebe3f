// The dense solve of w unknowns: elimination with partial pivoting, and substitution. Rows, columns and ends are numbers with their bounds in the contracts,
// for the reason that rows.rt gives.
ghost use Rattle.std.specs.Prelude.{◌≡◌, ◌+◌, ◌-◌, ◌*◌, ◌<◌, ◌≤◌, drop};
ghost use Rattle.solver.specs.Repeat.{repeat};
ghost use Rattle.solver.specs.Rows.{pivot_row};
ghost use Rattle.solver.specs.Inner.Columns.{factor_column, factor_columns, factor_last, subtract_last_multiple, back_last, lu_solve_apart};
ghost use Rattle.solver.specs.Lu.{interchange_rows, pivots_valid, apply_interchanges, subtract_multiple, forward_substitution, back_substitution};

use crate::chain::Count;
use crate::closeness::valid_divisor;
use crate::rows::{eliminate_rows, entry, pivot_row, row, set_row};

// A dense matrix, factored or on the way there, with the row exchanges: at k the row with which row k changed places when column k was eliminated.
#[derive(Clone, Copy)]
pub struct Lu {
    pub matrix: [f64; 625],
    pub interchanges: [usize; 25],
}

// Row k and row q, of which `pivots` is a copy, change places.
#[tactic(auto, unfolding(crate::specs::Lu::interchange_rows))]
fn interchange_rows(m: &mut [f64; 625], k: usize, q: usize, pivots: &[f64; 25])
    requires { (k < 25) × (q < 25) }
    ensures { m.new ≡ interchange_rows k q pivots.now m.old }
{
    if q == k {
        return;
    }
    let old = row(m, k);
    set_row(m, q, &old);
    set_row(m, k, pivots);
}

// The share of the last unknown, which is x, is subtracted from the right sides of the n rows above. By index: after a loop over
// `b[..n].iter_mut().zip(last)` the proof knows nothing of b's first n places (its goal has any list there), and `enumerate` leaves `last` its index.
#[tactic(auto, using(crate::proofs::Laws::Counting::repeat_turn, crate::proofs::Laws::Counting::repeat_end))]
fn subtract_last_multiples(last: &[f64; 25], b: &mut [f64; 25], x: f64, count: Count)
    ensures { b.new ≡ repeat 0 count.n (subtract_last_multiple last.now x) b.old }
{
    for i in 0..count.n {
        b[i] -= last[i] * x;
    }
}

#[tactic(auto, unfolding(crate::specs::Inner::Columns::back_last))]
fn back_last(last: &[f64; 25], b: &mut [f64; 25], count: Count)
    ensures { b.new ≡ back_last count.n last.now b.old }
{
    let x = b[count.n] / last[count.n];
    b[count.n] = x;
    subtract_last_multiples(last, b, x, count);
}

// The count is that of the chains (`Chains::count`), handed to each method: in `Lu` there would be a second one, and as the fields of `Lu`, `Chains` and
// `Factors` are public, `Factors` would need an invariant that the two are equal.
impl Lu {
    // The pivot row of column k: the rows from row k on, one part of the flat matrix, are handed to the pivot search.
    fn pivot_row(&self, w: usize, k: usize) -> usize
        requires { (w ≤ 25) × (k < w) }
        ensures { (result ≡ k + pivot_row k (w - k) (drop (25 * k) self.now.matrix)) × (result < w) }
    {
        k + pivot_row(&self.matrix[25 * k..], k, w - k)
    }

    // Column k of n + 1 rows, where column n, which is kept apart, is left out of the elimination.
    #[tactic(auto, unfolding(crate::specs::Inner::Columns::factor_column, crate::specs::Inner::Columns::factor_column_by))]
    fn factor_column(&mut self, count: Count, k: usize)
        requires { k < count.n }
        ensures { self.new ≡ factor_column count.n k self.old }
    {
        let q = self.pivot_row(count.n + 1, k);
        let pivot = entry(&self.matrix, q, k);
        let pivots = row(&self.matrix, q);
        interchange_rows(&mut self.matrix, k, q, &pivots);
        self.interchanges[k] = q;
        eliminate_rows(
            &mut self.matrix[25 * k..],
            count.n + 1 - k,
            count.n,
            k,
            &pivots,
            1.0 / pivot,
        );
    }

    // Each column before column n, in turn.
    #[tactic(auto, using(crate::proofs::Laws::Counting::repeat_turn, crate::proofs::Laws::Counting::repeat_end))]
    pub(crate) fn factor_columns(&mut self, count: Count)
        ensures { self.new ≡ factor_columns count.n self.old.matrix self.old.interchanges }
    {
        for k in 0..count.n {
            self.factor_column(count, k);
        }
    }

    #[tactic(auto, unfolding(crate::specs::Lu::pivots_valid))]
    pub(crate) fn pivots_valid(&self, count: Count) -> bool
        ensures { result ≡ pivots_valid count.n self.now.matrix }
    {
        (0..count.n).all(|k| valid_divisor(entry(&self.matrix, k, k)))
    }

    // The row exchanges of the factorisation, made on a right side.
    #[tactic(auto, using(crate::proofs::Laws::Counting::repeat_turn, crate::proofs::Laws::Counting::repeat_end), unfolding(crate::specs::Lu::apply_interchanges))]
    fn apply_interchanges(&self, b: &mut [f64; 25], count: Count)
        ensures { b.new ≡ apply_interchanges count.n self.now.interchanges b.old }
    {
        for k in 0..count.n {
            let q = self.interchanges[k];
            if q < 25 {
                b.swap(k, q);
            }
        }
    }

    // The share of unknown k, which is x, is subtracted from the right sides of the rows from `start` up to `end`.
    #[tactic(auto, using(crate::proofs::Laws::Counting::repeat_turn, crate::proofs::Laws::Counting::repeat_end))]
    fn subtract_multiples(&self, b: &mut [f64; 25], k: usize, x: f64, start: usize, end: usize)
        requires { (k < 25) × (end ≤ 25) }
        ensures { b.new ≡ repeat start end (subtract_multiple self.now.matrix k x) b.old }
    {
        for i in start..end {
            b[i] -= entry(&self.matrix, i, k) * x;
        }
    }

    #[tactic(auto, using(crate::proofs::Laws::Counting::repeat_turn, crate::proofs::Laws::Counting::repeat_end), unfolding(crate::specs::Lu::forward_substitution, crate::specs::Lu::forward_step))]
    fn forward_substitution(&self, b: &mut [f64; 25], count: Count)
        ensures { b.new ≡ forward_substitution (count.n + 1) self.now.matrix b.old }
    {
        for k in 0..count.n + 1 {
            let x = b[k];
            self.subtract_multiples(b, k, x, k + 1, count.n + 1);
        }
    }

    #[tactic(auto, using(crate::proofs::Laws::Counting::down_next, crate::proofs::Laws::Counting::down_done), unfolding(crate::specs::Lu::back_substitution, crate::specs::Lu::back_step))]
    fn back_substitution(&self, b: &mut [f64; 25], count: Count)
        ensures { b.new ≡ back_substitution count.n self.now.matrix b.old }
    {
        for k in (0..count.n).rev() {
            let x = b[k] / entry(&self.matrix, k, k);
            b[k] = x;
            self.subtract_multiples(b, k, x, 0, k);
        }
    }

    // Column n, or a right side, in the place of which it comes to stand: its interchanges made, and forward.
    #[tactic(auto, unfolding(crate::specs::Inner::Columns::factor_last))]
    pub(crate) fn factor_last(&self, b: &mut [f64; 25], count: Count)
        ensures { b.new ≡ factor_last count.n self.now.matrix self.now.interchanges b.old }
    {
        self.apply_interchanges(b, count);
        self.forward_substitution(b, count);
    }

    // The unknowns stand where the right side stood; `last` is column n.
    #[tactic(auto, unfolding(crate::specs::Inner::Columns::lu_solve_apart))]
    pub(crate) fn solve_apart(&self, last: &[f64; 25], b: &mut [f64; 25], count: Count)
        ensures { b.new ≡ lu_solve_apart count.n self.now.matrix last.now self.now.interchanges b.old }
    {
        self.factor_last(b, count);
        back_last(last, b, count);
        self.back_substitution(b, count);
    }
}
