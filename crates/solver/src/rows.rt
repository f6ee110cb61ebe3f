// A matrix of at most 25 rows in one flat array, row i from place 25 i on. Rows and columns are numbers whose bounds stand in the contracts: they come from
// loops over `0..n`, `(0..n).rev()` or `k + 1..w`, from `Count` or from `pivot_row`, which know them, and are counted with, as in `25 * i + j`; a type that
// has the bound would be made in each turn of those loops and taken apart in each function here.
ghost use Rattle.std.specs.Prelude.{◌≡◌, ◌+◌, ◌*◌, ◌<◌, ◌≤◌, length};
ghost use Rattle.solver.specs.Repeat.{repeat};
ghost use Rattle.solver.specs.Rows.{entry, set_entry, row, set_row, pivot_row, eliminate_row};
ghost use Rattle.solver.specs.Inner.Columns.{column_of};

use crate::closeness::abs;
use std::array::from_fn;

pub fn entry(m: &[f64; 625], i: usize, j: usize) -> f64
    requires { (i < 25) × (j < 25) }
    ensures { result ≡ entry i j m.now }
{
    m[25 * i + j]
}

pub fn set_entry(m: &mut [f64; 625], i: usize, j: usize, x: f64)
    requires { (i < 25) × (j < 25) }
    ensures { m.new ≡ set_entry i j x m.old }
{
    m[25 * i + j] = x;
}

// Of the n rows of a part of the matrix, the first of largest magnitude in column k. That magnitude is kept, so that it is taken once.
#[tactic(auto, using(crate::proofs::Laws::Counting::repeat_turn, crate::proofs::Laws::Counting::repeat_end), unfolding(crate::specs::Rows::larger_in_column))]
pub fn pivot_row(part: &[f64], k: usize, n: usize) -> usize
    requires { (k < 25) × (0 < n) × (25 * n ≤ length part.now) }
    ensures { (result ≡ pivot_row k n part.now) × (result < n) }
{
    let mut found = 0;
    let mut largest = abs(part[k]);
    for i in 1..n {
        let x = abs(part[25 * i + k]);
        if largest < x {
            found = i;
            largest = x;
        }
    }
    found
}

// Row i, copied.
pub fn row(m: &[f64; 625], i: usize) -> [f64; 25]
    requires { i < 25 }
    ensures { result ≡ row i m.now }
{
    from_fn(|j| entry(m, i, j))
}

// Column j, copied.
pub fn column(m: &[f64; 625], j: usize) -> [f64; 25]
    requires { j < 25 }
    ensures { result ≡ column_of j m.now }
{
    from_fn(|i| entry(m, i, j))
}

// Entry by entry: `copy_from_slice` takes 1,400 instructions more where every column changes two rows, 1.2 % of an hour step with
// windows: above the bar of docs/PERFORMANCE.md.
pub fn set_row(m: &mut [f64; 625], i: usize, r: &[f64; 25])
    requires { i < 25 }
    ensures { m.new ≡ set_row i r.now m.old }
{
    for j in 0..25 {
        set_entry(m, i, j, r[j]);
    }
}

// Column k is eliminated from row i of a part of the matrix, of w columns; `pivots` is a copy of the pivot row, `reciprocal` is 1 / pivot.
#[tactic(auto, using(crate::proofs::Laws::Counting::repeat_turn, crate::proofs::Laws::Counting::repeat_end), unfolding(crate::specs::Rows::eliminate_row))]
fn eliminate_row(
    part: &mut [f64],
    w: usize,
    k: usize,
    pivots: &[f64; 25],
    reciprocal: f64,
    i: usize,
)
    requires { (w ≤ 25) × (k < w) × (25 * i + 25 ≤ length part.old) }
    ensures { part.new ≡ eliminate_row w k pivots.now reciprocal i part.old }
{
    let factor = part[25 * i + k] * reciprocal;
    part[25 * i + k] = factor;
    for j in k + 1..w {
        let x = part[25 * i + j] + -pivots[j] * factor;
        part[25 * i + j] = x;
    }
}

// Of the h rows of a part of the matrix, from the pivot row on, column k is eliminated from each but the first, of w columns.
#[tactic(auto, using(crate::proofs::Laws::Counting::repeat_turn, crate::proofs::Laws::Counting::repeat_end))]
pub fn eliminate_rows(
    part: &mut [f64],
    h: usize,
    w: usize,
    k: usize,
    pivots: &[f64; 25],
    reciprocal: f64,
)
    requires { (w ≤ 25) × (k < w) × (25 * h ≤ length part.old) }
    ensures { part.new ≡ repeat 1 h (eliminate_row w k pivots.now reciprocal) part.old }
{
    for i in 1..h {
        eliminate_row(part, w, k, pivots, reciprocal, i);
    }
}
