// The solution of a zone's system: the matrix is factored once, and each right side substituted.
ghost use Rattle.std.specs.Prelude.{◌≡◌, ◌&&◌, get_or};
ghost use Rattle.std.specs.Float.{nan};
ghost use Rattle.solver.specs.FastSolver.{at_most24};
ghost use Rattle.solver.specs.Numbers.{divisor};
ghost use Rattle.solver.specs.Result.{require};
ghost use Rattle.solver.specs.Answers.{answered, number_in};
ghost use Rattle.solver.specs.Closeness.{valid_divisor};
ghost use Rattle.solver.specs.Inner.Factored.{solved, fast_solver};
ghost use Rattle.solver.specs.Inner.Columns.{column_of, factor_last};
ghost use Rattle.solver.specs.Inner.Reduced.{gather_loaded};
ghost use Rattle.solver.specs.Inner.Apart.{factored_columns, reduced_base, substitute_factors};

use crate::chain::Chains;
use crate::closeness::valid_divisor;
use crate::dense_part::{RightSide, scatter_dense, set_inner_diagonals};
use crate::error::SolveError;
use crate::lu::Lu;
use crate::rows::column;

// The matrix as it is given: the number of elements, which of them have two nodes; for each slot its own coefficient and those of the next and the
// previous slot of its chain; and the dense part, 25 places a row: the couplings between the inner surfaces, the air's column and row. Where an inner
// surface meets itself, the dense part has the chain's adjusted diagonal once it is factored.
// The definition `solve` (specs/FastSolver.antt) reads this record field by field, and definitions keep their words: hence no `Chains` in it.
#[derive(Clone, Copy)]
pub struct Matrix {
    pub n: usize,
    pub two_nodes: [bool; 24],
    pub diag: [f64; 120],
    pub next: [f64; 120],
    pub prev: [f64; 120],
    pub dense: [f64; 625],
}

// The matrix in the form that is kept: its chains, and its dense part with the row exchanges; once its columns are factored, whether all of their
// divisors are valid. That is a flag and no Result: an `Err` as soon as a matrix is factored would put the refusal 12
// before 10 and 11, which come first (Specification, Order of tests).
#[derive(Clone, Copy)]
pub struct Factors {
    pub chains: Chains,
    pub lu: Lu,
    pub valid: bool,
}

impl Factors {
    // Of a reduced right side and the dense part's, v, which is gathered from it, the temperatures.
    #[tactic(auto, unfolding(crate::specs::Inner::Apart::substitute_apart, crate::specs::Inner::Apart::temperatures_apart))]
    fn substitute_apart(
        &self,
        base: &RightSide,
        last: &[f64; 25],
        mut v: [f64; 25],
        temps: &mut [f64; 121],
    ) -> Result<(), SolveError>
        ensures { solved (number_in result) temps.new ≡ substitute_factors self.now last.now v base.now.b }
    {
        let count = self.chains.count();
        *temps = base.b;
        self.lu.solve_apart(last, &mut v, count);
        scatter_dense(&v, count, temps);
        self.chains.back_substitute(temps);
        if self.chains.nodes_within(temps) {
            Ok(())
        } else {
            Err(SolveError::Temperature)
        }
    }

    // All of the matrix but column n of its dense part, which is not read, factored in place.
    #[tactic(auto, unfolding(crate::specs::Inner::Apart::factor_apart))]
    pub fn factor_columns(&mut self)
        ensures { self.new ≡ factored_columns self.old }
    {
        let count = self.chains.count();
        self.chains.eliminate();
        set_inner_diagonals(&self.chains.diag, count, &mut self.lu.matrix);
        self.lu.factor_columns(count);
        self.valid = self.chains.divisors_valid() & self.lu.pivots_valid(count);
    }

    // Column n of the dense part.
    pub fn last_column(&self) -> [f64; 25]
        ensures { result ≡ column_of (at_most24 self.now.chains.n) self.now.lu.matrix }
    {
        column(&self.lu.matrix, self.chains.count().n)
    }

    // Column n of one rate, factored in place; refused where a divisor of the matrix with that column is zero or not finite.
    pub fn factor_last(&self, last: &mut [f64; 25]) -> Result<(), SolveError>
        ensures column { last.new ≡ factor_last (at_most24 self.now.chains.n) self.now.lu.matrix self.now.lu.interchanges last.old }
        ensures divisors { answered result ≡ require (self.now.valid && valid_divisor (get_or last.new (at_most24 self.now.chains.n) nan)) divisor }
    {
        let count = self.chains.count();
        self.lu.factor_last(last, count);
        if self.valid & valid_divisor(last[count.n]) {
            Ok(())
        } else {
            Err(SolveError::Divisor)
        }
    }

    // A right side without its load, reduced in place but for the last step of each chain; what that step subtracts goes to `inner`.
    pub fn reduce_base(&self, base: &mut RightSide)
        ensures { base.new ≡ reduced_base self.now base.old }
    {
        self.chains.reduce(&mut base.b);
        self.chains.inner_shares(&base.b, &mut base.inner);
    }

    // The temperatures of a reduced right side with a load: gains at each inner surface, and the air's right side.
    pub fn substitute_load(
        &self,
        base: &RightSide,
        last: &[f64; 25],
        gains: f64,
        air: f64,
        temps: &mut [f64; 121],
    ) -> Result<(), SolveError>
        ensures { solved (number_in result) temps.new ≡ substitute_factors self.now last.now (gather_loaded (at_most24 self.now.chains.n) base.now.b base.now.inner gains air) base.now.b }
    {
        let v = base.gather_loaded(gains, air, self.chains.count());
        self.substitute_apart(base, last, v, temps)
    }
}

// All of it, of one right side, where the temperatures come to stand: the entry point that the original has. The zone calls its parts, as it solves for
// several rates and loads. A refusal for a divisor leaves the right side as it was, one for a temperature the temperatures that were found.
pub fn fast_solver(a: &Matrix, temps: &mut [f64; 121]) -> Result<(), SolveError>
    ensures { solved (number_in result) temps.new ≡ fast_solver a.now temps.old }
{
    let mut factors = Factors {
        chains: Chains {
            n: a.n,
            two_nodes: a.two_nodes,
            diag: a.diag,
            next: a.next,
            prev: a.prev,
        },
        lu: Lu {
            matrix: a.dense,
            interchanges: [0; 25],
        },
        valid: false,
    };
    let mut last = factors.last_column();
    factors.factor_columns();
    factors.factor_last(&mut last)?;
    let mut base = RightSide {
        b: *temps,
        inner: [0.0; 24],
    };
    factors.reduce_base(&mut base);
    let v = base.gather(factors.chains.count());
    factors.substitute_apart(&base, &last, v, temps)
}
