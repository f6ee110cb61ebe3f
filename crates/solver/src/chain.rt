// The chains of nodes. A slot is the place of a node: element e has slots 5e to 5e + 4 from its outer to its inner surface, a two-node
// element only the last two of them, so that the inner surface is always 5e + 4; the air is slot 120.
// Element e is a number below 24 by the contracts of six private functions: what goes over `0..self.count().n` and calls five of them knows the bound, these
// call the sixth, and each counts with e, as in `5 * e + 4`; a type that has the bound would be made at each element and taken apart in each of the six.
ghost use Rattle.std.specs.Prelude.{◌≡◌, ◌+◌, ◌*◌, ◌<◌, ◌≤◌};
ghost use Rattle.solver.specs.FastSolver.{at_most24};
ghost use Rattle.solver.specs.Inner.Reduced.{reduce_chain, reduce_chains, inner_shares};
ghost use Rattle.solver.specs.Inner.Factored.{with_diag};
ghost use Rattle.solver.specs.Chain.{outer_slot, eliminate_chain, eliminate_chains, chain_divisors_valid, divisors_valid, back_substitute_chain, back_substitute_chains, element_within, nodes_within};

use crate::closeness::{valid_divisor, within_state_bound};

// Of the matrix what the chains hold (Specification, Which coefficients are kept): how many elements there are, which of them have two nodes, and for each
// slot its own coefficient and those of the next and the previous slot of its chain. Elements past the 24th are left out; the arrays stand there at
// full length, as the engine has fixed memory.
#[derive(Clone, Copy)]
pub struct Chains {
    pub n: usize,
    pub two_nodes: [bool; 24],
    pub diag: [f64; 120],
    pub next: [f64; 120],
    pub prev: [f64; 120],
}

// How many elements the solve takes. It is no length alone: row and column n of the dense part are the air's.
#[derive(Clone, Copy)]
pub struct Count {
    pub n: usize,
    ghost few: { n ≤ 24 },
}

impl Chains {
    // Elements past the 24th are left out.
    pub(crate) fn count(&self) -> Count
        ensures { result.n ≡ at_most24 self.now.n }
    {
        Count { n: self.n.min(24) }
    }

    // The slot of element e's outer surface.
    fn outer_slot(&self, e: usize) -> usize
        requires { e < 24 }
        ensures { (result ≡ outer_slot self.now.two_nodes e) × (5 * e ≤ result) × (result ≤ 5 * e + 3) }
    {
        if self.two_nodes[e] { 5 * e + 3 } else { 5 * e }
    }

    // The temperatures of the outer surface and the inside nodes are eliminated from the next node's equation.
    #[tactic(auto, using(crate::proofs::Laws::Counting::repeat_turn, crate::proofs::Laws::Counting::repeat_end), unfolding(crate::specs::Chain::eliminate_chain))]
    fn eliminate_chain(&mut self, e: usize)
        requires { e < 24 }
        ensures { self.new ≡ with_diag self.old (eliminate_chain self.old.two_nodes self.old.next self.old.prev e self.old.diag) }
    {
        for s in self.outer_slot(e)..5 * e + 4 {
            self.diag[s + 1] -= self.next[s] * self.prev[s + 1] / self.diag[s];
        }
    }

    #[tactic(auto, using(crate::proofs::Laws::Counting::repeat_turn, crate::proofs::Laws::Counting::repeat_end), unfolding(crate::specs::Chain::eliminate_chains))]
    pub(crate) fn eliminate(&mut self)
        ensures { self.new ≡ with_diag self.old (eliminate_chains (at_most24 self.old.n) self.old.two_nodes self.old.next self.old.prev self.old.diag) }
    {
        for e in 0..self.count().n {
            self.eliminate_chain(e);
        }
    }

    // Each slot that the chain divides by.
    fn chain_divisors_valid(&self, e: usize) -> bool
        requires { e < 24 }
        ensures { result ≡ chain_divisors_valid self.now.two_nodes self.now.diag e }
    {
        (self.outer_slot(e)..5 * e + 4).all(|s| valid_divisor(self.diag[s]))
    }

    pub(crate) fn divisors_valid(&self) -> bool
        ensures { result ≡ divisors_valid (at_most24 self.now.n) self.now.two_nodes self.now.diag }
    {
        (0..self.count().n).all(|e| self.chain_divisors_valid(e))
    }

    // A right side, but for the last step of each chain, which alone reads and writes the inner surface.
    #[tactic(auto, using(crate::proofs::Laws::Counting::repeat_turn, crate::proofs::Laws::Counting::repeat_end), unfolding(crate::specs::Inner::Reduced::reduce_chain))]
    fn reduce_chain(&self, e: usize, b: &mut [f64; 121])
        requires { e < 24 }
        ensures { b.new ≡ reduce_chain self.now.two_nodes self.now.diag self.now.prev e b.old }
    {
        for s in self.outer_slot(e)..5 * e + 3 {
            b[s + 1] -= b[s] * self.prev[s + 1] / self.diag[s];
        }
    }

    #[tactic(auto, using(crate::proofs::Laws::Counting::repeat_turn, crate::proofs::Laws::Counting::repeat_end), unfolding(crate::specs::Inner::Reduced::reduce_chains))]
    pub(crate) fn reduce(&self, b: &mut [f64; 121])
        ensures { b.new ≡ reduce_chains (at_most24 self.now.n) self.now.two_nodes self.now.diag self.now.prev b.old }
    {
        for e in 0..self.count().n {
            self.reduce_chain(e, b);
        }
    }

    // What the last step of each chain subtracts at its inner surface.
    #[tactic(auto, using(crate::proofs::Laws::Counting::repeat_turn, crate::proofs::Laws::Counting::repeat_end), unfolding(crate::specs::Inner::Reduced::inner_shares))]
    pub(crate) fn inner_shares(&self, b: &[f64; 121], inner: &mut [f64; 24])
        ensures { inner.new ≡ inner_shares (at_most24 self.now.n) self.now.diag self.now.prev b.now inner.old }
    {
        for e in 0..self.count().n {
            inner[e] = b[5 * e + 3] * self.prev[5 * e + 4] / self.diag[5 * e + 3];
        }
    }

    // From the inner surface, whose temperature is known, to the outer surface.
    #[tactic(auto, using(crate::proofs::Laws::Counting::down_end), unfolding(crate::specs::Chain::back_substitute_chain))]
    fn back_substitute_chain(&self, e: usize, t: &mut [f64; 121])
        requires { e < 24 }
        ensures { t.new ≡ back_substitute_chain self.now.two_nodes self.now.diag self.now.next e t.old }
    {
        for s in (self.outer_slot(e)..5 * e + 4).rev() {
            t[s] = (t[s] - self.next[s] * t[s + 1]) / self.diag[s];
        }
    }

    #[tactic(auto, using(crate::proofs::Laws::Counting::repeat_turn, crate::proofs::Laws::Counting::repeat_end), unfolding(crate::specs::Chain::back_substitute_chains))]
    pub(crate) fn back_substitute(&self, t: &mut [f64; 121])
        ensures { t.new ≡ back_substitute_chains (at_most24 self.now.n) self.now.two_nodes self.now.diag self.now.next t.old }
    {
        for e in 0..self.count().n {
            self.back_substitute_chain(e, t);
        }
    }

    // Every node of element e.
    fn element_within(&self, e: usize, t: &[f64; 121]) -> bool
        requires { e < 24 }
        ensures { result ≡ element_within self.now.two_nodes t.now e }
    {
        (self.outer_slot(e)..5 * e + 5).all(|s| within_state_bound(t[s]))
    }

    // The air and every node of every element.
    pub(crate) fn nodes_within(&self, t: &[f64; 121]) -> bool
        ensures { result ≡ nodes_within (at_most24 self.now.n) self.now.two_nodes t.now }
    {
        within_state_bound(t[120]) & (0..self.count().n).all(|e| self.element_within(e, t))
    }
}
