// What is proved of the solve, as the contract of one function: a theorem that a contract names cannot go, nor go unproved. It does nothing, and no program
// calls it.
ghost use Rattle.solver.specs.Claims.Worked.{Worked};
ghost use Rattle.solver.specs.Refusals.{OneError};

#[tactic(auto, using(crate::proofs::Worked::worked, crate::proofs::Errors::one_error))]
pub fn promises()
    ensures worked { Worked }
    ensures one_error { OneError }
{}
