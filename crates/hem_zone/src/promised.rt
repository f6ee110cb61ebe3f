// What is proved of the engine as a whole, as the contract of one function: a theorem that a contract names cannot go, nor go unproved. It does nothing, and
// no program calls it.
ghost use Rattle.hem_zone.specs.Engine.{Engine};

#[tactic(auto, using(crate::proofs::Engine::engine))]
pub fn promises()
    ensures { Engine }
{}
