// Why a system is not solved.
ghost use Rattle.std.specs.Prelude.{◌≡◌};
ghost use Rattle.solver.specs.Answers.{number_of};

// Each by its number (Specification, Table of refusals).
#[derive(Clone, Copy, Debug, PartialEq, Eq)]
pub enum SolveError {
    // A divisor of a chain or a dense pivot is zero or not finite.
    Divisor = 12,
    // A node temperature is not finite or beyond a million.
    Temperature = 13,
}

impl SolveError {
    pub fn number(self) -> u32
        ensures { result ≡ number_of self }
    {
        self as u32
    }
}
