// Why a call is refused. Each refusal has a number, and some the place of what is refused: an element's from 1 on, 0 for the zone or the
// hour, or an entry's.
// Specification, Table of refusals; What a refusal is.
ghost use Rattle.std.specs.Prelude.{◌≡◌};
ghost use Rattle.zone.specs.Answers.{number_of, index_of};
ghost use Rattle.zone.specs.declared.record.refusal.Refusal.TheVariants.{Solve};

use solver::SolveError;

#[derive(Clone, Copy, Debug, PartialEq, Eq)]
pub enum Refusal {
    HeadShort,
    HeadLength,
    HeadVersion,
    Structure(usize),
    ZoneValue(usize),
    StateInvalid,
    ConditionsSize,
    ConditionsCode,
    ConditionsValue(usize),
    CoolingBelowHeating,
    VentilationBelowHeating,
    Solve(SolveError),
    NoEffect,
    NotSettled,
    // An entry version that no hour has; in a book a false entry too.
    FalseEntry(usize),
    LimitValue,
}

impl Refusal {
    pub fn number(self) -> u32
        ensures { result ≡ number_of self }
    {
        match self {
            Refusal::HeadShort => 1,
            Refusal::HeadLength => 2,
            Refusal::HeadVersion => 3,
            Refusal::Structure(_) => 4,
            Refusal::ZoneValue(_) => 5,
            Refusal::StateInvalid => 6,
            Refusal::ConditionsSize => 7,
            Refusal::ConditionsCode => 8,
            Refusal::ConditionsValue(_) => 9,
            Refusal::CoolingBelowHeating => 10,
            Refusal::VentilationBelowHeating => 11,
            Refusal::Solve(e) => e.number(),
            Refusal::NoEffect => 14,
            Refusal::NotSettled => 15,
            Refusal::FalseEntry(_) => 18,
            Refusal::LimitValue => 19,
        }
    }

    pub fn index(self) -> usize
        ensures { result ≡ index_of self }
    {
        match self {
            Refusal::Structure(index)
            | Refusal::ZoneValue(index)
            | Refusal::ConditionsValue(index)
            | Refusal::FalseEntry(index) => index,
            _ => 0,
        }
    }
}

impl From<SolveError> for Refusal {
    ghost from_gives = { λ e r. r ≡ Solve e };

    fn from(e: SolveError) -> Refusal {
        Refusal::Solve(e)
    }
}
