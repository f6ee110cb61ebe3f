// Entry versions, which an hour step and an append name, and the limits that an hour has from version 3 on. A version is a number and no enum:
// versions have an order, and a caller may name any, also one that no hour has.
// Specification, Entry versions.
ghost use Rattle.std.specs.Prelude.{◌≡◌};
ghost use Rattle.zone.specs.Calls.Hour.{hour_version, has_limits};

const FIRST_VERSION: u64 = 1;

const NEWEST_VERSION: u64 = 3;

// From this version on an hour has limits.
const LIMITS_VERSION: u64 = 3;

// Whether hours have this version.
#[tactic(auto, using(crate::proofs::Laws::Ranges::partial_le_is))]
pub fn hour_version(version: u64) -> bool
    ensures { result ≡ hour_version version }
{
    (FIRST_VERSION..=NEWEST_VERSION).contains(&version)
}

// Whether an hour of this version has limits.
pub fn has_limits(version: u64) -> bool
    ensures { result ≡ has_limits version }
{
    LIMITS_VERSION <= version
}
