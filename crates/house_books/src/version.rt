// The versions that hours have, and what hangs on them: how long an entry is, and where its results begin.
ghost use Rattle.std.specs.Prelude.{◌<◌};

use crate::layout::{ENTRY, LIMITS, LIMITS_PLACE, LONG_ENTRY};
use std::fmt;

#[derive(Clone, Copy, PartialEq, Eq, PartialOrd, Ord)]
pub enum Version {
    One = 1,
    Two,
    Three,
}

// A version byte that no hour has.
#[derive(Clone, Copy)]
pub struct Unknown;

// The oldest first.
pub const VERSIONS: [Version; 3] = [Version::One, Version::Two, Version::Three];

// The bytes of every version, and some that are none.
pub const VERSION_BYTES: [u8; 6] = [1, 2, 3, 0, 4, 255];

impl Version {
    // All bytes of an entry.
    pub fn entry_length(self) -> usize
        ensures { 0 < result }
    {
        match self {
            Version::One | Version::Two => ENTRY,
            Version::Three => LONG_ENTRY,
        }
    }

    // Where the results of an entry begin.
    pub fn results_place(self) -> usize {
        match self {
            Version::One | Version::Two => LIMITS_PLACE,
            Version::Three => LIMITS_PLACE + LIMITS,
        }
    }
}

impl TryFrom<u8> for Version {
    type Error = Unknown;

    fn try_from(byte: u8) -> Result<Version, Unknown> {
        VERSIONS
            .into_iter()
            .find(|version| *version as u8 == byte)
            .ok_or(Unknown)
    }
}

// As the calls on a book take it.
impl From<Version> for u64 {
    fn from(version: Version) -> u64 {
        version as u64
    }
}

impl fmt::Display for Version {
    fn fmt<W: fmt::Write>(&self, f: &mut fmt::Formatter<W>) -> fmt::Result {
        write!(f, "{}", u64::from(*self))
    }
}
