// Which hours of a book have which version, and where their entries stand.
ghost use Rattle.std.specs.Prelude.{◌+◌, ◌<◌, ◌^◌};

use crate::layout::{ENTRY, HEAD, LIMITS, LONG_ENTRY};
use crate::version::Version;
use std::ops::Range;

// From which hour on an entry has version 2, and from which on version 3; never, where it is none. Where both are the same, no hour has version 2.
#[derive(Clone, Copy)]
pub struct Plan {
    pub two: Option<usize>,
    pub three: Option<usize>,
}

// The whole entries with which a book begins: how many, where the last one ends, and its version, 1 where there is none.
#[derive(Clone, Copy, PartialEq, Eq)]
pub struct Entries {
    pub count: usize,
    pub used: usize,
    pub last_version: Version,
}

impl Entries {
    // With one more, which ends further on unless this place is the greatest number.
    pub fn followed_by(self, version: Version) -> Entries
        ensures longer { self.used + 1 < 2 ^ 64 → self.used < result.used }
    {
        Entries {
            count: self.count.saturating_add(1),
            used: self.used.saturating_add(version.entry_length()),
            last_version: version,
        }
    }
}

impl Plan {
    pub fn version_at(self, hour: usize) -> Version {
        if self.three.is_some_and(|three| three <= hour) {
            Version::Three
        } else if self.two.is_some_and(|two| two <= hour) {
            Version::Two
        } else {
            Version::One
        }
    }

    // Where an entry begins, which is also the used length of as many entries. Those of version 3 are longer.
    pub fn place_of(self, entry: usize) -> usize {
        let long = self.three.map_or(0, |three| entry.saturating_sub(three));
        let limits = LIMITS.saturating_mul(long);
        ENTRY
            .saturating_mul(entry)
            .saturating_add(limits)
            .saturating_add(HEAD)
    }

    pub fn entries(self, count: usize) -> Entries {
        Entries {
            count,
            used: self.place_of(count),
            last_version: count
                .checked_sub(1)
                .map_or(Version::One, |last| self.version_at(last)),
        }
    }

    // The bytes of an entry.
    pub fn bytes_of(self, entry: usize) -> Range<usize> {
        let from = self.place_of(entry);
        from..from.saturating_add(self.version_at(entry).entry_length())
    }

    // How many whole entries a book has that is cut at a byte behind the head.
    pub fn whole_before(self, cut: usize) -> usize {
        match self.three {
            Some(three) if self.place_of(three) <= cut => {
                let behind = cut.saturating_sub(self.place_of(three));
                three.saturating_add(behind / LONG_ENTRY)
            }
            _ => cut.saturating_sub(HEAD) / ENTRY,
        }
    }

    // So many hours by this plan, all others of this version, which must not be below the last.
    pub fn continued_in(self, count: usize, version: Version) -> Plan {
        let two = Some(self.two.map_or(count, |two| two.min(count)));
        let three = Some(self.three.map_or(count, |three| three.min(count)));
        match version {
            Version::One => Plan {
                two: None,
                three: None,
            },
            Version::Two => Plan { two, three: None },
            Version::Three => Plan { two, three },
        }
    }
}
