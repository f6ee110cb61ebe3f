// What stands in an entry of a book.
use crate::fixed_rate::{has_fixed_rate, put_rate_twice};
use crate::layout::{
    CONDITIONS, CONDITIONS_PLACE, COOLING, COOLING_LIMIT_PLACE, ENTRY, LENGTH, LIMITS_PLACE, RATE,
    RESULTS,
};
use crate::plan::Plan;
use crate::version::Version;
use big_endian::{bytes_at, part, read_f64_be, read_u32_be};
use zone::Limits;

// Where some of the conditions stand among them.
const HOUR_LENGTH: usize = 0;

const HEATING_FRACTION: usize = 4 * 8;

const COOLING_FRACTION: usize = 5 * 8;

const CONVECTIVE: usize = 10 * 8;

const RADIATIVE: usize = 11 * 8;

// All bytes of an entry, and the conditions and results among them.
#[derive(Clone, Copy)]
pub struct Entry<'a> {
    bytes: &'a [u8],
    pub version: Version,
    pub conditions: &'a [u8],
    pub results: &'a [u8],
}

// The limit that holds a power, W.
#[derive(Clone, Copy)]
pub enum Holding {
    Heating(f64),
    Cooling(f64),
}

impl<'a> Entry<'a> {
    // With which a rest of a book begins; none where the rest ends before it does.
    pub fn first_of(rest: &'a [u8], version: Version) -> Option<Entry<'a>> {
        let bytes = rest.get(..version.entry_length())?;
        Some(Entry {
            bytes,
            version,
            conditions: part(bytes, CONDITIONS_PLACE, CONDITIONS)?,
            results: part(bytes, version.results_place(), RESULTS)?,
        })
    }

    // Of a book in the versions of a plan.
    pub fn of_hour(b: &'a [u8], plan: Plan, hour: usize) -> Option<Entry<'a>> {
        Entry::first_of(b.get(plan.place_of(hour)..)?, plan.version_at(hour))
    }

    // Its first bytes name what follows them.
    pub fn length_stands(&self) -> bool {
        read_u32_be(self.bytes, 0) as usize + LENGTH == self.bytes.len()
    }

    // The conditions as calls take them: an hour with the fixed rate, which they refuse, is the hour with target and windows open both that rate.
    pub fn conditions_taken(&self) -> [u8; CONDITIONS] {
        let mut b: [u8; ENTRY] = bytes_at(self.bytes, 0);
        if has_fixed_rate(&b) {
            put_rate_twice(&mut b);
        }
        bytes_at(&b, CONDITIONS_PLACE)
    }

    // Those of an entry of version 3. Of another these bytes are results, which no rule takes for limits.
    pub fn limits(&self) -> Limits {
        Limits {
            heating: read_f64_be(self.bytes, LIMITS_PLACE),
            cooling: read_f64_be(self.bytes, COOLING_LIMIT_PLACE),
        }
    }

    pub fn heating(&self) -> f64 {
        read_f64_be(self.results, 0)
    }

    pub fn cooling(&self) -> f64 {
        read_f64_be(self.results, COOLING)
    }

    pub fn rate(&self) -> f64 {
        read_f64_be(self.results, RATE)
    }

    pub fn convective(&self) -> f64 {
        read_f64_be(self.conditions, CONVECTIVE)
    }

    pub fn radiative(&self) -> f64 {
        read_f64_be(self.conditions, RADIATIVE)
    }

    // W, as the demand asks for it.
    pub fn power_asked(&self) -> f64 {
        (self.heating() + self.cooling()) * 1000.0 / read_f64_be(self.conditions, HOUR_LENGTH)
    }

    // What the plant of version 3 cannot give more of.
    pub fn holding(&self) -> Option<Holding> {
        let limits = self.limits();
        let power = self.power_asked();
        if self.version != Version::Three {
            None
        } else if power > limits.heating {
            Some(Holding::Heating(limits.heating))
        } else if power < -limits.cooling {
            Some(Holding::Cooling(limits.cooling))
        } else {
            None
        }
    }

    // W, as the plant delivers it.
    pub fn power_delivered(&self) -> f64 {
        match self.holding() {
            Some(Holding::Heating(limit)) => limit,
            Some(Holding::Cooling(limit)) => -limit,
            None => self.power_asked(),
        }
    }

    // Of a power, the convective share. Cooling has one of its own from version 2 on.
    pub fn fraction_of(&self, power: f64) -> f64 {
        if self.version != Version::One && power < 0.0 {
            read_f64_be(self.conditions, COOLING_FRACTION)
        } else {
            read_f64_be(self.conditions, HEATING_FRACTION)
        }
    }
}
