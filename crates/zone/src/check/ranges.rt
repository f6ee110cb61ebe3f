// The ranges, each once (Specification, Ranges). The library's were tried: a constant's value may hold no call yet, which `0.0..=180.0` and
// `RangeInclusive::new` are, and with pairs of `Bound` an hour step at 24 elements took 2,241 instructions more, 2.2 %: above the bar of docs/PERFORMANCE.md.
ghost use Rattle.std.specs.Prelude.{◌≡◌};
ghost use Rattle.zone.specs.Check.Ranges.{limit_range, open_within};
ghost use Rattle.zone.specs.Inner.Check.{within};

// Low to high: with both ends, or without the low one.
#[derive(Clone, Copy)]
pub enum Range {
    FromTo(f64, f64),
    AboveTo(f64, f64),
}

impl Range {
    pub fn contains(self, x: f64) -> bool
        ensures { result ≡ within self x }
    {
        match self {
            Range::FromTo(low, high) => (low <= x) & (x <= high),
            Range::AboveTo(low, high) => (low < x) & (x <= high),
        }
    }
}

pub const AREA: Range = Range::AboveTo(0.0, 100000.0);

pub const PITCH: Range = Range::FromTo(0.0, 180.0);

pub const COEFFICIENT: Range = Range::FromTo(0.0, 1000000.0);

pub const H_PLI: Range = Range::AboveTo(0.0, 1000000.0);

pub const K_PLI: Range = Range::FromTo(0.0, 10000000.0);

pub const FRACTION: Range = Range::FromTo(0.0, 1.0);

pub const SKY: Range = Range::FromTo(-10000.0, 10000.0);

pub const DELTA_R: Range = Range::FromTo(0.0, 1000.0);

pub const IRRADIANCE: Range = Range::FromTo(0.0, 2000.0);

pub const GAINS: Range = Range::FromTo(-10000000.0, 10000000.0);

pub const POWER_LIMIT: Range = Range::FromTo(0.0, 10000000.0);

pub const RATE: Range = Range::FromTo(0.0, 1000.0);

pub const TEMPERATURE: Range = Range::FromTo(-100.0, 100.0);

pub const HEATING_SETPOINT: Range = Range::FromTo(-273.15, 100.0);

pub const SETPOINT: Range = Range::FromTo(-273.15, 1.4e32);

pub const HOUR_LENGTH: Range = Range::FromTo(0.001, 8760.0);

#[tactic(auto, using(crate::proofs::Laws::Ranges::partial_le_is))]
pub fn limit_in_range(n: usize) -> bool
    ensures { result ≡ limit_range n }
{
    (1..=10000).contains(&n)
}

// Whether no bit of `treatments_open` lies past the treatments.
#[tactic(auto, using(crate::proofs::Laws::Ranges::small_power))]
pub fn open_within(treatments: usize, treatments_open: u8) -> bool
    ensures { result ≡ open_within treatments treatments_open }
{
    if treatments < 8 {
        treatments_open < 1 << treatments
    } else {
        true
    }
}
