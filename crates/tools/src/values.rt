// The tests of values, and the comparisons of temperatures.
ghost use Rattle.std.specs.Prelude.{◌≡◌};
ghost use Rattle.tools.specs.Questions.{goes_above, within, distance, nearer, value_valid, band_valid};

use solver::within_state_bound;

pub fn value_valid(value: f64) -> bool
    ensures { result ≡ value_valid value }
{
    within_state_bound(value)
}

pub fn band_valid(lower: f64, upper: f64) -> bool
    ensures { result ≡ band_valid lower upper }
{
    let ends = value_valid(lower) & value_valid(upper);
    let crossed = upper < lower;
    ends & !crossed
}

// From at or below the value to above it.
pub fn goes_above(value: f64, before: f64, temperature: f64) -> bool
    ensures { result ≡ goes_above value before temperature }
{
    (before <= value) & (value < temperature)
}

#[tactic(auto, using(solver::proofs::Promise::le_is))]
pub fn is_within(lower: f64, upper: f64, temperature: f64) -> bool
    ensures { result ≡ within lower upper temperature }
{
    (lower..=upper).contains(&temperature)
}

#[tactic(auto, using(crate::proofs::Laws::Nearer::distance_is))]
pub fn distance(value: f64, temperature: f64) -> f64
    ensures { result ≡ distance value temperature }
{
    (temperature - value).abs()
}

// One distance is less than another; a NaN, were there one, is more than every number.
#[tactic(auto, unfolding(crate::specs::Questions::nearer))]
pub fn nearer(a: f64, b: f64) -> bool
    ensures { result ≡ nearer a b }
{
    (a < b) | (!a.is_nan() & b.is_nan())
}
