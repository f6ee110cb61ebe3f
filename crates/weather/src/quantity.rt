// What a field holds: decimal, missing, range.
ghost use Rattle.std.specs.Prelude.{◌≡◌};
ghost use Rattle.weather.specs.Answers.{answered};
ghost use Rattle.weather.specs.Inner.Quantities.{means_missing, range_of, reading};

use crate::decimal::read_decimal;
use crate::fraction::Fraction;
use crate::weather_error::WeatherError;

#[derive(Clone, Copy)]
pub enum Quantity {
    DryBulb,
    Radiation,
}

impl Quantity {
    fn is_missing(self, fraction: Fraction) -> bool
        ensures { result ≡ means_missing self fraction }
    {
        match self {
            Quantity::DryBulb => fraction.is(999, 1),
            Quantity::Radiation => fraction.is(9999, 0),
        }
    }

    fn in_range(self, x: f64) -> bool
        ensures { result ≡ range_of self x }
    {
        match self {
            Quantity::DryBulb => (-100.0..=100.0).contains(&x),
            Quantity::Radiation => (0.0..=2000.0).contains(&x),
        }
    }

    #[tactic(auto, using(crate::proofs::Laws::Fields::readings))]
    pub fn read(self, field: &[u8]) -> Result<f64, WeatherError>
        ensures { answered result ≡ reading self field.now }
    {
        let fraction = read_decimal(field).ok_or(WeatherError::Invalid)?;
        if self.is_missing(fraction) {
            return Err(WeatherError::Missing);
        }
        let x = fraction.value();
        if self.in_range(x) {
            Ok(x)
        } else {
            Err(WeatherError::Invalid)
        }
    }
}
