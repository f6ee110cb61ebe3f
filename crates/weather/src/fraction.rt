// A decimal as a fraction, and its value by one division.
ghost use Rattle.std.specs.Prelude.{◌≡◌, ◌==◌, ◌*◌, ◌^◌, ◌≤◌, ◌<◌, not, ◌&&◌};
ghost use Rattle.std.specs.Float.{binary64};
ghost use Rattle.std.specs.Float.Ieee.{round};
ghost use Rattle.weather.specs.Numbers.{most_digits};

// The fraction `number` / `power`, with a minus or without; `number` has at most 12 digits.
#[derive(Clone, Copy)]
pub struct Fraction {
    pub minus: bool,
    pub number: u64,
    pub power: u64,
    ghost number_few: { number < 10 ^ most_digits },
    ghost power_some: { 0 < power },
    ghost power_few: { power ≤ 10 ^ most_digits },
}

impl Fraction {
    // The nearest f64: numerator and denominator are exact, so it is rounded once.
    pub fn value(self) -> f64
        ensures { result ≡ round binary64 self.minus self.number self.power }
    {
        let quotient = (self.number as f64) / (self.power as f64);
        if self.minus { -quotient } else { quotient }
    }

    // Whether it is `number` / 10 ^ `places`, whatever zeros are written.
    pub fn is(self, number: u64, places: u32) -> bool
        requires number_few { number < 10 ^ 6 }
        requires places_few { places ≤ 6 }
        ensures { result ≡ (not self.minus && (self.number * 10 ^ places == number * self.power)) }
    {
        !self.minus && self.number * 10_u64.pow(places) == number * self.power
    }
}
