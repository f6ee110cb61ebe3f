// Why a line of weather is refused.
ghost use Rattle.std.specs.Prelude.{◌≡◌};
ghost use Rattle.weather.specs.Answers.{number_of};

// Each has its number (Specification, Table of refusals).
#[derive(Clone, Copy, Debug, PartialEq, Eq)]
pub enum WeatherError {
    // The line or one of the three fields is absent.
    Absent = 21,
    // Not a decimal, more than 12 digits, or out of range.
    Invalid = 22,
    // 99.9 for a dry bulb, 9999 for a radiation.
    Missing = 23,
}

impl WeatherError {
    pub fn number(self) -> u32
        ensures { result ≡ number_of self }
    {
        self as u32
    }
}
