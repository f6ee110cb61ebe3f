// The three numbers of a chosen line.
ghost use Rattle.std.specs.Prelude.{◌≡◌};
ghost use Rattle.weather.specs.Answers.{answered};
ghost use Rattle.weather.specs.Weather.{weather_in, weather_of};

use crate::lines::{find_field, find_line};
use crate::numbers::{DIFFUSE_HORIZONTAL_FIELD, DIRECT_NORMAL_FIELD, DRY_BULB_FIELD};
use crate::quantity::Quantity;
use crate::weather_error::WeatherError;

// Dry bulb temperature in °C, direct normal and diffuse horizontal radiation in Wh/m².
#[derive(Clone, Copy)]
pub struct Weather {
    pub dry_bulb: f64,
    pub direct_normal: f64,
    pub diffuse_horizontal: f64,
}

// The fields are tested in file order, once all three are there.
#[tactic(auto, unfolding(crate::specs::Weather::weather_in, crate::specs::Weather::weather_from))]
fn weather_in(line: &[u8]) -> Result<Weather, WeatherError>
    ensures { answered result ≡ weather_in line.now }
{
    let seventh = find_field(line, DRY_BULB_FIELD).ok_or(WeatherError::Absent)?;
    let fifteenth = find_field(line, DIRECT_NORMAL_FIELD).ok_or(WeatherError::Absent)?;
    let sixteenth = find_field(line, DIFFUSE_HORIZONTAL_FIELD).ok_or(WeatherError::Absent)?;
    Ok(Weather {
        dry_bulb: Quantity::DryBulb.read(seventh)?,
        direct_normal: Quantity::Radiation.read(fifteenth)?,
        diffuse_horizontal: Quantity::Radiation.read(sixteenth)?,
    })
}

// The weather of a line of a file, counted from 1 behind the eight headers.
#[tactic(auto, unfolding(crate::specs::Weather::weather_of))]
pub fn read_weather(file: &[u8], line: u64) -> Result<Weather, WeatherError>
    ensures { answered result ≡ weather_of file.now line }
{
    let chosen = find_line(file, line).ok_or(WeatherError::Absent)?;
    weather_in(chosen)
}
