// The weather of one line of an EnergyPlus weather file.
#![tactic(auto)]

mod decimal;
mod fraction;
mod lines;
mod numbers;
mod promised;
mod quantity;
mod weather;
mod weather_error;

pub use promised::promises;
pub use weather::{Weather, read_weather};
pub use weather_error::WeatherError;
