// What is proved of the weather of a line, as the contract of one function: a theorem that a contract names cannot go, nor go unproved. It does nothing, and
// no program calls it.
ghost use Rattle.weather.specs.Claims.{WeatherClaims};
ghost use Rattle.weather.specs.Refusals.{WeatherRefusals, OneError};

#[tactic(auto, using(crate::proofs::Claims::weather_claims, crate::proofs::Refusals::weather_refusals, crate::proofs::Errors::one_error))]
pub fn promises()
    ensures claims { WeatherClaims }
    ensures refusals { WeatherRefusals }
    ensures one_error { OneError }
{}
