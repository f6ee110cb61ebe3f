// The weather of a line of an EnergyPlus weather file.
ghost use Rattle.std.specs.Prelude.{◌≡◌};
ghost use Rattle.hem_zone.specs.Weather.{hem_weather_outcome};

use crate::code::refusal_code;
use weather::read_weather;

// Dry bulb, direct normal and diffuse horizontal of a line, counted from 1 behind the eight headers.
#[tactic(auto, unfolding(crate::specs::Weather::hem_weather_outcome, crate::specs::Code::answered, crate::specs::Code::answer_code, crate::specs::Code::lent_after))]
#[unsafe(no_mangle)]
pub extern "C" fn hem_weather(file: &[u8], line: u64, weather: &mut [f64; 3]) -> u32
    ensures { (result, weather.new) ≡ hem_weather_outcome file.now line weather.old }
{
    match read_weather(file, line) {
        Err(error) => refusal_code(error.number(), 0),
        Ok(w) => {
            *weather = [w.dry_bulb, w.direct_normal, w.diffuse_horizontal];
            0
        }
    }
}
