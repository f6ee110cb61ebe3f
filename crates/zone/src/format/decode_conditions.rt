// The values that stand in the bytes of an hour's conditions.
ghost use Rattle.std.specs.Prelude.{◌≡◌, ◌++◌, ◌+◌, ◌-◌, ◌*◌, ◌≤◌, ◌<◌, length, replicate};
ghost use Rattle.zone.specs.Format.Bytes.{float_at, float_size};
ghost use Rattle.zone.specs.Format.Layout.{first_element_hour, conditions_length};
ghost use Rattle.zone.specs.Format.Decode.{no_element_hour};
ghost use Rattle.zone.specs.Format.Conditions.{ach_args_at, element_hours_at, conditions_at};

use crate::format::bytes::read_f64_be;
use crate::format::conditions::{AirChangesPerHourArgument, Conditions};
use crate::format::decode::{element_hour_at, no_element_hour};
use crate::format::layout::{ELEMENT_HOUR_SIZE, FIRST_ELEMENT_HOUR, FLOAT_SIZE, RATE_CODE};
use crate::record::building_element::ElementHour;

// The rates in the 17 bytes from `at` on: their code, 0 or 1, and two floats. Any other code is taken as 1, as in the definition: `rate_code_valid` refuses
// it before these bytes are decoded.
fn ach_args_at(s: &[u8], at: usize) -> AirChangesPerHourArgument
    requires { at + 17 ≤ length s.now }
    ensures { result ≡ ach_args_at s.now at }
{
    let first = read_f64_be(s, at + 1);
    if s[at] == 0 {
        AirChangesPerHourArgument::Cooling(first)
    } else {
        let second = read_f64_be(s, at + 9);
        AirChangesPerHourArgument::TargetAndWindowsOpen(first, second)
    }
}

// The parts of the first `n` elements. Its bounds are tested in one place, `read_conditions`; a struct of `s` and `n` with ghost bounds would be made there
// alone, and the contracts here, which say what the definitions of `s` and `n` say, would name its two fields for the two arguments.
fn element_hours_at(s: &[u8], n: usize) -> [ElementHour; 24]
    requires { (n ≤ 24) × (conditions_length n ≤ length s.now) }
    ensures { result ≡ element_hours_at s.now first_element_hour n ++ replicate (24 - n) no_element_hour }
{
    let mut hours = [no_element_hour(); 24];
    for (i, hour) in hours[..n].iter_mut().enumerate() {
        *hour = element_hour_at(s, FIRST_ELEMENT_HOUR + ELEMENT_HOUR_SIZE * i);
    }
    hours
}

// Float `i` of the twelve that come first.
fn front_float(s: &[u8], i: usize) -> f64
    requires { (i < 12) × (first_element_hour ≤ length s.now) }
    ensures { result ≡ float_at s.now (float_size * i) }
{
    read_f64_be(s, FLOAT_SIZE * i)
}

// The conditions of a zone of `n` elements.
pub fn conditions_at(s: &[u8], n: usize) -> Conditions
    requires { (n ≤ 24) × (conditions_length n ≤ length s.now) }
    ensures { result ≡ conditions_at s.now n }
{
    Conditions {
        delta_t_h: front_float(s, 0),
        temp_ext_air: front_float(s, 1),
        gains_internal: front_float(s, 2),
        gains_solar: front_float(s, 3),
        frac_convective_heat: front_float(s, 4),
        frac_convective_cool: front_float(s, 5),
        temp_setpnt_heat: front_float(s, 6),
        temp_setpnt_cool: front_float(s, 7),
        temp_setpnt_cool_vent: front_float(s, 8),
        avg_air_supply_temp: front_float(s, 9),
        gains_heat_cool_convective: front_float(s, 10),
        gains_heat_cool_radiative: front_float(s, 11),
        ach_args: ach_args_at(s, RATE_CODE),
        elements: element_hours_at(s, n),
    }
}
