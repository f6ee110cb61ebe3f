// Refusals 8 and 9 of an hour's conditions.
// Specification, Conditions.
ghost use Rattle.std.specs.Prelude.{◌≡◌, ◌≤◌, length, map};
ghost use Rattle.zone.specs.Format.Layout.{first_element_hour, conditions_length};
ghost use Rattle.zone.specs.Answers.{answered};
ghost use Rattle.zone.specs.declared.record.building_element.Element.{Element};
ghost use Rattle.zone.specs.Format.Conditions.{rate_code_valid, open_bits_valid, hour_and_gains_in_range, setpoints_in_range, ach_args_in_range, conditions_test};

use crate::check::ranges::{
    FRACTION, GAINS, HEATING_SETPOINT, HOUR_LENGTH, RATE, SETPOINT, TEMPERATURE, open_within,
};
use crate::check::zone_tests::{all_required, element_hour_in_range};
use crate::format::bytes::read_u64_be;
use crate::format::conditions::{AirChangesPerHourArgument, Conditions, FixedRate};
use crate::format::layout::{
    ELEMENT_HOUR_SIZE, FIRST_ELEMENT_HOUR, OPEN_BYTE, RATE_CODE, SECOND_RATE,
};
use crate::record::building_element::Element;
use crate::record::refusal::Refusal;

// Code 0 with a second float of all zero bits, where it is still taken, or code 1.
pub fn rate_code_valid(fixed: FixedRate, s: &[u8]) -> bool
    requires { first_element_hour ≤ length s.now }
    ensures { result ≡ rate_code_valid fixed s.now }
{
    if s[RATE_CODE] == 0 {
        match fixed {
            FixedRate::Retired => false,
            FixedRate::StillTaken => read_u64_be(s, SECOND_RATE) == 0,
        }
    } else {
        s[RATE_CODE] == 1
    }
}

// No open bit past the treatments, of any of these elements, whose number and parts are bounded as in decode_conditions.rt.
pub fn open_bits_valid(s: &[u8], elements: &[Element]) -> bool
    requires { (length elements.now ≤ 24) × (conditions_length (length elements.now) ≤ length s.now) }
    ensures { result ≡ open_bits_valid s.now (map (λ (e : Element). e.treatments) elements.now) first_element_hour }
{
    elements.iter().enumerate().all(|(i, e)| {
        let open = s[FIRST_ELEMENT_HOUR + ELEMENT_HOUR_SIZE * i + OPEN_BYTE];
        open_within(e.treatments, open)
    })
}

#[tactic(auto, using(crate::proofs::Laws::Ranges::ranges), unfolding(crate::specs::Format::Conditions::hour_and_gains_in_range))]
fn hour_and_gains_in_range(c: &Conditions) -> bool
    ensures { result ≡ hour_and_gains_in_range c.now }
{
    HOUR_LENGTH.contains(c.delta_t_h)
        & TEMPERATURE.contains(c.temp_ext_air)
        & GAINS.contains(c.gains_internal)
        & GAINS.contains(c.gains_solar)
        & FRACTION.contains(c.frac_convective_heat)
        & FRACTION.contains(c.frac_convective_cool)
}

#[tactic(auto, using(crate::proofs::Laws::Ranges::ranges), unfolding(crate::specs::Format::Conditions::setpoints_in_range))]
fn setpoints_in_range(c: &Conditions) -> bool
    ensures { result ≡ setpoints_in_range c.now }
{
    HEATING_SETPOINT.contains(c.temp_setpnt_heat)
        & SETPOINT.contains(c.temp_setpnt_cool)
        & SETPOINT.contains(c.temp_setpnt_cool_vent)
        & TEMPERATURE.contains(c.avg_air_supply_temp)
        & GAINS.contains(c.gains_heat_cool_convective)
        & GAINS.contains(c.gains_heat_cool_radiative)
}

#[tactic(auto, using(crate::proofs::Laws::Ranges::ranges))]
fn ach_args_in_range(a: AirChangesPerHourArgument) -> bool
    ensures { result ≡ ach_args_in_range a }
{
    match a {
        AirChangesPerHourArgument::Cooling(rate) => RATE.contains(rate),
        AirChangesPerHourArgument::TargetAndWindowsOpen(target, windows) => {
            RATE.contains(target) & RATE.contains(windows)
        }
    }
}

// The first value out of range. The count is the zone's, for the record of conditions has none; with `&c.elements[..n]` in its place a caller would
// hand over the conditions and a part of them.
#[tactic(auto, unfolding(crate::specs::Format::Conditions::conditions_test))]
pub fn conditions_test(n: usize, c: &Conditions) -> Result<(), Refusal>
    requires { n ≤ 24 }
    ensures { answered result ≡ conditions_test n c.now }
{
    if !(hour_and_gains_in_range(c) & setpoints_in_range(c) & ach_args_in_range(c.ach_args)) {
        return Err(Refusal::ConditionsValue(0));
    }
    all_required(
        &c.elements[..n],
        element_hour_in_range,
        Refusal::ConditionsValue,
    )
}
