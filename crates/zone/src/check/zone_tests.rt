// A zone given as a record, tested as its head would be: 4, then 5.
ghost use denote.Ref.{Bor};
ghost use Rattle.std.specs.Prelude.{◌≡◌, ◌≤◌, ℕ, Bool};
ghost use Rattle.zone.specs.Answers.{answered, number_of, index_of};
ghost use Rattle.zone.specs.declared.record.refusal.Refusal.{Refusal};
ghost use Rattle.zone.specs.Inner.Check.{tail_in_range};
ghost use Rattle.zone.specs.Check.ZoneTest.{
  all_required,
  count_valid,
  element_hour_in_range,
  element_in_range,
  front_in_range,
  values_test,
  counts_test,
  zone_test,
};

use crate::check::ranges::{
    AREA, COEFFICIENT, DELTA_R, FRACTION, H_PLI, HEATING_SETPOINT, IRRADIANCE, K_PLI, PITCH,
    SETPOINT, SKY, TEMPERATURE, limit_in_range, open_within,
};
use crate::format::element_layout::{h_count, max_treatments};
use crate::record::building_element::{Element, ElementHour, number_of_nodes};
use crate::record::refusal::Refusal;
use crate::record::zone_record::Zone;

#[tactic(auto, using(crate::proofs::Laws::Ranges::ranges), unfolding(crate::specs::Check::ZoneTest::element_hour_in_range))]
pub fn element_hour_in_range(h: &ElementHour) -> bool
    ensures { result ≡ element_hour_in_range h.now }
{
    TEMPERATURE.contains(h.temp_ext)
        & IRRADIANCE.contains(h.i_sol_dir)
        & IRRADIANCE.contains(h.i_sol_dif)
        & FRACTION.contains(h.f_sh_dir)
        & FRACTION.contains(h.f_sh_dif)
}

// The arrays and the first hour's part.
fn tail_in_range(e: &Element) -> bool
    ensures { result ≡ tail_in_range e.now }
{
    let k_pli = e
        .k_pli
        .iter()
        .take(number_of_nodes(e.kind))
        .all(|x| K_PLI.contains(*x));
    let h_pli = e
        .h_pli
        .iter()
        .take(h_count(e.kind))
        .all(|x| H_PLI.contains(*x));
    let delta_r = e
        .delta_r
        .iter()
        .take(e.treatments)
        .all(|x| DELTA_R.contains(*x));
    let open = open_within(e.treatments, e.first_hour.treatments_open);
    k_pli & h_pli & delta_r & element_hour_in_range(&e.first_hour) & open
}

#[tactic(auto, using(crate::proofs::Laws::Ranges::ranges), unfolding(crate::specs::Check::ZoneTest::element_in_range, crate::specs::Inner::Check::tail_in_range, crate::specs::Inner::Check::arrays_in_range))]
fn element_in_range(e: &Element) -> bool
    ensures { result ≡ element_in_range e.now }
{
    AREA.contains(e.area)
        & PITCH.contains(e.pitch)
        & COEFFICIENT.contains(e.h_ce)
        & COEFFICIENT.contains(e.h_re)
        & COEFFICIENT.contains(e.h_ri)
        & FRACTION.contains(e.solar_absorption_coeff)
        & SKY.contains(e.therm_rad_to_sky)
        & tail_in_range(e)
}

// The limit and the six floats.
#[tactic(auto, using(crate::proofs::Laws::Ranges::ranges), unfolding(crate::specs::Check::ZoneTest::front_in_range))]
fn front_in_range(z: &Zone) -> bool
    ensures { result ≡ front_in_range z.now }
{
    limit_in_range(z.start_up_limit)
        & AREA.contains(z.useful_area)
        & AREA.contains(z.volume)
        & COEFFICIENT.contains(z.tb_heat_trans_coeff)
        & TEMPERATURE.contains(z.temp_ext_air_init)
        & HEATING_SETPOINT.contains(z.temp_setpnt_init)
        & SETPOINT.contains(z.temp_setpnt_cool_vent_init)
}

// Each of the items has to pass: the first that does not is refused by its place, from 1 on.
pub fn all_required<T, F: Fn(&T) -> bool, R: Fn(usize) -> Refusal>(
    items: &[T],
    passes: F,
    refusal: R,
) -> Result<(), Refusal>
    requires tests { (x : Bor T) → F.pre passes x }
    requires refuses { (i : ℕ) → R.pre refusal i }
    ensures { (test : T → Bool) (number : ℕ) → ((x : Bor T) (b : Bool) → F.post passes x b → b ≡ test x.now)
        → ((i : ℕ) (r : Refusal) → R.post refusal i r → (number_of r ≡ number) × (index_of r ≡ i))
        → answered result ≡ all_required test number items.now 1 }
{
    for (i, item) in items.iter().enumerate() {
        if !passes(item) {
            return Err(refusal(i + 1));
        }
    }
    Ok(())
}

// The first value out of range. Made after `counts_test`, its one caller knows the bound of the count; a type for that would be made for this call alone.
#[tactic(auto, unfolding(crate::specs::Check::ZoneTest::values_test))]
fn values_test(z: &Zone) -> Result<(), Refusal>
    requires { z.now.count ≤ 24 }
    ensures { answered result ≡ values_test z.now }
{
    if !front_in_range(z) {
        return Err(Refusal::ZoneValue(0));
    }
    all_required(
        &z.building_elements[..z.count],
        element_in_range,
        Refusal::ZoneValue,
    )
}

#[tactic(auto, using(crate::proofs::Laws::Ranges::partial_le_is))]
pub fn count_valid(n: usize) -> bool
    ensures { result ≡ count_valid n }
{
    (1..=24).contains(&n)
}

// The count, and the treatments of the elements.
#[tactic(auto, unfolding(crate::specs::Check::ZoneTest::counts_test))]
fn counts_test(z: &Zone) -> Result<(), Refusal>
    ensures { answered result ≡ counts_test z.now }
{
    if !count_valid(z.count) {
        return Err(Refusal::Structure(0));
    }
    all_required(
        &z.building_elements[..z.count],
        |e| e.treatments <= max_treatments(e.kind),
        Refusal::Structure,
    )
}

// 4, then 5.
#[tactic(auto, using(crate::proofs::Laws::Ranges::counts_few), unfolding(crate::specs::Check::ZoneTest::zone_test))]
pub fn zone_test(z: &Zone) -> Result<(), Refusal>
    ensures { answered result ≡ zone_test z.now }
{
    counts_test(z)?;
    values_test(z)
}
