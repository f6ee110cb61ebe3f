// The values that stand in a head's bytes.
ghost use Rattle.std.specs.Prelude.{◌≡◌, true, ◌++◌, ◌+◌, ◌-◌, ◌*◌, ◌≤◌, length, replicate};
ghost use Rattle.solver.specs.Result.{ok};
ghost use Rattle.zone.specs.Format.Bytes.{float_size};
ghost use Rattle.zone.specs.Format.Layout.{first_element, element_hour_size};
ghost use Rattle.zone.specs.Format.ElementLayout.{kind_valid_at, size_at};
ghost use Rattle.zone.specs.Format.Decode.{floats_at, array_at, element_hour_at, element_at, elements_at, basis_of, zone_at, no_element, no_element_hour};
ghost use Rattle.zone.specs.Format.Head.{elements_end, structure_of};

use crate::format::bytes::{read_f64_be, read_u16_be};
use crate::format::element_layout::{element_size, h_count, kind_of};
use crate::format::layout::{
    AREA, BASIS_AT, BRIDGES_AT, COUNT_AT, ELEMENT_ARRAYS, F_SH_DIF, F_SH_DIR, FIRST_ELEMENT,
    FLOAT_SIZE, H_CE, H_RE, H_RI, I_SOL_DIF, I_SOL_DIR, LIMIT_AT, OPEN_BYTE, PITCH,
    SOLAR_ABSORPTION_COEFF, TEMP_EXT_AIR_INIT_AT, TEMP_SETPNT_COOL_VENT_INIT_AT,
    TEMP_SETPNT_INIT_AT, THERM_RAD_TO_SKY, TREATMENTS, USEFUL_AREA_AT, VOLUME_AT,
};
use crate::record::building_element::{Element, ElementHour, Kind, number_of_nodes};
use crate::record::zone_record::{Zone, ZoneTemperatureControlBasis};

// The floats from `at` on, into all places.
pub fn floats_to(out: &mut [f64], s: &[u8], at: usize)
    requires { at + float_size * length out.old ≤ length s.now }
    ensures { out.new ≡ floats_at s.now at (length out.old) }
{
    for (i, slot) in out.iter_mut().enumerate() {
        *slot = read_f64_be(s, at + FLOAT_SIZE * i);
    }
}

// An array of N: the `count` floats from `at` on, then zeros.
fn array_at<const N: usize>(s: &[u8], at: usize, count: usize) -> [f64; N]
    requires { (count ≤ N) × (at + float_size * count ≤ length s.now) }
    ensures { result ≡ array_at N s.now at count }
{
    let mut out = [0.0; N];
    floats_to(&mut out[..count], s, at);
    out
}

// An hour's part of an element, from `at` on.
pub fn element_hour_at(s: &[u8], at: usize) -> ElementHour
    requires { at + element_hour_size ≤ length s.now }
    ensures { result ≡ element_hour_at s.now at }
{
    ElementHour {
        temp_ext: read_f64_be(s, at),
        i_sol_dir: read_f64_be(s, at + I_SOL_DIR),
        i_sol_dif: read_f64_be(s, at + I_SOL_DIF),
        f_sh_dir: read_f64_be(s, at + F_SH_DIR),
        f_sh_dif: read_f64_be(s, at + F_SH_DIF),
        treatments_open: s[at + OPEN_BYTE],
    }
}

// The hour's part of no element.
#[tactic(auto, unfolding(crate::specs::Format::Decode::no_element_hour, crate::specs::Format::Bytes::big_endian_from))]
pub fn no_element_hour() -> ElementHour
    ensures { result ≡ no_element_hour }
{
    ElementHour {
        temp_ext: 0.0,
        i_sol_dir: 0.0,
        i_sol_dif: 0.0,
        f_sh_dir: 0.0,
        f_sh_dif: 0.0,
        treatments_open: 0,
    }
}

// The element at `p`, whose structure is right.
fn element_at(s: &[u8], p: usize) -> Element
    requires { (p + 2 ≤ length s.now) × (kind_valid_at s.now p ≡ true) × (p + size_at s.now p ≤ length s.now) }
    ensures { result ≡ element_at s.now p }
{
    let kind = kind_of(s[p]);
    let treatments = usize::from(s[p + TREATMENTS]);
    let kc = number_of_nodes(kind);
    let hc = h_count(kind);
    let at_k = p + ELEMENT_ARRAYS;
    let at_h = at_k + FLOAT_SIZE * kc;
    let at_delta = at_h + FLOAT_SIZE * hc;
    let at_hour = at_delta + FLOAT_SIZE * treatments;
    Element {
        kind,
        treatments,
        area: read_f64_be(s, p + AREA),
        pitch: read_f64_be(s, p + PITCH),
        h_ce: read_f64_be(s, p + H_CE),
        h_re: read_f64_be(s, p + H_RE),
        h_ri: read_f64_be(s, p + H_RI),
        solar_absorption_coeff: read_f64_be(s, p + SOLAR_ABSORPTION_COEFF),
        therm_rad_to_sky: read_f64_be(s, p + THERM_RAD_TO_SKY),
        k_pli: array_at(s, at_k, kc),
        h_pli: array_at(s, at_h, hc),
        delta_r: array_at(s, at_delta, treatments),
        first_hour: element_hour_at(s, at_hour),
    }
}

// What stands in a place of no element.
pub fn no_element() -> Element
    ensures { result ≡ no_element }
{
    Element {
        kind: Kind::Opaque,
        treatments: 0,
        area: 0.0,
        pitch: 0.0,
        h_ce: 0.0,
        h_re: 0.0,
        h_ri: 0.0,
        solar_absorption_coeff: 0.0,
        therm_rad_to_sky: 0.0,
        k_pli: [0.0; 5],
        h_pli: [0.0; 4],
        delta_r: [0.0; 4],
        first_hour: no_element_hour(),
    }
}

fn size_at(s: &[u8], p: usize) -> usize
    requires { p + 2 ≤ length s.now }
    ensures { result ≡ size_at s.now p }
{
    let kind = kind_of(s[p]);
    let t = usize::from(s[p + TREATMENTS]);
    element_size(kind, t)
}

// The `n` elements of a head whose structure is right. That `n` is at most 24 is part of that structure: `count_valid`, which `read_zone` has from
// `structure_of`. A struct of `s`, `end` and `n` would have to say all of this contract again as its ghost fields, for one caller.
fn elements_to(s: &[u8], end: usize, n: usize, elements: &mut [Element; 24])
    requires { (n ≤ 24) × (end ≤ length s.now) × (elements_end s.now end n 0 first_element ≡ ok end) }
    ensures { elements.new ≡ elements_at s.now first_element n ++ replicate (24 - n) no_element }
{
    elements[n..].fill(no_element());
    let mut p = FIRST_ELEMENT;
    for slot in elements[..n].iter_mut() {
        *slot = element_at(s, p);
        p += size_at(s, p);
    }
}

// 0 or 1. Any other is taken as 1, as in the definition, for the reason that stands at `kind_of`.
fn basis_of(b: u8) -> ZoneTemperatureControlBasis
    ensures { result ≡ basis_of b }
{
    match b {
        0 => ZoneTemperatureControlBasis::Air,
        _ => ZoneTemperatureControlBasis::Operative,
    }
}

// The zone of a head whose structure is right, and which ends at `end`.
pub fn read_zone(s: &[u8], end: usize, zone: &mut Zone)
    requires { (first_element ≤ length s.now) × (structure_of s.now ≡ ok end) × (end ≤ length s.now) }
    ensures { zone.new ≡ zone_at s.now }
{
    zone.temp_setpnt_basis = basis_of(s[BASIS_AT]);
    zone.count = usize::from(s[COUNT_AT]);
    zone.start_up_limit = read_u16_be(s, LIMIT_AT) as usize;
    zone.useful_area = read_f64_be(s, USEFUL_AREA_AT);
    zone.volume = read_f64_be(s, VOLUME_AT);
    zone.tb_heat_trans_coeff = read_f64_be(s, BRIDGES_AT);
    zone.temp_ext_air_init = read_f64_be(s, TEMP_EXT_AIR_INIT_AT);
    zone.temp_setpnt_init = read_f64_be(s, TEMP_SETPNT_INIT_AT);
    zone.temp_setpnt_cool_vent_init = read_f64_be(s, TEMP_SETPNT_COOL_VENT_INIT_AT);
    elements_to(s, end, zone.count, &mut zone.building_elements);
}
