// One element's equations: coefficients and right sides, in the element's five slots. An element is taken by value (Specification, Forms that are kept).
ghost use Rattle.std.specs.Prelude.{◌≡◌};
ghost use Rattle.zone.specs.Physics.Equations.{rows_five, rows_two, rows_of, right_sides_five, right_sides_two, right_sides_of};
ghost use Rattle.zone.specs.Inner.Assembly.{rows_in};

use crate::record::building_element::{Element, ElementHour, h_pli_transparent, is_two_nodes};

// The coefficients of each slot's own temperature, of the next slot's and of the previous slot's.
#[derive(Clone, Copy)]
pub struct Rows {
    pub diag: [f64; 5],
    pub next: [f64; 5],
    pub prev: [f64; 5],
}

fn rows_five(e: Element, delta_t: f64, h_ci: f64, share: f64) -> Rows
    ensures { rows_in result ≡ rows_five e delta_t h_ci share }
{
    let k_pli = &e.k_pli;
    let h_pli = &e.h_pli;
    let h0 = h_pli[0];
    let h1 = h_pli[1];
    let h2 = h_pli[2];
    let h3 = h_pli[3];
    let diag = [
        k_pli[0] / delta_t + e.h_ce + e.h_re + h0,
        k_pli[1] / delta_t + h1 + h0,
        k_pli[2] / delta_t + h2 + h1,
        k_pli[3] / delta_t + h3 + h2,
        k_pli[4] / delta_t + h_ci + e.h_ri * 1.0 + h3 - share * e.h_ri,
    ];
    let next = [-h0, -h1, -h2, -h3, 0.0];
    let prev = [0.0, -h0, -h1, -h2, -h3];
    Rows { diag, next, prev }
}

fn rows_two(e: Element, delta_t: f64, h_ci: f64, share: f64, h_pli: f64) -> Rows
    ensures { rows_in result ≡ rows_two e delta_t h_ci share h_pli }
{
    let k_pli = &e.k_pli;
    let diag = [
        0.0,
        0.0,
        0.0,
        k_pli[0] / delta_t + e.h_ce + e.h_re + h_pli,
        k_pli[1] / delta_t + h_ci + e.h_ri * 1.0 + h_pli - share * e.h_ri,
    ];
    let next = [0.0, 0.0, 0.0, -h_pli, 0.0];
    let prev = [0.0, 0.0, 0.0, 0.0, -h_pli];
    Rows { diag, next, prev }
}

#[tactic(auto, unfolding(crate::specs::Physics::Equations::rows_of))]
pub fn rows_of(e: Element, delta_t: f64, treatments_open: u8, h_ci: f64, share: f64) -> Rows
    ensures { rows_in result ≡ rows_of e delta_t treatments_open h_ci share }
{
    if is_two_nodes(e.kind) {
        let h = h_pli_transparent(e.h_pli[0], &e.delta_r, e.treatments, treatments_open);
        return rows_two(e, delta_t, h_ci, share, h);
    }
    rows_five(e, delta_t, h_ci, share)
}

fn right_sides_five(e: Element, delta_t: f64, h: &ElementHour, t: &[f64; 5]) -> [f64; 5]
    ensures { result ≡ right_sides_five e delta_t h.now t.now }
{
    let k_pli = &e.k_pli;
    [
        k_pli[0] / delta_t * t[0]
            + (e.h_ce + e.h_re) * h.temp_ext
            + e.solar_absorption_coeff * (h.i_sol_dif * h.f_sh_dif + h.i_sol_dir * h.f_sh_dir)
            - e.therm_rad_to_sky,
        k_pli[1] / delta_t * t[1],
        k_pli[2] / delta_t * t[2],
        k_pli[3] / delta_t * t[3],
        k_pli[4] / delta_t * t[4],
    ]
}

fn right_sides_two(e: Element, delta_t: f64, h: &ElementHour, t: &[f64; 5]) -> [f64; 5]
    ensures { result ≡ right_sides_two e delta_t h.now t.now }
{
    let k_pli = &e.k_pli;
    [
        0.0,
        0.0,
        0.0,
        k_pli[0] / delta_t * t[3]
            + (e.h_ce + e.h_re) * h.temp_ext
            + e.solar_absorption_coeff * (h.i_sol_dif * h.f_sh_dif + h.i_sol_dir * h.f_sh_dir)
            - e.therm_rad_to_sky,
        k_pli[1] / delta_t * t[4],
    ]
}

#[tactic(auto, unfolding(crate::specs::Physics::Equations::right_sides_of))]
pub fn right_sides_of(e: Element, delta_t: f64, h: &ElementHour, t: &[f64; 5]) -> [f64; 5]
    ensures { result ≡ right_sides_of e delta_t h.now t.now }
{
    if is_two_nodes(e.kind) {
        return right_sides_two(e, delta_t, h, t);
    }
    right_sides_five(e, delta_t, h, t)
}
