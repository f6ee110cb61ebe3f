// The elements at the external boundary of a heat balance.
ghost use Rattle.std.specs.Prelude.{◌≡◌};
ghost use Rattle.solver.specs.FastSolver.{at_most24};
ghost use Rattle.solver.specs.Repeat.{repeat};
ghost use Rattle.zone.specs.Physics.HeatBalance.{fabric_ext};
ghost use Rattle.zone.specs.Inner.FabricSums.{add_boundary, add_kind, add_element, add_element_at, no_fabric};

use crate::format::conditions::Conditions;
use crate::physics::slots::outer_surface;
use crate::record::building_element::{Element, ElementHour, Kind, is_two_nodes};
use crate::record::zone_record::Zone;

// The sums over the elements at the external boundary: four over all, then five by kind (a party wall counts with the unconditioned spaces).
#[derive(Clone, Copy, Default)]
pub struct FabricSums {
    pub convective: f64,
    pub radiative: f64,
    pub sol: f64,
    pub sky: f64,
    pub opaque: f64,
    pub transparent: f64,
    pub to_ground: f64,
    pub ztc: f64,
    pub ztu: f64,
}

fn fabric_ext(e: &Element, h: &ElementHour, t: f64) -> f64
    ensures { result ≡ fabric_ext e.now h.now t }
{
    e.area * (e.h_ce * (h.temp_ext - t))
        + e.area * e.h_re * (h.temp_ext - t)
        + e.area * e.solar_absorption_coeff * (h.i_sol_dif * h.f_sh_dif + h.i_sol_dir * h.f_sh_dir)
        + e.area * -e.therm_rad_to_sky
}

impl FabricSums {
    fn add_boundary(&mut self, e: &Element, h: &ElementHour, t: f64)
        ensures { self.new ≡ add_boundary e.now h.now t self.old }
    {
        self.convective += e.area * e.h_ce * (h.temp_ext - t);
        self.radiative += e.area * e.h_re * (h.temp_ext - t);
        self.sol += e.area
            * e.solar_absorption_coeff
            * (h.i_sol_dif * h.f_sh_dif + h.i_sol_dir * h.f_sh_dir);
        self.sky += e.area * -e.therm_rad_to_sky;
    }

    fn add_kind(&mut self, kind: Kind, x: f64)
        ensures { self.new ≡ add_kind kind x self.old }
    {
        match kind {
            Kind::Opaque => self.opaque += x,
            Kind::AdjacentConditionedSpace => self.ztc += x,
            Kind::Ground => self.to_ground += x,
            Kind::Transparent => self.transparent += x,
            Kind::AdjacentUnconditionedSpaceSimple | Kind::PartyWall => self.ztu += x,
        }
    }

    #[tactic(auto, unfolding(crate::specs::Inner::FabricSums::add_element))]
    fn add_element(&mut self, e: &Element, h: &ElementHour, t: f64)
        ensures { self.new ≡ add_element e.now h.now t self.old }
    {
        self.add_boundary(e, h, t);
        self.add_kind(e.kind, fabric_ext(e, h, t));
    }
}

#[tactic(auto, using(crate::proofs::Laws::Loops::repeat_end))]
pub fn fabric_sums(z: &Zone, hour: &Conditions, vector_x: &[f64; 121]) -> FabricSums
    ensures { result ≡ repeat 0 (at_most24 z.now.count) (add_element_at z.now.building_elements hour.now.elements vector_x.now) no_fabric }
{
    let n = z.element_count();
    let mut sums = FabricSums::default();
    for e in 0..n {
        let el = &z.building_elements[e];
        let t = outer_surface(is_two_nodes(el.kind), vector_x, e);
        sums.add_element(el, &hour.elements[e], t);
    }
    sums
}
