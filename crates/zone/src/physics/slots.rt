// Element e has the slots 5 e to 5 e + 4, from outer to inner surface; one of two nodes the last two of them. The internal air has slot 120.
// That e is below 24, and a row or column below 25, stands in the contracts: the loops over a zone's elements know it and count with it, as in `5 * e`, and a
// type that has the bound would be made in each of their turns and taken apart in each function here.
ghost use Rattle.std.specs.Prelude.{◌≡◌, ◌+◌, ◌*◌, ◌<◌, ◌≤◌, length};
ghost use Rattle.solver.specs.Rows.{set_entry};
ghost use Rattle.zone.specs.Physics.Slots.{element_slots, set_slots};
ghost use Rattle.zone.specs.Inner.FabricSums.{outer_surface_by};

// The solver has the same for itself: what it exports asks nothing of its callers, and this asks for its indices in range.
pub fn set_entry(m: &mut [f64; 625], i: usize, j: usize, x: f64)
    requires { (i < 25) × (j < 25) }
    ensures { m.new ≡ set_entry i j x m.old }
{
    m[25 * i + j] = x;
}

pub fn element_slots(t: &[f64; 121], e: usize) -> [f64; 5]
    requires { e < 24 }
    ensures { result ≡ element_slots t.now e }
{
    let a = 5 * e;
    [t[a], t[a + 1], t[a + 2], t[a + 3], t[a + 4]]
}

// Entry by entry: with `copy_from_slice` each call took 12 instructions more, 96 calls an hour step of 24 elements 1,152, 1.1 %: above the bar of
// docs/PERFORMANCE.md.
#[tactic(auto, using(crate::proofs::Laws::Loops::repeat_turn, crate::proofs::Laws::Loops::repeat_end), unfolding(crate::specs::Physics::Slots::set_slots))]
pub fn set_slots(d: &mut [f64], e: usize, r: &[f64; 5])
    requires { 5 * e + 5 ≤ length d.old }
    ensures { d.new ≡ set_slots e r.now d.old }
{
    for j in 0..5 {
        d[5 * e + j] = r[j];
    }
}

pub fn outer_surface(two_nodes: bool, t: &[f64; 121], e: usize) -> f64
    requires { e < 24 }
    ensures { result ≡ outer_surface_by two_nodes t.now e }
{
    if two_nodes {
        return t[5 * e + 3];
    }
    t[5 * e]
}
