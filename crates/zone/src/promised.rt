// What is proved of zones, heads and hours, as the contract of one function: a theorem that a contract names cannot go, nor go unproved. It does nothing, and
// no program calls it.
ghost use Rattle.std.specs.Prelude.{◌≡◌, ◌+◌, ◌*◌, ℕ, List, Bool, true};
ghost use Rattle.zone.specs.declared.record.zone_record.Zone.{Zone};
ghost use Rattle.zone.specs.Format.Layout.{conditions_length};
ghost use Rattle.zone.specs.Claims.EachZone.{EachZone};
ghost use Rattle.zone.specs.Claims.FirstFault.{FirstFaults};
ghost use Rattle.zone.specs.Claims.Errors.{OneError};
ghost use Rattle.zone.specs.Claims.Why.{WhyNumbers};
ghost use Rattle.zone.specs.Claims.NodeOrder.{NodeOrder};
ghost use Rattle.zone.specs.Claims.HouseP.{HousePClaims, all_hold, table};

#[tactic(auto, using(crate::proofs::Claims::FirstFault::first_faults, crate::proofs::Claims::Errors::one_error, crate::proofs::Claims::Why::why_numbers, crate::proofs::Claims::NodeOrder::node_order, crate::proofs::Claims::ConditionsBytes::conditions_length_lem, crate::proofs::Claims::HouseP::house_p_lem, crate::proofs::Claims::HouseP::claim))]
pub fn promises()
    ensures each_zone { (z : Zone) → EachZone z }
    ensures first_faults { FirstFaults }
    ensures one_error { OneError }
    ensures why_numbers { WhyNumbers }
    ensures node_order { (two_nodes : List Bool) (count : ℕ) → NodeOrder two_nodes count }
    ensures conditions_length { (n : ℕ) → conditions_length n ≡ 113 + 41 * n }
    ensures house_p { HousePClaims }
    ensures rows { all_hold table ≡ true }
{}
