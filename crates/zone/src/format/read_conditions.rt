// What a byte string is as an hour's conditions: refusals 7, 8, 9.
ghost use Rattle.std.specs.Prelude.{◌≡◌, ◌≤◌, length};
ghost use Rattle.zone.specs.Answers.{answered};
ghost use Rattle.zone.specs.Format.Layout.{conditions_length};
ghost use Rattle.zone.specs.Format.Conditions.{conditions_of};
ghost use Rattle.zone.specs.Inner.Format.{tested_at};

use crate::check::conditions_tests::{conditions_test, open_bits_valid, rate_code_valid};
use crate::format::conditions::{Conditions, FixedRate};
use crate::format::decode_conditions::conditions_at;
use crate::format::layout::{ELEMENT_HOUR_SIZE, FIRST_ELEMENT_HOUR};
use crate::record::refusal::Refusal;
use crate::record::zone_record::Zone;

// The values, once size, code and open bits are right. Both bounds are known where this is called, and asked for as in decode_conditions.rt.
#[tactic(auto, unfolding(crate::specs::Inner::Format::tested_at))]
fn tested_at(s: &[u8], n: usize) -> Result<Conditions, Refusal>
    requires { (n ≤ 24) × (conditions_length n ≤ length s.now) }
    ensures { answered result ≡ tested_at s.now n }
{
    let conditions = conditions_at(s, n);
    conditions_test(n, &conditions)?;
    Ok(conditions)
}

// An hour's conditions for a zone.
pub fn read_conditions(fixed: FixedRate, z: &Zone, bytes: &[u8]) -> Result<Conditions, Refusal>
    ensures { answered result ≡ conditions_of fixed z.now bytes.now }
{
    let n = z.count;
    if (24 < n) || (bytes.len() != FIRST_ELEMENT_HOUR + ELEMENT_HOUR_SIZE * n) {
        return Err(Refusal::ConditionsSize);
    }
    if rate_code_valid(fixed, bytes) & open_bits_valid(bytes, &z.building_elements[..n]) {
        return tested_at(bytes, n);
    }
    Err(Refusal::ConditionsCode)
}
