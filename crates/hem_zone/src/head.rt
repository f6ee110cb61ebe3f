// A head by itself.
ghost use Rattle.std.specs.Prelude.{◌≡◌};
ghost use Rattle.hem_zone.specs.Inner.Answers.{code_of};
ghost use Rattle.hem_zone.specs.Zone.{hem_head_outcome};

use crate::code::code_of;
use zone::{Refusal, Zone, read_head, zone_test};

#[tactic(auto, using(crate::proofs::Outcomes::head_by_structure), unfolding(crate::specs::Code::answer_code))]
fn head_test(head: &[u8]) -> Result<(), Refusal>
    ensures { code_of result ≡ hem_head_outcome head.now }
{
    let mut zone = Zone::none();
    read_head(head, &mut zone)?;
    zone_test(&zone)
}

// Tests a head.
#[unsafe(no_mangle)]
pub extern "C" fn hem_head(head: &[u8]) -> u32
    ensures { result ≡ hem_head_outcome head.now }
{
    code_of(head_test(head))
}
