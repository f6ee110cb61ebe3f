// Why an hour on the zone of a head has its rate and its load.
ghost use Rattle.std.specs.Prelude.{◌≡◌};
ghost use Rattle.hem_zone.specs.Inner.Answers.{code_of};
ghost use Rattle.hem_zone.specs.Why.{hem_why_outcome};

use crate::arrays::state_in;
use crate::code::code_of;
use zone::{Refusal, Zone, read_head};

#[tactic(auto, using(crate::proofs::Outcomes::why_by_structure), unfolding(crate::specs::Code::answered, crate::specs::Code::answer_code, crate::specs::Code::lent_after))]
fn why(
    head: &[u8],
    temps: &[f64; 121],
    nodes: u64,
    conditions: &[u8],
    reason: &mut u64,
    load: &mut u64,
) -> Result<(), Refusal>
    ensures { (code_of result, (reason.new, load.new)) ≡ hem_why_outcome head.now temps.now nodes conditions.now reason.old load.old }
{
    let mut zone = Zone::none();
    read_head(head, &mut zone)?;
    let (named, beside) = state_in(temps, nodes).why(&zone, conditions)?;
    *reason = named.number();
    *load = beside.number();
    Ok(())
}

// Why an hour has its air change rate, and whether it is heated, cooled or neither. The temperatures stay.
#[unsafe(no_mangle)]
pub extern "C" fn hem_why(
    head: &[u8],
    temps: &[f64; 121],
    nodes: u64,
    conditions: &[u8],
    reason: &mut u64,
    load: &mut u64,
) -> u32
    ensures { (result, (reason.new, load.new)) ≡ hem_why_outcome head.now temps.now nodes conditions.now reason.old load.old }
{
    code_of(why(head, temps, nodes, conditions, reason, load))
}
