// Start-up, operative temperature, demand, update and hour step on the zone of a head. Where a call is refused, nothing is written. The parameters are those
// of the C interface. Each call lends `read_head` a zone of its own, here and in head.rt, why.rt and book_calls.rt: through a Result a zone of 5.4 KB would
// be copied on each call's stack.
ghost use Rattle.std.specs.Prelude.{◌≡◌};
ghost use Rattle.hem_zone.specs.Inner.Answers.{code_of};
ghost use Rattle.hem_zone.specs.Zone.{hem_start_up_outcome, hem_operative_outcome, hem_demand_outcome, hem_update_outcome, hem_hour_step_outcome};

use crate::arrays::{balance_out, demand_out, state_in};
use crate::code::code_of;
use zone::{Limits, Refusal, Zone, init_node_temps, read_head};

#[tactic(auto, using(crate::proofs::Outcomes::start_up_by_structure), unfolding(crate::specs::Code::answered, crate::specs::Code::answer_code, crate::specs::Code::lent_after))]
fn start_up(head: &[u8], temps: &mut [f64; 121], nodes: &mut u64) -> Result<(), Refusal>
    ensures { (code_of result, (temps.new, nodes.new)) ≡ hem_start_up_outcome head.now temps.old nodes.old }
{
    let mut zone = Zone::none();
    read_head(head, &mut zone)?;
    let state = init_node_temps(&zone)?;
    let after = state.temps;
    *temps = after;
    *nodes = state.nodes as u64;
    Ok(())
}

// The settled temperatures before the first hour, and their count.
#[unsafe(no_mangle)]
pub extern "C" fn hem_start_up(head: &[u8], temps: &mut [f64; 121], nodes: &mut u64) -> u32
    ensures { (result, (temps.new, nodes.new)) ≡ hem_start_up_outcome head.now temps.old nodes.old }
{
    code_of(start_up(head, temps, nodes))
}

#[tactic(auto, using(crate::proofs::Outcomes::operative_by_structure), unfolding(crate::specs::Code::answered, crate::specs::Code::answer_code, crate::specs::Code::lent_after))]
fn temp_operative(
    head: &[u8],
    temps: &[f64; 121],
    nodes: u64,
    operative: &mut f64,
) -> Result<(), Refusal>
    ensures { (code_of result, operative.new) ≡ hem_operative_outcome head.now temps.now nodes operative.old }
{
    let mut zone = Zone::none();
    read_head(head, &mut zone)?;
    *operative = state_in(temps, nodes).temp_operative(&zone)?;
    Ok(())
}

// The operative temperature. The temperatures stay.
#[unsafe(no_mangle)]
pub extern "C" fn hem_operative(
    head: &[u8],
    temps: &[f64; 121],
    nodes: u64,
    operative: &mut f64,
) -> u32
    ensures { (result, operative.new) ≡ hem_operative_outcome head.now temps.now nodes operative.old }
{
    code_of(temp_operative(head, temps, nodes, operative))
}

#[tactic(auto, using(crate::proofs::Outcomes::demand_by_structure), unfolding(crate::specs::Code::answered, crate::specs::Code::answer_code, crate::specs::Code::lent_after))]
fn demand(
    head: &[u8],
    temps: &[f64; 121],
    nodes: u64,
    conditions: &[u8],
    out: &mut [f64; 5],
) -> Result<(), Refusal>
    ensures { (code_of result, out.new) ≡ hem_demand_outcome head.now temps.now nodes conditions.now out.old }
{
    let mut zone = Zone::none();
    read_head(head, &mut zone)?;
    let reply = state_in(temps, nodes).space_heat_cool_demand(&zone, conditions);
    let d = reply.answer?;
    *out = demand_out(d);
    Ok(())
}

// The demand of one hour. The temperatures stay.
#[unsafe(no_mangle)]
pub extern "C" fn hem_demand(
    head: &[u8],
    temps: &[f64; 121],
    nodes: u64,
    conditions: &[u8],
    out: &mut [f64; 5],
) -> u32
    ensures { (result, out.new) ≡ hem_demand_outcome head.now temps.now nodes conditions.now out.old }
{
    code_of(demand(head, temps, nodes, conditions, out))
}

#[tactic(auto, using(crate::proofs::Outcomes::update_by_structure), unfolding(crate::specs::Code::answered, crate::specs::Code::answer_code, crate::specs::Code::lent_after))]
fn update(
    head: &[u8],
    temps: &mut [f64; 121],
    nodes: u64,
    conditions: &[u8],
    gains: f64,
    fraction: f64,
    rate: f64,
    balance: &mut [f64; 28],
) -> Result<(), Refusal>
    ensures { (code_of result, (temps.new, balance.new)) ≡ hem_update_outcome head.now temps.old nodes conditions.now gains fraction rate balance.old }
{
    let mut zone = Zone::none();
    read_head(head, &mut zone)?;
    let s = state_in(temps, nodes);
    let reply = s.update_temperatures(&zone, conditions, gains, fraction, rate);
    let b = reply.answer?;
    let updated = reply.state;
    let after = updated.temps;
    *temps = after;
    *balance = balance_out(b);
    Ok(())
}

// The temperatures after one hour with the given gains, and its heat balance.
#[unsafe(no_mangle)]
pub extern "C" fn hem_update(
    head: &[u8],
    temps: &mut [f64; 121],
    nodes: u64,
    conditions: &[u8],
    gains: f64,
    fraction: f64,
    rate: f64,
    balance: &mut [f64; 28],
) -> u32
    ensures { (result, (temps.new, balance.new)) ≡ hem_update_outcome head.now temps.old nodes conditions.now gains fraction rate balance.old }
{
    code_of(update(
        head, temps, nodes, conditions, gains, fraction, rate, balance,
    ))
}

#[tactic(auto, using(crate::proofs::Outcomes::hour_by_structure), unfolding(crate::specs::Code::answered, crate::specs::Code::answer_code, crate::specs::Code::lent_after))]
fn hour_step(
    head: &[u8],
    temps: &mut [f64; 121],
    nodes: u64,
    conditions: &[u8],
    version: u64,
    limits: Limits,
    out: &mut [f64; 5],
    balance: &mut [f64; 28],
) -> Result<(), Refusal>
    ensures { (code_of result, (temps.new, out.new, balance.new)) ≡ hem_hour_step_outcome head.now temps.old nodes conditions.now version limits.heating limits.cooling out.old balance.old }
{
    let mut zone = Zone::none();
    read_head(head, &mut zone)?;
    let s = state_in(temps, nodes);
    let reply = s.hour_step(&zone, conditions, version, limits);
    let (d, b) = reply.answer?;
    let after = reply.state.temps;
    *temps = after;
    *out = demand_out(d);
    *balance = balance_out(b);
    Ok(())
}

// One hour by the rule of an entry version: its demand, and the temperatures and the heat balance once that is met, from version 3 on within the limits.
#[unsafe(no_mangle)]
pub extern "C" fn hem_hour_step(
    head: &[u8],
    temps: &mut [f64; 121],
    nodes: u64,
    conditions: &[u8],
    version: u64,
    heating_limit: f64,
    cooling_limit: f64,
    out: &mut [f64; 5],
    balance: &mut [f64; 28],
) -> u32
    ensures { (result, (temps.new, out.new, balance.new)) ≡ hem_hour_step_outcome head.now temps.old nodes conditions.now version heating_limit cooling_limit out.old balance.old }
{
    let limits = Limits {
        heating: heating_limit,
        cooling: cooling_limit,
    };
    code_of(hour_step(
        head, temps, nodes, conditions, version, limits, out, balance,
    ))
}
