// The calls on a zone: what an accepted one gives, and whether a refused one changed nothing.
use crate::comparison::Comparison;
use crate::failure::Failure;
use crate::hour::Hour;
use crate::rate_twice::has_fixed_rate;
use crate::same::same_state;
use zone::{Demand, Limits, Refusal, Reply, State, Zone};

// A zone whose head is accepted.
pub fn read(head: &[u8]) -> Result<Zone, Refusal> {
    let mut zone = Zone::none();
    zone::read_head(head, &mut zone)?;
    zone::zone_test(&zone)?;
    Ok(zone)
}

// A refused call hands back the state that it was given.
fn accepted<T: Copy>(given: &State, reply: &Reply<T>) -> Result<T, Failure> {
    reply.answer.map_err(|refusal| if same_state(given, &reply.state) {
        Failure::from(refusal)
    } else {
        Failure::Changed
    })
}

// A demand leaves the state as it is.
pub fn demand(zone: &Zone, hour: &Hour<'_>) -> Result<Demand, Failure> {
    let state = hour.state();
    let reply = state.space_heat_cool_demand(zone, hour.conditions);
    if !same_state(&state, &reply.state) {
        return Err(Failure::Changed);
    }
    Ok(reply.answer?)
}

// Why this rate, why this load.
pub fn why(zone: &Zone, hour: &Hour<'_>, seen: &mut Comparison<'_>) -> Result<(), Failure> {
    let (reason, load) = hour.state().why(zone, hour.conditions)?;
    seen.reason(reason, load);
    Ok(())
}

// A demand refuses the fixed rate; why is answered for it, which is asked for itself.
fn is_fixed_rate(hour: &Hour<'_>, failure: Failure) -> bool {
    has_fixed_rate(hour.conditions) && failure == Failure::from(Refusal::ConditionsCode)
}

// A demand and, asked beside it, why this rate, why this load: what the demand refuses, but for the fixed rate, is refused
// there with the same number and index.
pub fn demand_and_why(
    zone: &Zone,
    hour: &Hour<'_>,
    seen: &mut Comparison<'_>,
) -> Result<(), Failure> {
    let demand = demand(zone, hour);
    let why = hour.state().why(zone, hour.conditions);
    match (demand, why) {
        (Ok(demand), Ok((reason, load))) => {
            seen.demand(&demand);
            seen.reason(reason, load);
            Ok(())
        }
        (Err(failure), Err(refusal)) if failure == Failure::from(refusal) => Err(failure),
        (Err(failure), _) if is_fixed_rate(hour, failure) => Err(failure),
        _ => Err(Failure::RefusedOtherwise),
    }
}

pub fn update(zone: &Zone, hour: &Hour<'_>, seen: &mut Comparison<'_>) -> Result<(), Failure> {
    let state = hour.state();
    let [gains, fraction, rate] = hour.own;
    let reply = state.update_temperatures(zone, hour.conditions, gains, fraction, rate);
    let balance = accepted(&state, &reply)?;
    seen.state(&reply.state);
    seen.balance(&balance);
    Ok(())
}

pub fn start_up(zone: &Zone, seen: &mut Comparison<'_>) -> Result<(), Failure> {
    seen.state(&zone::init_node_temps(zone)?);
    Ok(())
}

pub fn hour_step(
    zone: &Zone,
    hour: &Hour<'_>,
    version: u64,
    limits: Limits,
    seen: &mut Comparison<'_>,
) -> Result<(), Failure> {
    let state = hour.state();
    let reply = state.hour_step(zone, hour.conditions, version, limits);
    let (demand, balance) = accepted(&state, &reply)?;
    seen.demand(&demand);
    seen.state(&reply.state);
    seen.balance(&balance);
    Ok(())
}
