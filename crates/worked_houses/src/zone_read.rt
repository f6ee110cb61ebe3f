// A zone with the bytes of its head, and the engine's calls on it.
use crate::limits::Meeting;
use crate::refusal::Refusal;
use crate::replies::nothing;
use book::{BookState, Reply};
use zone::{Demand, HeatBalance, Load, Reason, State, Zone};

// As a ventilation setpoint, none.
pub const NO_CONTROL: f64 = 1.4e32;

#[derive(Drop)]
pub struct ZoneRead<'a> {
    bytes: &'a [u8],
    pub length: usize,
    pub zone: Zone,
}

impl<'a> ZoneRead<'a> {
    // The head's structure is tested, then its values.
    pub fn read(bytes: &'a [u8]) -> Result<ZoneRead<'a>, Refusal> {
        let mut zone = Zone::none();
        let length = zone::read_head(bytes, &mut zone)?;
        zone::zone_test(&zone)?;
        Ok(ZoneRead {
            bytes,
            length,
            zone,
        })
    }
}

impl ZoneRead<'_> {
    pub fn start_up(&self) -> Result<State, Refusal> {
        Ok(zone::init_node_temps(&self.zone)?)
    }

    pub fn operative(&self, state: State) -> Result<f64, Refusal> {
        Ok(state.temp_operative(&self.zone)?)
    }

    pub fn demand(&self, before: State, conditions: &[u8]) -> Result<Demand, Refusal> {
        let reply = before.space_heat_cool_demand(&self.zone, conditions);
        Ok(reply.answer?)
    }

    pub fn why(&self, before: State, conditions: &[u8]) -> Result<(Reason, Load), Refusal> {
        Ok(before.why(&self.zone, conditions)?)
    }

    // The state after an hour with this power, of which this share goes to the air, and its balance.
    pub fn update(
        &self,
        before: State,
        conditions: &[u8],
        power: f64,
        share: f64,
        rate: f64,
    ) -> Result<(State, HeatBalance), Refusal> {
        let reply = before.update_temperatures(&self.zone, conditions, power, share, rate);
        Ok((reply.state, reply.answer?))
    }

    pub fn hour_step(
        &self,
        before: State,
        conditions: &[u8],
        meeting: Meeting,
    ) -> zone::Reply<(Demand, HeatBalance)> {
        before.hour_step(&self.zone, conditions, meeting.version, meeting.limits)
    }

    pub fn begin(&self, buffer: &mut [u8]) -> Reply {
        book::begin(nothing(), self.bytes, buffer)
    }

    pub fn append(
        &self,
        given: BookState,
        conditions: &[u8],
        meeting: Meeting,
        buffer: &mut [u8],
    ) -> Reply {
        let Meeting { version, limits } = meeting;
        book::append(&self.zone, given, conditions, version, limits, buffer)
    }

    // A book begun, and one hour appended.
    pub fn book_of_one(&self, conditions: &[u8], meeting: Meeting, buffer: &mut [u8]) -> Reply {
        let begun = self.begin(buffer);
        self.append(begun.values, conditions, meeting, buffer)
    }
}
