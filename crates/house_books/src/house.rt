// A house of two elements, a wall and a window with two treatments, and the zone that its head, or another of that length, describes.
use crate::entry::Entry;
use crate::hours::{conditions, limits_at};
use crate::layout::HEAD;
use big_endian::{put_byte, put_bytes, write_f64s_be};
use book::{BookState, Reply};
use zone::{Demand, Limits, Refusal, State, Zone};

// What a head says, and the state with which its hours start.
#[derive(Clone, Copy)]
pub struct House {
    zone: Zone,
    pub start: State,
}

fn put_wall(b: &mut [u8; HEAD]) {
    write_f64s_be(b, 59, &[20.0, 90.0, 20.0, 4.14, 5.13, 0.6, 15.0]);
    write_f64s_be(b, 115, &[0.0, 0.0, 0.0, 0.0, 90000.0, 6.0, 3.0, 3.0, 6.0]);
    write_f64s_be(b, 187, &[5.0, 0.0, 0.0, 1.0, 1.0]);
}

fn put_window(b: &mut [u8; HEAD]) {
    put_bytes(b, 228, &[4, 2]);
    write_f64s_be(b, 230, &[6.0, 90.0, 20.0, 4.14, 5.13, 0.0, 20.0]);
    write_f64s_be(b, 286, &[0.0, 0.0, 1.5, 0.25, 0.5]);
    write_f64s_be(b, 326, &[5.0, 0.0, 0.0, 1.0, 1.0]);
    put_byte(b, 366, 1);
}

// Length 363, version 1, operative basis, two elements, limit 1,000.
pub fn head() -> [u8; HEAD] {
    let mut b = [0; HEAD];
    put_bytes(&mut b, 2, &[1, 107, 1, 1, 2, 3, 232]);
    write_f64s_be(&mut b, 9, &[40.0, 100.0, 5.0, 5.0, 18.0, 1.4e32]);
    put_wall(&mut b);
    put_window(&mut b);
    b
}

impl House {
    pub fn read(head: &[u8]) -> Result<House, Refusal> {
        let mut zone = Zone::none();
        zone::read_head(head, &mut zone)?;
        let start = zone::init_node_temps(&zone)?;
        Ok(House { zone, start })
    }

    // The next hour appended, with the plant of that hour. The version is a number, since it may be one that no hour has.
    pub fn append(&self, given: BookState, version: u64, buf: &mut [u8]) -> Reply {
        self.append_with(given, version, limits_at(given.count), buf)
    }

    pub fn append_with(
        &self,
        given: BookState,
        version: u64,
        limits: Limits,
        buf: &mut [u8],
    ) -> Reply {
        self.append_hour(given, &conditions(given.count), version, limits, buf)
    }

    // An hour of these conditions appended.
    pub fn append_hour(
        &self,
        given: BookState,
        conditions: &[u8],
        version: u64,
        limits: Limits,
        buf: &mut [u8],
    ) -> Reply {
        book::append(&self.zone, given, conditions, version, limits, buf)
    }

    // What the hour of an entry needs, and the state after it.
    pub fn hour_step(&self, before: &State, entry: Entry) -> Option<(Demand, State)> {
        let version = u64::from(entry.version);
        let c = entry.conditions_taken();
        let reply = before.hour_step(&self.zone, &c, version, entry.limits());
        let (demand, _) = reply.answer.ok()?;
        Some((demand, reply.state))
    }

    // The state after it, with gains of which a share is convective.
    pub fn update_temperatures(
        &self,
        before: &State,
        entry: Entry,
        gains: f64,
        share: f64,
    ) -> Option<State> {
        let rate = entry.rate();
        let c = entry.conditions_taken();
        let reply = before.update_temperatures(&self.zone, &c, gains, share, rate);
        reply.answer.ok()?;
        Some(reply.state)
    }

    pub fn temp_operative(&self, state: &State) -> Option<f64> {
        state.temp_operative(&self.zone).ok()
    }
}
