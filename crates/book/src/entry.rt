// The bytes of an entry.
ghost use Rattle.std.specs.Prelude.{◌≡◌, ◌*◌, ◌≤◌, length};
ghost use Rattle.zone.specs.Record.BuildingElement.{node_count};
ghost use Rattle.book.specs.Model.Bytes.{equal_bytes};
ghost use Rattle.zone.specs.Format.Bytes.{float_size};
ghost use Rattle.zone.specs.Format.Layout.{conditions_length};
ghost use Rattle.book.specs.Inner.Entry.{EntryFits, bytes_in};
ghost use Rattle.zone.specs.Format.Limits.{power_limits_size, limits_bytes};
ghost use Rattle.book.specs.Layout.{front_size, limits_length, following_length, whole_length};
ghost use Rattle.book.specs.Entry.{front_bytes, trigger_bytes, demand_bytes, temperature_bytes};
ghost use Rattle.book.specs.Inner.Start.{with_start};
ghost use Rattle.book.specs.Inner.Sizes.{trigger_size, demand_size, longest_following, longest_entry};

use crate::bytes::{put, write_f64_be, write_f64s_be};
use crate::layout::{
    CONDITIONS_ELEMENT, CONDITIONS_SIZE, DEMAND_SIZE, FIXED_LENGTH, FLOAT_SIZE, FRONT_SIZE,
    LENGTH_SIZE, LIMITS_SIZE, LONGEST_ENTRY, RATES_SIZE,
};
use zone::{Demand, Limits, State, Zone, has_limits};

// The bytes of an hour's limits: none where the version has none.
pub fn limits_length(version: u64) -> usize
    ensures { (result ≡ limits_length version) × (result ≤ power_limits_size) }
{
    if has_limits(version) { LIMITS_SIZE } else { 0 }
}

// Greatest heating, greatest cooling.
#[tactic(auto, using(crate::proofs::Laws::Writing::limits_written))]
pub fn limits_bytes(limits: Limits) -> [u8; LIMITS_SIZE]
    ensures { result ≡ limits_bytes limits }
{
    let mut bytes = [0; LIMITS_SIZE];
    write_f64s_be(&[limits.heating, limits.cooling], &mut bytes);
    bytes
}

#[tactic(auto, using(crate::proofs::Laws::Writing::trigger_absent, crate::proofs::Laws::Writing::trigger_at))]
fn put_trigger(trigger: Option<f64>, b: &mut [u8])
    requires { trigger_size ≤ length b.old }
    ensures { b.new ≡ with_start (trigger_bytes trigger) b.old }
{
    match trigger {
        None => put(&[0; 1 + FLOAT_SIZE], b),
        Some(rate) => {
            put(&[1], b);
            write_f64_be(rate, &mut b[1..]);
        }
    }
}

#[tactic(auto, using(crate::proofs::Laws::Writing::demand_written))]
fn put_demand(d: Demand, b: &mut [u8])
    requires { demand_size ≤ length b.old }
    ensures { b.new ≡ with_start (demand_bytes d) b.old }
{
    let row = [d.space_heat_demand, d.space_cool_demand, d.ach_cooling];
    write_f64s_be(&row, b);
    let trigger = d.ach_to_trigger_heating;
    put_trigger(trigger, &mut b[RATES_SIZE..]);
}

// What an entry holds behind its length: the version, the bytes of the conditions and of the limits, the demand, and the state after the hour.
#[derive(Clone, Copy)]
pub struct Entry<'a> {
    pub version: u64,
    pub conditions: &'a [u8],
    pub limits: &'a [u8],
    pub demand: Demand,
    pub after: &'a State,
}

// How an entry of a zone lies in bytes. A zone may say any count of elements; this is made once that is found to be at most 24.
#[derive(Clone, Copy)]
pub struct EntryLayout<'a> {
    pub zone: &'a Zone,
    ghost few: { zone.now.count ≤ 24 },
}

impl<'a> EntryLayout<'a> {
    // N, the air's node included.
    #[tactic(auto, using(crate::proofs::Laws::Entry::nodes_few))]
    pub fn nodes(&self) -> usize
        ensures { (result ≡ node_count self.now.zone.now) × (result ≤ 121) }
    {
        self.zone.node_count()
    }

    // The bytes of an hour's conditions.
    pub fn conditions_length(&self) -> usize
        ensures { result ≡ conditions_length self.now.zone.now.count }
    {
        CONDITIONS_SIZE + CONDITIONS_ELEMENT * self.zone.count
    }

    // The length that stands in an entry's first 4 bytes.
    fn length_field(&self, version: u64) -> usize
        ensures { (result ≡ following_length self.now.zone.now version) × (result ≤ longest_following) }
    {
        FIXED_LENGTH
            + CONDITIONS_ELEMENT * self.zone.count
            + FLOAT_SIZE * self.nodes()
            + limits_length(version)
    }

    // All bytes of an entry.
    pub fn whole_length(&self, version: u64) -> usize
        ensures { (result ≡ whole_length self.now.zone.now version) × (result ≤ longest_entry) }
    {
        LENGTH_SIZE + self.length_field(version)
    }

    // Length and version.
    #[tactic(auto, using(crate::proofs::Laws::Writing::front_written))]
    fn put_front(&self, version: u64, b: &mut [u8])
        requires { front_size ≤ length b.old }
        ensures { b.new ≡ with_start (front_bytes self.now.zone.now version) b.old }
    {
        let length = self.length_field(version) as u32;
        put(&length.to_be_bytes(), b);
        put(&[(version % 256) as u8], &mut b[LENGTH_SIZE..]);
    }

    // The temperatures of the nodes.
    #[tactic(auto, using(crate::proofs::Laws::Entry::floats_few))]
    fn put_temperatures(&self, s: &State, b: &mut [u8])
        requires { float_size * node_count self.now.zone.now ≤ length b.old }
        ensures { b.new ≡ with_start (temperature_bytes self.now.zone.now s.now) b.old }
    {
        write_f64s_be(&s.temps[..self.nodes()], b);
    }

    // An entry at a buffer's start.
    pub fn put_entry(&self, e: &Entry<'_>, b: &mut [u8])
        requires { EntryFits self.now.zone.now e.now × (whole_length self.now.zone.now e.now.version ≤ length b.old) }
        ensures { b.new ≡ with_start (bytes_in self.now.zone.now e.now) b.old }
    {
        let limits_at = FRONT_SIZE + e.conditions.len();
        let demand_at = limits_at + e.limits.len();
        self.put_front(e.version, b);
        put(e.conditions, &mut b[FRONT_SIZE..]);
        put(e.limits, &mut b[limits_at..]);
        put_demand(e.demand, &mut b[demand_at..]);
        self.put_temperatures(e.after, &mut b[demand_at + DEMAND_SIZE..]);
    }

    // Is a whole entry this one: it is written anew and compared. Not inlined, so that the stack of a take-up does not hold its buffer while an hour is
    // calculated.
    #[inline(never)]
    #[tactic(auto, using(crate::proofs::Laws::Writing::entry_compared, crate::proofs::Laws::Entry::whole_few))]
    pub fn is_entry(&self, e: &Entry<'_>, entry: &[u8]) -> bool
        requires { EntryFits self.now.zone.now e.now
            × (length entry.now ≡ whole_length self.now.zone.now e.now.version)
            × (length (bytes_in self.now.zone.now e.now) ≡ whole_length self.now.zone.now e.now.version) }
        ensures { result ≡ equal_bytes (bytes_in self.now.zone.now e.now) entry.now }
    {
        let mut expected = [0u8; LONGEST_ENTRY];
        self.put_entry(e, &mut expected);
        expected.starts_with(entry)
    }
}
