// The first record of a rest of the book, and the state after its hour.
ghost use Rattle.std.specs.Prelude.{◌≡◌};
ghost use Rattle.book.specs.Inner.Reader.{read_temperatures, read_length, read_first};
ghost use Rattle.book.specs.Inner.Record.{length_read};

use crate::entry::EntryLayout;
use crate::layout::{FLOAT_SIZE, MOST_ELEMENTS};
use crate::record::{ReadRecord, record_in};
use zone::{Zone, read_temperatures};

// The node temperatures with which an entry ends, into the first places of `temps`; 0.0 in every place where it is too short to hold them.
#[tactic(auto, using(crate::proofs::Laws::Reader::read_short, crate::proofs::Laws::Reader::read_long))]
fn read_state(layout: &EntryLayout<'_>, entry: &[u8], temps: &mut [f64; 121])
    ensures { temps.new ≡ read_temperatures layout.now.zone.now entry.now temps.old }
{
    let nodes = layout.nodes();
    let size = FLOAT_SIZE * nodes;
    if entry.len() < size {
        *temps = [0.0; 121];
        return;
    }
    let at = entry.len() - size;
    read_temperatures(&entry[at..], nodes, temps);
}

// The record with which a rest of the book begins, and the node temperatures after its hour; nothing is read of a zone with more than 24 elements.
pub fn read_record(z: &Zone, rest: &[u8], temps: &mut [f64; 121]) -> Option<ReadRecord>
    ensures { (length_read result ≡ read_length z.now rest.now)
        × (temps.new ≡ read_first z.now rest.now temps.old) }
{
    if MOST_ELEMENTS < z.count {
        return None;
    }
    let layout = EntryLayout { zone: z };
    let length = record_in(&layout, rest)?;
    read_state(&layout, &rest[..length], temps);
    Some(ReadRecord::Hour(length))
}
