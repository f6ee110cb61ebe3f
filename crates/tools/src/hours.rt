// The hours of a book, one after the other.
ghost use Rattle.std.specs.Iterator.{YieldsFirst, item_count};
ghost use Rattle.tools.specs.Inner.Hours.{hours_left};

use book::{ReadRecord, read_record};
use zone::{Zone, operative_of};

// The operative temperatures after the hours whose entries stand in these bytes.
#[derive(Drop)]
pub struct Hours<'a> {
    pub zone: &'a Zone,
    pub entries: &'a [u8],
}

impl<'a> Iterator for Hours<'a> {
    type Item = f64;

    ghost next_gives = { YieldsFirst hours_left };

    ghost remaining = { item_count hours_left };

    #[tactic(auto, using(crate::proofs::Laws::Hours::no_hour_left, crate::proofs::Laws::Hours::hour_next))]
    fn next(&mut self) -> Option<f64> {
        let mut temps = [0.0; 121];
        let record = read_record(self.zone, self.entries, &mut temps)?;
        self.entries = &self.entries[record.length()..];
        match record {
            ReadRecord::Hour(_) => Some(operative_of(self.zone, &temps)),
        }
    }
}
