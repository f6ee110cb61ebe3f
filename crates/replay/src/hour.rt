// The state before an hour, its conditions and the call's own floats, as a case and a row store them.
use crate::record::Record;
use big_endian::read_f64s_be;
use zone::{Limits, State};

#[derive(Drop)]
pub struct Hour<'a> {
    pub nodes: usize,
    pub temps: &'a [u8],
    pub conditions: &'a [u8],
    // Update's gains, fraction and rate; greatest heating and greatest cooling; a question's value, or the ends of its band.
    pub own: [f64; 3],
}

impl<'a> Hour<'a> {
    // As many nodes as there are temperatures.
    pub fn read(record: &mut Record<'a>) -> Self {
        let (nodes, temps) = record.take_values();
        let conditions = record.take_counted();
        let own = [record.take_f64(), record.take_f64(), record.take_f64()];
        Hour {
            nodes,
            temps,
            conditions,
            own,
        }
    }

    // Not read by the engine, which is what is tested.
    pub fn state(&self) -> State {
        State {
            nodes: self.nodes,
            temps: read_f64s_be(self.temps, 0),
        }
    }

    pub fn limits(&self) -> Limits {
        let [heating, cooling, _] = self.own;
        Limits { heating, cooling }
    }
}
