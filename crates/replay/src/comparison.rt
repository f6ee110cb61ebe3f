// The values of an accepted call beside those that are stored, as 64-bit patterns.
use crate::record::Record;
use big_endian::{read_u32_be, read_u64_be};
use book::BookState;
use std::fmt;
use std::num::f64_to_bits_with_nan;
use zone::{
    Demand, HeatBalance, HeatBalanceAirNode, HeatBalanceExternalBoundary,
    HeatBalanceInternalBoundary, Load, Reason, State,
};

// Where an answer differs from the stored one.
#[derive(Clone, Copy, Debug, PartialEq, Eq)]
pub enum Difference {
    // The call was accepted, or another number came.
    Accepted,
    Number(u32),
    // The first value that differs, counted from 1.
    Value(usize),
    // More or fewer values.
    Count,
    // Other values than those of the same call, or book, with the rate twice.
    Otherwise,
    // Of a row the number that came, whatever differs: 0 where the call was accepted.
    Came(u32),
}

// As one number, which the summary prints.
impl fmt::Display for Difference {
    fn fmt<W: fmt::Write>(&self, f: &mut fmt::Formatter<W>) -> fmt::Result {
        match *self {
            Difference::Accepted => write!(f, "1000"),
            Difference::Number(number) => write!(f, "{}", number.saturating_add(1000)),
            Difference::Value(place) => write!(f, "{place}"),
            Difference::Count => write!(f, "999"),
            Difference::Otherwise => write!(f, "998"),
            Difference::Came(number) => write!(f, "{number}"),
        }
    }
}

// The values of an accepted call as a record has them: how many, of eight bytes each, and its bytes from the first of them on.
#[derive(Clone, Copy)]
pub struct Stored<'a> {
    pub count: usize,
    pub bytes: &'a [u8],
}

impl<'a> Stored<'a> {
    pub fn none() -> Self {
        Stored {
            count: 0,
            bytes: &[],
        }
    }

    // With what is left of a record.
    pub fn read(mut record: Record<'a>) -> Self {
        let count = usize::from(record.take_u16());
        Stored {
            count,
            bytes: record.rest(),
        }
    }

    // Counted from 0. Past the record's end every byte is 0.
    pub fn value(self, place: usize) -> u64 {
        read_u64_be(self.bytes, place.saturating_mul(8))
    }
}

// So many values of a call are compared; of the converter's, which come behind a whole book, all are.
const MOST_VALUES: usize = 160;

// Takes the values that come, in their order.
#[derive(Drop)]
pub struct Comparison<'a> {
    stored: Stored<'a>,
    most: usize,
    compared: usize,
    difference: Option<Difference>,
}

// Zeros of either sign are the same value.
fn same_value(a: u64, b: u64) -> bool {
    a == b || a << 1 == 0 && b << 1 == 0
}

impl<'a> Comparison<'a> {
    pub fn new(stored: Stored<'a>) -> Self {
        Comparison {
            stored,
            most: MOST_VALUES,
            compared: 0,
            difference: None,
        }
    }

    // However many values come.
    pub fn compare_all(&mut self) {
        self.most = usize::MAX;
    }

    pub fn value(&mut self, came: u64) {
        if self.compared < self.most {
            if self.compared < self.stored.count {
                self.compare(self.compared, came);
            } else {
                self.differs(Difference::Count);
            }
            self.compared = self.compared.saturating_add(1);
        }
    }

    fn compare(&mut self, place: usize, came: u64) {
        if !same_value(came, self.stored.value(place)) {
            self.differs(Difference::Value(place.saturating_add(1)));
        }
    }

    fn differs(&mut self, difference: Difference) {
        self.difference.get_or_insert(difference);
    }

    // The first difference, once every value has come. Where more are stored, each of them is compared with 0.
    pub fn difference(mut self) -> Option<Difference> {
        for place in self.compared..self.stored.count {
            self.compare(place, 0);
        }
        if self.compared < self.stored.count {
            self.differs(Difference::Count);
        }
        self.difference
    }

    fn floats(&mut self, xs: &[f64]) {
        for x in xs {
            self.value(f64_to_bits_with_nan(*x));
        }
    }

    // Four bytes in each value: in so few no sign of a zero is lost. Behind the last bytes zeros are read.
    pub fn words(&mut self, bytes: &[u8]) {
        for word in bytes.chunks(4) {
            self.value(u64::from(read_u32_be(word, 0)));
        }
    }

    pub fn state(&mut self, state: &State) {
        for temp in state.temps.iter().take(state.nodes) {
            self.value(f64_to_bits_with_nan(*temp));
        }
    }

    pub fn demand(&mut self, demand: &Demand) {
        self.floats(&[
            demand.space_heat_demand,
            demand.space_cool_demand,
            demand.ach_cooling,
        ]);
        let rate = demand.ach_to_trigger_heating;
        self.value(u64::from(rate.is_some()));
        self.value(f64_to_bits_with_nan(rate.unwrap_or(0.0)));
    }

    // Reasons are stored as 1 to 6, loads as 0 to 2: their numbers.
    pub fn reason(&mut self, reason: Reason, load: Load) {
        self.value(reason as u64);
        self.value(load as u64);
    }

    pub fn balance(&mut self, balance: &HeatBalance) {
        self.air_node(&balance.air_node);
        self.internal_boundary(&balance.internal_boundary);
        self.external_boundary(&balance.external_boundary);
    }

    fn air_node(&mut self, b: &HeatBalanceAirNode) {
        self.floats(&[
            b.solar_gains,
            b.internal_gains,
            b.heating_or_cooling_system_gains,
            b.energy_to_change_internal_temperature,
            b.thermal_bridges,
            b.infiltration_ventilation,
            b.fabric_heat_loss,
        ]);
    }

    fn internal_boundary(&mut self, b: &HeatBalanceInternalBoundary) {
        self.floats(&[
            b.fabric_int_air_convective,
            b.fabric_int_sol,
            b.fabric_int_int_gains,
            b.fabric_int_heat_cool,
            b.fabric_int_air_convective_horizontal,
            b.fabric_int_air_convective_upwards,
            b.fabric_int_air_convective_downwards,
        ]);
    }

    fn external_boundary(&mut self, b: &HeatBalanceExternalBoundary) {
        self.floats(&[
            b.solar_gains,
            b.internal_gains,
            b.heating_or_cooling_system_gains,
            b.thermal_bridges,
            b.infiltration_ventilation,
            b.fabric_ext_air_convective,
            b.fabric_ext_air_radiative,
            b.fabric_ext_sol,
            b.fabric_ext_sky,
            b.opaque_fabric_ext,
            b.transparent_fabric_ext,
            b.ground_fabric_ext,
            b.ztc_fabric_ext,
            b.ztu_fabric_ext,
        ]);
    }

    // What an accepted call on a book hands back.
    pub fn book_state(&mut self, book: &BookState) {
        self.value(book.count as u64);
        self.value(book.used as u64);
        self.value(book.last_version);
        self.state(&book.state);
    }

    // No value where no hour answers.
    pub fn hour(&mut self, hour: Option<usize>) {
        if let Some(hour) = hour {
            self.value(hour as u64);
        }
    }
}
