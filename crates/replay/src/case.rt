// A case: what the oracle was asked, and its answer. make_data.py has the layout in words.
use crate::comparison::Stored;
use crate::hour::Hour;
use crate::record::Record;
use std::fmt;
use zone::Limits;

// What an hour of an earlier version is given, where limits are neither tested nor used: out of range, and each power
// would be beyond one of them.
const NO_LIMITS: Limits = Limits {
    heating: -1.0,
    cooling: -1.0,
};

#[derive(Clone, Copy, Debug, PartialEq, Eq)]
pub enum Profile {
    House,
    Mild,
    Edge,
    Tight,
}

// The file numbers them from 0 in the order of `ALL`.
impl Profile {
    pub const ALL: [Profile; 4] = [Profile::House, Profile::Mild, Profile::Edge, Profile::Tight];
}

impl fmt::Display for Profile {
    fn fmt<W: fmt::Write>(&self, f: &mut fmt::Formatter<W>) -> fmt::Result {
        f.pad(match self {
            Profile::House => "house",
            Profile::Mild => "mild",
            Profile::Edge => "edge",
            Profile::Tight => "tight",
        })
    }
}

// The hour step counts three times, once for each version: as the file numbers them, and the summary has a line for each.
#[derive(Clone, Copy, Debug, PartialEq, Eq)]
pub enum Operation {
    Demand,
    Update,
    StartUp,
    HourStep1,
    HourStep2,
    HourStep3,
}

impl Operation {
    pub const ALL: [Operation; 6] = [
        Operation::Demand,
        Operation::Update,
        Operation::StartUp,
        Operation::HourStep1,
        Operation::HourStep2,
        Operation::HourStep3,
    ];
}

// The file numbers them from 1 in the order of `ALL`; what has another number is run as the last.
impl From<u8> for Operation {
    fn from(number: u8) -> Self {
        let operation = Operation::ALL
            .get(usize::from(number).wrapping_sub(1))
            .copied();
        operation.unwrap_or(Operation::HourStep3)
    }
}

impl fmt::Display for Operation {
    fn fmt<W: fmt::Write>(&self, f: &mut fmt::Formatter<W>) -> fmt::Result {
        f.pad(match self {
            Operation::Demand => "demand",
            Operation::Update => "update",
            Operation::StartUp => "start-up",
            Operation::HourStep1 => "hour step, version 1",
            Operation::HourStep2 => "hour step, version 2",
            Operation::HourStep3 => "hour step, version 3",
        })
    }
}

// The line of the summary in which a case counts, from 1: profile by profile, operation by operation, by their numbers. There is
// none of 0, which a profile has that is not listed, and none beyond the last.
fn line_of(profile: u8, operation: u8) -> usize {
    let profile = usize::from(profile);
    if profile < Profile::ALL.len() {
        profile * Operation::ALL.len() + usize::from(operation)
    } else {
        0
    }
}

#[derive(Drop)]
pub struct Case<'a> {
    pub line: usize,
    pub operation: Operation,
    pub head: &'a [u8],
    pub hour: Hour<'a>,
    // The values, or the number of the refusal: the file holds no more of one, and any number may stand there. It is compared with
    // the engine's error's `number()`.
    pub answer: Result<Stored<'a>, u32>,
}

impl<'a> Case<'a> {
    pub fn read(bytes: &'a [u8]) -> Self {
        let mut record = Record::new(bytes);
        let profile = record.take_u8();
        let operation = record.take_u8();
        let number = record.take_u8();
        let head = record.take_counted();
        let hour = Hour::read(&mut record);
        let stored = Stored::read(record);
        // The data store acceptance as the number 0.
        let answer = if number == 0 {
            Ok(stored)
        } else {
            Err(u32::from(number))
        };
        Case {
            line: line_of(profile, operation),
            operation: Operation::from(operation),
            head,
            hour,
            answer,
        }
    }

    // The entry version of the hour, and its limits. An hour step names them; as an entry a demand's hour is version 2's, which
    // the converter takes, and an update's version 1's.
    pub fn rule(&self) -> (u64, Limits) {
        match self.operation {
            Operation::Demand | Operation::HourStep2 => (2, NO_LIMITS),
            Operation::HourStep3 => (3, self.hour.limits()),
            Operation::Update | Operation::StartUp | Operation::HourStep1 => (1, NO_LIMITS),
        }
    }
}
