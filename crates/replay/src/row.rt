// A row of the refusals: a call, and the answer that the order of tests gives it (Specification, Order of tests). make_data.py has the layout in words.
use crate::comparison::Stored;
use crate::hour::Hour;
use crate::record::Record;
use crate::refusal::Refusal;
use crate::zone_calls;
use book::BookState;
use std::fmt;
use zone::Zone;

#[derive(Clone, Copy, Debug, PartialEq, Eq)]
pub enum Call {
    Demand,
    Update,
    StartUp,
    HourStep,
    Begin,
    Append,
    TakeUp,
    ReadHead,
    ZoneTest,
    FirstAbove,
    HoursWithin,
    NearestHour,
    Convert,
    Why,
}

impl Call {
    pub const ALL: [Call; 14] = [
        Call::Demand,
        Call::Update,
        Call::StartUp,
        Call::HourStep,
        Call::Begin,
        Call::Append,
        Call::TakeUp,
        Call::ReadHead,
        Call::ZoneTest,
        Call::FirstAbove,
        Call::HoursWithin,
        Call::NearestHour,
        Call::Convert,
        Call::Why,
    ];
}

// The file numbers them from 1 in the order of `ALL`; of what has another number the zone is tested.
impl From<u8> for Call {
    fn from(number: u8) -> Self {
        let call = Call::ALL.get(usize::from(number).wrapping_sub(1)).copied();
        call.unwrap_or(Call::ZoneTest)
    }
}

impl fmt::Display for Call {
    fn fmt<W: fmt::Write>(&self, f: &mut fmt::Formatter<W>) -> fmt::Result {
        f.pad(match self {
            Call::Demand => "demand",
            Call::Update => "update",
            Call::StartUp => "start-up",
            Call::HourStep => "hour step",
            Call::Begin => "begin",
            Call::Append => "append",
            Call::TakeUp => "take-up",
            Call::ReadHead => "read_head",
            Call::ZoneTest => "zone_test",
            Call::FirstAbove => "first_above",
            Call::HoursWithin => "hours_within",
            Call::NearestHour => "nearest_hour",
            Call::Convert => "convert",
            Call::Why => "why",
        })
    }
}

// The change that a row makes of a zone once its head is read.
#[derive(Clone, Copy, Debug, PartialEq, Eq)]
pub enum Change {
    Count(u16),
    FirstTreatments(u8),
    NoUsefulArea,
    NoSecondArea,
}

impl Change {
    // A column of the file and the one behind it: the numbers are the file's, any other stands for no change. Two changes take the
    // value, one of them its low byte.
    fn read(number: u8, value: u16) -> Option<Self> {
        match number {
            1 => Some(Change::Count(value)),
            2 => Some(Change::FirstTreatments((value % 256) as u8)),
            3 => Some(Change::NoUsefulArea),
            4 => Some(Change::NoSecondArea),
            _ => None,
        }
    }

    fn make(self, zone: &mut Zone) {
        match self {
            Change::Count(count) => zone.count = usize::from(count),
            Change::FirstTreatments(treatments) => zone.building_elements[0].treatments =
                usize::from(treatments),
            Change::NoUsefulArea => zone.useful_area = 0.0,
            Change::NoSecondArea => zone.building_elements[1].area = 0.0,
        }
    }
}

#[derive(Drop)]
pub struct Row<'a> {
    // As the file has it.
    pub call_number: u8,
    pub call: Call,
    // Of a take-up, a question and a conversion the whole book.
    pub head: &'a [u8],
    change: Option<Change>,
    pub hour: Hour<'a>,
    count: usize,
    used: usize,
    // The length of the buffer, or of the output.
    pub room: usize,
    pub version: u64,
    last_version: u64,
    // The values of an accepted call.
    pub answer: Result<Stored<'a>, Refusal>,
}

impl<'a> Row<'a> {
    pub fn read(bytes: &'a [u8]) -> Self {
        let mut record = Record::new(bytes);
        let call_number = record.take_u8();
        let number = u32::from(record.take_u8());
        let index = usize::from(record.take_u16());
        let head_length = record.take_u32() as usize;
        let head = record.take(head_length);
        let change = Change::read(record.take_u8(), record.take_u16());
        let nodes = usize::from(record.take_u16());
        let hour = Hour {
            nodes,
            ..Hour::read(&mut record)
        };
        let count = record.take_u32() as usize;
        let used = record.take_u32() as usize;
        let room = record.take_u32() as usize;
        let version = record.take_u64();
        let last_version = record.take_u64();
        let stored = Stored::read(record);
        // The data store acceptance as the number 0, with the index 0: with another no call answers so.
        let answer = if number == 0 && index == 0 {
            Ok(stored)
        } else {
            Err(Refusal { number, index })
        };
        Row {
            call_number,
            call: Call::from(call_number),
            head,
            change,
            hour,
            count,
            used,
            room,
            version,
            last_version,
            answer,
        }
    }

    // What a call on a book is given.
    pub fn book_state(&self) -> BookState {
        BookState {
            state: self.hour.state(),
            count: self.count,
            used: self.used,
            last_version: self.last_version,
        }
    }

    pub fn zone(&self) -> Result<Zone, zone::Refusal> {
        let mut zone = zone_calls::read(self.head)?;
        if let Some(change) = self.change {
            change.make(&mut zone);
        }
        Ok(zone)
    }
}
