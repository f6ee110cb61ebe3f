// Hours with the fixed rate, code 0, among the cases. Calls refuse them, `why`, take-up and the converter take them: each is
// laid beside the same hour with the rate twice, whose answer is the oracle's.
use crate::book_calls::{self, FILLED, is_filled};
use crate::case::Case;
use crate::comparison::{Comparison, Difference, Stored};
use crate::counts::Differences;
use crate::failure::Failure;
use crate::hour::Hour;
use crate::rate_twice::put_fixed_rate;
use crate::refusal::Refusal;
use crate::same::same_book_state;
use crate::zone_calls;
use book::{BookState, Reply};
use zone::{State, Zone};

// The longest head, and the longest entry.
const BOOK: usize = 4161 + 2119;

// What a call answers to the fixed rate.
const RETIRED: Refusal = Refusal {
    number: 8,
    index: 0,
};

// What the converter answers to an entry of version 1.
const VERSION_1: Refusal = Refusal {
    number: 24,
    index: 0,
};

// What differed, call by call.
#[derive(Default, Drop)]
pub struct FixedRateTally {
    pub calls: Differences,
    pub whys: Differences,
    pub appends: Differences,
    pub take_ups: Differences,
    pub conversions: Differences,
    pub of_version_1: Differences,
}

// What came where a refusal was wanted.
fn other_than(wanted: Refusal, answer: Result<(), Failure>) -> Option<Difference> {
    match answer {
        Ok(()) => Some(Difference::Accepted),
        Err(Failure::Refused(refusal)) if refusal == wanted => None,
        Err(failure) => Some(Difference::Number(failure.number())),
    }
}

// Of demand, update and the hour step of each version.
fn calls(zone: &Zone, hour: &Hour<'_>) -> Option<Difference> {
    let mut unseen = Comparison::new(Stored::none());
    let answers = [
        zone_calls::demand(zone, hour).map(|_| ()),
        zone_calls::update(zone, hour, &mut unseen),
        zone_calls::hour_step(zone, hour, 1, hour.limits(), &mut unseen),
        zone_calls::hour_step(zone, hour, 2, hour.limits(), &mut unseen),
        zone_calls::hour_step(zone, hour, 3, hour.limits(), &mut unseen),
    ];
    answers
        .into_iter()
        .find_map(|answer| other_than(RETIRED, answer))
}

// Reason and load, or the refusal, are those of the rate twice.
fn why(zone: &Zone, hour: &Hour<'_>, twice: &[u8]) -> Option<Difference> {
    let state = hour.state();
    if state.why(zone, hour.conditions) == state.why(zone, twice) {
        None
    } else {
        Some(Difference::Otherwise)
    }
}

fn nothing_held() -> BookState {
    BookState {
        state: State {
            nodes: 0,
            temps: [0.0; 121],
        },
        count: 0,
        used: 0,
        last_version: 0,
    }
}

// None where start-up refuses the head.
fn begun(head: &[u8], bytes: &mut [u8]) -> Option<BookState> {
    let reply = book::begin(nothing_held(), head, bytes);
    reply.answer.ok().map(|()| reply.values)
}

fn append(
    zone: &Zone,
    case: &Case<'_>,
    begun: BookState,
    conditions: &[u8],
    bytes: &mut [u8],
) -> Reply {
    let (version, limits) = case.rule();
    book::append(zone, begun, conditions, version, limits, bytes)
}

// A book is taken up, with the values that the append of the rate twice handed back.
fn take_up(bytes: &[u8], end: &BookState) -> Option<Difference> {
    let reply = book::take_up(nothing_held(), bytes);
    match reply.answer {
        Ok(()) if same_book_state(&reply.values, end) => None,
        Ok(()) => Some(Difference::Otherwise),
        Err(error) => Some(Difference::Number(error.number())),
    }
}

// A book becomes that with the rate twice; bytes behind it stay.
fn convert(bytes: &[u8], twice: &[u8]) -> Option<Difference> {
    let mut out = [FILLED; BOOK];
    match tools::convert(bytes, &mut out) {
        Err(error) => Some(Difference::Number(error.number())),
        Ok(converted) => {
            let (book, behind) = out.split_at(BOOK.min(converted.used));
            let right = converted.count == 1 && converted.used == twice.len() && book == twice;
            if right && is_filled(behind) {
                None
            } else {
                Some(Difference::Otherwise)
            }
        }
    }
}

// A book with an entry of version 1 is not converted.
fn convert_version_1(bytes: &[u8]) -> Option<Difference> {
    let mut out = [FILLED; BOOK];
    let answer = tools::convert(bytes, &mut out);
    if is_filled(&out) {
        other_than(VERSION_1, answer.map(|_| ()).map_err(Failure::from))
    } else {
        Some(Difference::Otherwise)
    }
}

impl FixedRateTally {
    // A book of one hour: `twice` has the rate twice, `fixed` are the same bytes with the fixed rate.
    fn count_book(&mut self, case: &Case<'_>, end: &BookState, twice: &[u8], fixed: &[u8]) {
        self.take_ups.count(take_up(fixed, end));
        let (version, _) = case.rule();
        if version == 1 {
            self.of_version_1.count(convert_version_1(fixed));
        } else {
            self.conversions.count(convert(fixed, twice));
        }
    }

    // An append refuses the hour; with the rate twice it may be accepted.
    fn count_append(
        &mut self,
        zone: &Zone,
        case: &Case<'_>,
        begun: BookState,
        twice: &[u8],
        bytes: &mut [u8; BOOK],
    ) {
        let refused = append(zone, case, begun, case.hour.conditions, bytes);
        let behind = bytes.get(begun.used..).unwrap_or(&[]);
        let answer = book_calls::accepted(&begun, &refused, behind).map(|_| ());
        self.appends.count(other_than(RETIRED, answer));
        let accepted = append(zone, case, begun, twice, bytes);
        let end = accepted.values;
        let mut fixed = *bytes;
        if let Some(entry) = fixed.get_mut(begun.used..) {
            put_fixed_rate(entry);
        }
        if accepted.answer.is_ok()
            && let (Some(twice), Some(fixed)) = (bytes.get(..end.used), fixed.get(..end.used))
        {
            self.count_book(case, &end, twice, fixed);
        }
    }

    // An hour with the fixed rate, whose conditions with the rate twice are `twice`.
    pub fn count(&mut self, case: &Case<'_>, twice: &[u8]) {
        let zone = match zone_calls::read(case.head) {
            Ok(zone) => zone,
            Err(refusal) => return self.calls.count(Some(Difference::Number(refusal.number()))),
        };
        self.calls.count(calls(&zone, &case.hour));
        self.whys.count(why(&zone, &case.hour, twice));
        let mut bytes = [FILLED; BOOK];
        if let Some(begun) = begun(case.head, &mut bytes) {
            self.count_append(&zone, case, begun, twice, &mut bytes);
        }
    }
}
