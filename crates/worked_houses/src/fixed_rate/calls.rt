// What every call answers of one hour, and whether one that refuses it leaves what it was given.
use crate::chilled_ceiling::differing::{differing, unlike_anywhere};
use crate::limits::Meeting;
use crate::refusal::{Answer, Refusal};
use crate::table::row;
use crate::why::answers::{Because, why};
use crate::zone_read::ZoneRead;
use book::BookState;
use std::io;
use zone::State;

// More than the head and an entry of any of these houses.
const ROOM: usize = 2048;

// An hour in bytes, with the state before it and how it is met.
#[derive(Clone, Copy)]
pub struct Offered<'a> {
    pub zone: &'a ZoneRead<'a>,
    pub before: State,
    pub conditions: &'a [u8],
    pub meeting: Meeting,
}

// A call's answer, and in how many bytes what it was given is another afterwards.
#[derive(Clone, Copy)]
struct Called {
    answer: Result<(), Refusal>,
    changed: usize,
}

impl Offered<'_> {
    fn demand(&self) -> Result<(), Refusal> {
        self.zone.demand(self.before, self.conditions).map(|_| ())
    }

    // Of nothing, at no rate.
    fn update(&self) -> Result<(), Refusal> {
        self.zone
            .update(self.before, self.conditions, 0.0, 0.0, 0.0)
            .map(|_| ())
    }

    fn hour_step(&self) -> Called {
        let step = self
            .zone
            .hour_step(self.before, self.conditions, self.meeting);
        Called {
            answer: step.answer.map(|_| ()).map_err(Refusal::from),
            changed: unlike_anywhere(step.state, self.before),
        }
    }

    // Behind the head of a book whose state this is.
    fn append(&self) -> Called {
        let given = BookState {
            state: self.before,
            count: 0,
            used: self.zone.length,
            last_version: 1,
        };
        let before = [0; ROOM];
        let mut book = before;
        let reply = self
            .zone
            .append(given, self.conditions, self.meeting, &mut book);
        let changed = unlike_anywhere(reply.values.state, given.state);
        Called {
            answer: reply.answer.map_err(Refusal::from),
            changed: changed.saturating_add(differing(&book, &before)),
        }
    }

    // What the four calls answer, and that a refused one changes nothing; and why the hour is what it is.
    pub fn print(
        &self,
        rt: &impl Print,
        title: &str,
        expected: Result<(), Refusal>,
        reason: Result<Because, Refusal>,
    ) -> io::Result<()> {
        println!(rt; "{title}")?;
        let step = self.hour_step();
        let append = self.append();
        for (asked, came) in [
            ("  demand", self.demand()),
            ("  update", self.update()),
            ("  hour step", step.answer),
            ("  append", append.answer),
        ] {
            let came = came.map(|()| "accepted");
            let expected = expected.map(|()| "accepted");
            row(rt, asked, Answer(came), Answer(expected))?;
        }
        if expected.is_err() {
            let changed = step.changed.saturating_add(append.changed);
            row(rt, "  bytes changed", changed, 0)?;
        }
        why(
            rt,
            "  reason",
            self.zone,
            self.before,
            self.conditions,
            reason,
        )
    }
}
