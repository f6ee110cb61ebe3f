// The whole year asked the three questions, a short rest behind it.
use crate::questions::{Question, temperatures};
use house_books::year::{PLAN, USED, Year};
use house_books::{LENGTH, Mark, Tally, YEAR};
use std::io;

// Start-up's temperature and the hours'.
const TEMPERATURES: usize = YEAR + 1;

// How far apart the temperatures lie that are asked for.
const STEP: usize = 732;

fn check_questions(bytes: &[u8], temperatures: &[f64; TEMPERATURES]) -> Tally {
    let mut tally = Tally::default();
    let mut before = temperatures[YEAR];
    for temperature in temperatures.iter().step_by(STEP) {
        for between in [false, true] {
            let question = Question::by(*temperature, before, between);
            tally.count(question.is_answered_as_walked(bytes, temperatures));
        }
        before = *temperature;
    }
    tally
}

pub fn print_questions(rt: &impl Print, year: &Year) -> io::Result<()> {
    let temperatures = temperatures::<TEMPERATURES>(year.house, &year.bytes, PLAN);
    let bytes = year.bytes.get(..USED + LENGTH);
    let (Some(temperatures), Some(bytes)) = (temperatures, bytes) else {
        return println!(rt; "the operative temperatures of the year: {}", Mark(false));
    };
    println!(rt;
        "the three questions of the year, answered as by a walk over the hours: {}",
        check_questions(bytes, &temperatures)
    )
}
