// A book of old hours cut at a byte: taken up, asked, and continued. The hour that the cut lost is refused as it was, and taken with target
// and windows open both its rate.
use crate::expected::is_answered;
use crate::old_book::{HOURS, OldBook, ROOM, append_rest, is_old, old_conditions_of};
use crate::questions::{Question, temperatures};
use big_endian::put_bytes;
use book::{BookError, BookState};
use house_books::{CUT_OFF, HEAD, Tally, is_refused, limits_at, same_book_states, taken_up};
use zone::Refusal;

// Start-up's temperature and the hours'.
const TEMPERATURES: usize = HOURS + 1;

impl OldBook<'_> {
    // Where the next hour had the fixed rate it is refused with 8, and nothing is changed.
    fn refuses_next(&self, taken: BookState, b: &mut [u8; ROOM]) -> bool {
        let hour = taken.count;
        if HOURS <= hour || !is_old(hour) {
            return true;
        }
        let before = *b;
        let version = u64::from(self.plan.version_at(hour));
        let reply = self.house.append_hour(
            taken,
            &old_conditions_of(hour),
            version,
            limits_at(hour),
            b,
        );
        *b == before && is_refused(reply, &taken, BookError::Zone(Refusal::ConditionsCode))
    }

    // The hours that are left as they were, and behind them those of now.
    fn is_filled_to_end(&self, taken: BookState, b: &mut [u8; ROOM]) -> bool {
        let mut wanted = self.anew;
        let left = self.old.get(..self.plan.place_of(taken.count));
        put_bytes(&mut wanted, 0, left.unwrap_or(&[]));
        let end = append_rest(self.house, taken, self.plan, b);
        *b == wanted && end.is_some_and(|end| same_book_states(&end, &self.end))
    }

    fn is_continued(&self, cut: usize) -> bool {
        let Some(left) = self.old.get(..cut) else {
            return false;
        };
        let entries = self.plan.entries(self.plan.whole_before(cut));
        let mut b = [CUT_OFF; ROOM];
        put_bytes(&mut b, 0, left);
        let answered = is_answered(left, Ok(entries));
        answered
            && taken_up(left).is_some_and(|taken| {
                self.refuses_next(taken, &mut b) && self.is_filled_to_end(taken, &mut b)
            })
    }

    pub fn check_cuts(&self) -> Tally {
        Tally::of(
            HEAD..self.used().saturating_add(1),
            |cut| self.is_continued(cut),
        )
    }

    // The place of the cut says which two temperatures are asked for.
    fn is_answered_at(&self, cut: usize, temperatures: &[f64; TEMPERATURES]) -> bool {
        let a = temperatures[cut % TEMPERATURES];
        let b = temperatures[cut / TEMPERATURES % TEMPERATURES];
        let question = Question::by(a, b, cut % 2 == 0);
        let count = self
            .plan
            .whole_before(cut)
            .saturating_add(1)
            .min(TEMPERATURES);
        let left = self.old.get(..cut).unwrap_or(&[]);
        question.is_answered_as_walked(left, &temperatures[..count])
    }

    // Of the book of the same hours of now they are the temperatures.
    pub fn check_questions(&self) -> Tally {
        let temperatures = temperatures::<TEMPERATURES>(self.house, &self.anew, self.plan);
        match temperatures {
            Some(temperatures) => Tally::of(HEAD..self.used().saturating_add(1), |cut| {
                self.is_answered_at(cut, &temperatures)
            }),
            None => Tally { all: 1, right: 0 },
        }
    }
}
