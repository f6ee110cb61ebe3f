// A small book cut at a byte, taken up and continued, against a book that was never cut.
ghost use Rattle.std.specs.Prelude.{◌^◌, ◌<◌, ◌≤◌};
ghost use Rattle.std.specs.Iterator.{IsFinite};

use crate::small_book::{Book, HOURS, ROOM};
use big_endian::put_bytes;
use book::{BookError, BookState};
use house_books::{
    CUT_OFF, HEAD, SPREAD, Tally, Version, append_hours, has_entries, is_refused,
    is_take_up_refused, same_book_states, taken_up,
};
use std::iter::StepBy;
use std::ops::Range;
use zone::Refusal;

// Cuts that are spread over so many bytes behind the head.
pub fn spread(bytes: usize) -> StepBy<Range<usize>>
    requires reaches { SPREAD ≤ bytes }
    requires fits { bytes < 2 ^ 63 }
{
    let step = bytes / SPREAD;
    (HEAD..HEAD + SPREAD * step).step_by(step)
}

// The small book `whole` is cut and continued in the versions of `wanted`, which it becomes; but an hour that would pass back to an
// older version is refused.
#[derive(Clone, Copy)]
pub struct Continuation<'a> {
    pub whole: &'a Book<'a>,
    pub wanted: &'a Book<'a>,
}

impl Continuation<'_> {
    pub fn tally_at<I: Iterator<Item = usize> + Drop>(&self, cuts: I) -> Tally
        requires can { I.can_next cuts }
        requires ends { IsFinite (I.remaining cuts) }
    {
        Tally::of(cuts, |cut| self.is_right_at(cut))
    }

    fn is_right_at(&self, cut: usize) -> bool {
        let Some(left) = self.whole.bytes.get(..cut) else {
            return false;
        };
        // Within the head nothing is taken up.
        if cut < HEAD {
            return is_take_up_refused(left, BookError::Zone(Refusal::HeadShort));
        }
        let mut b = [CUT_OFF; ROOM];
        put_bytes(&mut b, 0, left);
        let entries = self.whole.plan.entries(self.whole.plan.whole_before(cut));
        taken_up(left)
            .filter(|taken| has_entries(taken, entries))
            .is_some_and(|taken| self.is_continued(taken, &mut b))
    }

    fn is_continued(&self, taken: BookState, b: &mut [u8; ROOM]) -> bool {
        let version = self.wanted.plan.version_at(taken.count);
        if u64::from(version) < taken.last_version {
            self.is_refused_behind(taken, version, b)
        } else {
            self.is_filled_to_end(taken, b)
        }
    }

    // An entry of a newer version is left: this one is refused, and nothing is changed.
    fn is_refused_behind(&self, taken: BookState, version: Version, b: &mut [u8; ROOM]) -> bool {
        let before = *b;
        let reply = self.whole.house.append(taken, u64::from(version), b);
        *b == before
            && is_refused(
                reply,
                &taken,
                BookError::Zone(Refusal::FalseEntry(taken.count)),
            )
    }

    // The wanted book, which ends so, and nothing behind it.
    fn is_filled_to_end(&self, taken: BookState, b: &mut [u8; ROOM]) -> bool {
        let end = append_hours(self.whole.house, taken, HOURS, self.wanted.plan, b);
        let same = *b == self.wanted.bytes;
        same && end.is_some_and(|end| same_book_states(&end, &self.wanted.end))
    }
}
