// Calls of a session, as the contracts of three functions: whatever `begin`, `append` and `take_up` are given they may be called, and what they return and
// leave in the lent buffer is what a session has of their calls, of which the claim about whole lists of calls speaks. No program calls these functions.
ghost use Rattle.book.specs.Model.InSession.{BeginInSession, AppendInSession, TakeUpInSession, CutInSession};
ghost use Rattle.book.specs.Year.{hour_item, year_interface};
ghost use Rattle.book.specs.Answers.{rust_types};

use crate::book::{BookState, Reply, append, begin};
use crate::entries::take_up;
use zone::{Limits, Zone};

pub fn begin_in_session(given: BookState, head: &[u8], buf: &mut [u8]) -> Reply
    ensures { BeginInSession year_interface rust_types head.now buf.old given result buf.new }
{
    begin(given, head, buf)
}

pub fn append_in_session(
    z: &Zone,
    given: BookState,
    conditions: &[u8],
    version: u64,
    limits: Limits,
    buf: &mut [u8],
) -> Reply
    ensures { AppendInSession year_interface rust_types z.now (hour_item version conditions.now limits) buf.old given result buf.new }
{
    append(z, given, conditions, version, limits, buf)
}

pub fn take_up_in_session(given: BookState, bytes: &[u8]) -> Reply
    ensures taken_up { TakeUpInSession year_interface rust_types bytes.now given result }
    ensures cut { CutInSession year_interface rust_types bytes.now given result }
{
    take_up(given, bytes)
}
