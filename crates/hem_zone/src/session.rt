// Calls of a session, as the contracts of three functions: whatever `hem_begin`, `hem_append` and `hem_take_up` are given they may be called, and what they
// return and leave in what they were lent is what a session has of their calls, of which the claim about whole lists of calls speaks. No program calls these
// functions.
ghost use Rattle.book.specs.Model.InSession.{BeginInSession, TakeUpInSession, CutInSession};
ghost use Rattle.book.specs.Year.{hour_item, year_interface};
ghost use Rattle.hem_zone.specs.Arrays.{limits_of};
ghost use Rattle.hem_zone.specs.Book.{c_book_state};
ghost use Rattle.hem_zone.specs.BookTypes.{c_types};
ghost use Rattle.hem_zone.specs.InSession.{AppendInSession};

use crate::book_calls::{hem_append, hem_begin, hem_take_up};

pub fn begin_in_session(
    head: &[u8],
    buf: &mut [u8],
    temps: &mut [f64; 121],
    nodes: &mut u64,
    count: &mut u64,
    used: &mut u64,
    last_version: &mut u64,
) -> u32
    ensures { BeginInSession year_interface c_types head.now buf.old (c_book_state temps.old nodes.old count.old used.old last_version.old)
        (result, c_book_state temps.new nodes.new count.new used.new last_version.new) buf.new }
{
    hem_begin(head, buf, temps, nodes, count, used, last_version)
}

pub fn append_in_session(
    head: &[u8],
    buf: &mut [u8],
    temps: &mut [f64; 121],
    nodes: &mut u64,
    count: &mut u64,
    used: &mut u64,
    last_version: &mut u64,
    conditions: &[u8],
    version: u64,
    heating_limit: f64,
    cooling_limit: f64,
) -> u32
    ensures { AppendInSession head.now (hour_item version conditions.now (limits_of heating_limit cooling_limit)) buf.old
        (c_book_state temps.old nodes.old count.old used.old last_version.old)
        (result, c_book_state temps.new nodes.new count.new used.new last_version.new) buf.new }
{
    hem_append(
        head,
        buf,
        temps,
        nodes,
        count,
        used,
        last_version,
        conditions,
        version,
        heating_limit,
        cooling_limit,
    )
}

pub fn take_up_in_session(
    bytes: &[u8],
    temps: &mut [f64; 121],
    nodes: &mut u64,
    count: &mut u64,
    used: &mut u64,
    last_version: &mut u64,
) -> u32
    ensures taken_up { TakeUpInSession year_interface c_types bytes.now (c_book_state temps.old nodes.old count.old used.old last_version.old)
        (result, c_book_state temps.new nodes.new count.new used.new last_version.new) }
    ensures cut { CutInSession year_interface c_types bytes.now (c_book_state temps.old nodes.old count.old used.old last_version.old)
        (result, c_book_state temps.new nodes.new count.new used.new last_version.new) }
{
    hem_take_up(bytes, temps, nodes, count, used, last_version)
}
