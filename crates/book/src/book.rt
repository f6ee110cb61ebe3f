// Begin and append.
// Specification, Append; Lists of calls.
ghost use Rattle.std.specs.Prelude.{◌≡◌, ◌+◌, leb, OnErr};
ghost use Rattle.book.specs.Model.Calls as Book;
ghost use Rattle.book.specs.Model.Session.{CallSpec};
ghost use Rattle.book.specs.Year.{carried, no_entry_version, hour_item, year_interface};
ghost use Rattle.book.specs.Answers.{given_of, answer_of, rust_types};
ghost use Rattle.book.specs.Inner.Answers.{values_in, written};

use crate::book_error::{BookError, false_entry};
use crate::bytes::put;
use crate::entry::{Entry, EntryLayout, limits_bytes, limits_length};
use crate::layout::MOST_ENTRIES;
use crate::versions::{NO_ENTRY_VERSION, may_follow};
use zone::{FixedRate, Limits, State, Zone, init_node_temps, read_head, zone_test};

// What a call is given and hands back: the node temperatures, the count of entries, the used length and the version of the last entry, 1 where there is
// none.
#[derive(Clone, Copy)]
pub struct BookState {
    pub state: State,
    pub count: usize,
    pub used: usize,
    pub last_version: u64, // a number: versions have an order, and a caller may name any
}

// Acceptance, or number and index, with the values handed back, the new ones, or those that were given.
#[derive(Clone, Copy)]
pub struct Reply {
    pub answer: Result<(), BookError>,
    pub values: BookState,
}

// The reply of a call that gives new values, or is refused.
pub fn replied(given: BookState, called: Result<BookState, BookError>) -> Reply
    ensures { answer_of result ≡ Book.answer_from (given_of given) (values_in called) }
{
    match called {
        Ok(values) => Reply {
            answer: Ok(()),
            values,
        },
        Err(e) => Reply {
            answer: Err(e),
            values: given,
        },
    }
}

// The values of a book with no entries: start-up's state, and the length of the head.
pub fn no_entries(state: State, head_length: usize) -> BookState
    ensures { given_of result ≡ record { state = carried state no_entry_version; count = 0; used = head_length } }
{
    BookState {
        state,
        count: 0,
        used: head_length,
        last_version: NO_ENTRY_VERSION,
    }
}

// A book with no entries: the head's bytes into the buffer. The values of it.
#[tactic(auto, using(crate::proofs::Calls::begin_no_head, crate::proofs::Calls::begin_no_start, crate::proofs::Calls::begin_inside))]
fn begun(head: &[u8], buf: &mut [u8]) -> Result<BookState, BookError>
    ensures begun { written result buf.new ≡ Book.begin_res year_interface head.now buf.old }
    ensures kept { OnErr result (buf.new ≡ buf.old) }
{
    let mut zone = Zone::none();
    let n = read_head(head, &mut zone)?;
    let state = init_node_temps(&zone)?;
    if buf.len() < n {
        return Err(BookError::BufferShort);
    }
    put(&head[..n], buf);
    Ok(no_entries(state, n))
}

#[tactic(auto, using(crate::proofs::Calls::begin_told))]
pub fn begin(given: BookState, head: &[u8], buf: &mut [u8]) -> Reply
    ensures { CallSpec year_interface rust_types result buf.new (Book.begin year_interface head.now (given_of given) buf.old) }
{
    let called = begun(head, buf);
    replied(given, called)
}

// Is there room for so many bytes behind the used ones. `used` may be any number.
fn has_room(used: usize, length: usize, room: usize) -> bool
    ensures { result ≡ leb (used + length) room }
{
    used.checked_add(length).is_some_and(|end| end <= room)
}

// An hour's entry behind the used bytes, and the values with it. The entry's bytes are written once all tests are passed.
#[tactic(auto, using(crate::proofs::Calls::append_cases, zone::proofs::Promise::tested_few))]
fn appended(
    z: &Zone,
    given: &BookState,
    conditions: &[u8],
    version: u64,
    limits: Limits,
    buf: &mut [u8],
) -> Result<BookState, BookError>
    ensures appended { written result buf.new
        ≡ Book.append_res year_interface z.now (given_of given.now) (hour_item version conditions.now limits) buf.old }
    ensures kept { OnErr result (buf.new ≡ buf.old) }
{
    zone_test(z)?;
    if MOST_ENTRIES <= given.count {
        return Err(BookError::BookFull);
    }
    if !may_follow(given.last_version, version) {
        return Err(false_entry(given.count));
    }
    let hour = given
        .state
        .next_hour(FixedRate::Retired, z, conditions, version, limits);
    let demand = hour.answer?;
    let layout = EntryLayout { zone: z };
    let length = layout.whole_length(version);
    if !has_room(given.used, length, buf.len()) {
        return Err(BookError::BufferShort);
    }
    let bytes = limits_bytes(limits);
    let entry = Entry {
        version,
        conditions,
        limits: &bytes[..limits_length(version)],
        demand,
        after: &hour.state,
    };
    layout.put_entry(&entry, &mut buf[given.used..]);
    Ok(BookState {
        state: hour.state,
        count: given.count + 1,
        used: given.used + length,
        last_version: version,
    })
}

// An hour's entry behind the used bytes, of the version that is named; the limits stand in it where the version has them.
#[tactic(auto, using(crate::proofs::Calls::append_told))]
pub fn append(
    z: &Zone,
    given: BookState,
    conditions: &[u8],
    version: u64,
    limits: Limits,
    buf: &mut [u8],
) -> Reply
    ensures { CallSpec year_interface rust_types result buf.new
        (Book.append year_interface z.now (given_of given) (hour_item version conditions.now limits) buf.old) }
{
    let called = appended(z, &given, conditions, version, limits, buf);
    replied(given, called)
}
