// Take-up: the entries of a book, one after the other.
ghost use Rattle.std.specs.Prelude.{◌≡◌, ◌≤◌, length, drop, OnErr};
ghost use Rattle.zone.specs.Promise.{ok};
ghost use Rattle.zone.specs.Check.ZoneTest.{zone_test};
ghost use Rattle.zone.specs.Inner.Head.{structured_head, head_read};
ghost use Rattle.zone.specs.Record.BuildingElement.{standard_coefficients};
ghost use Rattle.book.specs.Model.Calls as Book;
ghost use Rattle.book.specs.Year.{carried, no_entry_version, year_interface};
ghost use Rattle.book.specs.Answers.{given_of, answer_of};
ghost use Rattle.book.specs.Inner.Answers.{values_in};
ghost use Rattle.book.specs.Inner.Reader.{start_in};

use crate::book::{BookState, Reply, no_entries, replied};
use crate::book_error::BookError;
use crate::checked_entry::check_entry;
use crate::entry::EntryLayout;
use crate::layout::MOST_ENTRIES;
use crate::record::Records;
use zone::{HourlyCalculation, Refusal, State, Zone, read_head};

// The whole entries behind the head, in order, against the hour steps, of a zone that passes its test. The head's length is handed over beside
// the bytes, and not the bytes behind it alone: it is the first used length, too.
#[tactic(auto, using(crate::proofs::TakeUp::check_end, zone::proofs::Promise::tested_few))]
fn check_entries(
    calculation: &mut HourlyCalculation<'_>,
    start: State,
    head_length: usize,
    bytes: &[u8],
) -> Result<BookState, BookError>
    requires tested { zone_test calculation.old.zone.now ≡ ok tt }
    requires standard { calculation.old.coefficients ≡ standard_coefficients }
    requires inside { head_length ≤ length bytes.now }
    ensures { values_in result
        ≡ Book.check_entries year_interface calculation.old.zone.now 0 (carried start no_entry_version) head_length
        (Book.whole_entries year_interface calculation.old.zone.now (drop head_length bytes.now)) }
{
    let mut book = no_entries(start, head_length);
    let records = Records {
        layout: EntryLayout {
            zone: calculation.zone,
        },
        rest: &bytes[head_length..],
    };
    for entry in records {
        if MOST_ENTRIES <= book.count {
            return Err(BookError::BookFull);
        }
        let checked = check_entry(calculation, &book, entry)?;
        book = BookState {
            state: checked.state,
            count: book.count + 1,
            used: book.used + entry.len(),
            last_version: checked.version,
        };
    }
    Ok(book)
}

// A book that is read: the length of its head, and the values behind its entries. Each is a Result of its own, since the head's length is told also where
// what follows is refused.
#[derive(Clone, Copy)]
pub struct ReadBook {
    pub head: Result<usize, Refusal>,
    pub values: Result<BookState, BookError>,
}

// Start-up, whose state goes to the one that is lent, and the entries of a book with a head of so many bytes.
#[tactic(auto, using(crate::proofs::TakeUp::start_cases))]
fn start_and_check(
    zone: &Zone,
    head_length: usize,
    bytes: &[u8],
    start: &mut State,
) -> Result<BookState, BookError>
    requires { structured_head bytes.now ≡ ok (record { zone = zone.now; length = head_length }) }
    ensures start { start.new ≡ start_in start.old bytes.now }
    ensures values { values_in result ≡ Book.take_up_res year_interface bytes.now }
{
    let mut calculation = HourlyCalculation::of(zone);
    let state = calculation.start_up()?;
    *start = state;
    check_entries(&mut calculation, state, head_length, bytes)
}

// A book in bytes, with what a tool reads it by: its head's zone and the state of its start-up go into those that are lent, also where what follows is
// refused.
#[tactic(auto, using(crate::proofs::TakeUp::head_cases))]
pub fn read_book(bytes: &[u8], zone: &mut Zone, start: &mut State) -> ReadBook
    ensures head { head_read result.head zone.new ≡ structured_head bytes.now }
    ensures refused { OnErr result.head (zone.new ≡ zone.old) }
    ensures start { start.new ≡ start_in start.old bytes.now }
    ensures values { values_in result.values ≡ Book.take_up_res year_interface bytes.now }
{
    let head = read_head(bytes, zone);
    let values = match head {
        Err(e) => Err(e.into()),
        Ok(length) => start_and_check(zone, length, bytes, start),
    };
    ReadBook { head, values }
}

// A book in bytes: its head, and whole entries that are what the hour step gives. What is handed back of it.
#[tactic(auto, using(crate::proofs::TakeUp::take_up_told))]
pub fn take_up(given: BookState, bytes: &[u8]) -> Reply
    ensures { answer_of result ≡ Book.take_up year_interface (given_of given) bytes.now }
{
    let mut zone = Zone::none();
    let mut start = given.state;
    let book = read_book(bytes, &mut zone, &mut start);
    replied(given, book.values)
}
