// One entry of a book against the hour that it holds.
ghost use Rattle.std.specs.Prelude.{◌≡◌, true, length};
ghost use Rattle.std.proofs.Math.Option.{some};
ghost use Rattle.zone.specs.Promise.{ok};
ghost use Rattle.zone.specs.Check.ZoneTest.{zone_test};
ghost use Rattle.zone.specs.declared.format.conditions.FixedRate.TheVariants.{StillTaken};
ghost use Rattle.zone.specs.Record.BuildingElement.{standard_coefficients};
ghost use Rattle.book.specs.Model.Calls as Book;
ghost use Rattle.book.specs.Layout.{whole_length};
ghost use Rattle.book.specs.Year.{hour, may_follow, year_interface, hour_entry, entry_length, body_in, item_in};
ghost use Rattle.book.specs.Answers.{given_of};
ghost use Rattle.book.specs.Inner.Checked.{checked_entry};

use crate::book::BookState;
use crate::book_error::{BookError, false_entry};
use crate::entry::{Entry, EntryLayout, limits_length};
use crate::layout::{FRONT_SIZE, LENGTH_SIZE};
use crate::versions::may_follow;
use zone::{FixedRate, HourlyCalculation, State, read_limits};

// An entry that is what the hour step gives: the state after it, and its version.
#[derive(Clone, Copy)]
pub struct CheckedEntry {
    pub state: State,
    pub version: u64,
}

// The hour step on the conditions and the limits that the entry holds, by the rule of a version that may follow, and its result, written anew, against
// the entry.
#[tactic(auto, using(zone::proofs::Promise::tested_few))]
fn check_hour(
    calculation: &mut HourlyCalculation<'_>,
    before: &BookState,
    version: u64,
    entry: &[u8],
) -> Result<CheckedEntry, BookError>
    requires tested { zone_test calculation.old.zone.now ≡ ok tt }
    requires standard { calculation.old.coefficients ≡ standard_coefficients }
    requires whole { length entry.now ≡ whole_length calculation.old.zone.now version }
    requires follows { may_follow before.now.last_version version ≡ true }
    ensures checked { checked_entry result
        ≡ Book.check_entry year_interface before.now.count entry.now
        (hour_entry StillTaken calculation.old.zone.now before.now.count (given_of before.now).state (hour version (body_in calculation.old.zone.now version entry.now))) }
    ensures of_same { (calculation.new.zone ≡ calculation.old.zone) × (calculation.new.coefficients ≡ calculation.old.coefficients) }
{
    let layout = EntryLayout {
        zone: calculation.zone,
    };
    let limits_at = FRONT_SIZE + layout.conditions_length();
    let conditions = &entry[FRONT_SIZE..limits_at];
    let limits = &entry[limits_at..limits_at + limits_length(version)];
    let hour = calculation.next_hour(
        FixedRate::StillTaken,
        &before.state,
        conditions,
        version,
        read_limits(limits),
    );
    if let Ok(demand) = hour.answer {
        let expected = Entry {
            version,
            conditions,
            limits,
            demand,
            after: &hour.state,
        };
        if layout.is_entry(&expected, entry) {
            return Ok(CheckedEntry {
                state: hour.state,
                version,
            });
        }
    }
    Err(false_entry(before.count))
}

// One whole entry behind a book's others, of a zone that passes its test. Its version byte names the rule by which it is judged.
#[tactic(auto, using(crate::proofs::TakeUp::entry_cases))]
pub fn check_entry(
    calculation: &mut HourlyCalculation<'_>,
    before: &BookState,
    entry: &[u8],
) -> Result<CheckedEntry, BookError>
    requires tested { zone_test calculation.old.zone.now ≡ ok tt }
    requires standard { calculation.old.coefficients ≡ standard_coefficients }
    requires whole { entry_length calculation.old.zone.now entry.now ≡ some (length entry.now) }
    ensures checked { checked_entry result
        ≡ Book.check_entry year_interface before.now.count entry.now (hour_entry StillTaken calculation.old.zone.now before.now.count (given_of before.now).state (item_in calculation.old.zone.now entry.now)) }
    ensures of_same { (calculation.new.zone ≡ calculation.old.zone) × (calculation.new.coefficients ≡ calculation.old.coefficients) }
{
    let version = u64::from(entry[LENGTH_SIZE]);
    if !may_follow(before.last_version, version) {
        return Err(false_entry(before.count));
    }
    check_hour(calculation, before, version, entry)
}
