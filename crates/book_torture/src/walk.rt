// What stands in the bytes of a book, read entry by entry: where each ends by its version byte, and whether the head's reading,
// start-up and hour step give what it holds.
ghost use Rattle.std.specs.Prelude.{◌<◌, length, IfOk, IfSome};

use big_endian::{put_byte, read_f64s_be, write_f64_be, write_f64s_be};
use book::BookError;
use house_books::{
    Entries, Entry, House, NODES, RESULT_TEMPERATURES, RESULTS, TEMPERATURES, TRIGGER,
    TRIGGER_RATE, VERSION_PLACE, Version,
};
use zone::{Demand, Refusal, State};

// The results of an hour as an entry holds them.
fn results_of(demand: Demand, after: &State) -> [u8; RESULTS] {
    let mut b = [0; RESULTS];
    write_f64s_be(
        &mut b,
        0,
        &[
            demand.space_heat_demand,
            demand.space_cool_demand,
            demand.ach_cooling,
        ],
    );
    if let Some(rate) = demand.ach_to_trigger_heating {
        put_byte(&mut b, TRIGGER, 1);
        write_f64_be(&mut b, TRIGGER_RATE, rate);
    }
    write_f64s_be(&mut b, RESULT_TEMPERATURES, &after.temps[..NODES]);
    b
}

// The state in the bytes that end the last of so many entries; none before the first. Not read by the engine, which is what is tested.
pub fn last_state(b: &[u8], entries: Entries) -> Option<State> {
    if entries.count == 0 {
        return None;
    }
    let bytes = b.get(..entries.used)?.last_chunk::<TEMPERATURES>()?;
    Some(State {
        nodes: NODES,
        temps: read_f64s_be(bytes, 0),
    })
}

// The state after so many entries; before the first, start-up's.
pub fn state_after(house: &House, b: &[u8], entries: Entries) -> State {
    last_state(b, entries).unwrap_or(house.start)
}

// Whether the hour step on the entry's conditions and limits, in the entry's version, gives the results that stand in it.
fn results_stand(house: &House, before: &State, entry: Entry) -> bool {
    let Some((demand, after)) = house.hour_step(before, entry) else {
        return false;
    };
    results_of(demand, &after).as_slice() == entry.results
}

// So many entries are true, and the next one too; none where the bytes end before it does.
fn past_next(house: &House, b: &[u8], walked: Entries) -> Result<Option<Entries>, BookError>
    ensures { IfOk result (λ next. IfSome next (λ further. (walked.used < length b.now) × (walked.used < further.used))) }
{
    let false_entry = Err(BookError::Zone(Refusal::FalseEntry(walked.count)));
    let rest = b.get(walked.used..).unwrap_or(&[]);
    let Some(byte) = rest.get(VERSION_PLACE) else {
        return Ok(None);
    };
    let Ok(version) = Version::try_from(*byte) else {
        return false_entry;
    };
    let Some(entry) = Entry::first_of(rest, version) else {
        return Ok(None);
    };
    let before = state_after(house, b, walked);
    if version < walked.last_version
        || !entry.length_stands()
        || !results_stand(house, &before, entry)
    {
        return false_entry;
    }
    Ok(Some(walked.followed_by(version)))
}

// From so many true entries on.
pub fn walk_on(house: &House, b: &[u8], from: Entries) -> Result<Entries, BookError> {
    let mut walked = from;
    while let Some(further) = past_next(house, b, walked)? {
        walked = further;
    }
    Ok(walked)
}
