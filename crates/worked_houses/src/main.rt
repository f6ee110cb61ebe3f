// The program worked_houses: houses worked out by hand, row by row, what is asked, what came and what is expected. A value is given by
// its bits, with what is expected in words; a value with nothing to be laid beside by its bits, with decimals before them; a refusal by its
// number, 0 for none. A call that refuses where nothing is said of it ends the program with that refusal.
//
// First House P (Specification, House P), then its hours in version 3 with limits, worked out by hand. Then a room with a chilled
// ceiling: a warm hour is asked, and met in version 1 and in version 2. By the heating fraction the room is left too warm, by
// the cooling fraction it keeps its cooling setpoint. A cold hour is the same in both. Then the entries of these hours in
// books, versions that no hour has, and the room in version 3: hours with limits, limits out of range, entries and books.
// At the end of each house books of it are asked when it got warm: the first hour above a value, the hours within a band and the
// hour nearest to a value. Then come rooms of six surfaces: what their air gives to the surfaces, by direction of heat flow.
// Then a room with windows that can open: why an hour has its air change rate and its load. Then the weather of a file's line, and a house in it. Last hours
// with the fixed rate, rate code 0, of all these houses: refused by the calls, taken up in books, and converted.
#![tactic(auto)]

mod answers;
mod bytes;
mod chilled_ceiling;
mod convection;
mod failure;
mod fixed_rate;
mod house_p;
mod limits;
mod refusal;
mod replies;
mod table;
mod weather_lines;
mod why;
mod zone_read;

use chilled_ceiling::{books, hours, limit_books, limit_values, limited, questions, room, unknown};
use convection::rows as surface_rows;
use fixed_rate::{by_hand, conversions, cuts, not_converted, refused, taken_up};
use house_p::{
    book_rows, limited as limited_hours, questions as hours_asked, rows, surface_convection,
};
use weather_lines::{fields, house, lines};
use why::{bases, close, coarse, found, lost_load, order, reasons, refusals, temperatures};

fn print_house_p(rt: &impl Print) -> failure::Result<()> {
    table::heading(rt, "House P")?;
    rows::print_zone(rt)?;
    surface_convection::print_h_ci(rt)?;
    rows::print_rates(rt)?;
    book_rows::print_book(rt)?;
    limited_hours::print_limited(rt)?;
    hours_asked::print_questions(rt)
}

fn print_chilled_ceiling(rt: &impl Print) -> failure::Result<()> {
    let head = room::head();
    table::heading(rt, "\nA room with a chilled ceiling")?;
    let room = hours::print_start(rt, &head)?;
    hours::print_hours(rt, &room)?;
    books::print_books(rt, &room)?;
    unknown::print_unknown(rt, &room)?;
    limited::print_limited(rt, &room)?;
    limit_values::print_values(rt, &room)?;
    limit_books::print_books(rt, &room)?;
    questions::print_questions(rt, &room.zone)
}

fn print_convection(rt: &impl Print) -> failure::Result<()> {
    table::heading(
        rt,
        "\nRooms of six surfaces, and what their air gives to them by direction of heat flow",
    )?;
    surface_rows::print_rooms(rt)
}

fn print_why(rt: &impl Print) -> failure::Result<()> {
    table::heading(
        rt,
        "\nA room with windows, and why its hours have their rate and their load",
    )?;
    temperatures::print_temperatures(rt)?;
    reasons::print_reasons(rt)?;
    found::print_found(rt)?;
    order::print_order(rt)?;
    close::print_close(rt)?;
    bases::print_bases(rt)?;
    coarse::print_coarse(rt)?;
    lost_load::print_lost(rt)?;
    refusals::print_refusals(rt)
}

fn print_weather(rt: &impl Print) -> failure::Result<()> {
    table::heading(rt, "\nThe weather of a file's line, and a house in it")?;
    fields::print_fields(rt)?;
    lines::print_lines(rt)?;
    house::print_house(rt)
}

fn print_fixed_rate(rt: &impl Print) -> failure::Result<()> {
    table::heading(
        rt,
        "\nHours with the fixed rate, rate code 0: refused, taken up and converted",
    )?;
    refused::print_refused(rt)?;
    by_hand::print_by_hand(rt)?;
    taken_up::print_taken_up(rt)?;
    cuts::print_cuts(rt)?;
    conversions::print_conversions(rt)?;
    not_converted::print_not_converted(rt)
}

fn main(rt: HostRuntime) -> failure::Result<()> {
    print_house_p(&rt)?;
    print_chilled_ceiling(&rt)?;
    print_convection(&rt)?;
    print_why(&rt)?;
    print_weather(&rt)?;
    print_fixed_rate(&rt)
}
