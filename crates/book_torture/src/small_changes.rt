// The small book changed: bytes, versions and limits in it, bytes behind it, and appends that are refused.
use crate::appends::check_appends;
use crate::damage::check_damages;
use crate::follows::check_follows;
use crate::rests::check_rests;
use crate::rooms::check_rooms;
use crate::small_book::{Book, USED};
use crate::stored_limits::check_stored_limits;
use crate::versions::check_versions;
use house_books::HEAD;
use std::io;

fn print_head(rt: &impl Print, whole: &mut Book) -> io::Result<()> {
    let t = check_damages(whole, 0..HEAD);
    println!(rt;
        "bytes of the head changed, answered as expected: {}",
        t.answers
    )?;
    println!(rt; "  refused as a head or in start-up: {}", t.refused_head)?;
    println!(rt; "  another head, its first false entry: {}", t.other_head)?;
    println!(rt; "  another head, every entry true: {}", t.held)
}

fn print_entries(rt: &impl Print, whole: &mut Book) -> io::Result<()> {
    let t = check_damages(whole, HEAD..USED);
    println!(rt;
        "bytes of entries changed, answered as expected: {}",
        t.answers
    )?;
    println!(rt;
        "  a limit, refused with 18 at the entry: {}",
        t.false_limit
    )?;
    println!(rt;
        "  a limit that no result shows, accepted: {}",
        t.held_limit
    )?;
    println!(rt;
        "  another byte, refused with 18 at the entry or at the next: {}",
        t.false_entry
    )?;
    println!(rt;
        "  a version or condition that no result shows, accepted: {}",
        t.held
    )
}

fn print_limits(rt: &impl Print, whole: &mut Book) -> io::Result<()> {
    let t = check_stored_limits(whole);
    println!(rt;
        "limits out of range in an entry, refused with 18 there: {}",
        t.outside
    )?;
    println!(rt; "other limits in range, answered as expected: {}", t.within)?;
    println!(rt; "  refused with 18 there: {}", t.false_entry)?;
    println!(rt; "  that no result shows, accepted: {}", t.held)
}

fn print_versions(rt: &impl Print, whole: &Book) -> io::Result<()> {
    let t = check_versions(whole.house);
    println!(rt;
        "books that pass from 1 to 2, from 1 to 3 and from 2 to 3 at each hour, the last version after each call: {}",
        t.books
    )?;
    println!(rt;
        "their version bytes changed, answered as expected: {}",
        t.answers
    )?;
    println!(rt;
        "  a version that no hour has, refused with 18 there: {}",
        t.unknown
    )?;
    println!(rt;
        "  below the version before, of another length or a cooled hour, refused with 18 there: {}",
        t.false_there
    )?;
    println!(rt;
        "  true in version 2, the next refused with 18: {}",
        t.false_next
    )?;
    println!(rt;
        "  the last entry, too short for version 3, dropped: {}",
        t.dropped
    )?;
    println!(rt; "  true in the other version, accepted: {}", t.held)
}

fn print_follows(rt: &impl Print, whole: &Book) -> io::Result<()> {
    let t = check_follows(whole);
    println!(rt;
        "true entries behind an hour of their version or an older one, accepted: {}",
        t.may
    )?;
    println!(rt;
        "true entries behind an hour of a newer version, refused with 18 there: {}",
        t.may_not
    )?;
    println!(rt; "either without its last byte, dropped: {}", t.short)
}

fn print_rests(rt: &impl Print, whole: &Book) -> io::Result<()> {
    let t = check_rests(whole);
    println!(rt; "rests of up to 4 bytes, dropped: {}", t.under_front)?;
    println!(rt;
        "rests of a version that hours have, shorter than its entry, dropped: {}",
        t.short
    )?;
    println!(rt;
        "rests as long as its entry or longer, refused with 18 at the count: {}",
        t.whole
    )?;
    println!(rt;
        "rests of 5 bytes and more of a version that no hour has, refused with 18 at the count: {}",
        t.unknown
    )
}

fn print_appends(rt: &impl Print, whole: &Book) -> io::Result<()> {
    let t = check_appends(whole);
    println!(rt;
        "appends of versions that no hour has, refused with 18 at the count: {}",
        t.unknown
    )?;
    println!(rt;
        "appends of version 3 with a limit out of range, refused with 19: {}",
        t.out_of_range
    )?;
    println!(rt;
        "such limits beside versions 1 and 2, not looked at: {}",
        t.not_looked_at
    )
}

fn print_rooms(rt: &impl Print, whole: &Book) -> io::Result<()> {
    let t = check_rooms(whole);
    println!(rt;
        "appends of each version into each room, refused with 16 or accepted: {}",
        t.appends
    )?;
    println!(rt;
        "  of version 3, refused where version 2 has room: {}",
        t.too_long
    )?;
    println!(rt; "  accepted with no byte to spare: {}", t.exact)
}

pub fn print_changes(rt: &impl Print, whole: &mut Book) -> io::Result<()> {
    print_head(rt, whole)?;
    print_entries(rt, whole)?;
    print_limits(rt, whole)?;
    print_versions(rt, whole)?;
    print_follows(rt, whole)?;
    print_rests(rt, whole)?;
    print_appends(rt, whole)?;
    print_rooms(rt, whole)
}
