// A whole year cut at 1,000 places spread over its second half, taken up, continued and compared with the year that was never cut.
// The other half's cuts are a program of their own, since each of these takes up and appends every hour of the year.
#![tactic(auto)]

use house_books::{Half, print_year_cuts};
use std::io;

fn main(rt: HostRuntime) -> io::Result<()> {
    print_year_cuts(&rt, rt.alloc(), Half::Second)
}
