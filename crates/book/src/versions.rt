// The order of entry versions in a book.
ghost use Rattle.std.specs.Prelude.{◌≡◌};
ghost use Rattle.book.specs.Year.{may_follow};

use zone::hour_version;

// The last version of a book that holds no entries.
pub const NO_ENTRY_VERSION: u64 = 1;

// May an hour of this version be the next.
pub fn may_follow(last_version: u64, version: u64) -> bool
    ensures { result ≡ may_follow last_version version }
{
    let known = hour_version(version);
    let not_below = last_version <= version;
    known & not_below
}
