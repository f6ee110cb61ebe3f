// How many of something there were, and how many of them were right.
ghost use Rattle.std.specs.Iterator.{IsFinite};

use std::fmt;
use std::ops::AddAssign;

#[derive(Clone, Copy, Default)]
pub struct Tally {
    pub all: u64,
    pub right: u64,
}

// How a line of the output ends that tells whether something holds.
#[derive(Clone, Copy)]
pub struct Mark(pub bool);

// One more of what is counted. In replay too, which would need this line and no house.
pub fn count_one(n: &mut u64) {
    *n = n.saturating_add(1);
}

impl Tally {
    // Of these, each of which is right or not.
    pub fn of<I: Iterator + Drop, F: FnMut(I::Item) -> bool + Drop>(
        items: I,
        mut is_right: F,
    ) -> Tally
        requires can { I.can_next items }
        requires ends { IsFinite (I.remaining items) }
        requires callable { F.IsAlwaysCallable is_right }
    {
        let mut tally = Tally::default();
        for item in items {
            tally.count(is_right(item));
        }
        tally
    }

    pub fn count(&mut self, right: bool) {
        count_one(&mut self.all);
        if right {
            count_one(&mut self.right);
        }
    }
}

impl AddAssign<Tally> for Tally {
    fn add_assign(&mut self, other: Tally) {
        self.all = self.all.saturating_add(other.all);
        self.right = self.right.saturating_add(other.right);
    }
}

impl fmt::Display for Mark {
    fn fmt<W: fmt::Write>(&self, f: &mut fmt::Formatter<W>) -> fmt::Result {
        f.write_str(if self.0 { "ok" } else { "WRONG" })
    }
}

impl fmt::Display for Tally {
    fn fmt<W: fmt::Write>(&self, f: &mut fmt::Formatter<W>) -> fmt::Result {
        let mark = Mark(self.right == self.all);
        write!(f, "{} of {}: {mark}", self.right, self.all)
    }
}
