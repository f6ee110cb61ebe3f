// The power that the hours of a book deliver: how many of them a limit holds, and whether the update of the temperatures with that
// power gives those that stand in the entry.
use crate::walk::state_after;
use house_books::{Entry, Holding, House, Plan, Tally, Version, count_one, same_states};
use std::fmt;
use zone::State;

// Hours whose power one of the limits holds, and the first of them with a limit above 0.
#[derive(Clone, Copy, Default)]
pub struct HeldHours {
    count: u64,
    pub first: Option<usize>,
}

// Of each limit, and how many hours of version 3 there are that none holds. Hours that an update can be asked for, and those where
// it gives the entry's temperatures.
#[derive(Clone, Copy, Default)]
pub struct Held {
    pub heating: HeldHours,
    pub cooling: HeldHours,
    neither: u64,
    updates: Tally,
}

impl HeldHours {
    fn add(&mut self, hour: usize, limit: f64) {
        count_one(&mut self.count);
        if 0.0 < limit {
            self.first.get_or_insert(hour);
        }
    }
}

impl Held {
    fn count_limits(&mut self, entry: Entry, hour: usize) {
        match entry.holding() {
            Some(Holding::Heating(limit)) => self.heating.add(hour, limit),
            Some(Holding::Cooling(limit)) => self.cooling.add(hour, limit),
            None if entry.version == Version::Three => count_one(&mut self.neither),
            None => {}
        }
    }

    // An update takes a share from 0 to 1, and little cooling beside other gains has a higher one.
    fn count_update(&mut self, house: &House, before: &State, entry: Entry, after: &State) {
        let power = entry.power_delivered();
        let gains = entry.convective() + entry.radiative() + power;
        let share = (entry.convective() + power * entry.fraction_of(power)) / gains;
        if 0.0 <= share && share <= 1.0 {
            let updated = house.update_temperatures(before, entry, gains, share);
            self.updates
                .count(updated.is_some_and(|state| same_states(&state, after)));
        }
    }

    fn count_hour(&mut self, house: &House, b: &[u8], plan: Plan, hour: usize) {
        let Some(entry) = Entry::of_hour(b, plan, hour) else {
            return self.updates.count(false);
        };
        let before = plan.entries(hour);
        let after = state_after(house, b, before.followed_by(entry.version));
        self.count_update(house, &state_after(house, b, before), entry, &after);
        self.count_limits(entry, hour);
    }
}

// So many hours of a book, in the versions of a plan.
pub fn check_held(house: &House, b: &[u8], plan: Plan, hours: usize) -> Held {
    let mut held = Held::default();
    for hour in 0..hours {
        held.count_hour(house, b, plan, hour);
    }
    held
}

impl fmt::Display for Held {
    fn fmt<W: fmt::Write>(&self, f: &mut fmt::Formatter<W>) -> fmt::Result {
        writeln!(
            f,
            "  hours in which the heating limit holds: {}",
            self.heating.count
        )?;
        writeln!(
            f,
            "  hours in which the cooling limit holds: {}",
            self.cooling.count
        )?;
        writeln!(
            f,
            "  hours of version 3 in which neither does: {}",
            self.neither
        )?;
        write!(
            f,
            "temperatures by an update with the delivered power, where it takes their share: {}",
            self.updates
        )
    }
}
