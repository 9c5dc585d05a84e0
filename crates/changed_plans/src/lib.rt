// Plans with one number changed, and what the calls with changed plans come to.
#![tactic(auto)]

ghost use Rattle.std.specs.Prelude.{◌≢◌};

pub mod trials;

use gather_plan::Role;

// One more, one less, or the highest bit changed; of signed numbers every bit.
#[derive(Clone, Copy)]
pub enum Change {
    More,
    Less,
    Highest,
}

pub const CHANGES: [Change; 3] = [Change::More, Change::Less, Change::Highest];

// What can be changed in each of these ways; each makes another value of it.
pub trait Changed: Copy {
    fn changed(self, change: Change) -> Self
        ensures { result ≢ self };
}

impl Changed for u64 {
    fn changed(self, change: Change) -> u64 {
        match change {
            Change::More => self.wrapping_add(1),
            Change::Less => self.wrapping_sub(1),
            Change::Highest => self ^ 1 << 63,
        }
    }
}

impl Changed for usize {
    fn changed(self, change: Change) -> usize {
        match change {
            Change::More => self.wrapping_add(1),
            Change::Less => self.wrapping_sub(1),
            Change::Highest => self ^ 1 << 63,
        }
    }
}

// One more or one less is 0 where it does not fit.
impl Changed for i64 {
    fn changed(self, change: Change) -> i64 {
        match change {
            Change::More => self.checked_add(1).unwrap_or(0),
            Change::Less => self.checked_sub(1).unwrap_or(0),
            Change::Highest => !self,
        }
    }
}

impl Changed for Role {
    fn changed(self, change: Change) -> Role {
        match (self, change) {
            (Role::Batch, Change::More) => Role::Window(0),
            (Role::Batch, Change::Less) => Role::Window(1),
            (Role::Batch, Change::Highest) => Role::Window(2),
            (Role::Window(_), Change::More) => Role::Batch,
            (Role::Window(axis), _) => Role::Window(axis.changed(change)),
        }
    }
}

// Changes entry i of a list, if it has one.
pub fn change_entry<N: Changed>(list: &mut [N], i: usize, change: Change) {
    if let Some(entry) = list.get_mut(i) {
        *entry = entry.changed(change);
    }
}
