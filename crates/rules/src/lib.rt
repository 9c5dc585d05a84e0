// How an update is put on a cell: the combining rules of a scatter. A gather's copy is Replace, and a stored job's scatter is Add.
#![tactic(auto)]

ghost use Rattle.std.specs.Prelude.{◌≡◌, ◌<◌, ◌≤◌, ◌^◌, pos, length};
ghost use Rattle.std.specs.Float.{nan};
ghost use Rattle.indexing.specs.Coordinates.{element_at, store};
ghost use Rattle.indexing.specs.Loops.{in_order};
ghost use Rattle.indexing.specs.Scatter.{add_i32, add_f64};
ghost use Rattle.rules.specs.Rules.{rule_i32, rule_f64, lowest, highest, lowest_f64, highest_f64, capped};
ghost use Rattle.rules.specs.Blocks.{block_cells};

// Fewer cells than these are copied one by one.
pub const FEW: usize = 8;

// As many cells at most are copied by way of an array.
pub const BLOCK: usize = 32;

// An element of a grid.
pub trait Element: Copy {
    // What a list of elements gives past its end; no call reads there.
    ghost absent: { Self };

    // Does nothing. An element takes up room, so that each index of a slice is an i64: sums of places rest on it.
    fn short(cells: &[Self])
        ensures { length cells.now < 2 ^ 63 };

    // A copy of up to BLOCK cells: one by one, where a type does not give a quicker one.
    fn copy_block(from: &[Self], to: &mut [Self])
        requires { (length from.now ≡ length to.old) × (length to.old ≤ block_cells) }
        ensures { to.new ≡ from.now }
    {
        copy_each(from, to);
    }
}

// One by one. Into an array and out of it again the compiler makes one move of memory, which has not to ask whether the two overlap.
fn copy_each<T: Copy>(from: &[T], to: &mut [T])
    requires { length from.now ≡ length to.old }
    ensures { to.new ≡ from.now }
{
    for i in 0..to.len() {
        to[i] = from[i];
    }
}

impl Element for i32 {
    ghost absent = { pos 0 };

    fn short(_cells: &[i32]) {}

    fn copy_block(from: &[i32], to: &mut [i32]) {
        let n = to.len();
        let mut held = [0i32; BLOCK];
        copy_each(from, &mut held[..n]);
        copy_each(&held[..n], to);
    }
}

impl Element for f64 {
    ghost absent = { nan };

    fn short(_cells: &[f64]) {}

    fn copy_block(from: &[f64], to: &mut [f64]) {
        let n = to.len();
        let mut held = [0.0f64; BLOCK];
        copy_each(from, &mut held[..n]);
        copy_each(&held[..n], to);
    }
}

// A rule as a type of its own, so that a loop over cells has none to ask for.
pub trait Combine<E: Element>: Copy {
    // What a cell that held the first element holds after the second is put on it.
    ghost combined: { Self → E → E → E };

    fn apply(self, old: E, update: E) -> E
        ensures { result ≡ combined self old update };

    // Each update on the cell beside it: of two slices of one length.
    fn apply_each(self, updates: &[E], cells: &mut [E])
        requires { length updates.now ≡ length cells.old }
        ensures { cells.new ≡ in_order (λ k d. store d (pos k) (combined self (element_at E.absent d (pos k)) (element_at E.absent updates.now (pos k)))) (length cells.old) cells.old }
    {
        for i in 0..cells.len() {
            cells[i] = self.apply(cells[i], updates[i]);
        }
    }
}

#[derive(Clone, Copy)]
pub struct Add;

#[derive(Clone, Copy)]
pub struct Lowest;

#[derive(Clone, Copy)]
pub struct Highest;

#[derive(Clone, Copy)]
pub struct Replace;

// The sum, or the limit where the sum is greater.
#[derive(Clone, Copy)]
pub struct Ceiling(pub f64);

impl Combine<i32> for Add {
    ghost combined = { λ _. add_i32 };

    fn apply(self, old: i32, update: i32) -> i32 {
        integer::wrapping_add_i32(old, update)
    }
}

impl Combine<f64> for Add {
    ghost combined = { λ _. add_f64 };

    fn apply(self, old: f64, update: f64) -> f64 {
        old + update
    }
}

impl Combine<i32> for Lowest {
    ghost combined = { λ _. lowest };

    fn apply(self, old: i32, update: i32) -> i32 {
        old.min(update)
    }
}

impl Combine<f64> for Lowest {
    ghost combined = { λ _. lowest_f64 };

    fn apply(self, old: f64, update: f64) -> f64 {
        if update < old { update } else { old }
    }
}

impl Combine<i32> for Highest {
    ghost combined = { λ _. highest };

    fn apply(self, old: i32, update: i32) -> i32 {
        old.max(update)
    }
}

impl Combine<f64> for Highest {
    ghost combined = { λ _. highest_f64 };

    fn apply(self, old: f64, update: f64) -> f64 {
        if update > old { update } else { old }
    }
}

impl<E: Element> Combine<E> for Replace {
    ghost combined = { λ _ _ u. u };

    fn apply(self, _old: E, update: E) -> E {
        update
    }

    fn apply_each(self, updates: &[E], cells: &mut [E]) {
        if cells.len() < FEW {
            copy_each(updates, cells);
        } else if cells.len() <= BLOCK {
            E::copy_block(updates, cells);
        } else {
            cells.copy_from_slice(updates);
        }
    }
}

impl Combine<f64> for Ceiling {
    ghost combined = { λ r x u. capped r.0 (add_f64 x u) };

    fn apply(self, old: f64, update: f64) -> f64 {
        let sum = old + update;
        if sum > self.0 { self.0 } else { sum }
    }
}

// Which rule a call on an i32 grid names.
#[derive(Clone, Copy)]
pub enum Rule {
    Add,
    Lowest,
    Highest,
    Replace,
}

// On an f64 grid: Ceiling carries its limit.
#[derive(Clone, Copy)]
pub enum RuleF64 {
    Add,
    Lowest,
    Highest,
    Replace,
    Ceiling(f64),
}

impl Combine<i32> for Rule {
    ghost combined = { rule_i32 };

    fn apply(self, old: i32, update: i32) -> i32 {
        match self {
            Rule::Add => Add.apply(old, update),
            Rule::Lowest => Lowest.apply(old, update),
            Rule::Highest => Highest.apply(old, update),
            Rule::Replace => Replace.apply(old, update),
        }
    }
}

impl Combine<f64> for RuleF64 {
    ghost combined = { rule_f64 };

    fn apply(self, old: f64, update: f64) -> f64 {
        match self {
            RuleF64::Add => Add.apply(old, update),
            RuleF64::Lowest => Lowest.apply(old, update),
            RuleF64::Highest => Highest.apply(old, update),
            RuleF64::Replace => Replace.apply(old, update),
            RuleF64::Ceiling(limit) => Ceiling(limit).apply(old, update),
        }
    }
}
