// Calls with a plan of which each number is changed in turn: how many were tried, how many of them refused by 8, with no
// window reported to have slid, and how many changed the destination.
use crate::{CHANGES, Change, Changed, change_entry};
use layout::{CallAnswer, Layout, RAW_FUSED_RANK_LIMIT, View};
use std::{fmt, io};

// What a call handed back, and whether it left the destination as it was.
#[derive(Clone, Copy)]
pub struct Outcome {
    pub told: CallAnswer,
    pub unchanged: bool,
}

// A call with a plan that may be changed.
pub trait Trial: Copy {
    fn call(self) -> Outcome;
}

#[derive(Clone, Copy, Default)]
struct Counts {
    tried: u64,
    refused: u64,
    changed: u64,
}

impl Counts {
    fn count(&mut self, outcome: Outcome) {
        self.tried = self.tried.wrapping_add(1);
        if is_refused(outcome.told) {
            self.refused = self.refused.wrapping_add(1);
        }
        if !outcome.unchanged {
            self.changed = self.changed.wrapping_add(1);
        }
    }
}

impl fmt::Display for Counts {
    fn fmt<W: fmt::Write>(&self, f: &mut fmt::Formatter<W>) -> fmt::Result {
        write!(
            f,
            "tried {}, refused by 8 {}, destination changed {}",
            self.tried, self.refused, self.changed
        )
    }
}

// The view of a layout that begins with the slice.
pub fn view(extents: &[u64], strides: &[i64]) -> View {
    let layout = layout::make_layout(extents, strides).layout;
    View { layout, offset: 0 }
}

fn is_refused(told: CallAnswer) -> bool {
    layout::number(told.answer) == 8 && told.reported == 0
}

fn count_calls<T: Trial, C: Fn(&mut T, usize, Change)>(
    trial: T,
    places: usize,
    change_at: C,
) -> Counts
    requires { C.IsAlwaysCallable change_at }
{
    let mut counts = Counts::default();
    for i in 0..places {
        for change in CHANGES {
            let mut changed = trial;
            change_at(&mut changed, i, change);
            counts.count(changed.call());
        }
    }
    counts
}

// Tries the three changes of each place, and prints what the calls came to.
pub fn try_places<T: Trial, C: Fn(&mut T, usize, Change)>(
    rt: &impl Print,
    trial: T,
    name: &str,
    places: usize,
    change_at: C,
) -> io::Result<()>
    requires { C.IsAlwaysCallable change_at }
{
    let counts = count_calls(trial, places, change_at);
    println!(rt; "{name}: {counts}")
}

// The same of one number.
pub fn try_number<T: Trial, N: Changed, F: Fn(&mut T) -> &mut N>(
    rt: &impl Print,
    trial: T,
    name: &str,
    field: F,
) -> io::Result<()>
    requires { (state : F) (x : _) → F.pre state x }
{
    try_places(
        rt,
        trial,
        name,
        1,
        |changed: &mut T, _i: usize, change: Change|
            requires { (x : _) → F.pre field x }
        {
            let number = field(changed);
            *number = number.changed(change);
        },
    )
}

// The same of each entry of an array, one for each axis.
pub fn try_entries<T: Trial, N: Changed, F: Fn(&mut T) -> &mut [N]>(
    rt: &impl Print,
    trial: T,
    name: &str,
    field: F,
) -> io::Result<()>
    requires { (state : F) (x : _) → F.pre state x }
{
    try_places(
        rt,
        trial,
        name,
        RAW_FUSED_RANK_LIMIT,
        |changed: &mut T, i: usize, change: Change|
            requires { (x : _) → F.pre field x }
        { change_entry(field(changed), i, change) },
    )
}

// The same of each part of a layout.
pub fn try_layout<T: Trial, F: Fn(&mut T) -> &mut Layout>(
    rt: &impl Print,
    trial: T,
    name: &str,
    field: F,
) -> io::Result<()>
    requires { (state : F) (x : _) → F.pre state x }
{
    print!(rt; "{name} ")?;
    try_number(
        rt,
        trial,
        "rank",
        |changed: &mut T| -> &mut usize
            requires { (x : _) → F.pre field x }
        { &mut field(changed).rank },
    )?;
    print!(rt; "{name} ")?;
    try_entries(
        rt,
        trial,
        "extents",
        |changed: &mut T| -> &mut [u64]
            requires { (x : _) → F.pre field x }
        { &mut field(changed).extents },
    )?;
    print!(rt; "{name} ")?;
    try_entries(
        rt,
        trial,
        "strides",
        |changed: &mut T| -> &mut [i64]
            requires { (x : _) → F.pre field x }
        { &mut field(changed).strides },
    )
}

// The same of a list: its count, and each entry, past the count as well.
pub fn try_list<T: Trial, N: Changed, C: Fn(&mut T) -> &mut usize, E: Fn(&mut T) -> &mut [N]>(
    rt: &impl Print,
    trial: T,
    name: &str,
    count: C,
    entries: E,
) -> io::Result<()>
    requires count { (state : C) (x : _) → C.pre state x }
    requires entries { (state : E) (x : _) → E.pre state x }
{
    print!(rt; "{name} ")?;
    try_number(rt, trial, "count", count)?;
    print!(rt; "{name} ")?;
    try_entries(rt, trial, "entries", entries)
}

// A call's answer, how many windows slid, and what it left.
pub fn put_called(rt: &impl Print, name: &str, told: CallAnswer, into: &[i32]) -> io::Result<()> {
    let number = layout::number(told.answer);
    print!(rt;
        "{name}: answer {number}, slid {}, destination",
        told.reported
    )?;
    for element in into {
        print!(rt; " {element}")?;
    }
    println!(rt)
}
