// Lists by value, with as many entries as a layout can have axes, and what compile makes of a spec's axis lists: picking,
// spreading, leaving out. Every function answers for all its arguments: of a list, the first `count` entries count, or all where
// `count` is larger.
#![tactic(auto)]

ghost use Rattle.std.specs.Prelude.{◌≡◌, cond, ◌+◌, ◌-◌, ◌<◌, min, ltb, pos, get_or};
ghost use Rattle.indexing.specs.Coordinates.{pick, spread, others};
ghost use Rattle.indexing.specs.Start.{without};
ghost use Rattle.layout.specs.Layouts.{rank_limit, padded, extents_of, strides_of};
ghost use Rattle.axis_lists.specs.Held.{steps_of, entries_of, held, held_numbers, held_steps, same_list};

use layout::{Layout, RAW_FUSED_RANK_LIMIT};

// A list by value.
#[derive(Clone, Copy, PartialEq, Eq)]
pub struct AxisList<T> {
    pub count: usize,
    pub entries: [T; RAW_FUSED_RANK_LIMIT],
}

// Axes, extents or window sizes. Past the count stand zeros.
pub type Numbers = AxisList<u64>;

// Strides or steps. Past the count stand zeros.
pub type Steps = AxisList<i64>;

impl<T: Copy> AxisList<T> {
    // A lent list, and `rest` past it; of a list that is too long the first entries are held.
    pub fn from_slice(list: &[T], rest: T) -> AxisList<T>
        ensures { result ≡ held rest list.now }
    {
        let mut entries = [rest; RAW_FUSED_RANK_LIMIT];
        let n = layout::axis_count(list.len());
        entries[..n].copy_from_slice(&list[..n]);
        AxisList {
            count: list.len(),
            entries,
        }
    }

    // The entries that count.
    pub fn as_slice(&self) -> &[T]
        ensures { result.now ≡ entries_of self.now }
    {
        &self.entries[..layout::axis_count(self.count)]
    }
}

// A layout's extents.
pub fn extents_of(layout: Layout) -> Numbers
    ensures { result ≡ held_numbers (extents_of layout) }
{
    let n = layout::axis_count(layout.rank);
    Numbers::from_slice(&layout.extents[..n], 0)
}

// A layout's strides.
pub fn strides_of(layout: Layout) -> Steps
    ensures { result ≡ held_steps (strides_of layout) }
{
    let n = layout::axis_count(layout.rank);
    Steps::from_slice(&layout.strides[..n], 0)
}

// The axes below n, or below the limit, that the list has not, rising.
pub fn other_axes(n: usize, list: &[u64]) -> Numbers
    ensures { result ≡ held_numbers (others (min n rank_limit) list.now) }
{
    let mut entries = [0u64; RAW_FUSED_RANK_LIMIT];
    let mut count: usize = 0;
    for i in 0..layout::axis_count(n) {
        let axis = i as u64;
        if !list.contains(&axis) {
            entries[count] = axis;
            count += 1;
        }
    }
    Numbers { count, entries }
}

// Entry `axis` of a lent list, and `rest` past its end.
fn entry_or<T: Copy>(list: &[T], axis: u64, rest: T) -> T
    ensures { result ≡ get_or list.now axis rest }
{
    list.get(axis as usize).copied().unwrap_or(rest)
}

// Entry `axis` of a lent list, and 0 past its end.
pub fn entry_at(list: &[u64], axis: u64) -> u64
    ensures { result ≡ get_or list.now axis 0 }
{
    entry_or(list, axis, 0)
}

// Entry `axis` of lent strides, and 0 past their end.
pub fn stride_at(list: &[i64], axis: u64) -> i64
    ensures { result ≡ get_or list.now axis (pos 0) }
{
    entry_or(list, axis, 0)
}

// The entries of a lent list on the axes, in the axes' order, and `rest` for an axis that is past its end.
pub fn pick<T: Copy>(axes: &[u64], list: &[T], rest: T) -> AxisList<T>
    ensures { result ≡ held rest (pick rest axes.now list.now) }
{
    let mut entries = [rest; RAW_FUSED_RANK_LIMIT];
    for i in 0..layout::axis_count(axes.len()) {
        entries[i] = entry_or(list, axes[i], rest);
    }
    AxisList {
        count: axes.len(),
        entries,
    }
}

// n entries, or as many as the limit: on each of the axes the entry that stands with it, `other` on every other axis, and `rest`
// past them.
pub fn spread<T: Copy>(n: usize, axes: &[u64], list: &[T], other: T, rest: T) -> AxisList<T>
    ensures { result ≡ held rest (spread other (min n rank_limit) axes.now list.now) }
{
    let count = layout::axis_count(n);
    let all = [other; RAW_FUSED_RANK_LIMIT];
    let mut entries = AxisList::from_slice(&all[..count], rest).entries;
    for i in (0..axes.len().min(list.len())).rev() {
        let axis = axes[i];
        if axis < count as u64 {
            entries[axis as usize] = list[i];
        }
    }
    AxisList { count, entries }
}

// Where entry i of a list stands once `axis` is put back in.
fn put_back(i: usize, axis: u64) -> u64
    requires { i < rank_limit }
    ensures { result ≡ cond (ltb i axis) i (i + 1) }
{
    let k = i as u64;
    if k < axis { k } else { k + 1 }
}

// The entries of all axes but one; of all, where the axis is past the last.
pub fn without_step(axis: u64, list: Steps) -> Steps
    ensures { result ≡ held_steps (without axis (steps_of list)) }
{
    let n = layout::axis_count(list.count);
    let count = if axis < n as u64 { n - 1 } else { n };
    let mut entries = [0i64; RAW_FUSED_RANK_LIMIT];
    for i in 0..count {
        entries[i] = stride_at(list.as_slice(), put_back(i, axis));
    }
    Steps { count, entries }
}

// Whether the entries of `list` on the axes are those of `sizes` on the others.
pub fn picked_same(axes: &[u64], list: &[u64], others: &[u64], sizes: &[u64]) -> bool
    ensures { result ≡ same_list (pick 0 axes.now list.now) (pick 0 others.now sizes.now) }
{
    if axes.len() != others.len() {
        return false;
    }
    for i in 0..axes.len() {
        if entry_at(list, axes[i]) != entry_at(sizes, others[i]) {
            return false;
        }
    }
    true
}

// n steps, or as many as the limit: at each place the stride on the axis that stands with it, and 0 at every other.
pub fn spread_picked(
    n: usize,
    places: &[u64],
    axes: &[u64],
    list: &[i64],
) -> [i64; RAW_FUSED_RANK_LIMIT]
    ensures { result ≡ padded rank_limit (pos 0) (spread (pos 0) (min n rank_limit) places.now (pick (pos 0) axes.now list.now)) }
{
    let count = layout::axis_count(n) as u64;
    let mut out = [0i64; RAW_FUSED_RANK_LIMIT];
    for i in (0..places.len().min(axes.len())).rev() {
        let place = places[i];
        if place < count {
            out[place as usize] = stride_at(list, axes[i]);
        }
    }
    out
}
