// The product, the span, the nested test and the reach of lent extents and strides, and of those that a layout holds: of an array,
// the first `rank` entries count, or all where `rank` is larger.
#![tactic(auto)]

ghost use Rattle.std.specs.Prelude.{◌≡◌, ◌<◌, length, take};
ghost use Rattle.integer.specs.Defs.{checked_u};
ghost use Rattle.layout.specs.Layouts.{extents_of, strides_of};
ghost use Rattle.layout.specs.Spans.{total_of, spanned};
ghost use Rattle.layout.specs.Nested.{has_zero, nested};
ghost use Rattle.layout.specs.Sums.{others_weight, axis_exceeds, side_reach};
ghost use Rattle.layout.specs.Reach.{view_reach};

use layout::{RAW_FUSED_RANK_LIMIT, Reach, Span, View};

// The product of the extents, left to right.
pub fn checked_total_len(extents: &[u64]) -> Option<u64>
    ensures { result ≡ total_of extents.now }
{
    let mut total: u64 = 1;
    for &extent in extents {
        total = integer::checked_mul_u64(total, extent)?;
    }
    Some(total)
}

// The lowest and the highest sum of stride times coordinate.
pub fn validate_layout_span(extents: &[u64], strides: &[i64]) -> Option<Span>
    requires { length strides.now ≡ length extents.now }
    ensures { result ≡ spanned extents.now strides.now }
{
    let mut span = Span { low: 0, high: 0 };
    for (i, &extent) in extents.iter().enumerate() {
        span = layout::widen(span, extent, strides[i])?;
    }
    Some(span)
}

// Whether some extent is 0.
pub fn zero_in(extents: &[u64]) -> bool
    ensures { result ≡ has_zero extents.now }
{
    extents.contains(&0)
}

// The weights of the axes other than `axis` whose strides' magnitudes are at most `limit`.
fn others_weight(extents: &[u64], strides: &[i64], axis: usize, limit: u64) -> Option<u64>
    requires { length strides.now ≡ length extents.now }
    ensures { result ≡ checked_u (others_weight limit axis extents.now strides.now) }
{
    let mut sum: u64 = 0;
    for (i, &extent) in extents.iter().enumerate() {
        let weight = layout::other_weight(extent, strides[i], limit, i == axis)?;
        sum = integer::checked_add_u64(sum, weight)?;
    }
    Some(sum)
}

// Whether the axis has one coordinate, or its stride's magnitude exceeds the weights of the others up to it.
fn axis_exceeds(extents: &[u64], strides: &[i64], axis: usize) -> bool
    requires { (axis < length extents.now) × (length strides.now ≡ length extents.now) }
    ensures { result ≡ axis_exceeds axis extents.now strides.now }
{
    if extents[axis] == 1 {
        return true;
    }
    let magnitude = strides[axis].unsigned_abs();
    match others_weight(extents, strides, axis, magnitude) {
        Some(others) => others < magnitude,
        None => false,
    }
}

// Whether the axes are nested.
pub fn nested_in(extents: &[u64], strides: &[i64]) -> bool
    requires { length strides.now ≡ length extents.now }
    ensures { result ≡ nested extents.now strides.now }
{
    if zero_in(extents) {
        return true;
    }
    for axis in 0..extents.len() {
        if !axis_exceeds(extents, strides, axis) {
            return false;
        }
    }
    true
}

// How far the cells reach from the offset, to one side.
fn side_reach(extents: &[u64], strides: &[i64], below: bool) -> Option<u64>
    requires { length strides.now ≡ length extents.now }
    ensures { result ≡ checked_u (side_reach below extents.now strides.now) }
{
    let mut sum: u64 = 0;
    for (i, &extent) in extents.iter().enumerate() {
        let weight = layout::side_weight(extent, strides[i], below)?;
        sum = integer::checked_add_u64(sum, weight)?;
    }
    Some(sum)
}

// Where the cells of a view lie in a slice of `len` elements.
pub fn reach_of(extents: &[u64], strides: &[i64], offset: i64, len: usize) -> Reach
    requires { length strides.now ≡ length extents.now }
    ensures { result ≡ view_reach extents.now strides.now offset len }
{
    if offset < 0 {
        return Reach::Outside;
    }
    let at = offset as u64;
    if zero_in(extents) {
        if at <= len as u64 {
            return Reach::NoCells;
        }
        return Reach::Outside;
    }
    let down = side_reach(extents, strides, true);
    let up = side_reach(extents, strides, false);
    layout::cells_within(at, down, up, len)
}

pub fn held_span(
    extents: [u64; RAW_FUSED_RANK_LIMIT],
    strides: [i64; RAW_FUSED_RANK_LIMIT],
    rank: usize,
) -> Option<Span>
    ensures { result ≡ spanned (take rank extents) (take rank strides) }
{
    let n = layout::axis_count(rank);
    validate_layout_span(&extents[0..n], &strides[0..n])
}

pub fn has_zero(extents: [u64; RAW_FUSED_RANK_LIMIT], rank: usize) -> bool
    ensures { result ≡ has_zero (take rank extents) }
{
    let n = layout::axis_count(rank);
    zero_in(&extents[0..n])
}

pub fn is_nested(
    extents: [u64; RAW_FUSED_RANK_LIMIT],
    strides: [i64; RAW_FUSED_RANK_LIMIT],
    rank: usize,
) -> bool
    ensures { result ≡ nested (take rank extents) (take rank strides) }
{
    let n = layout::axis_count(rank);
    nested_in(&extents[0..n], &strides[0..n])
}

// Where the cells of a view by value lie in a slice of `len` elements.
pub fn view_reach(view: View, len: usize) -> Reach
    ensures { result ≡ view_reach (extents_of view.layout) (strides_of view.layout) view.offset len }
{
    let layout = view.layout;
    let extents = layout.extents;
    let strides = layout.strides;
    let n = layout::axis_count(layout.rank);
    reach_of(&extents[0..n], &strides[0..n], view.offset, len)
}
