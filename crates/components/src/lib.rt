// The components of a start: where in the index view each is read, which stride it moves by, and the last start on its axis.
#![tactic(auto)]

ghost use Rattle.std.specs.Prelude.{◌≡◌, min, take, replicate, pos};
ghost use Rattle.indexing.specs.Coordinates.{pick, tabulate};
ghost use Rattle.layout.specs.Layouts.{rank_limit, padded, extents_of};
ghost use Rattle.axis_lists.specs.Held.{numbers_of, held_steps};
ghost use Rattle.checks.specs.Checks.{first_of, offset_fits};
ghost use Rattle.checks.specs.Values.{offset_or};
ghost use Rattle.components.specs.Components.{limit_at, unless_none};

use axis_lists::{Numbers, Steps};
use layout::{Layout, RAW_FUSED_RANK_LIMIT, Refusal};

fn check_offset(stride: i64, component: u64) -> Result<(), Refusal>
    ensures { result ≡ offset_fits stride component }
{
    match layout::checked_offset_add(0, stride, component) {
        Some(_) => Ok(()),
        None => Err(Refusal::OffsetOverflow),
    }
}

// 3 for the offsets of the components.
pub fn check_components(stride: i64, count: u64) -> Result<(), Refusal>
    ensures { result ≡ first_of (offset_fits stride) count 0 }
{
    for component in 0..count {
        check_offset(stride, component)?;
    }
    Ok(())
}

// Stride times component, and 0 where it does not fit.
fn offset_value(stride: i64, component: u64) -> i64
    ensures { result ≡ offset_or stride component }
{
    layout::checked_offset_add(0, stride, component).unwrap_or(0)
}

// The vector axis's stride times each component, of at most the rank limit.
pub fn index_component_offsets(stride: i64, count: usize) -> Steps
    ensures { result ≡ held_steps (tabulate (min count rank_limit) (offset_or stride)) }
{
    let n = layout::axis_count(count);
    let mut out = [0i64; RAW_FUSED_RANK_LIMIT];
    for i in 0..n {
        out[i] = offset_value(stride, i as u64);
    }
    Steps {
        count: n,
        entries: out,
    }
}

// The strides on the axes of a list, of at most the rank limit.
pub fn strides_on(map: &[u64], strides: &[i64]) -> [i64; RAW_FUSED_RANK_LIMIT]
    ensures { result ≡ padded rank_limit (pos 0) (pick (pos 0) (take rank_limit map.now) strides.now) }
{
    let n = layout::axis_count(map.len());
    let mut out = [0i64; RAW_FUSED_RANK_LIMIT];
    for i in 0..n {
        out[i] = axis_lists::stride_at(strides, map[i]);
    }
    out
}

// The last start of each component.
pub fn limits_on(map: &[u64], extents: &[u64], sizes: &[u64]) -> [u64; RAW_FUSED_RANK_LIMIT]
    ensures { result ≡ tabulate rank_limit (limit_at extents.now sizes.now map.now) }
{
    let mut out = [0u64; RAW_FUSED_RANK_LIMIT];
    for i in 0..RAW_FUSED_RANK_LIMIT {
        let axis = axis_lists::entry_at(map, i as u64);
        let extent = axis_lists::entry_at(extents, axis);
        let window = axis_lists::entry_at(sizes, axis);
        out[i] = extent.saturating_sub(window);
    }
    out
}

// The same by a layout and lists that are held by value.
pub fn limits_of(layout: Layout, sizes: Numbers, map: Numbers) -> [u64; RAW_FUSED_RANK_LIMIT]
    ensures { result ≡ tabulate rank_limit (limit_at (extents_of layout) (numbers_of sizes) (numbers_of map)) }
{
    let extents = layout.extents;
    let windows = sizes.entries;
    let axes = map.entries;
    let n = layout::axis_count(layout.rank);
    let m = layout::axis_count(sizes.count);
    let k = layout::axis_count(map.count);
    limits_on(&axes[0..k], &extents[0..n], &windows[0..m])
}

// The steps, or zeros where there are no components: then nothing of the index view is read or stepped.
pub fn unless_none(count: usize, steps: [i64; RAW_FUSED_RANK_LIMIT]) -> [i64; RAW_FUSED_RANK_LIMIT]
    ensures { result ≡ unless_none count (replicate rank_limit (pos 0)) steps }
{
    if count == 0 {
        [0i64; RAW_FUSED_RANK_LIMIT]
    } else {
        steps
    }
}

// The offset of the index view, or 0 where there are no components.
pub fn start_base(count: usize, offset: i64) -> i64
    ensures { result ≡ unless_none count (pos 0) offset }
{
    if count == 0 { 0 } else { offset }
}
