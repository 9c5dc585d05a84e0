// Gather: compile's checks in the order of document 01, over lent lists, and the steps of the destination's axes.
#![tactic(auto)]

ghost use Rattle.std.specs.Prelude.{◌≡◌, true, ◌&&◌, ◌≤◌, length, Ok};
ghost use Rattle.layout.specs.Answers.{is_done};
ghost use Rattle.layout.specs.Layouts.{rank_limit};
ghost use Rattle.layout.specs.Spans.{reset_of};
ghost use Rattle.checks.specs.Checks.{number_fits, nested_refusal, components_of};
ghost use Rattle.gather_checks.specs.Refusals.{gather_from, numbers_refusal, sizes_refusal, compile_refusal, lists_refusal, resets_refusal, collapsed_one, axis_resets};
ghost use Rattle.gather_checks.specs.Given.{counts_by, shape_by, shape_answer, Made, examined_by, Examines};

use layout::{RAW_FUSED_RANK_LIMIT, Refusal};

// What compile answers; where that is Done, what each axis of the destination adds to the place in the operand and in the index view,
// and zeros past the last.
#[derive(Clone, Copy)]
pub struct Examined {
    pub answer: Result<(), Refusal>,
    pub window: [i64; RAW_FUSED_RANK_LIMIT],
    pub batch: [i64; RAW_FUSED_RANK_LIMIT],
}

fn unexamined(answer: Result<(), Refusal>) -> Examined
    ensures { result.answer ≡ answer }
{
    let zeros = [0i64; RAW_FUSED_RANK_LIMIT];
    Examined {
        answer,
        window: zeros,
        batch: zeros,
    }
}

// 3 for products and spans.
fn check_numbers(
    oe: &[u64],
    os: &[i64],
    ie: &[u64],
    is: &[i64],
    de: &[u64],
    ds: &[i64],
) -> Result<(), Refusal>
    requires { (length os.now ≡ length oe.now) × (length is.now ≡ length ie.now) × (length ds.now ≡ length de.now) }
    ensures { result ≡ numbers_refusal oe.now os.now ie.now is.now de.now ds.now }
{
    checks::check_total(oe)?;
    checks::check_total(ie)?;
    checks::check_total(de)?;
    checks::check_span(oe, os)?;
    checks::check_span(ie, is)?;
    checks::check_span(de, ds)
}

// 1 and 2, then 3 for products and spans: what is asked before 4.
#[tactic(auto, unfolding(crate::specs::Refusals::sizes_refusal))]
fn check_sizes(
    oe: &[u64],
    os: &[i64],
    ie: &[u64],
    is: &[i64],
    de: &[u64],
    ds: &[i64],
) -> Result<(), Refusal>
    ensures { result ≡ sizes_refusal oe.now os.now ie.now is.now de.now ds.now }
{
    checks::check_layouts(oe.len(), os.len(), ie.len(), is.len(), de.len(), ds.len())?;
    check_numbers(oe, os, ie, is, de, ds)
}

// 6 for the first collapsed axis, in list order, whose window is not 1.
fn check_collapsed(rank: u64, sizes: &[u64], collapsed: &[u64]) -> Result<(), Refusal>
    ensures { result ≡ collapsed_one rank sizes.now collapsed.now }
{
    for &axis in collapsed {
        if axis_lists::entry_at(sizes, axis) != 1 {
            return Err(Refusal::InvalidAxis(axis, rank));
        }
    }
    Ok(())
}

fn check_reset(extent: u64, step: i64) -> Result<(), Refusal>
    ensures { result ≡ number_fits (reset_of extent step) }
{
    match layout::checked_replay_reset(extent, step) {
        Some(_) => Ok(()),
        None => Err(Refusal::OffsetOverflow),
    }
}

fn check_axis(extent: u64, dest: i64, window: i64, batch: i64) -> Result<(), Refusal>
    ensures { result ≡ axis_resets extent dest window batch }
{
    check_reset(extent, dest)?;
    check_reset(extent, window)?;
    check_reset(extent, batch)
}

// 3 for the resets of each axis.
fn check_resets(de: &[u64], ds: &[i64], window: &[i64], batch: &[i64]) -> Result<(), Refusal>
    requires { (length ds.now ≡ length de.now) × (length window.now ≡ length de.now) × (length batch.now ≡ length de.now) }
    ensures { result ≡ resets_refusal de.now ds.now window.now batch.now }
{
    for i in 0..de.len() {
        check_axis(de[i], ds[i], window[i], batch[i])?;
    }
    Ok(())
}

// The counts, lists and windows of a spec.
fn check_lists(
    oe: &[u64],
    ie: &[u64],
    collapsed: &[u64],
    map: &[u64],
    vector: u64,
    sizes: &[u64],
) -> Result<(), Refusal>
    ensures { result ≡ lists_refusal oe.now ie.now collapsed.now map.now vector sizes.now }
{
    let rank = oe.len() as u64;
    checks::check_same_count(sizes.len() as u64, rank)?;
    layout::validate_unique_axes(collapsed, rank)?;
    layout::validate_unique_axes(map, rank)?;
    checks::check_vector_axis(vector, ie.len())?;
    checks::check_windows(sizes, oe)?;
    check_collapsed(rank, sizes, collapsed)
}

// The counts of components and of window axes, and the window axes, given how many operand axes are shown and how many batch axes
// there are.
fn check_counts(
    ie: &[u64],
    shown: usize,
    starts: usize,
    offset_dims: &[u64],
    map: &[u64],
    vector: u64,
) -> Result<(), Refusal>
    requires { starts ≤ rank_limit }
    ensures { result ≡ counts_by (components_of ie.now vector) shown starts offset_dims.now map.now }
{
    let components = checks::component_count(ie, vector);
    let rank = starts as u64 + offset_dims.len() as u64;
    checks::check_same_count(components, map.len() as u64)?;
    checks::check_same_count(offset_dims.len() as u64, shown as u64)?;
    layout::validate_unique_axes(offset_dims, rank)
}

// Whether the destination has the window extents on `offset_dims` and the batch extents on its other axes: the window's sizes on the
// axes shown, the index view's extents on its batch axes.
fn shape_fits(
    shown: &[u64],
    starts: &[u64],
    others: &[u64],
    ie: &[u64],
    de: &[u64],
    offset_dims: &[u64],
    sizes: &[u64],
) -> bool
    requires { length starts.now ≤ rank_limit }
    ensures { result ≡ shape_by shown.now starts.now others.now ie.now de.now offset_dims.now sizes.now }
{
    let rank = starts.len() as u64 + offset_dims.len() as u64;
    de.len() as u64 == rank
        && axis_lists::picked_same(offset_dims, de, shown, sizes)
        && axis_lists::picked_same(others, de, starts, ie)
}

// 7 where the destination's shape is not the expected one.
fn check_shape(
    shown: &[u64],
    starts: &[u64],
    others: &[u64],
    ie: &[u64],
    de: &[u64],
    offset_dims: &[u64],
    sizes: &[u64],
) -> Result<(), Refusal>
    requires { length starts.now ≤ rank_limit }
    ensures { result ≡ shape_answer shown.now starts.now others.now ie.now de.now offset_dims.now sizes.now }
{
    if shape_fits(shown, starts, others, ie, de, offset_dims, sizes) {
        return Ok(());
    }
    let expected = starts.len() as u64 + offset_dims.len() as u64;
    Err(Refusal::ShapeMismatch(de.len() as u64, expected))
}

// What is asked from 4 on, given what is answered in its place, the operand's axes that are shown, the index view's batch axes and the
// destination's other axes.
fn examine_axes(
    oe: &[u64],
    os: &[i64],
    ie: &[u64],
    is: &[i64],
    de: &[u64],
    ds: &[i64],
    offset_dims: &[u64],
    collapsed: &[u64],
    map: &[u64],
    vector: u64,
    sizes: &[u64],
    four: Result<(), Refusal>,
    shown: &[u64],
    starts: &[u64],
    others: &[u64],
) -> Examined
    requires { Made de.now ds.now starts.now }
    ensures { result ≡ examined_by oe.now os.now ie.now is.now de.now ds.now offset_dims.now collapsed.now map.now vector sizes.now four shown.now starts.now others.now }
{
    let window = axis_lists::spread_picked(de.len(), offset_dims, shown, os);
    let batch = axis_lists::spread_picked(de.len(), others, starts, is);
    let lists = check_lists(oe, ie, collapsed, map, vector, sizes);
    let counts = check_counts(ie, shown.len(), starts.len(), offset_dims, map, vector);
    let shape = check_shape(shown, starts, others, ie, de, offset_dims, sizes);
    let n = de.len();
    let resets = check_resets(de, ds, &window[..n], &batch[..n]);
    let answer = four.and(lists).and(counts).and(shape).and(resets);
    Examined {
        answer,
        window,
        batch,
    }
}

// The rest of a gather whose sizes are not refused, given what is answered in the place of 4.
fn examine_from(
    operand_extents: &[u64],
    operand_strides: &[i64],
    index_extents: &[u64],
    index_strides: &[i64],
    dest_extents: &[u64],
    dest_strides: &[i64],
    offset_dims: &[u64],
    collapsed_slice_dims: &[u64],
    start_index_map: &[u64],
    index_vector_dim: u64,
    slice_sizes: &[u64],
    four: Result<(), Refusal>,
) -> Examined
    requires { is_done (sizes_refusal operand_extents.now operand_strides.now index_extents.now index_strides.now dest_extents.now dest_strides.now) ≡ true }
    ensures { Examines result four (gather_from operand_extents.now operand_strides.now index_extents.now index_strides.now dest_extents.now dest_strides.now offset_dims.now collapsed_slice_dims.now start_index_map.now index_vector_dim slice_sizes.now) }
{
    let kept = axis_lists::other_axes(operand_extents.len(), collapsed_slice_dims);
    let batch = axis_lists::other_axes(index_extents.len(), &[index_vector_dim]);
    let rest = axis_lists::other_axes(dest_extents.len(), offset_dims);
    examine_axes(
        operand_extents,
        operand_strides,
        index_extents,
        index_strides,
        dest_extents,
        dest_strides,
        offset_dims,
        collapsed_slice_dims,
        start_index_map,
        index_vector_dim,
        slice_sizes,
        four,
        kept.as_slice(),
        batch.as_slice(),
        rest.as_slice(),
    )
}

// The first refusal of a gather in document 01's order, or Done, with what each axis of the destination adds to the places in the
// operand and in the index view.
pub fn examine(
    operand_extents: &[u64],
    operand_strides: &[i64],
    index_extents: &[u64],
    index_strides: &[i64],
    dest_extents: &[u64],
    dest_strides: &[i64],
    offset_dims: &[u64],
    collapsed_slice_dims: &[u64],
    start_index_map: &[u64],
    index_vector_dim: u64,
    slice_sizes: &[u64],
) -> Examined
    ensures { Examines result (nested_refusal dest_extents.now dest_strides.now) (gather_from operand_extents.now operand_strides.now index_extents.now index_strides.now dest_extents.now dest_strides.now offset_dims.now collapsed_slice_dims.now start_index_map.now index_vector_dim slice_sizes.now) }
{
    let sizes = check_sizes(
        operand_extents,
        operand_strides,
        index_extents,
        index_strides,
        dest_extents,
        dest_strides,
    );
    if sizes.is_err() {
        return unexamined(sizes);
    }
    let four = checks::check_nested(dest_extents, dest_strides);
    examine_from(
        operand_extents,
        operand_strides,
        index_extents,
        index_strides,
        dest_extents,
        dest_strides,
        offset_dims,
        collapsed_slice_dims,
        start_index_map,
        index_vector_dim,
        slice_sizes,
        four,
    )
}

// The same at a call, where 4 is not tried again.
pub fn examine_again(
    operand_extents: &[u64],
    operand_strides: &[i64],
    index_extents: &[u64],
    index_strides: &[i64],
    dest_extents: &[u64],
    dest_strides: &[i64],
    offset_dims: &[u64],
    collapsed_slice_dims: &[u64],
    start_index_map: &[u64],
    index_vector_dim: u64,
    slice_sizes: &[u64],
) -> Examined
    ensures { Examines result (Ok tt) (gather_from operand_extents.now operand_strides.now index_extents.now index_strides.now dest_extents.now dest_strides.now offset_dims.now collapsed_slice_dims.now start_index_map.now index_vector_dim slice_sizes.now) }
{
    let sizes = check_sizes(
        operand_extents,
        operand_strides,
        index_extents,
        index_strides,
        dest_extents,
        dest_strides,
    );
    if sizes.is_err() {
        return unexamined(sizes);
    }
    examine_from(
        operand_extents,
        operand_strides,
        index_extents,
        index_strides,
        dest_extents,
        dest_strides,
        offset_dims,
        collapsed_slice_dims,
        start_index_map,
        index_vector_dim,
        slice_sizes,
        Ok(()),
    )
}

// The first refusal of a gather in document 01's order, or Done.
pub fn gather_refusal(
    operand_extents: &[u64],
    operand_strides: &[i64],
    index_extents: &[u64],
    index_strides: &[i64],
    dest_extents: &[u64],
    dest_strides: &[i64],
    offset_dims: &[u64],
    collapsed_slice_dims: &[u64],
    start_index_map: &[u64],
    index_vector_dim: u64,
    slice_sizes: &[u64],
) -> Result<(), Refusal>
    ensures { result ≡ compile_refusal (gather_from operand_extents.now operand_strides.now index_extents.now index_strides.now dest_extents.now dest_strides.now offset_dims.now collapsed_slice_dims.now start_index_map.now index_vector_dim slice_sizes.now) }
{
    let examined = examine(
        operand_extents,
        operand_strides,
        index_extents,
        index_strides,
        dest_extents,
        dest_strides,
        offset_dims,
        collapsed_slice_dims,
        start_index_map,
        index_vector_dim,
        slice_sizes,
    );
    examined.answer
}
