// Scatter: compile's checks in the order of document 01, over lent extents and strides, and the two walks of its plan.
#![tactic(auto)]

ghost use Rattle.std.specs.Prelude.{◌≡◌, true, cond, [], ◌-◌, ◌≤◌, min, length, pos, Ok, Err};
ghost use Rattle.indexing.specs.Coordinates.{pick, spread};
ghost use Rattle.layout.specs.Answers.{is_done, or_else};
ghost use Rattle.layout.specs.Layouts.{rank_limit, padded};
ghost use Rattle.layout.specs.Lists.{unique_axes};
ghost use Rattle.layout.specs.Spans.{total_of};
ghost use Rattle.axis_lists.specs.Held.{same_list};
ghost use Rattle.checks.specs.Checks.{total_fits, nested_refusal, same_count, windows_fit, first_of, offset_fits};
ghost use Rattle.replay.specs.Replays.{compiled_replay};
ghost use Rattle.scatter_checks.specs.Refusals.{scatter_from, numbers_refusal, sizes_refusal, lists_refusal, count_at_most, axes_refusal, compile_refusal};
ghost use Rattle.scatter_checks.specs.Examine.{Listed, Walkable, walks_of, Examines};
ghost use Rattle.layout.specs.declared.Refusal.TheVariants as F;

use layout::{RAW_FUSED_RANK_LIMIT, Refusal};
use replay::CompiledReplay;

// What compile answers; where that is Done, the walks from batch to batch and from cell to cell of a window.
#[derive(Clone, Copy)]
pub struct Examined {
    pub answer: Result<(), Refusal>,
    pub batch: CompiledReplay,
    pub window: CompiledReplay,
}

// What is refused before the axes are looked at.
pub fn unexamined(answer: Result<(), Refusal>) -> Examined
    ensures { result.answer ≡ answer }
{
    let none = replay::refused_replay();
    Examined {
        answer,
        batch: none,
        window: none,
    }
}

// 3 for the products and the destination's span.
fn check_numbers(
    index: &[u64],
    updates: &[u64],
    extents: &[u64],
    strides: &[i64],
) -> Result<(), Refusal>
    requires { length strides.now ≡ length extents.now }
    ensures { result ≡ numbers_refusal index.now updates.now extents.now strides.now }
{
    checks::check_total(extents)?;
    checks::check_total(index)?;
    checks::check_total(updates)?;
    checks::check_span(extents, strides)
}

// 1 and 2, then 3 for products and span: what is asked before 4.
#[tactic(auto, unfolding(crate::specs::Refusals::sizes_refusal))]
fn check_sizes(
    ie: &[u64],
    is: &[i64],
    ue: &[u64],
    us: &[i64],
    de: &[u64],
    ds: &[i64],
) -> Result<(), Refusal>
    ensures { result ≡ sizes_refusal ie.now is.now ue.now us.now de.now ds.now }
{
    checks::check_layouts(ie.len(), is.len(), ue.len(), us.len(), de.len(), ds.len())?;
    check_numbers(ie, ue, de, ds)
}

// 6 for the inserted axes, the scatter map and the vector axis, then 5 for the component count.
fn check_lists(
    index: &[u64],
    dest: &[u64],
    inserted: &[u64],
    map: &[u64],
    vector: u64,
) -> Result<(), Refusal>
    ensures { result ≡ lists_refusal index.now dest.now inserted.now map.now vector }
{
    let rank = dest.len() as u64;
    layout::validate_unique_axes(inserted, rank)?;
    layout::validate_unique_axes(map, rank)?;
    checks::check_vector_axis(vector, index.len())?;
    checks::check_same_count(checks::component_count(index, vector), map.len() as u64)
}

// 5 where a count is above another.
fn check_at_most(a: u64, b: u64) -> Result<(), Refusal>
    ensures { result ≡ count_at_most a b }
{
    if a <= b {
        Ok(())
    } else {
        Err(Refusal::RankMismatch(a, b))
    }
}

// 5 for the counts of window axes, against kept axes, and of batch axes, then 6 for the window axes.
fn check_counts(updates: &[u64], window: &[u64], kept: usize, batch: usize) -> Result<(), Refusal>
    ensures { result ≡ or_else (same_count (length window.now) kept) (or_else (count_at_most (length window.now) (length updates.now)) (or_else (same_count (length updates.now - length window.now) batch) (unique_axes (length updates.now) [] window.now))) }
{
    let count = window.len() as u64;
    let rank = updates.len() as u64;
    checks::check_same_count(count, kept as u64)?;
    check_at_most(count, rank)?;
    checks::check_same_count(rank - count, batch as u64)?;
    layout::validate_unique_axes(window, rank)
}

// 7 where the batch extents of the updates are not those of the index view.
fn check_batch(updates: &[u64], batch: &[u64], index: &[u64], starts: &[u64]) -> Result<(), Refusal>
    ensures { result ≡ cond (same_list (pick 0 batch.now updates.now) (pick 0 starts.now index.now)) (Ok tt) (Err (F.ShapeMismatch (length updates.now) (length updates.now))) }
{
    let rank = updates.len() as u64;
    if axis_lists::picked_same(batch, updates, starts, index) {
        Ok(())
    } else {
        Err(Refusal::ShapeMismatch(rank, rank))
    }
}

// What is asked after 4 and before the windows. `kept` are the destination's axes that are not inserted, `batch` the updates' that are
// not window axes, `starts` the index view's but the vector axis.
fn check_axes(
    index_extents: &[u64],
    index_strides: &[i64],
    updates_extents: &[u64],
    updates_strides: &[i64],
    dest_extents: &[u64],
    dest_strides: &[i64],
    window: &[u64],
    inserted: &[u64],
    map: &[u64],
    vector: u64,
    kept: &[u64],
    batch: &[u64],
    starts: &[u64],
) -> Result<(), Refusal>
    requires { Listed (scatter_from index_extents.now index_strides.now updates_extents.now updates_strides.now dest_extents.now dest_strides.now window.now inserted.now map.now vector) kept.now batch.now starts.now }
    ensures { result ≡ axes_refusal (scatter_from index_extents.now index_strides.now updates_extents.now updates_strides.now dest_extents.now dest_strides.now window.now inserted.now map.now vector) }
{
    check_lists(index_extents, dest_extents, inserted, map, vector)?;
    check_counts(updates_extents, window, kept.len(), starts.len())?;
    check_batch(updates_extents, batch, index_extents, starts)
}

// The extents on the axes, in the axes' order.
pub fn picked_extents(axes: &[u64], list: &[u64]) -> [u64; RAW_FUSED_RANK_LIMIT]
    requires { length axes.now ≤ rank_limit }
    ensures { result ≡ padded rank_limit 0 (pick 0 axes.now list.now) }
{
    axis_lists::pick(axes, list, 0).entries
}

// n windows (at most the rank limit): on each kept axis the extent of the update axis that stands with it, and 1 on every other.
pub fn spread_windows(
    n: usize,
    kept: &[u64],
    window: &[u64],
    updates: &[u64],
) -> [u64; RAW_FUSED_RANK_LIMIT]
    requires { length window.now ≡ length kept.now }
    ensures { result ≡ padded rank_limit 1 (spread 1 (min n rank_limit) kept.now (pick 0 window.now updates.now)) }
{
    let m = layout::axis_count(n) as u64;
    let mut out = [1u64; RAW_FUSED_RANK_LIMIT];
    for i in (0..kept.len()).rev() {
        let place = kept[i];
        if place < m {
            out[place as usize] = axis_lists::entry_at(updates, window[i]);
        }
    }
    out
}

// 6 for the first window above its extent.
fn check_windows(dest: &[u64], kept: &[u64], window: &[u64], updates: &[u64]) -> Result<(), Refusal>
    requires { (length window.now ≡ length kept.now) × (length dest.now ≤ rank_limit) }
    ensures { result ≡ windows_fit 0 dest.now (spread 1 (length dest.now) kept.now (pick 0 window.now updates.now)) }
{
    let sizes = spread_windows(dest.len(), kept, window, updates);
    checks::check_windows(&sizes[..dest.len()], dest)
}

// 3 where the product of the extents on the axes does not fit.
fn check_product(axes: &[u64], list: &[u64]) -> Result<(), Refusal>
    requires { length axes.now ≤ rank_limit }
    ensures { result ≡ total_fits (total_of (pick 0 axes.now list.now)) }
{
    let sizes = axis_lists::pick(axes, list, 0);
    checks::check_total(sizes.as_slice())
}

// The walk over the extents on the axes: the source's strides on some axes of its own, the destination's on others.
fn walk_along(
    axes: &[u64],
    extents: &[u64],
    from: &[u64],
    source: &[i64],
    to: &[u64],
    dest: &[i64],
) -> CompiledReplay
    requires { (length axes.now ≤ rank_limit) × (length from.now ≡ length axes.now) × (length to.now ≡ length axes.now) }
    ensures { result ≡ compiled_replay (pick 0 axes.now extents.now) (pick (pos 0) from.now source.now) (pick (pos 0) to.now dest.now) }
{
    let shape = picked_extents(axes, extents);
    let source_steps = components::strides_on(from, source);
    let dest_steps = components::strides_on(to, dest);
    replay::compile_window_replay(shape, source_steps, dest_steps, axes.len())
}

// 6 for the windows, 3 for the products, what the two walks answered, and 3 for the component offsets.
fn check_walks(
    dest: &[u64],
    updates: &[u64],
    kept: &[u64],
    window: &[u64],
    batch: &[u64],
    batches: Result<(), Refusal>,
    cells: Result<(), Refusal>,
    stride: i64,
    components: u64,
) -> Result<(), Refusal>
    requires { (length window.now ≡ length kept.now) × (length dest.now ≤ rank_limit) × (length window.now ≤ rank_limit) × (length batch.now ≤ rank_limit) }
    ensures { result ≡ or_else (windows_fit 0 dest.now (spread 1 (length dest.now) kept.now (pick 0 window.now updates.now))) (or_else (total_fits (total_of (pick 0 batch.now updates.now))) (or_else (total_fits (total_of (pick 0 window.now updates.now))) (or_else batches (or_else cells (first_of (offset_fits stride) components 0))))) }
{
    check_windows(dest, kept, window, updates)?;
    check_product(batch, updates)?;
    check_product(window, updates)?;
    batches?;
    cells?;
    components::check_components(stride, components)
}

// Windows, products, both walks and the component offsets. From batch to batch the index view's starts are the source and the
// updates the destination; from cell to cell of a window the updates are the source and the grid the destination.
fn examine_walks(
    index_extents: &[u64],
    index_strides: &[i64],
    updates_extents: &[u64],
    updates_strides: &[i64],
    dest_extents: &[u64],
    dest_strides: &[i64],
    window: &[u64],
    inserted: &[u64],
    map: &[u64],
    vector: u64,
    kept: &[u64],
    batch: &[u64],
    starts: &[u64],
) -> Examined
    requires { Walkable (scatter_from index_extents.now index_strides.now updates_extents.now updates_strides.now dest_extents.now dest_strides.now window.now inserted.now map.now vector) kept.now batch.now starts.now }
    ensures { result ≡ walks_of (scatter_from index_extents.now index_strides.now updates_extents.now updates_strides.now dest_extents.now dest_strides.now window.now inserted.now map.now vector) }
{
    let batches = walk_along(
        batch,
        updates_extents,
        starts,
        index_strides,
        batch,
        updates_strides,
    );
    let cells = walk_along(
        window,
        updates_extents,
        window,
        updates_strides,
        kept,
        dest_strides,
    );
    let answer = check_walks(
        dest_extents,
        updates_extents,
        kept,
        window,
        batch,
        batches.answer,
        cells.answer,
        axis_lists::stride_at(index_strides, vector),
        map.len() as u64,
    );
    Examined {
        answer,
        batch: batches,
        window: cells,
    }
}

// What is asked from 4 on, given what is answered in its place and the axes that the spec does not list.
fn examine_axes(
    index_extents: &[u64],
    index_strides: &[i64],
    updates_extents: &[u64],
    updates_strides: &[i64],
    dest_extents: &[u64],
    dest_strides: &[i64],
    window: &[u64],
    inserted: &[u64],
    map: &[u64],
    vector: u64,
    four: Result<(), Refusal>,
    kept: &[u64],
    batch: &[u64],
    starts: &[u64],
) -> Examined
    requires { Listed (scatter_from index_extents.now index_strides.now updates_extents.now updates_strides.now dest_extents.now dest_strides.now window.now inserted.now map.now vector) kept.now batch.now starts.now }
    ensures { Examines result four (scatter_from index_extents.now index_strides.now updates_extents.now updates_strides.now dest_extents.now dest_strides.now window.now inserted.now map.now vector) }
{
    let axes = check_axes(
        index_extents,
        index_strides,
        updates_extents,
        updates_strides,
        dest_extents,
        dest_strides,
        window,
        inserted,
        map,
        vector,
        kept,
        batch,
        starts,
    );
    if let Err(refusal) = four.and(axes) {
        return unexamined(Err(refusal));
    }
    examine_walks(
        index_extents,
        index_strides,
        updates_extents,
        updates_strides,
        dest_extents,
        dest_strides,
        window,
        inserted,
        map,
        vector,
        kept,
        batch,
        starts,
    )
}

// The rest of a scatter whose sizes are not refused, given what is answered in the place of 4.
pub fn examine_from(
    index_extents: &[u64],
    index_strides: &[i64],
    updates_extents: &[u64],
    updates_strides: &[i64],
    dest_extents: &[u64],
    dest_strides: &[i64],
    update_window_dims: &[u64],
    inserted_window_dims: &[u64],
    scatter_dims_to_operand_dims: &[u64],
    index_vector_dim: u64,
    four: Result<(), Refusal>,
) -> Examined
    requires { is_done (sizes_refusal index_extents.now index_strides.now updates_extents.now updates_strides.now dest_extents.now dest_strides.now) ≡ true }
    ensures { Examines result four (scatter_from index_extents.now index_strides.now updates_extents.now updates_strides.now dest_extents.now dest_strides.now update_window_dims.now inserted_window_dims.now scatter_dims_to_operand_dims.now index_vector_dim) }
{
    let kept = axis_lists::other_axes(dest_extents.len(), inserted_window_dims);
    let batch = axis_lists::other_axes(updates_extents.len(), update_window_dims);
    let starts = axis_lists::other_axes(index_extents.len(), &[index_vector_dim]);
    examine_axes(
        index_extents,
        index_strides,
        updates_extents,
        updates_strides,
        dest_extents,
        dest_strides,
        update_window_dims,
        inserted_window_dims,
        scatter_dims_to_operand_dims,
        index_vector_dim,
        four,
        kept.as_slice(),
        batch.as_slice(),
        starts.as_slice(),
    )
}

// The first refusal of a scatter in document 01's order, or Done, with its two walks.
pub fn examine(
    index_extents: &[u64],
    index_strides: &[i64],
    updates_extents: &[u64],
    updates_strides: &[i64],
    dest_extents: &[u64],
    dest_strides: &[i64],
    update_window_dims: &[u64],
    inserted_window_dims: &[u64],
    scatter_dims_to_operand_dims: &[u64],
    index_vector_dim: u64,
) -> Examined
    ensures { Examines result (nested_refusal dest_extents.now dest_strides.now) (scatter_from index_extents.now index_strides.now updates_extents.now updates_strides.now dest_extents.now dest_strides.now update_window_dims.now inserted_window_dims.now scatter_dims_to_operand_dims.now index_vector_dim) }
{
    let sizes = check_sizes(
        index_extents,
        index_strides,
        updates_extents,
        updates_strides,
        dest_extents,
        dest_strides,
    );
    if let Err(refusal) = sizes {
        return unexamined(Err(refusal));
    }
    let four = checks::check_nested(dest_extents, dest_strides);
    examine_from(
        index_extents,
        index_strides,
        updates_extents,
        updates_strides,
        dest_extents,
        dest_strides,
        update_window_dims,
        inserted_window_dims,
        scatter_dims_to_operand_dims,
        index_vector_dim,
        four,
    )
}

// The same at a call, where 4 is not tried again.
pub fn examine_again(
    index_extents: &[u64],
    index_strides: &[i64],
    updates_extents: &[u64],
    updates_strides: &[i64],
    dest_extents: &[u64],
    dest_strides: &[i64],
    update_window_dims: &[u64],
    inserted_window_dims: &[u64],
    scatter_dims_to_operand_dims: &[u64],
    index_vector_dim: u64,
) -> Examined
    ensures { Examines result (Ok tt) (scatter_from index_extents.now index_strides.now updates_extents.now updates_strides.now dest_extents.now dest_strides.now update_window_dims.now inserted_window_dims.now scatter_dims_to_operand_dims.now index_vector_dim) }
{
    let sizes = check_sizes(
        index_extents,
        index_strides,
        updates_extents,
        updates_strides,
        dest_extents,
        dest_strides,
    );
    if let Err(refusal) = sizes {
        return unexamined(Err(refusal));
    }
    examine_from(
        index_extents,
        index_strides,
        updates_extents,
        updates_strides,
        dest_extents,
        dest_strides,
        update_window_dims,
        inserted_window_dims,
        scatter_dims_to_operand_dims,
        index_vector_dim,
        Ok(()),
    )
}

// The first refusal of a scatter in document 01's order, or Done.
pub fn scatter_refusal(
    index_extents: &[u64],
    index_strides: &[i64],
    updates_extents: &[u64],
    updates_strides: &[i64],
    dest_extents: &[u64],
    dest_strides: &[i64],
    update_window_dims: &[u64],
    inserted_window_dims: &[u64],
    scatter_dims_to_operand_dims: &[u64],
    index_vector_dim: u64,
) -> Result<(), Refusal>
    ensures { result ≡ compile_refusal (scatter_from index_extents.now index_strides.now updates_extents.now updates_strides.now dest_extents.now dest_strides.now update_window_dims.now inserted_window_dims.now scatter_dims_to_operand_dims.now index_vector_dim) }
{
    let found = examine(
        index_extents,
        index_strides,
        updates_extents,
        updates_strides,
        dest_extents,
        dest_strides,
        update_window_dims,
        inserted_window_dims,
        scatter_dims_to_operand_dims,
        index_vector_dim,
    );
    found.answer
}
