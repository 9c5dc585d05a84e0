// Scatter: what a call by lists decides before it touches an element, with no plan by value: compile and the call in one.
#![tactic(auto)]

ghost use Rattle.std.specs.Prelude.{◌≡◌, ◌≤◌, length};
ghost use Rattle.indexing.specs.Coordinates.{pick, spread, others, tabulate};
ghost use Rattle.layout.specs.Layouts.{rank_limit};
ghost use Rattle.components.specs.Components.{limit_at};
ghost use Rattle.calls.specs.Calls.{view_with};
ghost use Rattle.scatter_checks.specs.Refusals.{scatter_from};
ghost use Rattle.scatter_checks.specs.Examine.{Found};
ghost use Rattle.scatter_move.specs.Prepared.{scatter_numbers};
ghost use Rattle.scatter_lists.specs.Lists.{ListedOn, ListedAt, prepared_at};

use layout::{RAW_FUSED_RANK_LIMIT, Reach, Refusal};
use replay::CompiledReplay;
use scatter_move::{PreparedScatter, ScatterNumbers};

// The last start of each component, by the windows that the updates have on the axes that are not inserted.
fn limits_by(
    updates: &[u64],
    dest: &[u64],
    window: &[u64],
    inserted: &[u64],
    map: &[u64],
) -> [u64; RAW_FUSED_RANK_LIMIT]
    requires { (length dest.now ≤ rank_limit) × (length window.now ≡ length (others (length dest.now) inserted.now)) }
    ensures { result ≡ tabulate rank_limit (limit_at dest.now (spread 1 (length dest.now) (others (length dest.now) inserted.now) (pick 0 window.now updates.now)) map.now) }
{
    let kept = axis_lists::other_axes(dest.len(), inserted);
    let axes = kept.entries;
    let n = kept.count;
    let sizes = scatter_checks::spread_windows(dest.len(), &axes[0..n], window, updates);
    let m = dest.len();
    components::limits_on(map, dest, &sizes[0..m])
}

// The numbers that the batches and the windows of a scatter are moved with, given the walks that compile's checks found.
fn numbers_on(
    index_extents: &[u64],
    index_strides: &[i64],
    updates_extents: &[u64],
    updates_strides: &[i64],
    dest_extents: &[u64],
    dest_strides: &[i64],
    update_window_dims: &[u64],
    inserted_window_dims: &[u64],
    scatter_dims_to_operand_dims: &[u64],
    index_vector_dim: u64,
    from_batch: CompiledReplay,
    from_cell: CompiledReplay,
) -> ScatterNumbers
    requires { Found (scatter_from index_extents.now index_strides.now updates_extents.now updates_strides.now dest_extents.now dest_strides.now update_window_dims.now inserted_window_dims.now scatter_dims_to_operand_dims.now index_vector_dim) from_batch from_cell }
    ensures { result ≡ scatter_numbers (scatter_from index_extents.now index_strides.now updates_extents.now updates_strides.now dest_extents.now dest_strides.now update_window_dims.now inserted_window_dims.now scatter_dims_to_operand_dims.now index_vector_dim) }
{
    let count = scatter_dims_to_operand_dims.len();
    let batch = from_batch.replay;
    let window = from_cell.replay;
    let batch_extents = batch.extents;
    let window_extents = window.extents;
    let batch_axes = from_batch.axes;
    let window_axes = from_cell.axes;
    let batch_rows = replay::rows_of(batch_axes);
    let window_rows = replay::rows_of(window_axes);
    let index = scatter_move::source_steps(batch_rows);
    let stepped = components::unless_none(count, index);
    let update_steps = scatter_move::dest_steps(batch_rows);
    let window_steps = scatter_move::source_steps(window_rows);
    let steps = scatter_move::dest_steps(window_rows);
    let stride = axis_lists::stride_at(index_strides, index_vector_dim);
    let index_component_offsets = components::index_component_offsets(stride, count);
    let offsets = index_component_offsets.entries;
    let strides = components::strides_on(scatter_dims_to_operand_dims, dest_strides);
    let limits = limits_by(
        updates_extents,
        dest_extents,
        update_window_dims,
        inserted_window_dims,
        scatter_dims_to_operand_dims,
    );
    let batches = scatter_plan::batch_elems(updates_extents, update_window_dims);
    ScatterNumbers {
        batch_rank: batch.rank,
        batches,
        batch_extents,
        index_steps: stepped,
        update_steps,
        window_rank: window.rank,
        window_extents,
        window_steps,
        dest_steps: steps,
        count,
        offsets,
        strides,
        limits,
    }
}

// What is ready to be moved, where compile found these walks and the views, which begin at the three offsets, pass the test of 9.
pub fn prepared_from(
    index_extents: &[u64],
    index_strides: &[i64],
    updates_extents: &[u64],
    updates_strides: &[i64],
    dest_extents: &[u64],
    dest_strides: &[i64],
    update_window_dims: &[u64],
    inserted_window_dims: &[u64],
    scatter_dims_to_operand_dims: &[u64],
    index_vector_dim: u64,
    from_batch: CompiledReplay,
    from_cell: CompiledReplay,
    index_offset: i64,
    updates_offset: i64,
    dest_offset: i64,
    reach: Reach,
) -> PreparedScatter
    requires { Found (scatter_from index_extents.now index_strides.now updates_extents.now updates_strides.now dest_extents.now dest_strides.now update_window_dims.now inserted_window_dims.now scatter_dims_to_operand_dims.now index_vector_dim) from_batch from_cell }
    ensures { result ≡ prepared_at (scatter_from index_extents.now index_strides.now updates_extents.now updates_strides.now dest_extents.now dest_strides.now update_window_dims.now inserted_window_dims.now scatter_dims_to_operand_dims.now index_vector_dim) index_offset updates_offset dest_offset reach }
{
    let numbers = numbers_on(
        index_extents,
        index_strides,
        updates_extents,
        updates_strides,
        dest_extents,
        dest_strides,
        update_window_dims,
        inserted_window_dims,
        scatter_dims_to_operand_dims,
        index_vector_dim,
        from_batch,
        from_cell,
    );
    let base = components::start_base(scatter_dims_to_operand_dims.len(), index_offset);
    let batch_axes = from_batch.axes;
    PreparedScatter {
        answer: Ok(()),
        reach,
        numbers,
        batch_axes,
        index: base,
        updates: updates_offset,
        dest: dest_offset,
    }
}

// A call on views that have the layouts compiled for and begin at the three offsets, given the lengths of their slices.
pub fn prepare(
    index_extents: &[u64],
    index_strides: &[i64],
    updates_extents: &[u64],
    updates_strides: &[i64],
    dest_extents: &[u64],
    dest_strides: &[i64],
    update_window_dims: &[u64],
    inserted_window_dims: &[u64],
    scatter_dims_to_operand_dims: &[u64],
    index_vector_dim: u64,
    index_offset: i64,
    updates_offset: i64,
    dest_offset: i64,
    starts_len: usize,
    updates_len: usize,
    dest_len: usize,
) -> PreparedScatter
    ensures { ListedAt result (scatter_from index_extents.now index_strides.now updates_extents.now updates_strides.now dest_extents.now dest_strides.now update_window_dims.now inserted_window_dims.now scatter_dims_to_operand_dims.now index_vector_dim) index_offset updates_offset dest_offset starts_len updates_len dest_len }
{
    let found = scatter_checks::examine(
        index_extents,
        index_strides,
        updates_extents,
        updates_strides,
        dest_extents,
        dest_strides,
        update_window_dims,
        inserted_window_dims,
        scatter_dims_to_operand_dims,
        index_vector_dim,
    );
    let refusal = found.answer;
    if !layout::is_done(refusal) {
        return scatter_move::refused(refusal);
    }
    let x = spans::reach_of(index_extents, index_strides, index_offset, starts_len);
    let y = spans::reach_of(
        updates_extents,
        updates_strides,
        updates_offset,
        updates_len,
    );
    let z = spans::reach_of(dest_extents, dest_strides, dest_offset, dest_len);
    let answer = calls::check_bounds(x, y, z);
    if !layout::is_done(answer) {
        return scatter_move::refused(answer);
    }
    let from_batch = found.batch;
    let from_cell = found.window;
    prepared_from(
        index_extents,
        index_strides,
        updates_extents,
        updates_strides,
        dest_extents,
        dest_strides,
        update_window_dims,
        inserted_window_dims,
        scatter_dims_to_operand_dims,
        index_vector_dim,
        from_batch,
        from_cell,
        index_offset,
        updates_offset,
        dest_offset,
        z,
    )
}

// A call on any three views. Those that have other layouts than were compiled for are refused, by compile or by 8.
pub fn prepare_views(
    index_extents: &[u64],
    index_strides: &[i64],
    updates_extents: &[u64],
    updates_strides: &[i64],
    dest_extents: &[u64],
    dest_strides: &[i64],
    update_window_dims: &[u64],
    inserted_window_dims: &[u64],
    scatter_dims_to_operand_dims: &[u64],
    index_vector_dim: u64,
    index_view_extents: &[u64],
    index_view_strides: &[i64],
    index_offset: i64,
    updates_view_extents: &[u64],
    updates_view_strides: &[i64],
    updates_offset: i64,
    dest_view_extents: &[u64],
    dest_view_strides: &[i64],
    dest_offset: i64,
    starts_len: usize,
    updates_len: usize,
    dest_len: usize,
) -> PreparedScatter
    ensures { ListedOn result (scatter_from index_extents.now index_strides.now updates_extents.now updates_strides.now dest_extents.now dest_strides.now update_window_dims.now inserted_window_dims.now scatter_dims_to_operand_dims.now index_vector_dim) (view_with index_view_extents.now index_view_strides.now index_offset) (view_with updates_view_extents.now updates_view_strides.now updates_offset) (view_with dest_view_extents.now dest_view_strides.now dest_offset) starts_len updates_len dest_len }
{
    let first = calls::same_view(
        index_view_extents,
        index_view_strides,
        index_extents,
        index_strides,
    );
    let second = calls::same_view(
        updates_view_extents,
        updates_view_strides,
        updates_extents,
        updates_strides,
    );
    let third = calls::same_view(
        dest_view_extents,
        dest_view_strides,
        dest_extents,
        dest_strides,
    );
    let same = first & (second & third);
    if same {
        return prepare(
            index_extents,
            index_strides,
            updates_extents,
            updates_strides,
            dest_extents,
            dest_strides,
            update_window_dims,
            inserted_window_dims,
            scatter_dims_to_operand_dims,
            index_vector_dim,
            index_offset,
            updates_offset,
            dest_offset,
            starts_len,
            updates_len,
            dest_len,
        );
    }
    let refusal = scatter_checks::scatter_refusal(
        index_extents,
        index_strides,
        updates_extents,
        updates_strides,
        dest_extents,
        dest_strides,
        update_window_dims,
        inserted_window_dims,
        scatter_dims_to_operand_dims,
        index_vector_dim,
    );
    let answer = checks::or_else(refusal, Err(Refusal::PlanLayoutMismatch));
    scatter_move::refused(answer)
}
