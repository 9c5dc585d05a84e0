// Scatter with an operand: what a call by lists decides before it touches an element, with no plan by value: compile and the call in one.
#![tactic(auto)]

ghost use Rattle.checks.specs.Checks.{view_from};
ghost use Rattle.std.specs.Prelude.{◌≡◌, ◌&&◌};
ghost use Rattle.calls.specs.Calls.{view_with, same_view, same_views};
ghost use Rattle.scatter_checks.specs.Refusals.{scatter_from};
ghost use Rattle.operand_lists.specs.Lists.{ListedOn};

use scatter_move::PreparedScatter;

// Whether four views have the layouts of four others.
fn same_views(
    operand_view_extents: &[u64],
    operand_view_strides: &[i64],
    index_view_extents: &[u64],
    index_view_strides: &[i64],
    updates_view_extents: &[u64],
    updates_view_strides: &[i64],
    dest_view_extents: &[u64],
    dest_view_strides: &[i64],
    operand_extents: &[u64],
    operand_strides: &[i64],
    index_extents: &[u64],
    index_strides: &[i64],
    updates_extents: &[u64],
    updates_strides: &[i64],
    dest_extents: &[u64],
    dest_strides: &[i64],
) -> bool
    ensures { result ≡ (same_view (view_from operand_view_extents.now operand_view_strides.now) (view_from operand_extents.now operand_strides.now) && same_views (view_from index_view_extents.now index_view_strides.now) (view_from updates_view_extents.now updates_view_strides.now) (view_from dest_view_extents.now dest_view_strides.now) (view_from index_extents.now index_strides.now) (view_from updates_extents.now updates_strides.now) (view_from dest_extents.now dest_strides.now)) }
{
    let first = calls::same_view(
        operand_view_extents,
        operand_view_strides,
        operand_extents,
        operand_strides,
    );
    let second = calls::same_view(
        index_view_extents,
        index_view_strides,
        index_extents,
        index_strides,
    );
    let third = calls::same_view(
        updates_view_extents,
        updates_view_strides,
        updates_extents,
        updates_strides,
    );
    let fourth = calls::same_view(
        dest_view_extents,
        dest_view_strides,
        dest_extents,
        dest_strides,
    );
    first & (second & (third & fourth))
}

// A call on any four views: compile's refusal, then 8 where a view has another layout than was compiled for, then 9.
pub fn prepare_views(
    operand_extents: &[u64],
    operand_strides: &[i64],
    index_extents: &[u64],
    index_strides: &[i64],
    updates_extents: &[u64],
    updates_strides: &[i64],
    dest_extents: &[u64],
    dest_strides: &[i64],
    update_window_dims: &[u64],
    inserted_window_dims: &[u64],
    scatter_dims_to_operand_dims: &[u64],
    index_vector_dim: u64,
    operand_view_extents: &[u64],
    operand_view_strides: &[i64],
    operand_offset: i64,
    index_view_extents: &[u64],
    index_view_strides: &[i64],
    index_offset: i64,
    updates_view_extents: &[u64],
    updates_view_strides: &[i64],
    updates_offset: i64,
    dest_view_extents: &[u64],
    dest_view_strides: &[i64],
    dest_offset: i64,
    operand_len: usize,
    starts_len: usize,
    updates_len: usize,
    dest_len: usize,
) -> PreparedScatter
    ensures { ListedOn result (view_from operand_extents.now operand_strides.now) (scatter_from index_extents.now index_strides.now updates_extents.now updates_strides.now dest_extents.now dest_strides.now update_window_dims.now inserted_window_dims.now scatter_dims_to_operand_dims.now index_vector_dim) (view_with operand_view_extents.now operand_view_strides.now operand_offset) (view_with index_view_extents.now index_view_strides.now index_offset) (view_with updates_view_extents.now updates_view_strides.now updates_offset) (view_with dest_view_extents.now dest_view_strides.now dest_offset) operand_len starts_len updates_len dest_len }
{
    let same = same_views(
        operand_view_extents,
        operand_view_strides,
        index_view_extents,
        index_view_strides,
        updates_view_extents,
        updates_view_strides,
        dest_view_extents,
        dest_view_strides,
        operand_extents,
        operand_strides,
        index_extents,
        index_strides,
        updates_extents,
        updates_strides,
        dest_extents,
        dest_strides,
    );
    let found = operand_checks::examine(
        operand_extents,
        operand_strides,
        index_extents,
        index_strides,
        updates_extents,
        updates_strides,
        dest_extents,
        dest_strides,
        update_window_dims,
        inserted_window_dims,
        scatter_dims_to_operand_dims,
        index_vector_dim,
    );
    let compiled = found.answer;
    let eight = calls::check_plan(same);
    let refusal = checks::or_else(compiled, eight);
    if !layout::is_done(refusal) {
        return scatter_move::refused(refusal);
    }
    let w = spans::reach_of(
        operand_extents,
        operand_strides,
        operand_offset,
        operand_len,
    );
    let x = spans::reach_of(index_extents, index_strides, index_offset, starts_len);
    let y = spans::reach_of(
        updates_extents,
        updates_strides,
        updates_offset,
        updates_len,
    );
    let z = spans::reach_of(dest_extents, dest_strides, dest_offset, dest_len);
    let answer = operand_calls::check_bounds(w, x, y, z);
    if !layout::is_done(answer) {
        return scatter_move::refused(answer);
    }
    let from_batch = found.batch;
    let from_cell = found.window;
    scatter_lists::prepared_from(
        index_extents,
        index_strides,
        updates_extents,
        updates_strides,
        dest_extents,
        dest_strides,
        update_window_dims,
        inserted_window_dims,
        scatter_dims_to_operand_dims,
        index_vector_dim,
        from_batch,
        from_cell,
        index_offset,
        updates_offset,
        dest_offset,
        z,
    )
}
