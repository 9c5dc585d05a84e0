// Gather: what a call by lists decides before it touches an element, with no plan by value: compile and the call in one.
#![tactic(auto)]

ghost use Rattle.std.specs.Prelude.{◌≡◌};
ghost use Rattle.calls.specs.Calls.{view_with};
ghost use Rattle.gather_checks.specs.Refusals.{gather_from};
ghost use Rattle.gather_checks.specs.Given.{Found};
ghost use Rattle.gather_move.specs.Prepared.{gather_numbers};
ghost use Rattle.gather_lists.specs.Lists.{ListedOn, ListedAt};

use gather_move::{GatherNumbers, PreparedGather};
use indexed_runs::Components;
use layout::{RAW_FUSED_RANK_LIMIT, Refusal};

// The numbers that the cells of a gather are moved with, given the steps that compile's checks found.
fn numbers_on(
    operand_extents: &[u64],
    operand_strides: &[i64],
    index_extents: &[u64],
    index_strides: &[i64],
    dest_extents: &[u64],
    dest_strides: &[i64],
    offset_dims: &[u64],
    collapsed_slice_dims: &[u64],
    start_index_map: &[u64],
    index_vector_dim: u64,
    slice_sizes: &[u64],
    window: [i64; RAW_FUSED_RANK_LIMIT],
    batch: [i64; RAW_FUSED_RANK_LIMIT],
) -> GatherNumbers
    requires { Found (gather_from operand_extents.now operand_strides.now index_extents.now index_strides.now dest_extents.now dest_strides.now offset_dims.now collapsed_slice_dims.now start_index_map.now index_vector_dim slice_sizes.now) window batch }
    ensures { result ≡ gather_numbers (gather_from operand_extents.now operand_strides.now index_extents.now index_strides.now dest_extents.now dest_strides.now offset_dims.now collapsed_slice_dims.now start_index_map.now index_vector_dim slice_sizes.now) }
{
    let stride = axis_lists::stride_at(index_strides, index_vector_dim);
    let index_component_offsets = components::index_component_offsets(
        stride,
        start_index_map.len(),
    );
    let offsets = index_component_offsets.entries;
    let strides = components::strides_on(start_index_map, operand_strides);
    let limits = components::limits_on(start_index_map, operand_extents, slice_sizes);
    let stepped = components::unless_none(start_index_map.len(), batch);
    let extents = layout::padded_extents(dest_extents);
    let batch_extents = gather_move::batch_extents(extents, offset_dims);
    let dest_steps = layout::padded_strides(dest_strides);
    let components = Components {
        count: start_index_map.len(),
        offsets,
        strides,
        limits,
    };
    GatherNumbers {
        rank: dest_extents.len(),
        extents,
        batch_extents,
        window_steps: window,
        batch_steps: stepped,
        dest_steps,
        components,
    }
}

// A call on views that have the layouts compiled for and begin at the three offsets, given the lengths of their slices.
pub fn prepare(
    operand_extents: &[u64],
    operand_strides: &[i64],
    index_extents: &[u64],
    index_strides: &[i64],
    dest_extents: &[u64],
    dest_strides: &[i64],
    offset_dims: &[u64],
    collapsed_slice_dims: &[u64],
    start_index_map: &[u64],
    index_vector_dim: u64,
    slice_sizes: &[u64],
    operand_offset: i64,
    index_offset: i64,
    dest_offset: i64,
    operand_len: usize,
    starts_len: usize,
    dest_len: usize,
) -> PreparedGather
    ensures { ListedAt result (gather_from operand_extents.now operand_strides.now index_extents.now index_strides.now dest_extents.now dest_strides.now offset_dims.now collapsed_slice_dims.now start_index_map.now index_vector_dim slice_sizes.now) operand_offset index_offset dest_offset operand_len starts_len dest_len }
{
    let found = gather_checks::examine(
        operand_extents,
        operand_strides,
        index_extents,
        index_strides,
        dest_extents,
        dest_strides,
        offset_dims,
        collapsed_slice_dims,
        start_index_map,
        index_vector_dim,
        slice_sizes,
    );
    let refusal = found.answer;
    if !layout::is_done(refusal) {
        return gather_move::refused(refusal);
    }
    let x = spans::reach_of(
        operand_extents,
        operand_strides,
        operand_offset,
        operand_len,
    );
    let y = spans::reach_of(index_extents, index_strides, index_offset, starts_len);
    let z = spans::reach_of(dest_extents, dest_strides, dest_offset, dest_len);
    let answer = calls::check_bounds(x, y, z);
    if !layout::is_done(answer) {
        return gather_move::refused(answer);
    }
    let window = found.window;
    let batch = found.batch;
    let numbers = numbers_on(
        operand_extents,
        operand_strides,
        index_extents,
        index_strides,
        dest_extents,
        dest_strides,
        offset_dims,
        collapsed_slice_dims,
        start_index_map,
        index_vector_dim,
        slice_sizes,
        window,
        batch,
    );
    let base = components::start_base(start_index_map.len(), index_offset);
    PreparedGather {
        answer,
        reach: z,
        numbers,
        operand: operand_offset,
        index: base,
        dest: dest_offset,
    }
}

// A call on any three views. Those that have other layouts than were compiled for are refused, by compile or by 8.
pub fn prepare_views(
    operand_extents: &[u64],
    operand_strides: &[i64],
    index_extents: &[u64],
    index_strides: &[i64],
    dest_extents: &[u64],
    dest_strides: &[i64],
    offset_dims: &[u64],
    collapsed_slice_dims: &[u64],
    start_index_map: &[u64],
    index_vector_dim: u64,
    slice_sizes: &[u64],
    operand_view_extents: &[u64],
    operand_view_strides: &[i64],
    operand_offset: i64,
    index_view_extents: &[u64],
    index_view_strides: &[i64],
    index_offset: i64,
    dest_view_extents: &[u64],
    dest_view_strides: &[i64],
    dest_offset: i64,
    operand_len: usize,
    starts_len: usize,
    dest_len: usize,
) -> PreparedGather
    ensures { ListedOn result (gather_from operand_extents.now operand_strides.now index_extents.now index_strides.now dest_extents.now dest_strides.now offset_dims.now collapsed_slice_dims.now start_index_map.now index_vector_dim slice_sizes.now) (view_with operand_view_extents.now operand_view_strides.now operand_offset) (view_with index_view_extents.now index_view_strides.now index_offset) (view_with dest_view_extents.now dest_view_strides.now dest_offset) operand_len starts_len dest_len }
{
    let first = calls::same_view(
        operand_view_extents,
        operand_view_strides,
        operand_extents,
        operand_strides,
    );
    let second = calls::same_view(
        index_view_extents,
        index_view_strides,
        index_extents,
        index_strides,
    );
    let third = calls::same_view(
        dest_view_extents,
        dest_view_strides,
        dest_extents,
        dest_strides,
    );
    let same = first & (second & third);
    if same {
        return prepare(
            operand_extents,
            operand_strides,
            index_extents,
            index_strides,
            dest_extents,
            dest_strides,
            offset_dims,
            collapsed_slice_dims,
            start_index_map,
            index_vector_dim,
            slice_sizes,
            operand_offset,
            index_offset,
            dest_offset,
            operand_len,
            starts_len,
            dest_len,
        );
    }
    let refusal = gather_checks::gather_refusal(
        operand_extents,
        operand_strides,
        index_extents,
        index_strides,
        dest_extents,
        dest_strides,
        offset_dims,
        collapsed_slice_dims,
        start_index_map,
        index_vector_dim,
        slice_sizes,
    );
    let answer = checks::or_else(refusal, Err(Refusal::PlanLayoutMismatch));
    gather_move::refused(answer)
}
