// The plan of a gather by value, and compile.
#![tactic(auto)]

ghost use Rattle.std.specs.Prelude.{◌≡◌, true, ◌≤◌, length};
ghost use Rattle.layout.specs.Answers.{is_done};
ghost use Rattle.layout.specs.Layouts.{rank_limit};
ghost use Rattle.axis_lists.specs.Held.{numbers_of, steps_of};
ghost use Rattle.checks.specs.Values.{reset_or, total_or};
ghost use Rattle.gather_checks.specs.Refusals.{gather_from};
ghost use Rattle.gather_checks.specs.Given.{Found};
ghost use Rattle.gather_plan.specs.Plan.{role_of, axis_with, no_axis, plan_of, refused_gather, compiled_by, compiled_gather, compiled_again};
ghost use Rattle.gather_plan.specs.Made.{axes_from};

use axis_lists::{Numbers, Steps};
use gather_checks::Examined;
use layout::{Layout, RAW_FUSED_RANK_LIMIT, Refusal};

// A destination axis is a batch axis, or a window axis that shows one operand axis.
#[derive(Clone, Copy, PartialEq, Eq)]
pub enum Role {
    Batch,
    Window(u64),
}

// Steps and resets along one destination axis: in the destination, in the operand, in the index view.
#[derive(Clone, Copy, PartialEq, Eq)]
pub struct GatherReplayAxis {
    pub role: Role,
    pub dest_step: i64,
    pub dest_reset: i64,
    pub window_step: i64,
    pub window_reset: i64,
    pub index_batch_step: i64,
    pub index_batch_reset: i64,
}

#[derive(Clone, Copy, PartialEq, Eq)]
pub struct GatherPlan {
    pub operand: Layout,
    pub index: Layout,
    pub dest: Layout,
    pub offset_dims: Numbers,
    pub collapsed_slice_dims: Numbers,
    pub start_index_map: Numbers,
    pub index_vector_dim: u64,
    pub slice_sizes: Numbers,
    pub axes: [GatherReplayAxis; RAW_FUSED_RANK_LIMIT],
    pub index_component_offsets: Steps,
    pub index_operand_strides: Steps,
    pub total: u64,
}

// A plan; where the gather is refused, the one of no axes.
#[derive(Clone, Copy)]
pub struct CompiledGather {
    pub answer: Result<(), Refusal>,
    pub plan: GatherPlan,
}

fn no_axis() -> GatherReplayAxis
    ensures { result ≡ no_axis }
{
    GatherReplayAxis {
        role: Role::Batch,
        dest_step: 0,
        dest_reset: 0,
        window_step: 0,
        window_reset: 0,
        index_batch_step: 0,
        index_batch_reset: 0,
    }
}

fn refused(answer: Result<(), Refusal>) -> CompiledGather
    ensures { result ≡ refused_gather answer }
{
    let extents = [1u64; RAW_FUSED_RANK_LIMIT];
    let strides = [0i64; RAW_FUSED_RANK_LIMIT];
    let zeros = [0u64; RAW_FUSED_RANK_LIMIT];
    let axes = [no_axis(); RAW_FUSED_RANK_LIMIT];
    let l = Layout {
        rank: 0,
        extents,
        strides,
    };
    let numbers = Numbers {
        count: 0,
        entries: zeros,
    };
    let steps = Steps {
        count: 0,
        entries: strides,
    };
    CompiledGather {
        answer,
        plan: GatherPlan {
            operand: l,
            index: l,
            dest: l,
            offset_dims: numbers,
            collapsed_slice_dims: numbers,
            start_index_map: numbers,
            index_vector_dim: 0,
            slice_sizes: numbers,
            axes,
            index_component_offsets: steps,
            index_operand_strides: steps,
            total: 0,
        },
    }
}

// The reset of a step, and 0 where it does not fit.
fn reset_value(extent: u64, step: i64) -> i64
    ensures { result ≡ reset_or extent step }
{
    layout::checked_replay_reset(extent, step).unwrap_or(0)
}

// The product of the extents, and 0 where it does not fit.
fn total_value(extents: &[u64]) -> u64
    ensures { result ≡ total_or extents.now }
{
    spans::checked_total_len(extents).unwrap_or(0)
}

// The operand axis that stands in `shown` where the axis stands in `offset_dims`; none of a batch axis.
fn role_at(offset_dims: &[u64], shown: Numbers, axis: u64) -> Role
    ensures { result ≡ role_of offset_dims.now (numbers_of shown) axis }
{
    let entries = shown.as_slice();
    for i in 0..offset_dims.len().min(entries.len()) {
        if offset_dims[i] == axis {
            return Role::Window(entries[i]);
        }
    }
    Role::Batch
}

fn axis_with(role: Role, extent: u64, dest: i64, window: i64, batch: i64) -> GatherReplayAxis
    ensures { result ≡ axis_with reset_or role extent dest window batch }
{
    GatherReplayAxis {
        role,
        dest_step: dest,
        dest_reset: reset_value(extent, dest),
        window_step: window,
        window_reset: reset_value(extent, window),
        index_batch_step: batch,
        index_batch_reset: reset_value(extent, batch),
    }
}

// The destination's axes, by its extents and the three lists of steps.
fn axes_of(
    extents: &[u64],
    dest: &[i64],
    window: Steps,
    batch: Steps,
    offset_dims: &[u64],
    shown: Numbers,
) -> [GatherReplayAxis; RAW_FUSED_RANK_LIMIT]
    requires { length extents.now ≤ rank_limit }
    ensures { result ≡ axes_from extents.now dest.now (steps_of window) (steps_of batch) offset_dims.now (numbers_of shown) }
{
    let mut out = [no_axis(); RAW_FUSED_RANK_LIMIT];
    for i in 0..extents.len() {
        let k = i as u64;
        let role = role_at(offset_dims, shown, k);
        let s = axis_lists::stride_at(dest, k);
        let w = axis_lists::stride_at(window.as_slice(), k);
        let b = axis_lists::stride_at(batch.as_slice(), k);
        out[i] = axis_with(role, extents[i], s, w, b);
    }
    out
}

// The plan of a gather that is not refused, with the steps that compile's checks found.
fn plan_of(
    operand_extents: &[u64],
    operand_strides: &[i64],
    index_extents: &[u64],
    index_strides: &[i64],
    dest_extents: &[u64],
    dest_strides: &[i64],
    offset_dims: &[u64],
    collapsed_slice_dims: &[u64],
    start_index_map: &[u64],
    index_vector_dim: u64,
    slice_sizes: &[u64],
    window: [i64; RAW_FUSED_RANK_LIMIT],
    batch: [i64; RAW_FUSED_RANK_LIMIT],
) -> GatherPlan
    requires { Found (gather_from operand_extents.now operand_strides.now index_extents.now index_strides.now dest_extents.now dest_strides.now offset_dims.now collapsed_slice_dims.now start_index_map.now index_vector_dim slice_sizes.now) window batch }
    ensures { result ≡ plan_of (gather_from operand_extents.now operand_strides.now index_extents.now index_strides.now dest_extents.now dest_strides.now offset_dims.now collapsed_slice_dims.now start_index_map.now index_vector_dim slice_sizes.now) }
{
    let operand = layout::make_layout(operand_extents, operand_strides).layout;
    let index = layout::make_layout(index_extents, index_strides).layout;
    let dest = layout::make_layout(dest_extents, dest_strides).layout;
    let shown = axis_lists::other_axes(operand_extents.len(), collapsed_slice_dims);
    let n = dest_extents.len();
    let moves = Steps {
        count: n,
        entries: window,
    };
    let starts = Steps {
        count: n,
        entries: batch,
    };
    let axes = axes_of(
        dest_extents,
        dest_strides,
        moves,
        starts,
        offset_dims,
        shown,
    );
    let stride = axis_lists::stride_at(index_strides, index_vector_dim);
    let offsets = components::index_component_offsets(stride, start_index_map.len());
    let entries = components::strides_on(start_index_map, operand_strides);
    let strides = Steps {
        count: start_index_map.len(),
        entries,
    };
    let total = total_value(dest_extents);
    GatherPlan {
        operand,
        index,
        dest,
        offset_dims: Numbers::from_slice(offset_dims, 0),
        collapsed_slice_dims: Numbers::from_slice(collapsed_slice_dims, 0),
        start_index_map: Numbers::from_slice(start_index_map, 0),
        index_vector_dim,
        slice_sizes: Numbers::from_slice(slice_sizes, 0),
        axes,
        index_component_offsets: offsets,
        index_operand_strides: strides,
        total,
    }
}

// What compile gives, by what its checks found.
#[tactic(auto, unfolding(crate::specs::Plan::compiled_by))]
fn compiled_from(
    found: Examined,
    operand_extents: &[u64],
    operand_strides: &[i64],
    index_extents: &[u64],
    index_strides: &[i64],
    dest_extents: &[u64],
    dest_strides: &[i64],
    offset_dims: &[u64],
    collapsed_slice_dims: &[u64],
    start_index_map: &[u64],
    index_vector_dim: u64,
    slice_sizes: &[u64],
) -> CompiledGather
    requires { is_done found.answer ≡ true → Found (gather_from operand_extents.now operand_strides.now index_extents.now index_strides.now dest_extents.now dest_strides.now offset_dims.now collapsed_slice_dims.now start_index_map.now index_vector_dim slice_sizes.now) found.window found.batch }
    ensures { result ≡ compiled_by found.answer (gather_from operand_extents.now operand_strides.now index_extents.now index_strides.now dest_extents.now dest_strides.now offset_dims.now collapsed_slice_dims.now start_index_map.now index_vector_dim slice_sizes.now) }
{
    let answer = found.answer;
    if answer.is_err() {
        return refused(answer);
    }
    let plan = plan_of(
        operand_extents,
        operand_strides,
        index_extents,
        index_strides,
        dest_extents,
        dest_strides,
        offset_dims,
        collapsed_slice_dims,
        start_index_map,
        index_vector_dim,
        slice_sizes,
        found.window,
        found.batch,
    );
    CompiledGather { answer, plan }
}

// The plan of a gather, or its first refusal.
pub fn compile(
    operand_extents: &[u64],
    operand_strides: &[i64],
    index_extents: &[u64],
    index_strides: &[i64],
    dest_extents: &[u64],
    dest_strides: &[i64],
    offset_dims: &[u64],
    collapsed_slice_dims: &[u64],
    start_index_map: &[u64],
    index_vector_dim: u64,
    slice_sizes: &[u64],
) -> CompiledGather
    ensures { result ≡ compiled_gather (gather_from operand_extents.now operand_strides.now index_extents.now index_strides.now dest_extents.now dest_strides.now offset_dims.now collapsed_slice_dims.now start_index_map.now index_vector_dim slice_sizes.now) }
{
    let found = gather_checks::examine(
        operand_extents,
        operand_strides,
        index_extents,
        index_strides,
        dest_extents,
        dest_strides,
        offset_dims,
        collapsed_slice_dims,
        start_index_map,
        index_vector_dim,
        slice_sizes,
    );
    compiled_from(
        found,
        operand_extents,
        operand_strides,
        index_extents,
        index_strides,
        dest_extents,
        dest_strides,
        offset_dims,
        collapsed_slice_dims,
        start_index_map,
        index_vector_dim,
        slice_sizes,
    )
}

// The same at a call, where 4 is not tried again.
pub fn compile_again(
    operand_extents: &[u64],
    operand_strides: &[i64],
    index_extents: &[u64],
    index_strides: &[i64],
    dest_extents: &[u64],
    dest_strides: &[i64],
    offset_dims: &[u64],
    collapsed_slice_dims: &[u64],
    start_index_map: &[u64],
    index_vector_dim: u64,
    slice_sizes: &[u64],
) -> CompiledGather
    ensures { result ≡ compiled_again (gather_from operand_extents.now operand_strides.now index_extents.now index_strides.now dest_extents.now dest_strides.now offset_dims.now collapsed_slice_dims.now start_index_map.now index_vector_dim slice_sizes.now) }
{
    let found = gather_checks::examine_again(
        operand_extents,
        operand_strides,
        index_extents,
        index_strides,
        dest_extents,
        dest_strides,
        offset_dims,
        collapsed_slice_dims,
        start_index_map,
        index_vector_dim,
        slice_sizes,
    );
    compiled_from(
        found,
        operand_extents,
        operand_strides,
        index_extents,
        index_strides,
        dest_extents,
        dest_strides,
        offset_dims,
        collapsed_slice_dims,
        start_index_map,
        index_vector_dim,
        slice_sizes,
    )
}
