// Gather: the calls with a plan. A call takes a plan by value, made by compile or by anyone, the three views and their slices. It
// answers 8 where the plan or a layout does not fit, then 9 for each view in turn; otherwise it is done.
#![tactic(auto)]

ghost use Rattle.std.specs.Prelude.{◌≡◌, true, cond, get_or, pos};
ghost use Rattle.indexing.specs.Coordinates.{tabulate, has};
ghost use Rattle.layout.specs.Layouts.{rank_limit};
ghost use Rattle.axis_lists.specs.Held.{numbers_of};
ghost use Rattle.std.specs.Float.{nan};
ghost use Rattle.calls.specs.Calls.{as_is, Gathers};
ghost use Rattle.gather_same.specs.Same.{is_compiled};
ghost use Rattle.gather_plan.specs.Plan.{held_gather};
ghost use Rattle.gather_move.specs.Prepared.{gather_numbers, Prepares};
ghost use Rattle.gather.specs.Calls.{gather_of, plan_fits, call_answer, by_plan, move_of, moves_of};

use axis_lists::Numbers;
use gather_move::{GatherNumbers, PreparedGather};
use gather_plan::{GatherPlan, GatherReplayAxis, Role};
use indexed_runs::Components;
use layout::{CallAnswer, RAW_FUSED_RANK_LIMIT, View};

// What an axis adds to the place in the operand, and to the one in the index view.
#[derive(Clone, Copy)]
struct AxisMove {
    window: i64,
    batch: i64,
}

// The same of every axis.
#[derive(Clone, Copy)]
struct Moves {
    window: [i64; RAW_FUSED_RANK_LIMIT],
    batch: [i64; RAW_FUSED_RANK_LIMIT],
}

// An axis moves by its role, one place or the other.
fn axis_move(axis: GatherReplayAxis) -> AxisMove
    ensures { result ≡ move_of axis }
{
    let role = axis.role;
    match role {
        Role::Window(_) => AxisMove {
            window: axis.window_step,
            batch: 0,
        },
        Role::Batch => AxisMove {
            window: 0,
            batch: axis.index_batch_step,
        },
    }
}

fn moves_of(axes: [GatherReplayAxis; RAW_FUSED_RANK_LIMIT]) -> Moves
    ensures { result ≡ moves_of axes }
{
    let moves = axes.map(axis_move);
    Moves {
        window: moves.map(|moved| moved.window),
        batch: moves.map(|moved| moved.batch),
    }
}

// The extents of the destination's axes, with 1 on those that a list by value names.
fn batch_extents_of(
    extents: [u64; RAW_FUSED_RANK_LIMIT],
    dims: Numbers,
) -> [u64; RAW_FUSED_RANK_LIMIT]
    ensures { result ≡ tabulate rank_limit (λ a. cond (has (numbers_of dims) a) 1 (get_or extents a 0)) }
{
    let listed = dims.entries;
    let n = layout::axis_count(dims.count);
    gather_move::batch_extents(extents, &listed[0..n])
}

// The numbers that the cells of a plan are moved with.
fn numbers_of(plan: GatherPlan) -> GatherNumbers
    requires { is_compiled plan ≡ true }
    ensures { result ≡ gather_numbers (held_gather plan) }
{
    let dest = plan.dest;
    let operand = plan.operand;
    let map = plan.start_index_map;
    let sizes = plan.slice_sizes;
    let axes = plan.axes;
    let index_component_offsets = plan.index_component_offsets;
    let index_operand_strides = plan.index_operand_strides;
    let moves = moves_of(axes);
    let window = moves.window;
    let batch = moves.batch;
    let stepped = components::unless_none(map.count, batch);
    let limits = components::limits_of(operand, sizes, map);
    let extents = dest.extents;
    let dims = plan.offset_dims;
    let batch_extents = batch_extents_of(extents, dims);
    let dest_steps = dest.strides;
    let offsets = index_component_offsets.entries;
    let strides = index_operand_strides.entries;
    let components = Components {
        count: map.count,
        offsets,
        strides,
        limits,
    };
    GatherNumbers {
        rank: dest.rank,
        extents,
        batch_extents,
        window_steps: window,
        batch_steps: stepped,
        dest_steps,
        components,
    }
}

// Whether the views have the plan's layouts, and the plan is what compile gives.
fn plan_fits(plan: GatherPlan, operand: View, index: View, dest: View) -> bool
    ensures { result ≡ plan_fits plan (gather_of plan operand index dest) }
{
    calls::same_layout(operand.layout, plan.operand)
        && calls::same_layout(index.layout, plan.index)
        && calls::same_layout(dest.layout, plan.dest)
        && gather_same::is_compiled(plan)
}

// What a call decides before it touches an element, given the lengths of the three slices.
fn prepare(
    plan: GatherPlan,
    operand: View,
    index: View,
    dest: View,
    operand_len: usize,
    starts_len: usize,
    dest_len: usize,
) -> PreparedGather
    ensures { Prepares result (call_answer plan (gather_of plan operand index dest) operand_len starts_len dest_len) (gather_of plan operand index dest) operand_len starts_len dest_len }
{
    let fits = plan_fits(plan, operand, index, dest);
    let eight = calls::check_plan(fits);
    let x = spans::view_reach(operand, operand_len);
    let y = spans::view_reach(index, starts_len);
    let z = spans::view_reach(dest, dest_len);
    let nine = calls::check_bounds(x, y, z);
    let answer = checks::or_else(eight, nine);
    if !layout::is_done(answer) {
        return gather_move::refused(answer);
    }
    let numbers = numbers_of(plan);
    let base = components::start_base(numbers.components.count, index.offset);
    PreparedGather {
        answer,
        reach: z,
        numbers,
        operand: operand.offset,
        index: base,
        dest: dest.offset,
    }
}

// The gather of a plan on these views.
pub fn gather_i32(
    plan: GatherPlan,
    operand: View,
    index: View,
    dest: View,
    source: &[i32],
    starts: &[i64],
    into: &mut [i32],
) -> CallAnswer
    ensures { Gathers (pos 0) as_is (by_plan plan operand index dest starts.now) source.now into.old into.new result }
{
    let p = prepare(
        plan,
        operand,
        index,
        dest,
        source.len(),
        starts.len(),
        into.len(),
    );
    gather_move::move_elements(p, source, starts, into)
}

// The same for f64.
pub fn gather_f64(
    plan: GatherPlan,
    operand: View,
    index: View,
    dest: View,
    source: &[f64],
    starts: &[i64],
    into: &mut [f64],
) -> CallAnswer
    ensures { Gathers nan as_is (by_plan plan operand index dest starts.now) source.now into.old into.new result }
{
    let p = prepare(
        plan,
        operand,
        index,
        dest,
        source.len(),
        starts.len(),
        into.len(),
    );
    gather_move::move_elements(p, source, starts, into)
}
