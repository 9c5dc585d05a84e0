// Scatter: the calls with a plan. A call takes a plan by value with the rows of its two walks, made by compile or by anyone, the three
// views and their slices. It answers 8 where the plan, its rows or a layout does not fit, then 9 for each view in turn; otherwise it
// is done.
#![tactic(auto)]

ghost use Rattle.std.specs.Prelude.{◌≡◌, true, pos};
ghost use Rattle.std.specs.Float.{nan};
ghost use Rattle.rules.specs.Rules.{rule_i32, rule_f64};
ghost use Rattle.calls.specs.Calls.{as_is, Scatters};
ghost use Rattle.scatter_plan.specs.Plan.{held_scatter};
ghost use Rattle.scatter_same.specs.Same.{is_compiled};
ghost use Rattle.scatter_move.specs.Prepared.{scatter_numbers, Prepares};
ghost use Rattle.scatter.specs.Calls.{scatter_of, plan_fits, call_answer, by_plan};
ghost use Rattle.scatter.specs.Ready.{prepared_by};

use layout::{CallAnswer, RAW_FUSED_RANK_LIMIT, Reach, View};
use rules::{Rule, RuleF64};
use scatter_move::{PreparedScatter, ScatterNumbers};
use scatter_plan::ScatterPlan;

// The numbers that the batches and the windows of a plan are moved with.
fn numbers_of(
    plan: ScatterPlan,
    batch_rows: [[i64; 4]; RAW_FUSED_RANK_LIMIT],
    window_rows: [[i64; 4]; RAW_FUSED_RANK_LIMIT],
) -> ScatterNumbers
    requires { is_compiled plan batch_rows window_rows ≡ true }
    ensures { result ≡ scatter_numbers (held_scatter plan) }
{
    let batch = plan.batch;
    let window = plan.window;
    let dest = plan.dest;
    let map = plan.scatter_dims_to_operand_dims;
    let windows = plan.window_shape;
    let index_component_offsets = plan.index_component_offsets;
    let index_operand_strides = plan.index_operand_strides;
    let batch_extents = batch.extents;
    let window_extents = window.extents;
    let index = scatter_move::source_steps(batch_rows);
    let stepped = components::unless_none(map.count, index);
    let update_steps = scatter_move::dest_steps(batch_rows);
    let window_steps = scatter_move::source_steps(window_rows);
    let steps = scatter_move::dest_steps(window_rows);
    let limits = components::limits_of(dest, windows, map);
    let offsets = index_component_offsets.entries;
    let strides = index_operand_strides.entries;
    ScatterNumbers {
        batch_rank: batch.rank,
        batches: plan.batch_elems,
        batch_extents,
        index_steps: stepped,
        update_steps,
        window_rank: window.rank,
        window_extents,
        window_steps,
        dest_steps: steps,
        count: map.count,
        offsets,
        strides,
        limits,
    }
}

// Whether the views have the plan's layouts, and plan and rows are what compile gives.
fn plan_fits(
    plan: ScatterPlan,
    batch_rows: [[i64; 4]; RAW_FUSED_RANK_LIMIT],
    window_rows: [[i64; 4]; RAW_FUSED_RANK_LIMIT],
    index: View,
    updates: View,
    dest: View,
) -> bool
    ensures { result ≡ plan_fits plan batch_rows window_rows (scatter_of plan index updates dest) }
{
    calls::same_layout(index.layout, plan.index)
        && calls::same_layout(updates.layout, plan.updates)
        && calls::same_layout(dest.layout, plan.dest)
        && scatter_same::is_compiled(plan, batch_rows, window_rows)
}

// What is ready to be moved, by a plan that is what compile gives, where the views pass the test of 9.
pub fn prepared_by(
    plan: ScatterPlan,
    batch_rows: [[i64; 4]; RAW_FUSED_RANK_LIMIT],
    window_rows: [[i64; 4]; RAW_FUSED_RANK_LIMIT],
    index: View,
    updates: View,
    dest: View,
    reach: Reach,
) -> PreparedScatter
    requires { is_compiled plan batch_rows window_rows ≡ true }
    ensures { result ≡ prepared_by plan batch_rows index updates dest reach }
{
    let numbers = numbers_of(plan, batch_rows, window_rows);
    let base = components::start_base(numbers.count, index.offset);
    let batch = plan.batch;
    let extents = batch.extents;
    let batch_axes = replay::axes_from(extents, batch_rows);
    PreparedScatter {
        answer: Ok(()),
        reach,
        numbers,
        batch_axes,
        index: base,
        updates: updates.offset,
        dest: dest.offset,
    }
}

// What a call decides before it touches an element, given the lengths of the three slices.
fn prepare(
    plan: ScatterPlan,
    batch_rows: [[i64; 4]; RAW_FUSED_RANK_LIMIT],
    window_rows: [[i64; 4]; RAW_FUSED_RANK_LIMIT],
    index: View,
    updates: View,
    dest: View,
    starts_len: usize,
    updates_len: usize,
    dest_len: usize,
) -> PreparedScatter
    ensures { Prepares result (call_answer plan batch_rows window_rows (scatter_of plan index updates dest) starts_len updates_len dest_len) (scatter_of plan index updates dest) starts_len updates_len dest_len }
{
    let fits = plan_fits(plan, batch_rows, window_rows, index, updates, dest);
    let eight = calls::check_plan(fits);
    let x = spans::view_reach(index, starts_len);
    let y = spans::view_reach(updates, updates_len);
    let z = spans::view_reach(dest, dest_len);
    let nine = calls::check_bounds(x, y, z);
    let answer = checks::or_else(eight, nine);
    if !layout::is_done(answer) {
        return scatter_move::refused(answer);
    }
    prepared_by(plan, batch_rows, window_rows, index, updates, dest, z)
}

// The scatter of a plan on these views: the updates are put on the destination by the rule.
pub fn scatter_i32(
    rule: Rule,
    plan: ScatterPlan,
    batch_rows: [[i64; 4]; RAW_FUSED_RANK_LIMIT],
    window_rows: [[i64; 4]; RAW_FUSED_RANK_LIMIT],
    index: View,
    updates: View,
    dest: View,
    starts: &[i64],
    source: &[i32],
    into: &mut [i32],
) -> CallAnswer
    ensures { Scatters (pos 0) (rule_i32 rule) as_is (by_plan plan batch_rows window_rows index updates dest starts.now source.now) into.old into.new result }
{
    let p = prepare(
        plan,
        batch_rows,
        window_rows,
        index,
        updates,
        dest,
        starts.len(),
        source.len(),
        into.len(),
    );
    scatter_move::move_i32(rule, p, starts, source, into)
}

// The same for f64.
pub fn scatter_f64(
    rule: RuleF64,
    plan: ScatterPlan,
    batch_rows: [[i64; 4]; RAW_FUSED_RANK_LIMIT],
    window_rows: [[i64; 4]; RAW_FUSED_RANK_LIMIT],
    index: View,
    updates: View,
    dest: View,
    starts: &[i64],
    source: &[f64],
    into: &mut [f64],
) -> CallAnswer
    ensures { Scatters nan (rule_f64 rule) as_is (by_plan plan batch_rows window_rows index updates dest starts.now source.now) into.old into.new result }
{
    let p = prepare(
        plan,
        batch_rows,
        window_rows,
        index,
        updates,
        dest,
        starts.len(),
        source.len(),
        into.len(),
    );
    scatter_move::move_f64(rule, p, starts, source, into)
}
