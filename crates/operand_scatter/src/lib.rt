// Scatter with an operand: the calls with a plan. A call takes a plan by value with the rows of its two walks, made by compile or by
// anyone, the four views and their slices. It answers 8 where the plan, its rows or a layout does not fit, then 9 for each view in turn;
// otherwise the operand is copied into the destination, and the updates are put on that.
#![tactic(auto)]

ghost use Rattle.std.specs.Prelude.{◌≡◌, pos, length};
ghost use Rattle.std.specs.Float.{nan};
ghost use Rattle.rules.specs.Rules.{rule_i32, rule_f64};
ghost use Rattle.calls.specs.Calls.{view_of, as_is};
ghost use Rattle.scatter.specs.Calls.{scatter_of};
ghost use Rattle.operand_calls.specs.Calls.{ScattersOn};
ghost use Rattle.operand_calls.specs.Prepared.{Prepares};
ghost use Rattle.operand_scatter.specs.Calls.{plan_fits, call_answer, by_plan};
ghost use Rattle.operand_scatter.specs.Copies.{copy_by};

use layout::{CallAnswer, RAW_FUSED_RANK_LIMIT, View};
use operand_calls::PreparedCopy;
use operand_plan::OperandPlan;
use rules::{Rule, RuleF64};
use scatter_move::PreparedScatter;

// Whether the views have the plan's layouts, and plan and rows are what compile gives.
fn plan_fits(
    plan: OperandPlan,
    batch_rows: [[i64; 4]; RAW_FUSED_RANK_LIMIT],
    window_rows: [[i64; 4]; RAW_FUSED_RANK_LIMIT],
    operand: View,
    index: View,
    updates: View,
    dest: View,
) -> bool
    ensures { result ≡ plan_fits plan batch_rows window_rows (view_of operand) (scatter_of plan.scatter index updates dest) }
{
    let inner = plan.scatter;
    calls::same_layout(operand.layout, plan.operand)
        && calls::same_layout(index.layout, inner.index)
        && calls::same_layout(updates.layout, inner.updates)
        && calls::same_layout(dest.layout, inner.dest)
        && operand_plan::is_compiled(plan, batch_rows, window_rows)
}

// What a call decides before it touches an element, given the lengths of the four slices.
fn prepare(
    plan: OperandPlan,
    batch_rows: [[i64; 4]; RAW_FUSED_RANK_LIMIT],
    window_rows: [[i64; 4]; RAW_FUSED_RANK_LIMIT],
    operand: View,
    index: View,
    updates: View,
    dest: View,
    operand_len: usize,
    starts_len: usize,
    updates_len: usize,
    dest_len: usize,
) -> PreparedScatter
    ensures { Prepares result (call_answer plan batch_rows window_rows (view_of operand) (scatter_of plan.scatter index updates dest) operand_len starts_len updates_len dest_len) (view_of operand) (scatter_of plan.scatter index updates dest) operand_len starts_len updates_len dest_len }
{
    let fits = plan_fits(plan, batch_rows, window_rows, operand, index, updates, dest);
    let eight = calls::check_plan(fits);
    let w = spans::view_reach(operand, operand_len);
    let x = spans::view_reach(index, starts_len);
    let y = spans::view_reach(updates, updates_len);
    let z = spans::view_reach(dest, dest_len);
    let nine = operand_calls::check_bounds(w, x, y, z);
    let answer = checks::or_else(eight, nine);
    if !layout::is_done(answer) {
        return scatter_move::refused(answer);
    }
    let inner = plan.scatter;
    scatter::prepared_by(inner, batch_rows, window_rows, index, updates, dest, z)
}

// What a call copies, by the plan's layouts.
fn copy_by(plan: OperandPlan, offset: i64) -> PreparedCopy
    ensures { result ≡ copy_by plan offset }
{
    let inner = plan.scatter;
    let layout = plan.operand;
    let to = inner.dest;
    let strides = to.strides;
    PreparedCopy {
        layout,
        strides,
        offset,
    }
}

// The scatter of a plan on these views: the operand is copied into the destination, and the updates are put on that by the rule.
pub fn scatter_i32(
    rule: Rule,
    plan: OperandPlan,
    batch_rows: [[i64; 4]; RAW_FUSED_RANK_LIMIT],
    window_rows: [[i64; 4]; RAW_FUSED_RANK_LIMIT],
    operand: View,
    index: View,
    updates: View,
    dest: View,
    from: &[i32],
    starts: &[i64],
    source: &[i32],
    into: &mut [i32],
) -> CallAnswer
    ensures { ScattersOn (pos 0) (rule_i32 rule) as_is (record { view = view_of operand; elements = from.now }) (by_plan plan batch_rows window_rows operand index updates dest (length from.now) starts.now source.now) into.old into.new result }
{
    let p = prepare(
        plan,
        batch_rows,
        window_rows,
        operand,
        index,
        updates,
        dest,
        from.len(),
        starts.len(),
        source.len(),
        into.len(),
    );
    let c = copy_by(plan, operand.offset);
    operand_move::move_i32(rule, p, c, from, starts, source, into)
}

// The same for f64.
pub fn scatter_f64(
    rule: RuleF64,
    plan: OperandPlan,
    batch_rows: [[i64; 4]; RAW_FUSED_RANK_LIMIT],
    window_rows: [[i64; 4]; RAW_FUSED_RANK_LIMIT],
    operand: View,
    index: View,
    updates: View,
    dest: View,
    from: &[f64],
    starts: &[i64],
    source: &[f64],
    into: &mut [f64],
) -> CallAnswer
    ensures { ScattersOn nan (rule_f64 rule) as_is (record { view = view_of operand; elements = from.now }) (by_plan plan batch_rows window_rows operand index updates dest (length from.now) starts.now source.now) into.old into.new result }
{
    let p = prepare(
        plan,
        batch_rows,
        window_rows,
        operand,
        index,
        updates,
        dest,
        from.len(),
        starts.len(),
        source.len(),
        into.len(),
    );
    let c = copy_by(plan, operand.offset);
    operand_move::move_f64(rule, p, c, from, starts, source, into)
}
