// Two scatters on one grid, each by a rule of its own, and a gather beside a scatter: the runs of demand 3. What they leave is stated of the whole lent slice, for
// every plan, view and slice.
#![tactic(auto)]

ghost use Rattle.std.specs.Prelude.{◌≡◌, pos, length};
ghost use Rattle.rules.specs.Rules.{rule_i32};
ghost use Rattle.calls.specs.Calls.{view_of, as_is, Scatters};
ghost use Rattle.gather.specs.Calls as gathers;
ghost use Rattle.scatter.specs.Calls.{by_plan};
ghost use Rattle.operand_calls.specs.Calls.{ScattersOn};
ghost use Rattle.operand_scatter.specs.Calls as operands;
ghost use Rattle.order.specs.Orders.{EitherOrder, GatherBeside};
ghost use Rattle.order.specs.Operands.{EitherOrderOn, BesideOn};

use gather_plan::GatherPlan;
use layout::{CallAnswer, RAW_FUSED_RANK_LIMIT, View};
use operand_plan::OperandPlan;
use rules::Rule;
use scatter_plan::ScatterPlan;

// What a scatter goes by, besides the rows of the plan's walks and the lent slices.
#[derive(Clone, Copy)]
pub struct PlannedScatter {
    pub rule: Rule,
    pub plan: ScatterPlan,
    pub index: View,
    pub updates: View,
    pub dest: View,
}

// What was answered, with the numbers reported: North and then South on one grid, South and then North on the other.
#[derive(Clone, Copy)]
pub struct Orders {
    pub north_first: CallAnswer,
    pub south_second: CallAnswer,
    pub south_first: CallAnswer,
    pub north_second: CallAnswer,
}

// What a gather was answered before and after South's scatter, and that scatter.
#[derive(Clone, Copy)]
pub struct Around {
    pub before: CallAnswer,
    pub south: CallAnswer,
    pub after: CallAnswer,
}

// A scatter on a grid.
pub fn scatter_by(
    work: PlannedScatter,
    batch: [[i64; 4]; RAW_FUSED_RANK_LIMIT],
    window: [[i64; 4]; RAW_FUSED_RANK_LIMIT],
    starts: &[i64],
    updates: &[i32],
    grid: &mut [i32],
) -> CallAnswer
    ensures { Scatters (pos 0) (rule_i32 work.rule) as_is (by_plan work.plan batch window work.index work.updates work.dest starts.now updates.now) grid.old grid.new result }
{
    let rule = work.rule;
    let plan = work.plan;
    let a = work.index;
    let b = work.updates;
    let c = work.dest;
    scatter::scatter_i32(rule, plan, batch, window, a, b, c, starts, updates, grid)
}

// North and then South on the grid `one`; South and then North on the grid `other`.
pub fn either_order(
    north: PlannedScatter,
    batch_n: [[i64; 4]; RAW_FUSED_RANK_LIMIT],
    window_n: [[i64; 4]; RAW_FUSED_RANK_LIMIT],
    starts_n: &[i64],
    updates_n: &[i32],
    south: PlannedScatter,
    batch_s: [[i64; 4]; RAW_FUSED_RANK_LIMIT],
    window_s: [[i64; 4]; RAW_FUSED_RANK_LIMIT],
    starts_s: &[i64],
    updates_s: &[i32],
    one: &mut [i32],
    other: &mut [i32],
) -> Orders
    ensures { EitherOrder as_is north.rule south.rule (by_plan north.plan batch_n window_n north.index north.updates north.dest starts_n.now updates_n.now) (by_plan south.plan batch_s window_s south.index south.updates south.dest starts_s.now updates_s.now) one.old other.old one.new other.new result.north_first result.south_second result.south_first result.north_second }
{
    let north_first = scatter_by(north, batch_n, window_n, starts_n, updates_n, one);
    let south_second = scatter_by(south, batch_s, window_s, starts_s, updates_s, one);
    let south_first = scatter_by(south, batch_s, window_s, starts_s, updates_s, other);
    let north_second = scatter_by(north, batch_n, window_n, starts_n, updates_n, other);
    Orders {
        north_first,
        south_second,
        south_first,
        north_second,
    }
}

// A gather from the grid into `one`, South's scatter on the grid, and the same gather into `other`.
pub fn gather_beside(
    plan: GatherPlan,
    operand: View,
    index: View,
    dest: View,
    starts: &[i64],
    south: PlannedScatter,
    batch_s: [[i64; 4]; RAW_FUSED_RANK_LIMIT],
    window_s: [[i64; 4]; RAW_FUSED_RANK_LIMIT],
    starts_s: &[i64],
    updates_s: &[i32],
    grid: &mut [i32],
    one: &mut [i32],
    other: &mut [i32],
) -> Around
    ensures { GatherBeside as_is south.rule (gathers.by_plan plan operand index dest starts.now) (by_plan south.plan batch_s window_s south.index south.updates south.dest starts_s.now updates_s.now) grid.old grid.new one.old other.old one.new other.new result.before result.south result.after }
{
    let before = gather::gather_i32(plan, operand, index, dest, grid, starts, one);
    let scattered = scatter_by(south, batch_s, window_s, starts_s, updates_s, grid);
    let after = gather::gather_i32(plan, operand, index, dest, grid, starts, other);
    Around {
        before,
        south: scattered,
        after,
    }
}

// ---- the same on a grid into which an operand is copied once

// What a scatter with an operand goes by, besides the rows of the plan's walks, the operand's view and the lent slices.
#[derive(Clone, Copy)]
pub struct PlannedOperand {
    pub rule: Rule,
    pub plan: OperandPlan,
    pub index: View,
    pub updates: View,
    pub dest: View,
}

// A scatter on a grid with the operand copied into it first.
pub fn scatter_on(
    work: PlannedOperand,
    batch: [[i64; 4]; RAW_FUSED_RANK_LIMIT],
    window: [[i64; 4]; RAW_FUSED_RANK_LIMIT],
    operand: View,
    from: &[i32],
    starts: &[i64],
    updates: &[i32],
    grid: &mut [i32],
) -> CallAnswer
    ensures { ScattersOn (pos 0) (rule_i32 work.rule) as_is (record { view = view_of operand; elements = from.now }) (operands.by_plan work.plan batch window operand work.index work.updates work.dest (length from.now) starts.now updates.now) grid.old grid.new result }
{
    let rule = work.rule;
    let plan = work.plan;
    let a = work.index;
    let b = work.updates;
    let c = work.dest;
    operand_scatter::scatter_i32(
        rule, plan, batch, window, operand, a, b, c, from, starts, updates, grid,
    )
}

// Its updates alone, on a grid as it is.
pub fn updates_by(
    work: PlannedOperand,
    batch: [[i64; 4]; RAW_FUSED_RANK_LIMIT],
    window: [[i64; 4]; RAW_FUSED_RANK_LIMIT],
    starts: &[i64],
    updates: &[i32],
    grid: &mut [i32],
) -> CallAnswer
    ensures { Scatters (pos 0) (rule_i32 work.rule) as_is (by_plan work.plan.scatter batch window work.index work.updates work.dest starts.now updates.now) grid.old grid.new result }
{
    let rule = work.rule;
    let whole = work.plan;
    let plan = whole.scatter;
    let a = work.index;
    let b = work.updates;
    let c = work.dest;
    scatter::scatter_i32(rule, plan, batch, window, a, b, c, starts, updates, grid)
}

// North with the operand and then South's updates on the grid `one`; South with the operand and then North's updates on the grid `other`.
pub fn either_order_on(
    operand: View,
    from: &[i32],
    north: PlannedOperand,
    batch_n: [[i64; 4]; RAW_FUSED_RANK_LIMIT],
    window_n: [[i64; 4]; RAW_FUSED_RANK_LIMIT],
    starts_n: &[i64],
    updates_n: &[i32],
    south: PlannedOperand,
    batch_s: [[i64; 4]; RAW_FUSED_RANK_LIMIT],
    window_s: [[i64; 4]; RAW_FUSED_RANK_LIMIT],
    starts_s: &[i64],
    updates_s: &[i32],
    one: &mut [i32],
    other: &mut [i32],
) -> Orders
    ensures { EitherOrderOn as_is north.rule south.rule (record { view = view_of operand; elements = from.now }) (operands.by_plan north.plan batch_n window_n operand north.index north.updates north.dest (length from.now) starts_n.now updates_n.now).answer (operands.by_plan south.plan batch_s window_s operand south.index south.updates south.dest (length from.now) starts_s.now updates_s.now).answer (by_plan north.plan.scatter batch_n window_n north.index north.updates north.dest starts_n.now updates_n.now) (by_plan south.plan.scatter batch_s window_s south.index south.updates south.dest starts_s.now updates_s.now) one.old other.old one.new other.new result.north_first result.south_second result.south_first result.north_second }
{
    let north_first = scatter_on(
        north, batch_n, window_n, operand, from, starts_n, updates_n, one,
    );
    let south_second = updates_by(south, batch_s, window_s, starts_s, updates_s, one);
    let south_first = scatter_on(
        south, batch_s, window_s, operand, from, starts_s, updates_s, other,
    );
    let north_second = updates_by(north, batch_n, window_n, starts_n, updates_n, other);
    Orders {
        north_first,
        south_second,
        south_first,
        north_second,
    }
}

// What was answered: the scatter that copies the operand first, then the gather, South's scatter and the gather again.
#[derive(Clone, Copy)]
pub struct AroundOn {
    pub first: CallAnswer,
    pub before: CallAnswer,
    pub south: CallAnswer,
    pub after: CallAnswer,
}

// A scatter with the operand on the grid; then a gather from it into `one`, South's scatter on it, and the same gather into `other`.
pub fn gather_beside_on(
    operand: View,
    from: &[i32],
    first: PlannedOperand,
    batch_f: [[i64; 4]; RAW_FUSED_RANK_LIMIT],
    window_f: [[i64; 4]; RAW_FUSED_RANK_LIMIT],
    starts_f: &[i64],
    updates_f: &[i32],
    plan: GatherPlan,
    read: View,
    index: View,
    dest: View,
    starts: &[i64],
    south: PlannedScatter,
    batch_s: [[i64; 4]; RAW_FUSED_RANK_LIMIT],
    window_s: [[i64; 4]; RAW_FUSED_RANK_LIMIT],
    starts_s: &[i64],
    updates_s: &[i32],
    grid: &mut [i32],
    one: &mut [i32],
    other: &mut [i32],
) -> AroundOn
    ensures { BesideOn as_is first.rule south.rule (record { view = view_of operand; elements = from.now }) (operands.by_plan first.plan batch_f window_f operand first.index first.updates first.dest (length from.now) starts_f.now updates_f.now).answer (by_plan first.plan.scatter batch_f window_f first.index first.updates first.dest starts_f.now updates_f.now) (gathers.by_plan plan read index dest starts.now) (by_plan south.plan batch_s window_s south.index south.updates south.dest starts_s.now updates_s.now) grid.old grid.new one.old other.old one.new other.new result.first result.before result.south result.after }
{
    let copied = scatter_on(
        first, batch_f, window_f, operand, from, starts_f, updates_f, grid,
    );
    let before = gather::gather_i32(plan, read, index, dest, grid, starts, one);
    let updated = scatter_by(south, batch_s, window_s, starts_s, updates_s, grid);
    let after = gather::gather_i32(plan, read, index, dest, grid, starts, other);
    AroundOn {
        first: copied,
        before,
        south: updated,
        after,
    }
}
