// The plan of a scatter with an operand by value, compile, and whether a plan is what compile gives. The rows of its walks stand beside it.
#![tactic(auto)]

ghost use Rattle.std.specs.Prelude.{◌≡◌, true, cond, length};
ghost use Rattle.layout.specs.Answers.{is_done};
ghost use Rattle.layout.specs.Layouts.{layout_of, extents_of, strides_of, stride_length, rank_at_most};
ghost use Rattle.checks.specs.Checks.{view_from};
ghost use Rattle.checks.specs.Nothing.{no_layout};
ghost use Rattle.scatter_checks.specs.Refusals.{scatter_from};
ghost use Rattle.operand_checks.specs.Refusals.{sizes_refusal};
ghost use Rattle.operand_plan.specs.Plan.{compiled_operand, is_compiled};

use layout::{Layout, RAW_FUSED_RANK_LIMIT, Refusal};
use scatter_plan::{CompiledScatter, ScatterPlan};

// The operand's layout, and the plan of the scatter without it.
#[derive(Clone, Copy)]
pub struct OperandPlan {
    pub operand: Layout,
    pub scatter: ScatterPlan,
}

// What compile gives: the answer is the scatter's; where it is refused, the operand's layout has no axes.
#[derive(Clone, Copy)]
pub struct CompiledOperand {
    pub operand: Layout,
    pub scatter: CompiledScatter,
}

// The operand's layout by value, or the one of no axes where it is refused.
fn layout_by(answer: Result<(), Refusal>, extents: &[u64], strides: &[i64]) -> Layout
    requires { is_done answer ≡ true → (is_done (stride_length (length extents.now) (length strides.now)) ≡ true) × (is_done (rank_at_most (length extents.now)) ≡ true) }
    ensures { result ≡ cond (is_done answer) (layout_of extents.now strides.now) no_layout }
{
    if layout::is_done(answer) {
        let made = layout::make_layout(extents, strides);
        return made.layout;
    }
    let ones = [1u64; RAW_FUSED_RANK_LIMIT];
    let zeros = [0i64; RAW_FUSED_RANK_LIMIT];
    Layout {
        rank: 0,
        extents: ones,
        strides: zeros,
    }
}

// The plan of a scatter with an operand, or its first refusal.
pub fn compile(
    operand_extents: &[u64],
    operand_strides: &[i64],
    index_extents: &[u64],
    index_strides: &[i64],
    updates_extents: &[u64],
    updates_strides: &[i64],
    dest_extents: &[u64],
    dest_strides: &[i64],
    update_window_dims: &[u64],
    inserted_window_dims: &[u64],
    scatter_dims_to_operand_dims: &[u64],
    index_vector_dim: u64,
) -> CompiledOperand
    ensures { result ≡ compiled_operand (view_from operand_extents.now operand_strides.now) (scatter_from index_extents.now index_strides.now updates_extents.now updates_strides.now dest_extents.now dest_strides.now update_window_dims.now inserted_window_dims.now scatter_dims_to_operand_dims.now index_vector_dim) }
{
    let found = operand_checks::examine(
        operand_extents,
        operand_strides,
        index_extents,
        index_strides,
        updates_extents,
        updates_strides,
        dest_extents,
        dest_strides,
        update_window_dims,
        inserted_window_dims,
        scatter_dims_to_operand_dims,
        index_vector_dim,
    );
    let answer = found.answer;
    let scatter = scatter_plan::compiled_from(
        found,
        index_extents,
        index_strides,
        updates_extents,
        updates_strides,
        dest_extents,
        dest_strides,
        update_window_dims,
        inserted_window_dims,
        scatter_dims_to_operand_dims,
        index_vector_dim,
    );
    let operand = layout_by(answer, operand_extents, operand_strides);
    CompiledOperand { operand, scatter }
}

// What is asked before 4 of four layouts by value.
fn sizes_of(operand: Layout, index: Layout, updates: Layout, dest: Layout) -> Result<(), Refusal>
    ensures { result ≡ sizes_refusal (extents_of operand) (strides_of operand) (extents_of index) (strides_of index) (extents_of updates) (strides_of updates) (extents_of dest) (strides_of dest) }
{
    let n = layout::axis_count(operand.rank);
    let m = layout::axis_count(index.rank);
    let k = layout::axis_count(updates.rank);
    let l = layout::axis_count(dest.rank);
    operand_checks::check_sizes(
        &operand.extents[..n],
        &operand.strides[..n],
        &index.extents[..m],
        &index.strides[..m],
        &updates.extents[..k],
        &updates.strides[..k],
        &dest.extents[..l],
        &dest.strides[..l],
    )
}

// A layout as it is held where it is made anew: what stands past the rank is the padding.
fn held_again(l: Layout) -> Layout
    ensures { result ≡ layout_of (extents_of l) (strides_of l) }
{
    let n = layout::axis_count(l.rank);
    Layout {
        rank: n,
        extents: layout::padded(&l.extents[..n], 1),
        strides: layout::padded_strides(&l.strides[..n]),
    }
}

// Whether a plan is what compile gives for the layouts and spec in it, 4 not tried again, and these are the rows of its walks.
pub fn is_compiled(
    plan: OperandPlan,
    batch_rows: [[i64; 4]; RAW_FUSED_RANK_LIMIT],
    window_rows: [[i64; 4]; RAW_FUSED_RANK_LIMIT],
) -> bool
    ensures { result ≡ is_compiled plan batch_rows window_rows }
{
    let scatter = plan.scatter;
    let sizes = sizes_of(plan.operand, scatter.index, scatter.updates, scatter.dest);
    layout::is_done(sizes)
        && plan.operand == held_again(plan.operand)
        && scatter_same::is_compiled(scatter, batch_rows, window_rows)
}
