// Whether a plan of a scatter is what compile gives, with the rows of its two walks: compiling again what a plan holds.
#![tactic(auto)]

ghost use Rattle.std.specs.Prelude.{◌≡◌};
ghost use Rattle.scatter_plan.specs.Plan.{compiled_again, held_scatter};
ghost use Rattle.scatter_same.specs.Same.{has_rows, is_compiled};

use layout::RAW_FUSED_RANK_LIMIT;
use scatter_plan::{CompiledScatter, ScatterPlan};

// Whether these are the rows of the two walks that compile gave, past the rank as well.
fn has_rows(
    fresh: CompiledScatter,
    batch_rows: [[i64; 4]; RAW_FUSED_RANK_LIMIT],
    window_rows: [[i64; 4]; RAW_FUSED_RANK_LIMIT],
) -> bool
    ensures { result ≡ has_rows fresh batch_rows window_rows }
{
    batch_rows == replay::rows_of(fresh.batch_axes)
        && window_rows == replay::rows_of(fresh.window_axes)
}

// What compile gives for the layouts and spec in a plan, 4 not tried again.
pub fn compiled_again(plan: ScatterPlan) -> CompiledScatter
    ensures { result ≡ compiled_again (held_scatter plan) }
{
    let n = layout::axis_count(plan.index.rank);
    let m = layout::axis_count(plan.updates.rank);
    let k = layout::axis_count(plan.dest.rank);
    scatter_plan::compile_again(
        &plan.index.extents[..n],
        &plan.index.strides[..n],
        &plan.updates.extents[..m],
        &plan.updates.strides[..m],
        &plan.dest.extents[..k],
        &plan.dest.strides[..k],
        plan.update_window_dims.as_slice(),
        plan.inserted_window_dims.as_slice(),
        plan.scatter_dims_to_operand_dims.as_slice(),
        plan.index_vector_dim,
    )
}

// Whether a plan is what compile gives for the layouts and spec in it, arrays past their counts as well, and these are the rows of
// its walks.
pub fn is_compiled(
    plan: ScatterPlan,
    batch_rows: [[i64; 4]; RAW_FUSED_RANK_LIMIT],
    window_rows: [[i64; 4]; RAW_FUSED_RANK_LIMIT],
) -> bool
    ensures { result ≡ is_compiled plan batch_rows window_rows }
{
    let again = compiled_again(plan);
    layout::is_done(again.answer) && plan == again.plan && has_rows(again, batch_rows, window_rows)
}
