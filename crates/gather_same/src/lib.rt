// Whether a plan of a gather is what compile gives: compiling again what a plan holds.
#![tactic(auto)]

ghost use Rattle.std.specs.Prelude.{◌≡◌};
ghost use Rattle.gather_plan.specs.Plan.{compiled_again, held_gather};
ghost use Rattle.gather_same.specs.Same.{is_compiled};

use gather_plan::{CompiledGather, GatherPlan};

// What compile gives for the layouts and spec in a plan, 4 not tried again.
pub fn compiled_again(plan: GatherPlan) -> CompiledGather
    ensures { result ≡ compiled_again (held_gather plan) }
{
    let n = layout::axis_count(plan.operand.rank);
    let m = layout::axis_count(plan.index.rank);
    let k = layout::axis_count(plan.dest.rank);
    gather_plan::compile_again(
        &plan.operand.extents[..n],
        &plan.operand.strides[..n],
        &plan.index.extents[..m],
        &plan.index.strides[..m],
        &plan.dest.extents[..k],
        &plan.dest.strides[..k],
        plan.offset_dims.as_slice(),
        plan.collapsed_slice_dims.as_slice(),
        plan.start_index_map.as_slice(),
        plan.index_vector_dim,
        plan.slice_sizes.as_slice(),
    )
}

// Whether a plan is what compile gives for the layouts and spec in it, arrays past their counts as well.
pub fn is_compiled(plan: GatherPlan) -> bool
    ensures { result ≡ is_compiled plan }
{
    let again = compiled_again(plan);
    layout::is_done(again.answer) && plan == again.plan
}
