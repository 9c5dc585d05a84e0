// A stored scatter, whole: compile, then the call.
#![tactic(auto)]

use layout::{CallAnswer, RAW_FUSED_RANK_LIMIT, View};
use rules::{Rule, RuleF64};
use scatter_plan::{CompiledScatter, ScatterPlan};
use stored_reader::packed::{Case, List, Side};
use stored_reader::views::{call_view, refusal};

// The rows of a walk: two steps and two resets for each axis.
type Rows = [[i64; 4]; RAW_FUSED_RANK_LIMIT];

// An element that a scatter adds.
pub trait Scattered: Copy {
    fn scatter(
        plan: ScatterPlan,
        batch_rows: Rows,
        window_rows: Rows,
        index: View,
        updates: View,
        dest: View,
        starts: &[i64],
        source: &[Self],
        into: &mut [Self],
    ) -> CallAnswer;
}

impl Scattered for i32 {
    fn scatter(
        plan: ScatterPlan,
        batch_rows: Rows,
        window_rows: Rows,
        index: View,
        updates: View,
        dest: View,
        starts: &[i64],
        source: &[i32],
        into: &mut [i32],
    ) -> CallAnswer {
        scatter::scatter_i32(
            Rule::Add,
            plan,
            batch_rows,
            window_rows,
            index,
            updates,
            dest,
            starts,
            source,
            into,
        )
    }
}

impl Scattered for f64 {
    fn scatter(
        plan: ScatterPlan,
        batch_rows: Rows,
        window_rows: Rows,
        index: View,
        updates: View,
        dest: View,
        starts: &[i64],
        source: &[f64],
        into: &mut [f64],
    ) -> CallAnswer {
        scatter::scatter_f64(
            RuleF64::Add,
            plan,
            batch_rows,
            window_rows,
            index,
            updates,
            dest,
            starts,
            source,
            into,
        )
    }
}

fn compile(case: &Case) -> CompiledScatter {
    scatter_plan::compile(
        case.list(List::FirstExtents),
        case.signed_list(List::FirstStrides),
        case.list(List::SecondExtents),
        case.signed_list(List::SecondStrides),
        case.list(List::ThirdExtents),
        case.signed_list(List::ThirdStrides),
        case.list(List::FirstAxes),
        case.list(List::SecondAxes),
        case.list(List::ThirdAxes),
        case.vector_axis(),
    )
}

// The answer of a scatter: of compile, or of the call on these slices, with the rows of the plan's walks.
pub fn call<E: Scattered>(case: &Case, source: &[E], into: &mut [E]) -> CallAnswer {
    let compiled = compile(case);
    let refused = refusal(compiled.answer, case);
    if !layout::is_done(refused) {
        return layout::refused_call(refused);
    }
    E::scatter(
        compiled.plan,
        replay::rows_of(compiled.batch_axes),
        replay::rows_of(compiled.window_axes),
        call_view(case, Side::First),
        call_view(case, Side::Second),
        call_view(case, Side::Third),
        case.signed_list(List::FirstSlice),
        source,
        into,
    )
}
