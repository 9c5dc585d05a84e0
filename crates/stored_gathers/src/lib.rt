// A stored gather, whole: compile, then the call.
#![tactic(auto)]

use gather_plan::{CompiledGather, GatherPlan};
use layout::{CallAnswer, View};
use stored_reader::packed::{Case, List, Side};
use stored_reader::views::{call_view, refusal};

// An element that a gather moves.
pub trait Gathered: Copy {
    fn gather(
        plan: GatherPlan,
        operand: View,
        index: View,
        dest: View,
        source: &[Self],
        starts: &[i64],
        into: &mut [Self],
    ) -> CallAnswer;
}

impl Gathered for i32 {
    fn gather(
        plan: GatherPlan,
        operand: View,
        index: View,
        dest: View,
        source: &[i32],
        starts: &[i64],
        into: &mut [i32],
    ) -> CallAnswer {
        gather::gather_i32(plan, operand, index, dest, source, starts, into)
    }
}

impl Gathered for f64 {
    fn gather(
        plan: GatherPlan,
        operand: View,
        index: View,
        dest: View,
        source: &[f64],
        starts: &[i64],
        into: &mut [f64],
    ) -> CallAnswer {
        gather::gather_f64(plan, operand, index, dest, source, starts, into)
    }
}

fn compile(case: &Case) -> CompiledGather {
    gather_plan::compile(
        case.list(List::FirstExtents),
        case.signed_list(List::FirstStrides),
        case.list(List::SecondExtents),
        case.signed_list(List::SecondStrides),
        case.list(List::ThirdExtents),
        case.signed_list(List::ThirdStrides),
        case.list(List::FirstAxes),
        case.list(List::SecondAxes),
        case.list(List::ThirdAxes),
        case.vector_axis(),
        case.list(List::FourthAxes),
    )
}

// The answer of a gather: of compile, or of the call on these slices.
pub fn call<E: Gathered>(case: &Case, source: &[E], into: &mut [E]) -> CallAnswer {
    let compiled = compile(case);
    let refused = refusal(compiled.answer, case);
    if !layout::is_done(refused) {
        return layout::refused_call(refused);
    }
    E::gather(
        compiled.plan,
        call_view(case, Side::First),
        call_view(case, Side::Second),
        call_view(case, Side::Third),
        source,
        case.signed_list(List::SecondSlice),
        into,
    )
}
