// The views of a stored call.
use crate::packed::{Case, SIDES, Side};
use layout::{MadeLayout, Refusal, View};

// The layout of a view of the call.
fn call_layout(case: &Case, side: Side) -> MadeLayout {
    let (extents, strides) = case.layout(side);
    layout::make_layout(extents, strides)
}

// A view of the call; where its layout is none, it is not asked for.
pub fn call_view(case: &Case, side: Side) -> View {
    let layout = call_layout(case, side).layout;
    View {
        layout,
        offset: case.offset(side),
    }
}

// The refusal of compile, if any, or 8 where a layout of the call has unequal lengths or too many axes, and so is no plan's.
pub fn refusal(compiled: Result<(), Refusal>, case: &Case) -> Result<(), Refusal> {
    if !layout::is_done(compiled) {
        return compiled;
    }
    let are_layouts = SIDES
        .iter()
        .all(|side| layout::is_done(call_layout(case, *side).answer));
    if are_layouts {
        Ok(())
    } else {
        Err(Refusal::PlanLayoutMismatch)
    }
}
