// What the calls share: whether a view has a layout, 8, and 9 for three views in turn.
#![tactic(auto)]

ghost use Rattle.std.specs.Prelude.{◌≡◌, ◌&&◌, eqb};
ghost use Rattle.integer.specs.Defs.{eq_z};
ghost use Rattle.layout.specs.Answers.{or_else};
ghost use Rattle.layout.specs.Layouts.{extents_of, strides_of};
ghost use Rattle.layout.specs.Reach.{buffer_bounds};
ghost use Rattle.equality.specs.Same.{same_by};
ghost use Rattle.calls.specs.Calls.{plan_refusal};

use layout::{Layout, Reach, Refusal};

// Whether two views have the same extents and the same strides.
pub fn same_view(
    extents: &[u64],
    strides: &[i64],
    other_extents: &[u64],
    other_strides: &[i64],
) -> bool
    ensures { result ≡ (same_by eqb extents.now other_extents.now && same_by eq_z strides.now other_strides.now) }
{
    extents == other_extents && strides == other_strides
}

// The same of two layouts by value: what stands past the rank does not count.
pub fn same_layout(a: Layout, b: Layout) -> bool
    ensures { result ≡ (same_by eqb (extents_of a) (extents_of b) && same_by eq_z (strides_of a) (strides_of b)) }
{
    let n = layout::axis_count(a.rank);
    let m = layout::axis_count(b.rank);
    same_view(
        &a.extents[..n],
        &a.strides[..n],
        &b.extents[..m],
        &b.strides[..m],
    )
}

// 8 where a plan does not fit a call.
pub fn check_plan(fits: bool) -> Result<(), Refusal>
    ensures { result ≡ plan_refusal fits }
{
    if fits {
        Ok(())
    } else {
        Err(Refusal::PlanLayoutMismatch)
    }
}

// 9 for the three views in turn.
pub fn check_bounds(first: Reach, second: Reach, third: Reach) -> Result<(), Refusal>
    ensures { result ≡ or_else (buffer_bounds 1 first) (or_else (buffer_bounds 2 second) (buffer_bounds 3 third)) }
{
    layout::check_reach(first, 1)?;
    layout::check_reach(second, 2)?;
    layout::check_reach(third, 3)
}
