// What the calls of a scatter with an operand share: what such a call copies, and 9 for four views.
#![tactic(auto)]

ghost use Rattle.std.specs.Prelude.{◌≡◌};
ghost use Rattle.layout.specs.Answers.{or_else};
ghost use Rattle.layout.specs.Reach.{buffer_bounds};
ghost use Rattle.operand_calls.specs.Prepared.{copy_from};

use layout::{Layout, RAW_FUSED_RANK_LIMIT, Reach, Refusal};

// What a call copies before its updates: the operand's layout, the destination's strides, and where the operand begins.
#[derive(Clone, Copy)]
pub struct PreparedCopy {
    pub layout: Layout,
    pub strides: [i64; RAW_FUSED_RANK_LIMIT],
    pub offset: i64,
}

// The same from lent lists.
pub fn copy_from(
    extents: &[u64],
    strides: &[i64],
    dest_strides: &[i64],
    offset: i64,
) -> PreparedCopy
    ensures { result ≡ copy_from extents.now strides.now dest_strides.now offset }
{
    let held_extents = layout::padded_extents(extents);
    let held_strides = layout::padded_strides(strides);
    let held_dest = layout::padded_strides(dest_strides);
    PreparedCopy {
        layout: Layout {
            rank: extents.len(),
            extents: held_extents,
            strides: held_strides,
        },
        strides: held_dest,
        offset,
    }
}

// 9 for the four views in turn, the operand's first.
pub fn check_bounds(
    operand: Reach,
    index: Reach,
    updates: Reach,
    dest: Reach,
) -> Result<(), Refusal>
    ensures { result ≡ or_else (buffer_bounds 1 operand) (or_else (buffer_bounds 2 index) (or_else (buffer_bounds 3 updates) (buffer_bounds 4 dest))) }
{
    let a = layout::check_reach(operand, 1);
    let b = layout::check_reach(index, 2);
    let c = layout::check_reach(updates, 3);
    let d = layout::check_reach(dest, 4);
    checks::or_else(a, checks::or_else(b, checks::or_else(c, d)))
}
