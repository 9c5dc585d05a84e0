// The operand of a scatter copied into its result, cell by cell, first axis fastest: where cells of the result share an element, the
// last one copied stays.
#![tactic(auto)]

ghost use Rattle.std.specs.Prelude.{◌≡◌, length};
ghost use Rattle.indexing.specs.Operand.{operand_copied};
ghost use Rattle.windows.specs.Windows.{windowed, Window};
ghost use Rattle.fused_axes.specs.Fusing.{dims, dsts, srcs};
ghost use Rattle.operand_copy.specs.Views.{held_view, Cells};

use fused_axes::FusedAxes;
use layout::RAW_FUSED_RANK_LIMIT;
use rules::{Element, Replace};

// The copy over the axes as they are given, a run at a time. There are axes and cells.
fn over_axes<E: Element>(
    src: &[E],
    dst: &mut [E],
    extents: [u64; RAW_FUSED_RANK_LIMIT],
    ss: [i64; RAW_FUSED_RANK_LIMIT],
    ds: [i64; RAW_FUSED_RANK_LIMIT],
    rank: usize,
    s: i64,
    d: i64,
)
    requires { Cells s d extents ss ds rank (length src.now) (length dst.old) }
    ensures { dst.new ≡ windowed E.absent (λ _ u. u) src.now s d extents ss ds rank dst.old }
{
    let low = windows::run_axis(&extents, rank);
    windows::axes(Replace, src, dst, &extents, &ss, &ds, low, rank, s, d);
}

// The same over fused axes.
fn over_fused<E: Element>(src: &[E], dst: &mut [E], f: FusedAxes, s: i64, d: i64)
    requires { Cells s d (dims f.axes) (srcs f.axes) (dsts f.axes) f.rank (length src.now) (length dst.old) }
    ensures { dst.new ≡ windowed E.absent (λ _ u. u) src.now s d (dims f.axes) (srcs f.axes) (dsts f.axes) f.rank dst.old }
{
    let extents = fused_axes::dims_of(f.axes);
    let ss = fused_axes::srcs_of(f.axes);
    let ds = fused_axes::dsts_of(f.axes);
    over_axes(src, dst, extents, ss, ds, f.rank, s, d);
}

// The operand at offset s with strides ss, copied into the cells at offset d with strides ds.
pub fn copy_operand<E: Element>(
    src: &[E],
    dst: &mut [E],
    extents: [u64; RAW_FUSED_RANK_LIMIT],
    ss: [i64; RAW_FUSED_RANK_LIMIT],
    ds: [i64; RAW_FUSED_RANK_LIMIT],
    rank: usize,
    s: i64,
    d: i64,
)
    requires { Window s d extents ss ds rank (length src.now) (length dst.old) }
    ensures { dst.new ≡ operand_copied E.absent (held_view extents ss rank s) (held_view extents ds rank d) src.now dst.old }
{
    let total = fused_axes::total_len(extents, rank);
    match total {
        Some(n) => {
            if n == 0 {
                return;
            }
            if fused_axes::pays(n, extents, rank) {
                let f = fused_axes::copy_axes(extents, ds, ss, rank);
                over_fused(src, dst, f, s, d);
                return;
            }
            over_axes(src, dst, extents, ss, ds, rank, s, d);
        }
        None => {
            over_axes(src, dst, extents, ss, ds, rank, s, d);
        }
    }
}
