// Windows: all cells of up to eight axes of two strided slices, a run at a time. What each leaves is the plain loop over every
// linear index, first axis fastest. There are no coordinates and no resets: the last axis moves both bases, and below it stands
// the window of the axes before it.
#![tactic(auto)]

ghost use Rattle.std.specs.Prelude.{◌≡◌, ◌<◌, ◌≤◌, pos, length};
ghost use Rattle.layout.specs.Layouts.{rank_limit};
ghost use Rattle.windows.specs.Windows.{windowed, Level, RunAxis, row_count};

use layout::RAW_FUSED_RANK_LIMIT;
use rules::{Combine, Element};

// The axis that runs go along: the first whose extent is not 1, or the last where there is none.
pub fn run_axis(extents: &[u64; RAW_FUSED_RANK_LIMIT], rank: usize) -> usize
    requires { (0 < rank) × (rank ≤ rank_limit) }
    ensures { RunAxis result extents.now rank }
{
    for low in 0..rank - 1 {
        if extents[low] != 1 {
            return low;
        }
    }
    rank - 1
}

// How many rows of cells there are along the axis `low` and the last axis, `top`: its extent n, and one where the two are the same axis.
pub fn row_count(top: usize, low: usize, n: u64) -> u64
    ensures { result ≡ row_count top low n }
{
    if top == low { 1 } else { n }
}

// The cells of the first `rank` axes. There are some, and the axes before `low` have one place each.
pub fn axes<E: Element, R: Combine<E>>(
    rule: R,
    src: &[E],
    dst: &mut [E],
    extents: &[u64; RAW_FUSED_RANK_LIMIT],
    ss: &[i64; RAW_FUSED_RANK_LIMIT],
    ds: &[i64; RAW_FUSED_RANK_LIMIT],
    low: usize,
    rank: usize,
    s: i64,
    d: i64,
)
    requires { Level s d extents.now ss.now ds.now low rank (length src.now) (length dst.old) }
    ensures { dst.new ≡ windowed E.absent (R.combined rule) src.now s d extents.now ss.now ds.now rank dst.old }
{
    let top = rank - 1;
    let n = extents[top];
    let a = ss[top];
    let b = ds[top];
    if top <= low + 1 {
        let m = extents[low];
        let x = ss[low];
        let y = ds[low];
        let count = row_count(top, low, n);
        runs::plane(rule, src, dst, m as usize, count, s, d, x, y, a, b);
        return;
    }
    E::short(src);
    E::short(dst);
    for j in 0..n {
        let k = j as i64;
        axes(
            rule,
            src,
            dst,
            extents,
            ss,
            ds,
            low,
            top,
            s + a * k,
            d + b * k,
        );
    }
}
