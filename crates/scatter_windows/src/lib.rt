// The batches of a scatter whose windows have one cell: each update is put on the destination by a rule, at a place that is moved
// by a start, read at a place of the batch's own. What each leaves is the plain loop over every linear index, first axis fastest; it
// hands back how many batches have a start that the clamp moves.
#![tactic(auto)]

ghost use Rattle.std.specs.Prelude.{◌≡◌, ◌≤◌, length, take};
ghost use Rattle.indexing.specs.Coordinates.{product};
ghost use Rattle.indexing.specs.Loops.{in_order};
ghost use Rattle.layout.specs.Layouts.{rank_limit};
ghost use Rattle.runs.specs.Runs.{cell_at, line};
ghost use Rattle.windows.specs.Windows.{place_at};
ghost use Rattle.indexed_runs.specs.IndexedRuns.{Starting, starts_moved, moved_at, Putting};
ghost use Rattle.scatter_windows.specs.Scattering.{put_by, OneCell, BatchPlaces, PutLevel};

use indexed_runs::Components;
use layout::RAW_FUSED_RANK_LIMIT;
use rules::{Combine, Element};

// Whether the axes have one place each.
pub fn one_cell(extents: &[u64; RAW_FUSED_RANK_LIMIT], rank: usize) -> bool
    requires { rank ≤ rank_limit }
    ensures { OneCell result extents.now rank }
{
    for i in 0..rank {
        if extents[i] != 1 {
            return false;
        }
    }
    true
}

// One run of windows of one cell: the start of each is read. Where starts have no components all updates are put on one element.
fn scatter_run<E: Element, R: Combine<E>>(
    rule: R,
    src: &[E],
    starts: &[i64],
    dst: &mut [E],
    n: usize,
    t: i64,
    u: i64,
    d: i64,
    ts: i64,
    us: i64,
    components: &Components,
) -> u64
    requires { Putting starts.now components.now.offsets components.now.strides components.now.limits components.now.count u t d us ts n (length src.now) (length dst.old) }
    ensures { (dst.new ≡ in_order (cell_at E.absent (R.combined rule) src.now (line u us) (moved_at starts.now components.now.offsets components.now.strides components.now.limits components.now.count (λ _. d) (line t ts))) n dst.old) × (result ≡ starts_moved starts.now components.now.offsets components.now.limits components.now.count n (line t ts)) }
{
    if n == 0 {
        return 0;
    }
    if components.count == 0 {
        runs::strided_run(rule, src, dst, n, u, d, us, 0);
        return 0;
    }
    if components.count == 1 {
        let at = t + components.offsets[0];
        let stride = components.strides[0];
        let limit = components.limits[0];
        return indexed_runs::put_run(rule, src, starts, dst, n, at, ts, d, stride, limit, u, us);
    }
    indexed_runs::put_cells(rule, src, starts, dst, n, u, t, d, us, ts, components)
}

// The batches of the first `rank` axes, whose windows have one cell. There are some, and the axes before `low` have one place each.
fn scatter_cells<E: Element, R: Combine<E>>(
    rule: R,
    src: &[E],
    starts: &[i64],
    dst: &mut [E],
    extents: &[u64; RAW_FUSED_RANK_LIMIT],
    ts: &[i64; RAW_FUSED_RANK_LIMIT],
    us: &[i64; RAW_FUSED_RANK_LIMIT],
    components: &Components,
    low: usize,
    rank: usize,
    t: i64,
    u: i64,
    d: i64,
) -> u64
    requires { PutLevel starts.now components.now.offsets components.now.strides components.now.limits components.now.count t u d extents.now ts.now us.now low rank (length src.now) (length dst.old) }
    ensures { (dst.new ≡ put_by E.absent (R.combined rule) src.now starts.now components.now.offsets components.now.strides components.now.limits components.now.count t u d extents.now ts.now us.now rank dst.old) × (result ≡ starts_moved starts.now components.now.offsets components.now.limits components.now.count (product (take rank extents.now)) (place_at t extents.now ts.now rank)) }
{
    let top = rank - 1;
    let n = extents[top];
    let x = ts[top];
    let y = us[top];
    if top == low {
        return scatter_run(
            rule, src, starts, dst, n as usize, t, u, d, x, y, components,
        );
    }
    E::short(src);
    let mut slid: u64 = 0;
    for j in 0..n {
        let k = j as i64;
        let p = t + x * k;
        let q = u + y * k;
        slid += scatter_cells(
            rule, src, starts, dst, extents, ts, us, components, low, top, p, q, d,
        );
    }
    slid
}

// The same with any number of axes.
pub fn scatter_each<E: Element, R: Combine<E>>(
    rule: R,
    src: &[E],
    starts: &[i64],
    dst: &mut [E],
    extents: &[u64; RAW_FUSED_RANK_LIMIT],
    ts: &[i64; RAW_FUSED_RANK_LIMIT],
    us: &[i64; RAW_FUSED_RANK_LIMIT],
    components: &Components,
    rank: usize,
    t: i64,
    u: i64,
    d: i64,
) -> u64
    requires { BatchPlaces (λ x y. Starting starts.now components.now.offsets components.now.strides components.now.limits d x components.now.count (length dst.old)) t u extents.now ts.now us.now rank (length src.now) }
    ensures { (dst.new ≡ put_by E.absent (R.combined rule) src.now starts.now components.now.offsets components.now.strides components.now.limits components.now.count t u d extents.now ts.now us.now rank dst.old) × (result ≡ starts_moved starts.now components.now.offsets components.now.limits components.now.count (product (take rank extents.now)) (place_at t extents.now ts.now rank)) }
{
    if rank == 0 {
        return scatter_run(rule, src, starts, dst, 1, t, u, d, 0, 0, components);
    }
    let low = windows::run_axis(extents, rank);
    scatter_cells(
        rule, src, starts, dst, extents, ts, us, components, low, rank, t, u, d,
    )
}
