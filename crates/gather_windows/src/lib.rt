// The cells of a gather: all cells of up to eight axes, where the source's place is moved by a start that is read at a place of its
// own. What each leaves is the plain loop over every linear index, first axis fastest; it hands back how many batch coordinates have a
// start that the clamp moves.
#![tactic(auto)]

ghost use Rattle.std.specs.Prelude.{◌≡◌, cond, ◌&&◌, ltb, ◌≤◌, pos, length, take};
ghost use Rattle.indexing.specs.Loops.{in_order};
ghost use Rattle.indexing.specs.Slid.{slid_of};
ghost use Rattle.indexing.specs.Coordinates.{product};
ghost use Rattle.layout.specs.Layouts.{rank_limit};
ghost use Rattle.runs.specs.Runs.{cell_at, line};
ghost use Rattle.indexed_runs.specs.IndexedRuns.{replaced, starts_moved, moved_at, Taking};
ghost use Rattle.windows.specs.Windows.{place_at};
ghost use Rattle.gather_windows.specs.Gathering.{gathered_by, Gathering, WindowAxes, Batched, GatherLevel, BatchLevel};

use indexed_runs::Components;
use layout::RAW_FUSED_RANK_LIMIT;
use rules::{Element, Replace};

// How many of the first axes have one batch coordinate: a window goes along them, or they have one place.
pub fn window_axes(batches: &[u64; RAW_FUSED_RANK_LIMIT], rank: usize) -> usize
    requires { rank ≤ rank_limit }
    ensures { WindowAxes result batches.now rank }
{
    for i in 0..rank {
        if batches[i] != 1 {
            return i;
        }
    }
    rank
}

// One run: windows of one cell, whose start is read at each. 0 where it does not count.
fn gather_run<E: Element>(
    counts: bool,
    src: &[E],
    starts: &[i64],
    dst: &mut [E],
    n: usize,
    s: i64,
    t: i64,
    d: i64,
    ss: i64,
    ts: i64,
    ds: i64,
    components: &Components,
) -> u64
    requires { Taking starts.now components.now.offsets components.now.strides components.now.limits components.now.count s t d ss ts ds n (length src.now) (length dst.old) }
    ensures { (dst.new ≡ in_order (cell_at E.absent replaced src.now (moved_at starts.now components.now.offsets components.now.strides components.now.limits components.now.count (line s ss) (line t ts)) (line d ds)) n dst.old) × (result ≡ cond counts (starts_moved starts.now components.now.offsets components.now.limits components.now.count n (line t ts)) 0) }
{
    if n == 0 {
        return 0;
    }
    if components.count == 1 && ss == 0 {
        let at = t + components.offsets[0];
        return indexed_runs::take_run(
            counts,
            src,
            starts,
            dst,
            n,
            at,
            ts,
            s,
            components.strides[0],
            components.limits[0],
            d,
            ds,
        );
    }
    indexed_runs::take_cells(counts, src, starts, dst, n, s, t, d, ss, ts, ds, components)
}

// Whether place j of an axis counts: where all of it counts, a place that has a batch coordinate of its own.
pub fn counts_at(counts: bool, j: u64, batches: u64) -> bool
    ensures { result ≡ (counts && ltb j batches) }
{
    counts && j < batches
}

// The cells of the first `rank` axes. There are some, the axes before `low` have one place each, and those before `wide` one batch
// coordinate: where only such axes are left, the start is read once, and what is left is a window. Each batch coordinate is counted
// once: along a window axis, which has one, the first place counts, and where a start is read again it is by loops that do not count.
fn gather_axes<E: Element>(
    counts: bool,
    src: &[E],
    starts: &[i64],
    dst: &mut [E],
    extents: &[u64; RAW_FUSED_RANK_LIMIT],
    batches: &[u64; RAW_FUSED_RANK_LIMIT],
    ss: &[i64; RAW_FUSED_RANK_LIMIT],
    ts: &[i64; RAW_FUSED_RANK_LIMIT],
    ds: &[i64; RAW_FUSED_RANK_LIMIT],
    components: &Components,
    low: usize,
    wide: usize,
    rank: usize,
    s: i64,
    t: i64,
    d: i64,
) -> u64
    requires { GatherLevel starts.now components.now.offsets components.now.strides components.now.limits components.now.count s t d extents.now ss.now ts.now ds.now low wide rank (length src.now) (length dst.old) × BatchLevel extents.now batches.now ts.now low wide rank }
    ensures { (dst.new ≡ gathered_by E.absent replaced src.now starts.now components.now.offsets components.now.strides components.now.limits components.now.count s t d extents.now ss.now ts.now ds.now rank dst.old) × (result ≡ cond counts (starts_moved starts.now components.now.offsets components.now.limits components.now.count (product (take rank batches.now)) (place_at t batches.now ts.now rank)) 0) }
{
    E::short(src);
    E::short(dst);
    if rank <= wide {
        let m = indexed_runs::started(starts, s, t, components);
        windows::axes(Replace, src, dst, extents, ss, ds, low, rank, m.at, d);
        let one = layout::count_if(m.moved, 1);
        return layout::count_if(counts, one);
    }
    let top = rank - 1;
    let n = extents[top];
    let counted = batches[top];
    let x = ss[top];
    let y = ts[top];
    let z = ds[top];
    if top == low {
        return gather_run(
            counts, src, starts, dst, n as usize, s, t, d, x, y, z, components,
        );
    }
    let mut slid: u64 = 0;
    for j in 0..n {
        let k = j as i64;
        let p = s + x * k;
        let q = t + y * k;
        let r = d + z * k;
        let here = counts_at(counts, j, counted);
        let below = gather_axes(
            here, src, starts, dst, extents, batches, ss, ts, ds, components, low, wide, top, p, q,
            r,
        );
        slid += below;
    }
    slid
}

// The cells of the first `rank` axes, of which there may be none.
pub fn gather_window<E: Element>(
    src: &[E],
    starts: &[i64],
    dst: &mut [E],
    extents: &[u64; RAW_FUSED_RANK_LIMIT],
    batches: &[u64; RAW_FUSED_RANK_LIMIT],
    ss: &[i64; RAW_FUSED_RANK_LIMIT],
    ts: &[i64; RAW_FUSED_RANK_LIMIT],
    ds: &[i64; RAW_FUSED_RANK_LIMIT],
    components: &Components,
    rank: usize,
    s: i64,
    t: i64,
    d: i64,
) -> u64
    requires { Gathering starts.now components.now.offsets components.now.strides components.now.limits components.now.count s t d extents.now ss.now ts.now ds.now rank (length src.now) (length dst.old) × Batched extents.now batches.now ts.now rank }
    ensures { (dst.new ≡ gathered_by E.absent replaced src.now starts.now components.now.offsets components.now.strides components.now.limits components.now.count s t d extents.now ss.now ts.now ds.now rank dst.old) × (result ≡ slid_of (product (take rank extents.now)) (starts_moved starts.now components.now.offsets components.now.limits components.now.count (product (take rank batches.now)) (place_at t batches.now ts.now rank))) }
{
    if rank == 0 {
        return gather_run(true, src, starts, dst, 1, s, t, d, 0, 0, 0, components);
    }
    if spans::has_zero(*extents, rank) {
        return 0;
    }
    let low = windows::run_axis(extents, rank);
    let wide = window_axes(batches, rank);
    gather_axes(
        true, src, starts, dst, extents, batches, ss, ts, ds, components, low, wide, rank, s, t, d,
    )
}
