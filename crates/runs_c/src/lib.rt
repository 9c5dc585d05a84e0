// The runs and the windows for the benchmark to call. Each export tests that there are cells and that every one lies inside its
// slice, answers whether that is so, and if so makes the run or the window `times` times.
#![tactic(auto)]

ghost use Rattle.std.specs.Prelude.{◌≡◌, ◌≤◌, pos, length, take, replicate};
ghost use Rattle.std.specs.Float.{nan};
ghost use Rattle.indexing.specs.Loops.{in_order};
ghost use Rattle.layout.specs.Layouts.{rank_limit};
ghost use Rattle.rules.specs.Rules.{rule_i32, rule_f64};
ghost use Rattle.runs.specs.Runs.{cell_at, line};
ghost use Rattle.windows.specs.Windows.{windowed};
ghost use Rattle.runs_c.specs.Bench.{all_few, covers, accepted, Tested, adds_i32, adds_f64, Ran};

use layout::{Layout, RAW_FUSED_RANK_LIMIT, View};
use rules::{Add, Combine, Element, Replace};

// Whether no extent is above 2^63.
fn all_few(extents: [u64; RAW_FUSED_RANK_LIMIT], rank: usize) -> bool
    requires { rank ≤ rank_limit }
    ensures { result ≡ all_few (take rank extents) }
{
    for i in 0..rank {
        if 9223372036854775808 < extents[i] {
            return false;
        }
    }
    true
}

// Whether the cells of a view lie inside a slice of `len` elements.
fn inside(
    extents: [u64; RAW_FUSED_RANK_LIMIT],
    strides: [i64; RAW_FUSED_RANK_LIMIT],
    rank: usize,
    offset: i64,
    len: usize,
) -> bool
    ensures { result ≡ covers (take rank extents) (take rank strides) offset len }
{
    let layout = Layout {
        rank,
        extents,
        strides,
    };
    let view = View { layout, offset };
    let reach = spans::view_reach(view, len);
    let answer = layout::check_reach(reach, 0);
    layout::is_done(answer)
}

// Whether there are axes and cells, and all cells of both sides lie inside slices of sn and dn elements.
fn accepts(
    extents: [u64; RAW_FUSED_RANK_LIMIT],
    ss: [i64; RAW_FUSED_RANK_LIMIT],
    ds: [i64; RAW_FUSED_RANK_LIMIT],
    rank: usize,
    s: i64,
    d: i64,
    sn: usize,
    dn: usize,
) -> bool
    ensures { Tested result rank extents ss ds s d sn dn }
{
    if rank == 0 {
        return false;
    }
    if RAW_FUSED_RANK_LIMIT < rank {
        return false;
    }
    if spans::has_zero(extents, rank) {
        return false;
    }
    if !all_few(extents, rank) {
        return false;
    }
    if !inside(extents, ss, rank, s, sn) {
        return false;
    }
    inside(extents, ds, rank, d, dn)
}

// A run, `times` times, where its cells are accepted.
fn run<E: Element, R: Combine<E>>(
    rule: R,
    src: &[E],
    dst: &mut [E],
    n: u64,
    s: i64,
    d: i64,
    ss: i64,
    ds: i64,
    times: u64,
) -> bool
    ensures { Ran result (accepted 1 (replicate rank_limit n) (replicate rank_limit ss) (replicate rank_limit ds) s d (length src.now) (length dst.old)) (λ _ x. in_order (cell_at E.absent (R.combined rule) src.now (line s ss) (line d ds)) n x) times dst.old dst.new }
{
    let extents = [n; RAW_FUSED_RANK_LIMIT];
    let source = [ss; RAW_FUSED_RANK_LIMIT];
    let dest = [ds; RAW_FUSED_RANK_LIMIT];
    if !accepts(extents, source, dest, 1, s, d, src.len(), dst.len()) {
        return false;
    }
    for _ in 0..times {
        runs::plane(rule, src, dst, n as usize, 1, s, d, ss, ds, 0, 0);
    }
    true
}

// A window, `times` times, where its cells are accepted.
fn window<E: Element, R: Combine<E>>(
    rule: R,
    src: &[E],
    dst: &mut [E],
    extents: &[u64; RAW_FUSED_RANK_LIMIT],
    ss: &[i64; RAW_FUSED_RANK_LIMIT],
    ds: &[i64; RAW_FUSED_RANK_LIMIT],
    rank: usize,
    s: i64,
    d: i64,
    times: u64,
) -> bool
    ensures { Ran result (accepted rank extents.now ss.now ds.now s d (length src.now) (length dst.old)) (λ _ x. windowed E.absent (R.combined rule) src.now s d extents.now ss.now ds.now rank x) times dst.old dst.new }
{
    if !accepts(*extents, *ss, *ds, rank, s, d, src.len(), dst.len()) {
        return false;
    }
    for _ in 0..times {
        let low = windows::run_axis(extents, rank);
        windows::axes(rule, src, dst, extents, ss, ds, low, rank, s, d);
    }
    true
}

#[unsafe(no_mangle)]
pub extern "C" fn bench_run_i32(
    add: bool,
    src: &[i32],
    dst: &mut [i32],
    n: u64,
    s: i64,
    d: i64,
    ss: i64,
    ds: i64,
    times: u64,
) -> bool
    ensures { Ran result (accepted 1 (replicate rank_limit n) (replicate rank_limit ss) (replicate rank_limit ds) s d (length src.now) (length dst.old)) (λ _ x. in_order (cell_at (pos 0) (rule_i32 (adds_i32 add)) src.now (line s ss) (line d ds)) n x) times dst.old dst.new }
{
    if add {
        run(Add, src, dst, n, s, d, ss, ds, times)
    } else {
        run(Replace, src, dst, n, s, d, ss, ds, times)
    }
}

#[unsafe(no_mangle)]
pub extern "C" fn bench_window_i32(
    add: bool,
    src: &[i32],
    dst: &mut [i32],
    extents: &[u64; RAW_FUSED_RANK_LIMIT],
    ss: &[i64; RAW_FUSED_RANK_LIMIT],
    ds: &[i64; RAW_FUSED_RANK_LIMIT],
    rank: usize,
    s: i64,
    d: i64,
    times: u64,
) -> bool
    ensures { Ran result (accepted rank extents.now ss.now ds.now s d (length src.now) (length dst.old)) (λ _ x. windowed (pos 0) (rule_i32 (adds_i32 add)) src.now s d extents.now ss.now ds.now rank x) times dst.old dst.new }
{
    if add {
        window(Add, src, dst, extents, ss, ds, rank, s, d, times)
    } else {
        window(Replace, src, dst, extents, ss, ds, rank, s, d, times)
    }
}

#[unsafe(no_mangle)]
pub extern "C" fn bench_run_f64(
    add: bool,
    src: &[f64],
    dst: &mut [f64],
    n: u64,
    s: i64,
    d: i64,
    ss: i64,
    ds: i64,
    times: u64,
) -> bool
    ensures { Ran result (accepted 1 (replicate rank_limit n) (replicate rank_limit ss) (replicate rank_limit ds) s d (length src.now) (length dst.old)) (λ _ x. in_order (cell_at nan (rule_f64 (adds_f64 add)) src.now (line s ss) (line d ds)) n x) times dst.old dst.new }
{
    if add {
        run(Add, src, dst, n, s, d, ss, ds, times)
    } else {
        run(Replace, src, dst, n, s, d, ss, ds, times)
    }
}

#[unsafe(no_mangle)]
pub extern "C" fn bench_window_f64(
    add: bool,
    src: &[f64],
    dst: &mut [f64],
    extents: &[u64; RAW_FUSED_RANK_LIMIT],
    ss: &[i64; RAW_FUSED_RANK_LIMIT],
    ds: &[i64; RAW_FUSED_RANK_LIMIT],
    rank: usize,
    s: i64,
    d: i64,
    times: u64,
) -> bool
    ensures { Ran result (accepted rank extents.now ss.now ds.now s d (length src.now) (length dst.old)) (λ _ x. windowed nan (rule_f64 (adds_f64 add)) src.now s d extents.now ss.now ds.now rank x) times dst.old dst.new }
{
    if add {
        window(Add, src, dst, extents, ss, ds, rank, s, d, times)
    } else {
        window(Replace, src, dst, extents, ss, ds, rank, s, d, times)
    }
}
