// Runs whose places on one side are given by starts, each clamped: windows of one cell, whose start changes with each cell. Each hands
// back how many of its starts the clamp moved; a take that is told not to count, 0.
#![tactic(auto)]

ghost use Rattle.std.specs.Prelude.{◌≡◌, cond, ◌&&◌, ◌+◌, ◌*◌, ◌-◌, ◌<◌, ◌≤◌, ◌^◌, pos, nat_abs, ◌+ℤ◌, ◌≤ℤ◌, length};
ghost use Rattle.integer.specs.Z.{up};
ghost use Rattle.integer.specs.Defs.{min_ℤ};
ghost use Rattle.indexing.specs.Start.{clamp};
ghost use Rattle.indexing.specs.Slid.{moved, how_many};
ghost use Rattle.indexing.specs.Loops.{in_order};
ghost use Rattle.runs.specs.Runs.{cell_at, line};
ghost use Rattle.indexed_runs.specs.IndexedRuns.{replaced, start_at, start_moved, starts_moved, moves_at, Starting, moved_at, Taking, Putting, clamped_at, Clamped, one_at, Ones};

use layout::RAW_FUSED_RANK_LIMIT;
use rules::{Combine, Element};

// So many cells go to a turn where every step is 1.
const TURN: usize = 4;

// The components of a start: how many, where each is read, the stride that it moves a place by, and its last start.
#[derive(Clone, Copy)]
pub struct Components {
    pub count: usize,
    pub offsets: [i64; RAW_FUSED_RANK_LIMIT],
    pub strides: [i64; RAW_FUSED_RANK_LIMIT],
    pub limits: [u64; RAW_FUSED_RANK_LIMIT],
}

// A place, and whether a start on the way to it was moved.
#[derive(Clone, Copy)]
pub struct StartPlace {
    pub at: i64,
    pub moved: bool,
}

// s, moved by the first components of the start that is read at t: each is clamped, and times its stride; and whether the clamp moved one.
fn started_by(starts: &[i64], s: i64, t: i64, count: usize, components: &Components) -> StartPlace
    requires { Starting starts.now components.now.offsets components.now.strides components.now.limits s t count (2 ^ 63 - 1) }
    ensures { (result.at ≡ s +ℤ start_at starts.now components.now.offsets components.now.strides components.now.limits t count) × (result.moved ≡ start_moved starts.now components.now.offsets components.now.limits t count) }
{
    let mut at: i64 = s;
    let mut moved = false;
    for c in 0..count {
        let p = (t + components.offsets[c]) as usize;
        let x = starts[p];
        let y = layout::clamp_window_start(x, components.limits[c], 0);
        at += components.strides[c] * (y.start as i64);
        moved = layout::either(moved, y.moved);
    }
    StartPlace { at, moved }
}

// s, moved by all components of the start that is read at t; and whether the clamp moved one.
pub fn started(starts: &[i64], s: i64, t: i64, components: &Components) -> StartPlace
    requires { Starting starts.now components.now.offsets components.now.strides components.now.limits s t components.now.count (2 ^ 63 - 1) }
    ensures { (result.at ≡ s +ℤ start_at starts.now components.now.offsets components.now.strides components.now.limits t components.now.count) × (result.moved ≡ start_moved starts.now components.now.offsets components.now.limits t components.now.count) }
{
    started_by(starts, s, t, components.count, components)
}

// n cells: the source's place from s by ss, moved by the start read at t by ts; the destination's from d by ds.
fn take_cells_by<const COUNTS: bool, E: Element>(
    src: &[E],
    starts: &[i64],
    dst: &mut [E],
    n: usize,
    s: i64,
    t: i64,
    d: i64,
    ss: i64,
    ts: i64,
    ds: i64,
    count: usize,
    components: &Components,
) -> u64
    requires { Taking starts.now components.now.offsets components.now.strides components.now.limits count s t d ss ts ds n (length src.now) (length dst.old) }
    ensures { (dst.new ≡ in_order (cell_at E.absent replaced src.now (moved_at starts.now components.now.offsets components.now.strides components.now.limits count (line s ss) (line t ts)) (line d ds)) n dst.old) × (result ≡ cond COUNTS (starts_moved starts.now components.now.offsets components.now.limits count n (line t ts)) 0) }
{
    E::short(src);
    E::short(dst);
    let mut slid: u64 = 0;
    for i in 0..n {
        let k = i as i64;
        let m = started_by(starts, s + ss * k, t + ts * k, count, components);
        let a = m.at as usize;
        let b = (d + ds * k) as usize;
        dst[b] = src[a];
        let one = layout::count_if(m.moved, 1);
        slid += layout::count_if(COUNTS, one);
    }
    slid
}

// The same where starts have any number of components. Two, as a plane's have, go by loops of their own, in which the compiler writes
// both out.
fn take_counted<const COUNTS: bool, E: Element>(
    src: &[E],
    starts: &[i64],
    dst: &mut [E],
    n: usize,
    s: i64,
    t: i64,
    d: i64,
    ss: i64,
    ts: i64,
    ds: i64,
    components: &Components,
) -> u64
    requires { Taking starts.now components.now.offsets components.now.strides components.now.limits components.now.count s t d ss ts ds n (length src.now) (length dst.old) }
    ensures { (dst.new ≡ in_order (cell_at E.absent replaced src.now (moved_at starts.now components.now.offsets components.now.strides components.now.limits components.now.count (line s ss) (line t ts)) (line d ds)) n dst.old) × (result ≡ cond COUNTS (starts_moved starts.now components.now.offsets components.now.limits components.now.count n (line t ts)) 0) }
{
    let count = components.count;
    if count == 2 {
        take_cells_by::<COUNTS, E>(src, starts, dst, n, s, t, d, ss, ts, ds, 2, components)
    } else {
        take_cells_by::<COUNTS, E>(src, starts, dst, n, s, t, d, ss, ts, ds, count, components)
    }
}

// The same, by loops that count or loops that do not.
pub fn take_cells<E: Element>(
    counts: bool,
    src: &[E],
    starts: &[i64],
    dst: &mut [E],
    n: usize,
    s: i64,
    t: i64,
    d: i64,
    ss: i64,
    ts: i64,
    ds: i64,
    components: &Components,
) -> u64
    requires { Taking starts.now components.now.offsets components.now.strides components.now.limits components.now.count s t d ss ts ds n (length src.now) (length dst.old) }
    ensures { (dst.new ≡ in_order (cell_at E.absent replaced src.now (moved_at starts.now components.now.offsets components.now.strides components.now.limits components.now.count (line s ss) (line t ts)) (line d ds)) n dst.old) × (result ≡ cond counts (starts_moved starts.now components.now.offsets components.now.limits components.now.count n (line t ts)) 0) }
{
    if counts {
        take_counted::<true, E>(src, starts, dst, n, s, t, d, ss, ts, ds, components)
    } else {
        take_counted::<false, E>(src, starts, dst, n, s, t, d, ss, ts, ds, components)
    }
}

// x moved inside 0 .. limit, and whether that is another. The upper end is tested first, for the compiler's sake, which then makes one
// comparison of the two tests.
pub fn clamped(x: i64, limit: i64) -> StartPlace
    requires { pos 0 ≤ℤ limit }
    ensures { (result.at ≡ clamp x (nat_abs limit) 0) × (result.moved ≡ moved x (nat_abs limit) 0) }
{
    StartPlace {
        at: x.min(limit).max(0),
        moved: limit < x || x < 0,
    }
}

// n cells: the source's place by the start read at t by ts, clamped, times the stride; the destination's from d by ds.
fn take_strided<const COUNTS: bool, E: Element>(
    src: &[E],
    starts: &[i64],
    dst: &mut [E],
    n: usize,
    t: i64,
    ts: i64,
    base: i64,
    stride: i64,
    limit: u64,
    d: i64,
    ds: i64,
) -> u64
    requires { Clamped starts.now t ts base stride d ds limit n (length src.now) (length dst.old) }
    ensures { (dst.new ≡ in_order (cell_at E.absent replaced src.now (clamped_at starts.now (line t ts) base stride limit) (line d ds)) n dst.old) × (result ≡ cond COUNTS (how_many n (moves_at starts.now (line t ts) limit)) 0) }
{
    E::short(src);
    E::short(dst);
    let mut slid: u64 = 0;
    for i in 0..n {
        let k = i as i64;
        let p = (t + ts * k) as usize;
        let x = starts[p];
        let y = layout::clamp_window_start(x, limit, 0);
        let a = (base + stride * (y.start as i64)) as usize;
        let b = (d + ds * k) as usize;
        dst[b] = src[a];
        let one = layout::count_if(y.moved, 1);
        slid += layout::count_if(COUNTS, one);
    }
    slid
}

// Cell i: of the source where start i says, clamped; of the destination in order. 1 where it counts and the start is moved.
fn take_one<const COUNTS: bool, E: Element>(
    src: &[E],
    starts: &[i64],
    dst: &mut [E],
    limit: i64,
    i: usize,
) -> u64
    requires { (i < length dst.old) × Ones starts.now limit (length dst.old) (length src.now) }
    ensures { (dst.new ≡ cell_at E.absent replaced src.now (one_at starts.now limit) pos i dst.old) × (result ≡ cond (COUNTS && moves_at starts.now pos (nat_abs limit) i) 1 0) }
{
    E::short(src);
    E::short(dst);
    let y = clamped(starts[i], limit);
    let a = y.at as usize;
    dst[i] = src[a];
    let one = layout::count_if(y.moved, 1);
    layout::count_if(COUNTS, one)
}

// The cells from `from` up to `to`.
fn take_few<const COUNTS: bool, E: Element>(
    src: &[E],
    starts: &[i64],
    dst: &mut [E],
    limit: i64,
    from: usize,
    to: usize,
) -> u64
    requires { (from ≤ to) × (to ≤ length dst.old) × Ones starts.now limit (length dst.old) (length src.now) }
    ensures { (dst.new ≡ in_order (λ k. cell_at E.absent replaced src.now (one_at starts.now limit) pos (k + from)) (to - from) dst.old) × (result ≡ how_many (to - from) (λ k. COUNTS && moves_at starts.now pos (nat_abs limit) (k + from))) }
{
    let mut slid: u64 = 0;
    for i in from..to {
        slid += take_one::<COUNTS, E>(src, starts, dst, limit, i);
    }
    slid
}

// A cell for each start: of the source where the start says, clamped; of the destination in order. Four to a turn, behind those that
// are over. That the limit is not below 0 is asked for the compiler's sake, which then asks once whether a start is outside.
fn take_ones<const COUNTS: bool, E: Element>(
    src: &[E],
    starts: &[i64],
    dst: &mut [E],
    limit: i64,
) -> u64
    requires { Ones starts.now limit (length dst.old) (length src.now) }
    ensures { (dst.new ≡ in_order (cell_at E.absent replaced src.now (one_at starts.now limit) pos) (length dst.old) dst.old) × (result ≡ cond COUNTS (how_many (length dst.old) (moves_at starts.now pos (nat_abs limit))) 0) }
{
    if limit < 0 {
        return 0;
    }
    let n = dst.len();
    let over = n % TURN;
    let mut slid = take_few::<COUNTS, E>(src, starts, dst, limit, 0, over);
    for turn in 0..n / TURN {
        let from = over + TURN * turn;
        slid += take_few::<COUNTS, E>(src, starts, dst, limit, from, from + TURN);
    }
    slid
}

// n cells whose every step is 1: on the parts of the starts and the destination that they are, and the source from the base on.
fn take_row<const COUNTS: bool, E: Element>(
    src: &[E],
    starts: &[i64],
    dst: &mut [E],
    n: usize,
    t: i64,
    base: i64,
    limit: u64,
    d: i64,
) -> u64
    requires { (0 < n) × Clamped starts.now t (pos 1) base (pos 1) d (pos 1) limit n (length src.now) (length dst.old) }
    ensures { (dst.new ≡ in_order (cell_at E.absent replaced src.now (clamped_at starts.now (line t (pos 1)) base (pos 1) limit) (line d (pos 1))) n dst.old) × (result ≡ cond COUNTS (how_many n (moves_at starts.now (line t (pos 1)) limit)) 0) }
{
    E::short(src);
    E::short(dst);
    let l = limit as i64;
    let a = t as usize;
    let b = d as usize;
    let c = base as usize;
    let e = a + n;
    let f = b + n;
    let m = src.len();
    take_ones::<COUNTS, E>(&src[c..m], &starts[a..e], &mut dst[b..f], l)
}

// n cells: by take_row where every step is 1, else by take_strided.
fn take_run_by<const COUNTS: bool, E: Element>(
    src: &[E],
    starts: &[i64],
    dst: &mut [E],
    n: usize,
    t: i64,
    ts: i64,
    base: i64,
    stride: i64,
    limit: u64,
    d: i64,
    ds: i64,
) -> u64
    requires { Clamped starts.now t ts base stride d ds limit n (length src.now) (length dst.old) }
    ensures { (dst.new ≡ in_order (cell_at E.absent replaced src.now (clamped_at starts.now (line t ts) base stride limit) (line d ds)) n dst.old) × (result ≡ cond COUNTS (how_many n (moves_at starts.now (line t ts) limit)) 0) }
{
    if n == 0 {
        return 0;
    }
    if ts == 1 && stride == 1 && ds == 1 {
        return take_row::<COUNTS, E>(src, starts, dst, n, t, base, limit, d);
    }
    take_strided::<COUNTS, E>(src, starts, dst, n, t, ts, base, stride, limit, d, ds)
}

// The same, by loops that count or loops that do not.
pub fn take_run<E: Element>(
    counts: bool,
    src: &[E],
    starts: &[i64],
    dst: &mut [E],
    n: usize,
    t: i64,
    ts: i64,
    base: i64,
    stride: i64,
    limit: u64,
    d: i64,
    ds: i64,
) -> u64
    requires { Clamped starts.now t ts base stride d ds limit n (length src.now) (length dst.old) }
    ensures { (dst.new ≡ in_order (cell_at E.absent replaced src.now (clamped_at starts.now (line t ts) base stride limit) (line d ds)) n dst.old) × (result ≡ cond counts (how_many n (moves_at starts.now (line t ts) limit)) 0) }
{
    if counts {
        return take_run_by::<true, E>(src, starts, dst, n, t, ts, base, stride, limit, d, ds);
    }
    take_run_by::<false, E>(src, starts, dst, n, t, ts, base, stride, limit, d, ds)
}

// n cells by the rule, where starts have components: the source's place from s by ss; the destination's is d, moved by the start read
// at t by ts. Whether there are any is asked for the compiler's sake: it would make a second loop for none.
fn put_cells_by<E: Element, R: Combine<E>>(
    rule: R,
    src: &[E],
    starts: &[i64],
    dst: &mut [E],
    n: usize,
    s: i64,
    t: i64,
    d: i64,
    ss: i64,
    ts: i64,
    count: usize,
    components: &Components,
) -> u64
    requires { (0 < count) × Putting starts.now components.now.offsets components.now.strides components.now.limits count s t d ss ts n (length src.now) (length dst.old) }
    ensures { (dst.new ≡ in_order (cell_at E.absent (R.combined rule) src.now (line s ss) (moved_at starts.now components.now.offsets components.now.strides components.now.limits count (λ _. d) (line t ts))) n dst.old) × (result ≡ starts_moved starts.now components.now.offsets components.now.limits count n (line t ts)) }
{
    E::short(src);
    E::short(dst);
    if count == 0 {
        return 0;
    }
    let mut slid: u64 = 0;
    for i in 0..n {
        let k = i as i64;
        let m = started_by(starts, d, t + ts * k, count, components);
        let b = m.at as usize;
        let a = (s + ss * k) as usize;
        dst[b] = rule.apply(dst[b], src[a]);
        slid += layout::count_if(m.moved, 1);
    }
    slid
}

// The same where starts have any number of components. Two, as a plane's have, go by a loop of their own, in which the compiler writes
// both out.
pub fn put_cells<E: Element, R: Combine<E>>(
    rule: R,
    src: &[E],
    starts: &[i64],
    dst: &mut [E],
    n: usize,
    s: i64,
    t: i64,
    d: i64,
    ss: i64,
    ts: i64,
    components: &Components,
) -> u64
    requires { (0 < components.now.count) × Putting starts.now components.now.offsets components.now.strides components.now.limits components.now.count s t d ss ts n (length src.now) (length dst.old) }
    ensures { (dst.new ≡ in_order (cell_at E.absent (R.combined rule) src.now (line s ss) (moved_at starts.now components.now.offsets components.now.strides components.now.limits components.now.count (λ _. d) (line t ts))) n dst.old) × (result ≡ starts_moved starts.now components.now.offsets components.now.limits components.now.count n (line t ts)) }
{
    let count = components.count;
    if count == 2 {
        return put_cells_by(rule, src, starts, dst, n, s, t, d, ss, ts, 2, components);
    }
    put_cells_by(
        rule, src, starts, dst, n, s, t, d, ss, ts, count, components,
    )
}

// n cells by the rule: the source's place from s by ss; the destination's by the start read at t by ts, clamped, times the stride.
fn put_strided<E: Element, R: Combine<E>>(
    rule: R,
    src: &[E],
    starts: &[i64],
    dst: &mut [E],
    n: usize,
    t: i64,
    ts: i64,
    base: i64,
    stride: i64,
    limit: u64,
    s: i64,
    ss: i64,
) -> u64
    requires { Clamped starts.now t ts base stride s ss limit n (length dst.old) (length src.now) }
    ensures { (dst.new ≡ in_order (cell_at E.absent (R.combined rule) src.now (line s ss) (clamped_at starts.now (line t ts) base stride limit)) n dst.old) × (result ≡ how_many n (moves_at starts.now (line t ts) limit)) }
{
    E::short(src);
    E::short(dst);
    let mut slid: u64 = 0;
    for i in 0..n {
        let k = i as i64;
        let p = (t + ts * k) as usize;
        let x = starts[p];
        let y = layout::clamp_window_start(x, limit, 0);
        let b = (base + stride * (y.start as i64)) as usize;
        let a = (s + ss * k) as usize;
        dst[b] = rule.apply(dst[b], src[a]);
        slid += layout::count_if(y.moved, 1);
    }
    slid
}

// Cell i by the rule: of the source in order; of the destination where start i says, clamped. 1 where the start is moved.
fn put_one<E: Element, R: Combine<E>>(
    rule: R,
    src: &[E],
    starts: &[i64],
    dst: &mut [E],
    limit: i64,
    i: usize,
) -> u64
    requires { (i < length src.now) × Ones starts.now limit (length src.now) (length dst.old) }
    ensures { (dst.new ≡ cell_at E.absent (R.combined rule) src.now pos (one_at starts.now limit) i dst.old) × (result ≡ cond (moves_at starts.now pos (nat_abs limit) i) 1 0) }
{
    E::short(src);
    E::short(dst);
    let y = clamped(starts[i], limit);
    let b = y.at as usize;
    dst[b] = rule.apply(dst[b], src[i]);
    layout::count_if(y.moved, 1)
}

// The cells from `from` up to `to`.
fn put_few<E: Element, R: Combine<E>>(
    rule: R,
    src: &[E],
    starts: &[i64],
    dst: &mut [E],
    limit: i64,
    from: usize,
    to: usize,
) -> u64
    requires { (from ≤ to) × (to ≤ length src.now) × Ones starts.now limit (length src.now) (length dst.old) }
    ensures { (dst.new ≡ in_order (λ k. cell_at E.absent (R.combined rule) src.now pos (one_at starts.now limit) (k + from)) (to - from) dst.old) × (result ≡ how_many (to - from) (λ k. moves_at starts.now pos (nat_abs limit) (k + from))) }
{
    let mut slid: u64 = 0;
    for i in from..to {
        slid += put_one(rule, src, starts, dst, limit, i);
    }
    slid
}

// A cell for each start, by the rule: of the source in order; of the destination where the start says, clamped. Four to a turn, behind
// those that are over. That the limit is not below 0 is asked for the compiler's sake, which then asks once whether a start is outside.
fn put_ones<E: Element, R: Combine<E>>(
    rule: R,
    src: &[E],
    starts: &[i64],
    dst: &mut [E],
    limit: i64,
) -> u64
    requires { Ones starts.now limit (length src.now) (length dst.old) }
    ensures { (dst.new ≡ in_order (cell_at E.absent (R.combined rule) src.now pos (one_at starts.now limit)) (length src.now) dst.old) × (result ≡ how_many (length src.now) (moves_at starts.now pos (nat_abs limit))) }
{
    if limit < 0 {
        return 0;
    }
    let n = src.len();
    let over = n % TURN;
    let mut slid = put_few(rule, src, starts, dst, limit, 0, over);
    for turn in 0..n / TURN {
        let from = over + TURN * turn;
        slid += put_few(rule, src, starts, dst, limit, from, from + TURN);
    }
    slid
}

// n cells by the rule, whose every step is 1: on the parts of the source and the starts that they are, and the destination from the base on.
fn put_row<E: Element, R: Combine<E>>(
    rule: R,
    src: &[E],
    starts: &[i64],
    dst: &mut [E],
    n: usize,
    t: i64,
    base: i64,
    limit: u64,
    s: i64,
) -> u64
    requires { (0 < n) × Clamped starts.now t (pos 1) base (pos 1) s (pos 1) limit n (length dst.old) (length src.now) }
    ensures { (dst.new ≡ in_order (cell_at E.absent (R.combined rule) src.now (line s (pos 1)) (clamped_at starts.now (line t (pos 1)) base (pos 1) limit)) n dst.old) × (result ≡ how_many n (moves_at starts.now (line t (pos 1)) limit)) }
{
    E::short(src);
    E::short(dst);
    let l = limit as i64;
    let a = s as usize;
    let b = t as usize;
    let c = base as usize;
    let e = a + n;
    let f = b + n;
    let m = dst.len();
    put_ones(rule, &src[a..e], &starts[b..f], &mut dst[c..m], l)
}

// n cells by the rule: by put_row where every step is 1, else by put_strided.
pub fn put_run<E: Element, R: Combine<E>>(
    rule: R,
    src: &[E],
    starts: &[i64],
    dst: &mut [E],
    n: usize,
    t: i64,
    ts: i64,
    base: i64,
    stride: i64,
    limit: u64,
    s: i64,
    ss: i64,
) -> u64
    requires { Clamped starts.now t ts base stride s ss limit n (length dst.old) (length src.now) }
    ensures { (dst.new ≡ in_order (cell_at E.absent (R.combined rule) src.now (line s ss) (clamped_at starts.now (line t ts) base stride limit)) n dst.old) × (result ≡ how_many n (moves_at starts.now (line t ts) limit)) }
{
    if n == 0 {
        return 0;
    }
    if ts == 1 && stride == 1 && ss == 1 {
        return put_row(rule, src, starts, dst, n, t, base, limit, s);
    }
    put_strided(rule, src, starts, dst, n, t, ts, base, stride, limit, s, ss)
}
