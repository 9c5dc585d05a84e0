// Runs along one axis of two strided slices. What each leaves is the plain loop, cell by cell: `in_order` of `cell_at`.
// The rule is a type of its own, so that no loop asks for it.
#![tactic(auto)]

ghost use Rattle.std.specs.Prelude.{◌≡◌, ◌<◌, pos, length};
ghost use Rattle.indexing.specs.Loops.{in_order};
ghost use Rattle.runs.specs.Runs.{cell_at, line, Run, Plane, run_at};

use rules::{Combine, Element};

// n cells of stride 1 on both sides, from the places s and d: on the parts of the slices that they are.
fn row<E: Element, R: Combine<E>>(rule: R, src: &[E], dst: &mut [E], n: usize, s: i64, d: i64)
    requires { (0 < n) × Run s d (pos 1) (pos 1) n (length src.now) (length dst.old) }
    ensures { dst.new ≡ in_order (cell_at E.absent (R.combined rule) src.now (line s (pos 1)) (line d (pos 1))) n dst.old }
{
    E::short(src);
    E::short(dst);
    let a = s as usize;
    let b = d as usize;
    rule.apply_each(&src[a..a + n], &mut dst[b..b + n]);
}

// n cells, from the places s and d by the strides ss and ds.
pub fn strided_run<E: Element, R: Combine<E>>(
    rule: R,
    src: &[E],
    dst: &mut [E],
    n: usize,
    s: i64,
    d: i64,
    ss: i64,
    ds: i64,
)
    requires { Run s d ss ds n (length src.now) (length dst.old) }
    ensures { dst.new ≡ in_order (cell_at E.absent (R.combined rule) src.now (line s ss) (line d ds)) n dst.old }
{
    E::short(src);
    E::short(dst);
    for i in 0..n {
        let k = i as i64;
        let a = (s + ss * k) as usize;
        let b = (d + ds * k) as usize;
        dst[b] = rule.apply(dst[b], src[a]);
    }
}

// m rows of n cells each: those of row j from places moved by j times st and dt.
fn rows<E: Element, R: Combine<E>>(
    rule: R,
    src: &[E],
    dst: &mut [E],
    n: usize,
    m: u64,
    s: i64,
    d: i64,
    st: i64,
    dt: i64,
)
    requires { Plane s d (pos 1) (pos 1) st dt n m (length src.now) (length dst.old) }
    ensures { dst.new ≡ in_order (run_at E.absent (R.combined rule) src.now s d (pos 1) (pos 1) st dt n) m dst.old }
{
    E::short(src);
    E::short(dst);
    for j in 0..m {
        let k = j as i64;
        row(rule, src, dst, n, s + st * k, d + dt * k);
    }
}

// m runs of n cells each, by strides.
fn strided_rows<E: Element, R: Combine<E>>(
    rule: R,
    src: &[E],
    dst: &mut [E],
    n: usize,
    m: u64,
    s: i64,
    d: i64,
    ss: i64,
    ds: i64,
    st: i64,
    dt: i64,
)
    requires { Plane s d ss ds st dt n m (length src.now) (length dst.old) }
    ensures { dst.new ≡ in_order (run_at E.absent (R.combined rule) src.now s d ss ds st dt n) m dst.old }
{
    E::short(src);
    E::short(dst);
    for j in 0..m {
        let k = j as i64;
        strided_run(rule, src, dst, n, s + st * k, d + dt * k, ss, ds);
    }
}

// The same, with a way of its own for strides of 1 on both sides. Written out in place, or the loop over the rows counts them in memory.
#[inline(always)]
pub fn plane<E: Element, R: Combine<E>>(
    rule: R,
    src: &[E],
    dst: &mut [E],
    n: usize,
    m: u64,
    s: i64,
    d: i64,
    ss: i64,
    ds: i64,
    st: i64,
    dt: i64,
)
    requires { Plane s d ss ds st dt n m (length src.now) (length dst.old) }
    ensures { dst.new ≡ in_order (run_at E.absent (R.combined rule) src.now s d ss ds st dt n) m dst.old }
{
    if ss == 1 && ds == 1 {
        rows(rule, src, dst, n, m, s, d, st, dt);
    } else {
        strided_rows(rule, src, dst, n, m, s, d, ss, ds, st, dt);
    }
}
