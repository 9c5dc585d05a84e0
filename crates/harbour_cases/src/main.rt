// Runs document 01's harbour cases through the code, and prints each with its answer.
#![tactic(auto)]

use std::io;

fn put_refused(rt: &impl Print) -> io::Result<()> {
    let number = layout::number(Err(layout::Refusal::OffsetOverflow));
    println!(rt; "refused by {number}")
}

fn product(rt: &impl Print, extents: &[u64]) -> io::Result<()> {
    print!(rt; "product of {extents:?}: ")?;
    match spans::checked_total_len(extents) {
        Some(n) => println!(rt; "{n}"),
        None => put_refused(rt),
    }
}

fn clamp(rt: &impl Print, start: i64, extent: u64, window: u64) -> io::Result<()> {
    let clamped = layout::clamp_window_start(start, extent, window);
    let moved = if clamped.moved { ", moved" } else { "" };
    let inside = clamped.start;
    println!(rt; "start {start} in extent {extent}, window {window}: {inside}{moved}")
}

fn reset(rt: &impl Print, extent: u64, stride: i64) -> io::Result<()> {
    print!(rt; "reset of extent {extent}, stride {stride}: ")?;
    match layout::checked_replay_reset(extent, stride) {
        Some(r) => println!(rt; "{r}"),
        None => put_refused(rt),
    }
}

fn nested(rt: &impl Print, extents: &[u64], strides: &[i64]) -> io::Result<()> {
    let e = layout::padded_extents(extents);
    let s = layout::padded_strides(strides);
    let is = if spans::is_nested(e, s, extents.len()) {
        "nested"
    } else {
        "not nested"
    };
    println!(rt; "extents {extents:?} strides {strides:?}: {is}")
}

fn wrapped(rt: &impl Print, a: i32, b: i32) -> io::Result<()> {
    let sum = integer::wrapping_add_i32(a, b);
    println!(rt; "{a} plus {b}: {sum}")
}

fn main(rt: HostRuntime) -> io::Result<()> {
    product(&rt, &[])?;
    product(&rt, &[u64::MAX, 2, 0])?;
    product(&rt, &[0, u64::MAX, 2])?;
    clamp(&rt, -5, 10, 3)?;
    clamp(&rt, 7, 10, 3)?;
    clamp(&rt, 8, 10, 3)?;
    reset(&rt, 2, i64::MIN)?;
    reset(&rt, 1, i64::MIN)?;
    nested(&rt, &[2, 2], &[2, 3])?;
    nested(&rt, &[3, 2], &[2, 3])?;
    nested(&rt, &[1, 4], &[0, 1])?;
    wrapped(&rt, i32::MAX, 1)
}
