// Runs walks of document 01 through the code, and prints each with its answer; small windows place by place.
#![tactic(auto)]

mod placed;

use layout::Refusal;
use placed::{Unplaced, Window};
use replay::WindowReplayAxis;
use std::io;

fn put_refused(rt: &impl Print, refusal: Refusal) -> io::Result<()> {
    println!(rt; " refused by {}", layout::number(Err(refusal)))
}

fn reset(rt: &impl Print, extent: u64, stride: i64) -> io::Result<()> {
    print!(rt; "reset of extent {extent}, stride {stride}:")?;
    match layout::checked_replay_reset(extent, stride) {
        Some(r) => println!(rt; " {r}"),
        None => put_refused(rt, Refusal::OffsetOverflow),
    }
}

fn span(rt: &impl Print, extents: &[u64], strides: &[i64]) -> io::Result<()> {
    print!(rt; "span of extents {extents:?}, strides {strides:?}:")?;
    let e = layout::padded_extents(extents);
    let s = layout::padded_strides(strides);
    match spans::held_span(e, s, extents.len()) {
        Some(layout::Span { low, high }) => println!(rt; " {low} to {high}"),
        None => put_refused(rt, Refusal::OffsetOverflow),
    }
}

fn put_axis(rt: &impl Print, axis: &WindowReplayAxis) -> io::Result<()> {
    print!(rt;
        " [extent {}; {}, {}, {}, {}]",
        axis.extent, axis.source_step, axis.source_reset, axis.dest_step, axis.dest_reset
    )
}

// The merged axes, each with its extent and its row, or the refusal.
fn compile(rt: &impl Print, extents: &[u64], sources: &[i64], dests: &[i64]) -> io::Result<()> {
    let window = Window {
        extents,
        sources,
        dests,
    };
    print!(rt; "walk over {window}:")?;
    let made = window.compile();
    if let Err(refusal) = made.answer {
        return put_refused(rt, refusal);
    }
    for axis in made.axes.iter().take(made.replay.rank) {
        put_axis(rt, axis)?;
    }
    println!(rt)
}

// The places of a walk from the first to the last and back, or why it has none.
fn walk_window(
    rt: &impl Print,
    extents: &[u64],
    sources: &[i64],
    dests: &[i64],
    source_base: i64,
    dest_base: i64,
) -> io::Result<()> {
    let window = Window {
        extents,
        sources,
        dests,
    };
    print!(rt; "places over {window}:")?;
    let Some(total) = spans::checked_total_len(extents) else {
        return put_refused(rt, Refusal::OffsetOverflow);
    };
    match window.place(source_base, dest_base) {
        Ok(walk) => {
            walk.put_places(rt, total)?;
            print!(rt; " and back")?;
            walk.put_places_back(rt, total)?;
            println!(rt)
        }
        Err(Unplaced::Refused(answer)) => put_refused(rt, answer),
        Err(Unplaced::NoCells) => println!(rt; " no cells"),
        Err(Unplaced::OutOfReach) => println!(rt; " out of reach"),
    }
}

// Resets: negated, they must fit.
fn resets(rt: &impl Print) -> io::Result<()> {
    reset(rt, 2, -1 << 62)?;
    reset(rt, 3, -1 << 62)?;
    reset(rt, 0, i64::MIN)?;
    compile(rt, &[2], &[-1 << 62], &[1])?;
    compile(rt, &[3], &[-1 << 62], &[1])?;
    compile(rt, &[0], &[i64::MIN], &[1])
}

// Spans keep two sums.
fn spans(rt: &impl Print) -> io::Result<()> {
    span(rt, &[2, 2], &[1 << 62, 1 << 62])?;
    span(rt, &[2, 2], &[1 << 62, -1 << 62])?;
    compile(rt, &[2, 2], &[1 << 62, 1 << 62], &[1, 2])?;
    compile(rt, &[2, 2], &[1 << 62, -1 << 62], &[1, 2])
}

// For each later axis, the preceding merged axis is tested, whether or not the two merge.
fn predecessors(rt: &impl Print) -> io::Result<()> {
    compile(rt, &[2, 1], &[1 << 62, 0], &[1, 2])?;
    compile(rt, &[2], &[1 << 62], &[1])?;
    compile(rt, &[1 << 63], &[0], &[1])?;
    compile(rt, &[1 << 63, 1], &[0, 0], &[1, 0])?;
    compile(rt, &[2, 1 << 63], &[1, 0], &[1, 0])
}

// Merged extents must fit u64, and their last coordinate i64.
fn merged_extents(rt: &impl Print) -> io::Result<()> {
    compile(rt, &[1 << 62, 4], &[0, 0], &[0, 0])?;
    compile(rt, &[1 << 62, 3], &[0, 0], &[0, 0])?;
    compile(rt, &[1 << 62, 2], &[0, 0], &[0, 0])
}

// Axes merge where both sides' steps go on.
fn fusion(rt: &impl Print) -> io::Result<()> {
    compile(rt, &[], &[], &[])?;
    compile(rt, &[2, 3], &[1, 2], &[1, 2])?;
    compile(rt, &[2, 3], &[1, 2], &[1, 4])?;
    compile(rt, &[2, 3, 2], &[1, 2, 10], &[4, 8, 1])?;
    compile(rt, &[2, 1, 3], &[1, 2, 2], &[3, 6, 6])?;
    compile(rt, &[2, 1, 3], &[1, 0, 2], &[3, 0, 6])
}

// Windows with merged axes, and without.
fn windows(rt: &impl Print) -> io::Result<()> {
    walk_window(rt, &[2, 3], &[1, 2], &[1, 2], 0, 0)?;
    walk_window(rt, &[2, 3], &[1, 2], &[1, 4], 0, 100)?;
    walk_window(rt, &[2, 3, 2], &[1, 2, 10], &[4, 8, 1], 0, 0)?;
    walk_window(rt, &[2, 2, 2], &[1, 3, 9], &[-1, -2, -4], 0, 7)?;
    walk_window(rt, &[3, 2], &[0, 0], &[2, -1], 4, 1)
}

// One cell, no cells, and a base from which the reach does not fit.
fn edges(rt: &impl Print) -> io::Result<()> {
    walk_window(rt, &[], &[], &[], 5, 7)?;
    walk_window(rt, &[2, 0, 3], &[1, 2, 3], &[1, 2, 3], 0, 0)?;
    walk_window(rt, &[2], &[1], &[1], i64::MAX, 0)
}

fn main(rt: HostRuntime) -> io::Result<()> {
    resets(&rt)?;
    spans(&rt)?;
    predecessors(&rt)?;
    merged_extents(&rt)?;
    fusion(&rt)?;
    windows(&rt)?;
    edges(&rt)
}
