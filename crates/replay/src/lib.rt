// The walk over a window on two sides, source and destination: `WindowReplay`, compiled with fusion of axes. Compile
// answers for all its arguments: of an array, the first `rank` entries count, or all where `rank` is larger.
#![tactic(auto)]

ghost use Rattle.std.specs.Prelude.{◌≡◌, take, drop, ◌*◌};
ghost use Rattle.replay.specs.Replays.{no_axis, axis_of, given_axes, walk_of, done_replay, refused_replay, compiled_replay, extents, row_of, rows_of, axes_from};
ghost use Rattle.replay.specs.Parts.{past, checked_axis, as_merged, as_apart, joined_axis, walk_from};

use layout::{RAW_FUSED_RANK_LIMIT, Refusal};

// An axis of a walk: its extent, and for each side the step along it and what takes it back from its last place to its
// first.
#[derive(Clone, Copy)]
pub struct WindowReplayAxis {
    pub extent: u64,
    pub source_step: i64,
    pub source_reset: i64,
    pub dest_step: i64,
    pub dest_reset: i64,
}

// The lowest and the highest offset that the window reaches on each side, relative to its base.
#[derive(Clone, Copy, PartialEq, Eq)]
pub struct ReplaySpans {
    pub source_low: i64,
    pub source_high: i64,
    pub dest_low: i64,
    pub dest_high: i64,
}

// The extents of the merged axes, 1 past the rank. The steps and resets are rows, held beside it.
#[derive(Clone, Copy, PartialEq, Eq)]
pub struct WindowReplay {
    pub rank: usize,
    pub extents: [u64; RAW_FUSED_RANK_LIMIT],
    pub spans: ReplaySpans,
}

// A walk with its merged axes, of which the rows are made; past the rank stand axes of extent 1 with steps and resets of 0. Where it is
// refused, the walk of no axes with spans of 0.
#[derive(Clone, Copy)]
pub struct CompiledReplay {
    pub answer: Result<(), Refusal>,
    pub replay: WindowReplay,
    pub axes: [WindowReplayAxis; RAW_FUSED_RANK_LIMIT],
}

// An axis after another: one axis with it, or an axis of its own.
#[derive(Clone, Copy)]
pub enum JoinedAxis {
    Merged(WindowReplayAxis),
    Apart(WindowReplayAxis),
}

fn no_axis() -> WindowReplayAxis
    ensures { result ≡ no_axis }
{
    WindowReplayAxis {
        extent: 1,
        source_step: 0,
        source_reset: 0,
        dest_step: 0,
        dest_reset: 0,
    }
}

// An axis with its resets, where both fit.
fn make_axis(extent: u64, source: i64, dest: i64) -> Option<WindowReplayAxis>
    ensures { result ≡ checked_axis (axis_of extent source dest) }
{
    let back = layout::checked_replay_reset(extent, source)?;
    let home = layout::checked_replay_reset(extent, dest)?;
    Some(WindowReplayAxis {
        extent,
        source_step: source,
        source_reset: back,
        dest_step: dest,
        dest_reset: home,
    })
}

// The step times the whole extent.
#[tactic(auto, unfolding(crate::specs::Parts::past))]
fn past_last(extent: u64, step: i64) -> Option<i64>
    ensures { result ≡ past extent step }
{
    let size = integer::u64_to_i64(extent)?;
    integer::checked_mul_i64(step, size)
}

// Two axes as one, with the steps of the first.
fn merge(before: u64, extent: u64, source: i64, dest: i64) -> Option<JoinedAxis>
    ensures { result ≡ as_merged (checked_axis (axis_of (before * extent) source dest)) }
{
    let size = integer::checked_mul_u64(before, extent)?;
    let axis = make_axis(size, source, dest)?;
    Some(JoinedAxis::Merged(axis))
}

fn apart(extent: u64, source: i64, dest: i64) -> Option<JoinedAxis>
    ensures { result ≡ as_apart (checked_axis (axis_of extent source dest)) }
{
    let axis = make_axis(extent, source, dest)?;
    Some(JoinedAxis::Apart(axis))
}

// The axis of this extent and these steps after the merged axis `before`.
fn join(before: WindowReplayAxis, extent: u64, source: i64, dest: i64) -> Option<JoinedAxis>
    ensures { result ≡ joined_axis before (axis_of extent source dest) }
{
    let next_source = past_last(before.extent, before.source_step)?;
    let next_dest = past_last(before.extent, before.dest_step)?;
    let goes_on = source == next_source && dest == next_dest;
    if goes_on {
        merge(before.extent, extent, before.source_step, before.dest_step)
    } else {
        apart(extent, source, dest)
    }
}

pub fn refused_replay() -> CompiledReplay
    ensures { result ≡ refused_replay }
{
    let empty = no_axis();
    let axes = [empty; RAW_FUSED_RANK_LIMIT];
    let extents = [1u64; RAW_FUSED_RANK_LIMIT];
    CompiledReplay {
        answer: Err(Refusal::OffsetOverflow),
        replay: WindowReplay {
            rank: 0,
            extents,
            spans: ReplaySpans {
                source_low: 0,
                source_high: 0,
                dest_low: 0,
                dest_high: 0,
            },
        },
        axes,
    }
}

// The merged shape.
fn shape_of(axes: [WindowReplayAxis; RAW_FUSED_RANK_LIMIT]) -> [u64; RAW_FUSED_RANK_LIMIT]
    ensures { result ≡ extents axes }
{
    axes.map(|axis| axis.extent)
}

fn done_replay(
    rank: usize,
    axes: [WindowReplayAxis; RAW_FUSED_RANK_LIMIT],
    spans: ReplaySpans,
) -> CompiledReplay
    ensures { result ≡ done_replay rank axes spans }
{
    let extents = shape_of(axes);
    CompiledReplay {
        answer: Ok(()),
        replay: WindowReplay {
            rank,
            extents,
            spans,
        },
        axes,
    }
}

// The axes after the first, each joined to the merged axis before it where it can be.
fn fuse_rest(
    first: WindowReplayAxis,
    shape: [u64; RAW_FUSED_RANK_LIMIT],
    source_strides: [i64; RAW_FUSED_RANK_LIMIT],
    dest_strides: [i64; RAW_FUSED_RANK_LIMIT],
    rank: usize,
    spans: ReplaySpans,
) -> CompiledReplay
    ensures { result ≡ walk_from first (given_axes (drop 1 (take rank shape)) (drop 1 (take rank source_strides)) (drop 1 (take rank dest_strides))) spans }
{
    let count = layout::axis_count(rank);
    let empty = no_axis();
    let mut axes = [empty; RAW_FUSED_RANK_LIMIT];
    let mut last = first;
    let mut n: usize = 0;
    for i in 1..count {
        let Some(joined) = join(last, shape[i], source_strides[i], dest_strides[i]) else {
            return refused_replay();
        };
        match joined {
            JoinedAxis::Merged(axis) => {
                last = axis;
            }
            JoinedAxis::Apart(axis) => {
                axes[n] = last;
                n += 1;
                last = axis;
            }
        }
    }
    axes[n] = last;
    done_replay(n + 1, axes, spans)
}

// The axes from the front.
fn fuse(
    shape: [u64; RAW_FUSED_RANK_LIMIT],
    source_strides: [i64; RAW_FUSED_RANK_LIMIT],
    dest_strides: [i64; RAW_FUSED_RANK_LIMIT],
    rank: usize,
    spans: ReplaySpans,
) -> CompiledReplay
    ensures { result ≡ walk_of (given_axes (take rank shape) (take rank source_strides) (take rank dest_strides)) spans }
{
    if rank == 0 {
        let empty = no_axis();
        let axes = [empty; RAW_FUSED_RANK_LIMIT];
        return done_replay(0, axes, spans);
    }
    match make_axis(shape[0], source_strides[0], dest_strides[0]) {
        Some(axis) => fuse_rest(axis, shape, source_strides, dest_strides, rank, spans),
        None => refused_replay(),
    }
}

// The walk of a window of this shape over two sides, or refusal 3.
pub fn compile_window_replay(
    shape: [u64; RAW_FUSED_RANK_LIMIT],
    source_strides: [i64; RAW_FUSED_RANK_LIMIT],
    dest_strides: [i64; RAW_FUSED_RANK_LIMIT],
    rank: usize,
) -> CompiledReplay
    ensures { result ≡ compiled_replay (take rank shape) (take rank source_strides) (take rank dest_strides) }
{
    let Some(source) = spans::held_span(shape, source_strides, rank) else {
        return refused_replay();
    };
    let Some(dest) = spans::held_span(shape, dest_strides, rank) else {
        return refused_replay();
    };
    let spans = ReplaySpans {
        source_low: source.low,
        source_high: source.high,
        dest_low: dest.low,
        dest_high: dest.high,
    };
    fuse(shape, source_strides, dest_strides, rank, spans)
}

// The row of an axis, four numbers: source step, source reset, destination step, destination reset.
fn row_of(axis: WindowReplayAxis) -> [i64; 4]
    ensures { result ≡ row_of axis }
{
    [
        axis.source_step,
        axis.source_reset,
        axis.dest_step,
        axis.dest_reset,
    ]
}

// The rows, one per axis.
pub fn rows_of(axes: [WindowReplayAxis; RAW_FUSED_RANK_LIMIT]) -> [[i64; 4]; RAW_FUSED_RANK_LIMIT]
    ensures { result ≡ rows_of axes }
{
    axes.map(row_of)
}

// The axes of these extents and rows.
pub fn axes_from(
    extents: [u64; RAW_FUSED_RANK_LIMIT],
    rows: [[i64; 4]; RAW_FUSED_RANK_LIMIT],
) -> [WindowReplayAxis; RAW_FUSED_RANK_LIMIT]
    ensures { result ≡ axes_from extents rows }
{
    let empty = no_axis();
    let mut out = [empty; RAW_FUSED_RANK_LIMIT];
    for i in 0..RAW_FUSED_RANK_LIMIT {
        let row = rows[i];
        out[i] = WindowReplayAxis {
            extent: extents[i],
            source_step: row[0],
            source_reset: row[1],
            dest_step: row[2],
            dest_reset: row[3],
        };
    }
    out
}
