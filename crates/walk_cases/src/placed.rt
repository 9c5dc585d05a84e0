// A window, its walk from two bases, and the places of that walk.
ghost use Rattle.std.specs.Prelude.{IfOk};
ghost use Rattle.walk.specs.Walks.{Walk};

use layout::{RAW_FUSED_RANK_LIMIT, Refusal};
use replay::CompiledReplay;
use std::{fmt, io};
use walk::WalkState;

// The extents of a window, with its strides in the source and in the destination.
#[derive(Clone, Copy)]
pub struct Window<'a> {
    pub extents: &'a [u64],
    pub sources: &'a [i64],
    pub dests: &'a [i64],
}

impl fmt::Display for Window<'_> {
    fn fmt<W: fmt::Write>(&self, f: &mut fmt::Formatter<W>) -> fmt::Result {
        write!(
            f,
            "{:?}, source {:?}, destination {:?}",
            self.extents, self.sources, self.dests
        )
    }
}

impl Window<'_> {
    pub fn compile(&self) -> CompiledReplay {
        replay::compile_window_replay(
            layout::padded_extents(self.extents),
            layout::padded_strides(self.sources),
            layout::padded_strides(self.dests),
            self.extents.len(),
        )
    }

    // The walk from two bases.
    pub fn place(&self, source_base: i64, dest_base: i64) -> Result<PlacedWalk, Unplaced>
        ensures { IfOk result (λ w. Walk w.source_base w.dest_base w.shape w.rows w.rank) }
    {
        let extents = layout::padded_extents(self.extents);
        let sources = layout::padded_strides(self.sources);
        let dests = layout::padded_strides(self.dests);
        let rank = self.extents.len();
        let made = replay::compile_window_replay(extents, sources, dests, rank);
        if let Err(refusal) = made.answer {
            return Err(Unplaced::Refused(refusal));
        }
        if spans::has_zero(extents, rank) {
            return Err(Unplaced::NoCells);
        }
        let plan = made.replay;
        let spans = plan.spans;
        if !walk::covers(spans.source_low, spans.source_high, source_base)
            || !walk::covers(spans.dest_low, spans.dest_high, dest_base)
        {
            return Err(Unplaced::OutOfReach);
        }
        let shape = plan.extents;
        let rows = replay::rows_of(made.axes);
        Ok(PlacedWalk {
            shape,
            rows,
            rank: plan.rank,
            source_base,
            dest_base,
        })
    }
}

// A compiled walk that has cells and reaches only offsets that fit.
#[derive(Clone, Copy)]
pub struct PlacedWalk {
    shape: [u64; RAW_FUSED_RANK_LIMIT],
    rows: [[i64; 4]; RAW_FUSED_RANK_LIMIT],
    rank: usize,
    source_base: i64,
    dest_base: i64,
}

// Why a window has no walk from two bases.
#[derive(Clone, Copy)]
pub enum Unplaced {
    Refused(Refusal),
    NoCells,
    OutOfReach,
}

fn put_place(rt: &impl Print, state: &WalkState) -> io::Result<()> {
    print!(rt; " {}/{}", state.source_offset, state.dest_offset)
}

impl PlacedWalk {
    // The places from the first on, a step from each to the next.
    pub fn put_places(&self, rt: &impl Print, total: u64) -> io::Result<()>
        requires { Walk self.now.source_base self.now.dest_base self.now.shape self.now.rows self.now.rank }
    {
        let mut state = walk::start(self.source_base, self.dest_base);
        for _k in 0..total {
            put_place(rt, &state)?;
            state = walk::step(state, self.shape, self.rows, self.rank);
        }
        Ok(())
    }

    // The places from the last to the first, each by decode.
    pub fn put_places_back(&self, rt: &impl Print, total: u64) -> io::Result<()>
        requires { Walk self.now.source_base self.now.dest_base self.now.shape self.now.rows self.now.rank }
    {
        for k in (0..total).rev() {
            let state = walk::decode(
                k,
                self.source_base,
                self.dest_base,
                self.shape,
                self.rows,
                self.rank,
            );
            put_place(rt, &state)?;
        }
        Ok(())
    }
}
