// The rank limit; refusals and their numbers; layouts and views by value, from lent extents and strides; what one axis adds to a
// span, an offset, the nested test or a reach, and its reset; the offset of an index; the axis-list check; the clamp; the test
// of 9. Products, spans, the nested test and the reach over all axes are in `spans`. Every function answers for all its
// arguments: of an array, the first `rank` entries count, or all where `rank` is larger.
#![tactic(auto)]

ghost use Rattle.std.specs.Prelude.{◌≡◌, cond, ◌||◌, [], min, take, pos};
ghost use Rattle.integer.specs.Defs.{checked, checked_u};
ghost use Rattle.indexing.specs.Start.{clamp};
ghost use Rattle.indexing.specs.Slid.{moved};
ghost use Rattle.layout.specs.Answers.{number_of, a_of, b_of, is_done, refusal_number, refusal_a, refusal_b};
ghost use Rattle.layout.specs.Layouts.{rank_limit, padded, stride_length, rank_at_most, refused_layout, layout_from};
ghost use Rattle.layout.specs.Spans.{reach_of, widened, reset_of, offset_add, strided_offset};
ghost use Rattle.layout.specs.Lists.{unique_axes};
ghost use Rattle.layout.specs.Sums.{weight, other_weight, side_weight, cells_within};
ghost use Rattle.layout.specs.Reach.{buffer_bounds};

// The most axes that a layout can have.
pub const RAW_FUSED_RANK_LIMIT: usize = 8;

// Why a call is refused.
#[derive(Clone, Copy, Debug, PartialEq, Eq)]
pub enum Refusal {
    StrideLengthMismatch,
    RankTooLarge(u64, u64),
    OffsetOverflow,
    NonInjectiveOutputLayout,
    RankMismatch(u64, u64),
    InvalidAxis(u64, u64),
    ShapeMismatch(u64, u64),
    PlanLayoutMismatch,
    BufferBounds(u64, u64),
    JobBytes(u64),
    UnlistedRule(u64),
}

impl Refusal {
    // The number that is handed back.
    pub fn number(self) -> u64
        ensures { result ≡ refusal_number self }
    {
        match self {
            Refusal::StrideLengthMismatch => 1,
            Refusal::RankTooLarge(_, _) => 2,
            Refusal::OffsetOverflow => 3,
            Refusal::NonInjectiveOutputLayout => 4,
            Refusal::RankMismatch(_, _) => 5,
            Refusal::InvalidAxis(_, _) => 6,
            Refusal::ShapeMismatch(_, _) => 7,
            Refusal::PlanLayoutMismatch => 8,
            Refusal::BufferBounds(_, _) => 9,
            Refusal::JobBytes(_) => 10,
            Refusal::UnlistedRule(_) => 18,
        }
    }

    // a, which is 0 where the refusal names none.
    pub fn first_number(self) -> u64
        ensures { result ≡ refusal_a self }
    {
        match self {
            Refusal::StrideLengthMismatch => 0,
            Refusal::RankTooLarge(a, _) => a,
            Refusal::OffsetOverflow => 0,
            Refusal::NonInjectiveOutputLayout => 0,
            Refusal::RankMismatch(a, _) => a,
            Refusal::InvalidAxis(a, _) => a,
            Refusal::ShapeMismatch(a, _) => a,
            Refusal::PlanLayoutMismatch => 0,
            Refusal::BufferBounds(a, _) => a,
            Refusal::JobBytes(a) => a,
            Refusal::UnlistedRule(a) => a,
        }
    }

    // b, which is 0 where the refusal names none.
    pub fn second_number(self) -> u64
        ensures { result ≡ refusal_b self }
    {
        match self {
            Refusal::StrideLengthMismatch => 0,
            Refusal::RankTooLarge(_, b) => b,
            Refusal::OffsetOverflow => 0,
            Refusal::NonInjectiveOutputLayout => 0,
            Refusal::RankMismatch(_, b) => b,
            Refusal::InvalidAxis(_, b) => b,
            Refusal::ShapeMismatch(_, b) => b,
            Refusal::PlanLayoutMismatch => 0,
            Refusal::BufferBounds(_, b) => b,
            Refusal::JobBytes(_) => 0,
            Refusal::UnlistedRule(_) => 0,
        }
    }
}

// The number that is handed back.
pub fn number(answer: Result<(), Refusal>) -> u64
    ensures { result ≡ number_of answer }
{
    match answer {
        Ok(()) => 0,
        Err(refusal) => refusal.number(),
    }
}

// a, which is 0 where the answer names none.
pub fn first_number(answer: Result<(), Refusal>) -> u64
    ensures { result ≡ a_of answer }
{
    match answer {
        Ok(()) => 0,
        Err(refusal) => refusal.first_number(),
    }
}

// b, which is 0 where the answer names none.
pub fn second_number(answer: Result<(), Refusal>) -> u64
    ensures { result ≡ b_of answer }
{
    match answer {
        Ok(()) => 0,
        Err(refusal) => refusal.second_number(),
    }
}

pub fn is_done(answer: Result<(), Refusal>) -> bool
    ensures { result ≡ is_done answer }
{
    answer.is_ok()
}

// What a gather or a scatter hands back: its answer, and the number that it reports, 0 where it is refused.
#[derive(Clone, Copy)]
pub struct CallAnswer {
    pub answer: Result<(), Refusal>,
    pub reported: u64,
}

// What a call that is refused hands back.
pub fn refused_call(answer: Result<(), Refusal>) -> CallAnswer
    ensures { result ≡ record { answer = answer; reported = 0 } }
{
    CallAnswer {
        answer,
        reported: 0,
    }
}

// Extents with strides. Past the rank stand extents of 1 with strides of 0.
#[derive(Clone, Copy, PartialEq, Eq)]
pub struct Layout {
    pub rank: usize,
    pub extents: [u64; RAW_FUSED_RANK_LIMIT],
    pub strides: [i64; RAW_FUSED_RANK_LIMIT],
}

// A layout; where it is refused, the one of no axes.
#[derive(Clone, Copy)]
pub struct MadeLayout {
    pub answer: Result<(), Refusal>,
    pub layout: Layout,
}

// A layout at an offset; the slice that it lies in is lent beside it.
#[derive(Clone, Copy, PartialEq, Eq)]
pub struct View {
    pub layout: Layout,
    pub offset: i64,
}

// The first entries of a list, one for each axis that a layout can have, filled up with `rest`.
pub fn padded<T: Copy>(list: &[T], rest: T) -> [T; RAW_FUSED_RANK_LIMIT]
    ensures { result ≡ padded rank_limit rest list.now }
{
    let mut out = [rest; RAW_FUSED_RANK_LIMIT];
    let n = list.len().min(RAW_FUSED_RANK_LIMIT);
    out[..n].copy_from_slice(&list[..n]);
    out
}

// The extents as a layout holds them: the first ones, filled up with 1.
pub fn padded_extents(extents: &[u64]) -> [u64; RAW_FUSED_RANK_LIMIT]
    ensures { result ≡ padded rank_limit 1 extents.now }
{
    padded(extents, 1)
}

// The strides as a layout holds them: the first ones, filled up with 0.
pub fn padded_strides(strides: &[i64]) -> [i64; RAW_FUSED_RANK_LIMIT]
    ensures { result ≡ padded rank_limit (pos 0) strides.now }
{
    padded(strides, 0)
}

// Refusal 1.
pub fn check_stride_length(extents: usize, strides: usize) -> Result<(), Refusal>
    ensures { result ≡ stride_length extents strides }
{
    if strides == extents {
        Ok(())
    } else {
        Err(Refusal::StrideLengthMismatch)
    }
}

// Refusal 2.
pub fn check_rank(rank: usize) -> Result<(), Refusal>
    ensures { result ≡ rank_at_most rank }
{
    if rank <= RAW_FUSED_RANK_LIMIT {
        Ok(())
    } else {
        Err(Refusal::RankTooLarge(rank as u64, RAW_FUSED_RANK_LIMIT as u64))
    }
}

fn refused_layout(answer: Result<(), Refusal>) -> MadeLayout
    ensures { result ≡ refused_layout answer }
{
    let extents = [1u64; RAW_FUSED_RANK_LIMIT];
    let strides = [0i64; RAW_FUSED_RANK_LIMIT];
    MadeLayout {
        answer,
        layout: Layout {
            rank: 0,
            extents,
            strides,
        },
    }
}

// The layout of these extents and strides, or refusal 1 or 2.
#[tactic(auto, unfolding(crate::specs::Layouts::layout_from))]
pub fn make_layout(extents: &[u64], strides: &[i64]) -> MadeLayout
    ensures { result ≡ layout_from extents.now strides.now }
{
    let rank = extents.len();
    let lengths = check_stride_length(rank, strides.len());
    if !is_done(lengths) {
        return refused_layout(lengths);
    }
    let limit = check_rank(rank);
    if !is_done(limit) {
        return refused_layout(limit);
    }
    let e = padded_extents(extents);
    let s = padded_strides(strides);
    MadeLayout {
        answer: Ok(()),
        layout: Layout {
            rank,
            extents: e,
            strides: s,
        },
    }
}

// How many entries of an array of axes count.
pub fn axis_count(rank: usize) -> usize
    ensures { result ≡ min rank rank_limit }
{
    rank.min(RAW_FUSED_RANK_LIMIT)
}

// The lowest and the highest sum of stride times coordinate.
#[derive(Clone, Copy, PartialEq, Eq)]
pub struct Span {
    pub low: i64,
    pub high: i64,
}

// The stride times the last coordinate of an axis.
#[tactic(auto, unfolding(crate::specs::Spans::reach_of))]
fn axis_reach(extent: u64, stride: i64) -> Option<i64>
    ensures { result ≡ reach_of extent stride }
{
    let last = integer::u64_to_i64(extent.saturating_sub(1))?;
    integer::checked_mul_i64(stride, last)
}

// The span with one axis more.
#[tactic(auto, unfolding(crate::specs::Spans::widened))]
pub fn widen(span: Span, extent: u64, stride: i64) -> Option<Span>
    ensures { result ≡ widened span extent stride }
{
    let far = axis_reach(extent, stride)?;
    if far < 0 {
        let low = integer::checked_add_i64(span.low, far)?;
        Some(Span {
            low,
            high: span.high,
        })
    } else {
        let high = integer::checked_add_i64(span.high, far)?;
        Some(Span {
            low: span.low,
            high,
        })
    }
}

// What takes an axis from its last coordinate back to its first.
pub fn checked_replay_reset(extent: u64, step: i64) -> Option<i64>
    ensures { result ≡ reset_of extent step }
{
    if extent == 0 {
        return Some(0);
    }
    let far = axis_reach(extent, step)?;
    integer::checked_neg_i64(far)
}

// `base` plus stride times coordinate.
#[tactic(auto, unfolding(crate::specs::Spans::offset_add))]
pub fn checked_offset_add(base: i64, stride: i64, coordinate: u64) -> Option<i64>
    ensures { result ≡ offset_add base stride coordinate }
{
    let at = integer::u64_to_i64(coordinate)?;
    let term = integer::checked_mul_i64(stride, at)?;
    integer::checked_add_i64(base, term)
}

// `base` plus, axis by axis, stride times coordinate.
pub fn checked_strided_offset(
    base: i64,
    strides: [i64; RAW_FUSED_RANK_LIMIT],
    index: [u64; RAW_FUSED_RANK_LIMIT],
    rank: usize,
) -> Option<i64>
    ensures { result ≡ strided_offset base (take rank strides) (take rank index) }
{
    let mut offset = base;
    for i in 0..axis_count(rank) {
        offset = checked_offset_add(offset, strides[i], index[i])?;
    }
    Some(offset)
}

// Whether the list names each axis once and none past the rank: else its first axis that is too large or repeated.
pub fn validate_unique_axes(axes: &[u64], rank: u64) -> Result<(), Refusal>
    ensures { result ≡ unique_axes rank [] axes.now }
{
    'search: {
        for i in 0..axes.len() {
            let axis = axes[i];
            if axis >= rank {
                break 'search Err(Refusal::InvalidAxis(axis, rank));
            }
            for j in 0..i {
                if axes[j] == axis {
                    break 'search Err(Refusal::InvalidAxis(axis, rank));
                }
            }
        }
        Ok(())
    }
}

// A start that is moved inside the extent, and whether that is another start.
#[derive(Clone, Copy)]
pub struct ClampedStart {
    pub start: u64,
    pub moved: bool,
}

// The start of a window that is moved inside the extent, and whether it was moved.
pub fn clamp_window_start(start: i64, extent: u64, window: u64) -> ClampedStart
    ensures { (pos result.start ≡ clamp start extent window) × (result.moved ≡ moved start extent window) }
{
    if start < 0 {
        return ClampedStart {
            start: 0,
            moved: true,
        };
    }
    let asked = start as u64;
    let last = extent.saturating_sub(window);
    ClampedStart {
        start: asked.min(last),
        moved: last < asked,
    }
}

// Whether one of the two is so.
pub fn either(a: bool, b: bool) -> bool
    ensures { result ≡ (a || b) }
{
    a || b
}

// n where it counts, else 0.
pub fn count_if(counts: bool, n: u64) -> u64
    ensures { result ≡ cond counts n 0 }
{
    if counts { n } else { 0 }
}

// The magnitude of the stride times the last coordinate.
fn axis_weight(extent: u64, stride: i64) -> Option<u64>
    ensures { result ≡ checked_u (weight extent stride) }
{
    integer::checked_mul_u64(stride.unsigned_abs(), extent.saturating_sub(1))
}

// The weight of an axis whose stride's magnitude is at most `limit`; 0 of another, and of the axis itself.
pub fn other_weight(extent: u64, stride: i64, limit: u64, own: bool) -> Option<u64>
    ensures { result ≡ checked_u (other_weight limit own extent stride) }
{
    if own || limit < stride.unsigned_abs() {
        Some(0)
    } else {
        axis_weight(extent, stride)
    }
}

// Where the cells of a view lie in its slice: from the lowest index to the highest; or that it has none; or that it fails the test of 9.
#[derive(Clone, Copy, PartialEq, Eq)]
pub enum Reach {
    Cells(usize, usize),
    NoCells,
    Outside,
}

// The weight of an axis whose stride is on this side: below 0, or not; 0 of another.
pub fn side_weight(extent: u64, stride: i64, below: bool) -> Option<u64>
    ensures { result ≡ checked_u (side_weight below extent stride) }
{
    if below == (stride < 0) {
        axis_weight(extent, stride)
    } else {
        Some(0)
    }
}

// The part from `at − down` to `at + up`, if it lies below `len`.
#[tactic(auto, unfolding(crate::specs::Sums::cells_within))]
pub fn cells_within(at: u64, down: Option<u64>, up: Option<u64>, len: usize) -> Reach
    ensures { result ≡ cells_within at down up len }
{
    let (Some(down), Some(up)) = (down, up) else {
        return Reach::Outside;
    };
    let Some(high) = integer::checked_add_u64(at, up) else {
        return Reach::Outside;
    };
    if down <= at && high < len as u64 {
        Reach::Cells((at - down) as usize, high as usize)
    } else {
        Reach::Outside
    }
}

// The test of 9 for the view of this number.
pub fn check_reach(reach: Reach, view: u64) -> Result<(), Refusal>
    ensures { result ≡ buffer_bounds view reach }
{
    match reach {
        Reach::Cells(_, _) | Reach::NoCells => Ok(()),
        Reach::Outside => Err(Refusal::BufferBounds(view, 0)),
    }
}
