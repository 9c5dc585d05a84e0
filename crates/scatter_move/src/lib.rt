// Scatter: what a call has decided before it touches an element, and the move of elements by it, for i32 and for f64.
#![tactic(auto)]

ghost use Rattle.std.specs.Prelude.{◌≡◌, ◌<◌, pos, length};
ghost use Rattle.std.specs.Float.{nan};
ghost use Rattle.indexing.specs.Scatter.{scattered};
ghost use Rattle.indexing.specs.Slid.{slid_scatter};
ghost use Rattle.rules.specs.Rules.{rule_i32, rule_f64};
ghost use Rattle.calls.specs.Calls.{Does, as_is};
ghost use Rattle.scatter_move.specs.Batches.{BatchesFrom, after_batches, batches_moved};
ghost use Rattle.scatter_move.specs.Prepared.{steps_at, Cells, Movable};

use indexed_runs::Components;
use layout::{CallAnswer, RAW_FUSED_RANK_LIMIT, Reach, Refusal};
use replay::WindowReplayAxis;
use rules::{Add, Ceiling, Combine, Element, Highest, Lowest, Replace, Rule, RuleF64};

// The numbers that the batches and the windows of a scatter are moved with: the merged axes of both walks, with the steps of each on
// both sides, and the components of a start.
#[derive(Clone, Copy)]
pub struct ScatterNumbers {
    pub batch_rank: usize,
    pub batches: u64,
    pub batch_extents: [u64; RAW_FUSED_RANK_LIMIT],
    pub index_steps: [i64; RAW_FUSED_RANK_LIMIT],
    pub update_steps: [i64; RAW_FUSED_RANK_LIMIT],
    pub window_rank: usize,
    pub window_extents: [u64; RAW_FUSED_RANK_LIMIT],
    pub window_steps: [i64; RAW_FUSED_RANK_LIMIT],
    pub dest_steps: [i64; RAW_FUSED_RANK_LIMIT],
    pub count: usize,
    pub offsets: [i64; RAW_FUSED_RANK_LIMIT],
    pub strides: [i64; RAW_FUSED_RANK_LIMIT],
    pub limits: [u64; RAW_FUSED_RANK_LIMIT],
}

// What a call of a scatter has decided: its answer; where that is Ok, also where the destination's cells lie, the numbers, the axes
// of the walk from batch to batch, and where the starts, the updates and the destination begin.
#[derive(Clone, Copy)]
pub struct PreparedScatter {
    pub answer: Result<(), Refusal>,
    pub reach: Reach,
    pub numbers: ScatterNumbers,
    pub batch_axes: [WindowReplayAxis; RAW_FUSED_RANK_LIMIT],
    pub index: i64,
    pub updates: i64,
    pub dest: i64,
}

// A call that is refused.
pub fn refused(answer: Result<(), Refusal>) -> PreparedScatter
    ensures { result.answer ≡ answer }
{
    let ones = [1u64; RAW_FUSED_RANK_LIMIT];
    let zeros = [0i64; RAW_FUSED_RANK_LIMIT];
    let none = replay::refused_replay();
    let batch_axes = none.axes;
    let numbers = ScatterNumbers {
        batch_rank: 0,
        batches: 0,
        batch_extents: ones,
        index_steps: zeros,
        update_steps: zeros,
        window_rank: 0,
        window_extents: ones,
        window_steps: zeros,
        dest_steps: zeros,
        count: 0,
        offsets: zeros,
        strides: zeros,
        limits: ones,
    };
    PreparedScatter {
        answer,
        reach: Reach::NoCells,
        numbers,
        batch_axes,
        index: 0,
        updates: 0,
        dest: 0,
    }
}

// Number `side` of each row: 0 is the source step, 2 the destination step.
fn steps_at(rows: [[i64; 4]; RAW_FUSED_RANK_LIMIT], side: usize) -> [i64; RAW_FUSED_RANK_LIMIT]
    requires { side < 4 }
    ensures { result ≡ steps_at side rows }
{
    let mut out = [0i64; RAW_FUSED_RANK_LIMIT];
    for i in 0..RAW_FUSED_RANK_LIMIT {
        out[i] = rows[i][side];
    }
    out
}

// The steps of a walk's rows on the source's side, and on the destination's.
pub fn source_steps(rows: [[i64; 4]; RAW_FUSED_RANK_LIMIT]) -> [i64; RAW_FUSED_RANK_LIMIT]
    ensures { result ≡ steps_at 0 rows }
{
    steps_at(rows, 0)
}

pub fn dest_steps(rows: [[i64; 4]; RAW_FUSED_RANK_LIMIT]) -> [i64; RAW_FUSED_RANK_LIMIT]
    ensures { result ≡ steps_at 2 rows }
{
    steps_at(rows, 2)
}

// The batches of a scatter from the start's base, the updates' base and the place `at` in the part of the destination that is lent on.
fn run<E: Element, R: Combine<E>>(
    rule: R,
    p: PreparedScatter,
    rows: [[i64; 4]; RAW_FUSED_RANK_LIMIT],
    starts: &[i64],
    source: &[E],
    into: &mut [E],
    at: i64,
) -> u64
    requires { BatchesFrom p rows starts.now at (length source.now) (length into.old) }
    ensures { (into.new ≡ after_batches E.absent (R.combined rule) p source.now starts.now at into.old) × (result ≡ batches_moved p starts.now) }
{
    let numbers = p.numbers;
    let components = Components {
        count: numbers.count,
        offsets: numbers.offsets,
        strides: numbers.strides,
        limits: numbers.limits,
    };
    driven::scatter_rows(
        rule,
        source,
        starts,
        into,
        &numbers.batch_extents,
        &numbers.index_steps,
        &numbers.update_steps,
        rows,
        numbers.batch_rank,
        numbers.batches,
        &components,
        &numbers.window_extents,
        &numbers.window_steps,
        &numbers.dest_steps,
        numbers.window_rank,
        p.index,
        p.updates,
        at,
    )
}

// The scatter where the destination has cells, from the index low to the index high: it is lent on as that part.
fn cells<E: Element, R: Combine<E>>(
    rule: R,
    p: PreparedScatter,
    starts: &[i64],
    source: &[E],
    into: &mut [E],
    low: usize,
    high: usize,
) -> u64
    requires { Cells p low high (length starts.now) (length source.now) (length into.old) }
    ensures { (k : Cells p low high (length starts.now) (length source.now) (length into.old)) → (into.new ≡ scattered (R.combined rule) E.absent k.scatter starts.now source.now into.old) × (result ≡ slid_scatter k.scatter starts.now) }
{
    E::short(source);
    E::short(into);
    let end = high + 1;
    let from = low as i64;
    let at = p.dest - from;
    let rows = replay::rows_of(p.batch_axes);
    run(rule, p, rows, starts, source, &mut into[low..end], at)
}

// A scatter that is prepared, by a rule as a type: where it is refused nothing is done.
pub fn move_by<E: Element, R: Combine<E>>(
    rule: R,
    p: PreparedScatter,
    starts: &[i64],
    source: &[E],
    into: &mut [E],
) -> CallAnswer
    requires { Movable p (length starts.now) (length source.now) (length into.old) }
    ensures { (k : Movable p (length starts.now) (length source.now) (length into.old)) → Does as_is p.answer (slid_scatter k.scatter starts.now) (scattered (R.combined rule) E.absent k.scatter starts.now source.now into.old) into.old into.new result }
{
    let answer = p.answer;
    if !layout::is_done(answer) {
        return layout::refused_call(answer);
    }
    let reach = p.reach;
    match reach {
        Reach::Cells(low, high) => {
            let reported = cells(rule, p, starts, source, into, low, high);
            CallAnswer { answer, reported }
        }
        Reach::NoCells => CallAnswer {
            answer,
            reported: 0,
        },
        Reach::Outside => CallAnswer {
            answer,
            reported: 0,
        },
    }
}

// A scatter of i32 that is prepared. The rule is asked here, once a call.
pub fn move_i32(
    rule: Rule,
    p: PreparedScatter,
    starts: &[i64],
    source: &[i32],
    into: &mut [i32],
) -> CallAnswer
    requires { Movable p (length starts.now) (length source.now) (length into.old) }
    ensures { (k : Movable p (length starts.now) (length source.now) (length into.old)) → Does as_is p.answer (slid_scatter k.scatter starts.now) (scattered (rule_i32 rule) (pos 0) k.scatter starts.now source.now into.old) into.old into.new result }
{
    match rule {
        Rule::Add => move_by(Add, p, starts, source, into),
        Rule::Lowest => move_by(Lowest, p, starts, source, into),
        Rule::Highest => move_by(Highest, p, starts, source, into),
        Rule::Replace => move_by(Replace, p, starts, source, into),
    }
}

// The same of f64.
pub fn move_f64(
    rule: RuleF64,
    p: PreparedScatter,
    starts: &[i64],
    source: &[f64],
    into: &mut [f64],
) -> CallAnswer
    requires { Movable p (length starts.now) (length source.now) (length into.old) }
    ensures { (k : Movable p (length starts.now) (length source.now) (length into.old)) → Does as_is p.answer (slid_scatter k.scatter starts.now) (scattered (rule_f64 rule) nan k.scatter starts.now source.now into.old) into.old into.new result }
{
    match rule {
        RuleF64::Add => move_by(Add, p, starts, source, into),
        RuleF64::Lowest => move_by(Lowest, p, starts, source, into),
        RuleF64::Highest => move_by(Highest, p, starts, source, into),
        RuleF64::Replace => move_by(Replace, p, starts, source, into),
        RuleF64::Ceiling(limit) => move_by(Ceiling(limit), p, starts, source, into),
    }
}
