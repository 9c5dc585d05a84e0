// What the static library exports (crate strided_c). A list is lent as a slice: to C and Rust a pointer, then a count. Every argument list
// gets an answer: lists of extents and strides of unequal length, ranks above 8, lists of any length.
#![tactic(auto)]

ghost use Rattle.std.specs.Prelude.{◌≡◌, [], pos, length};
ghost use Rattle.std.specs.Float.{nan};
ghost use Rattle.indexing.specs.Scatter.{add_i32, add_f64};
ghost use Rattle.checks.specs.Checks.{view_from};
ghost use Rattle.calls.specs.Calls.{view_with, Gathers, Scatters};
ghost use Rattle.gather_checks.specs.Refusals.{gather_from, compile_refusal as compile_gather};
ghost use Rattle.scatter_checks.specs.Refusals.{scatter_from, compile_refusal as compile_scatter};
ghost use Rattle.gather_lists.specs.Lists as gathers;
ghost use Rattle.scatter_lists.specs.Lists as scatters;
ghost use Rattle.operand_checks.specs.Refusals.{compile_refusal as compile_operand};
ghost use Rattle.operand_calls.specs.Calls.{ScattersOn};
ghost use Rattle.operand_lists.specs.Lists as operands;
ghost use Rattle.job.specs.declared.Kind.TheVariants as K;
ghost use Rattle.job.specs.declared.Element.TheVariants as E;
ghost use Rattle.job.specs.Jobs.{job_from};
ghost use Rattle.job.specs.Format.{element_of, job_at};
ghost use Rattle.job_reader.specs.Held.{read_job};
ghost use Rattle.job_calls.specs.Jobs.{gather_by_job, scatter_by_job};
ghost use Rattle.rules.specs.Rules.{rule_i32, rule_f64};
ghost use Rattle.strided.specs.Words.{words, bare};
ghost use Rattle.strided.specs.Named.{rule_of, rule_f64_of, rules_i32, rules_f64, rule_refusal, named};
ghost use Rattle.strided.specs.Stored.{element_listed, Stored, StoredAs};

use job::{Element, MadeJob};
use layout::{CallAnswer, Refusal};
use rules::{Rule, RuleF64};

// Of these exports, as strided.h has it: it grows with every change of them. It is in the name below too, so that a program made
// for another version finds no such function when it is linked.
pub const VERSION: u64 = 4;

// The version of the exports.
pub fn strided_version_4() -> u64
    ensures { result ≡ 4 }
{
    VERSION
}

// The number, a and b of an answer, and the number that the call reports.
fn words_of(told: CallAnswer) -> [u64; 4]
    ensures { result ≡ words told }
{
    let answer = told.answer;
    let n = layout::number(answer);
    let a = layout::first_number(answer);
    let b = layout::second_number(answer);
    [n, a, b, told.reported]
}

// The same of what moves nothing, which reports 0.
fn bare_words(answer: Result<(), Refusal>) -> [u64; 4]
    ensures { result ≡ words (bare answer) }
{
    let told = layout::refused_call(answer);
    words_of(told)
}

// The rules that there are for i32 and for f64: those numbered from 1 up to this one.
pub const RULES_I32: u64 = 4;

pub const RULES_F64: u64 = 5;

// Whether a rule's number is listed.
fn check_rule(most: u64, rule: u64) -> Result<(), Refusal>
    ensures { result ≡ rule_refusal most rule }
{
    if rule == 0 {
        return Err(Refusal::UnlistedRule(rule));
    }
    if most < rule {
        return Err(Refusal::UnlistedRule(rule));
    }
    Ok(())
}

// The rule by the number that stands for it. Numbers that are not listed are refused by `check_rule`.
fn rule_of(rule: u64) -> Rule
    ensures { result ≡ rule_of rule }
{
    if rule == 1 {
        return Rule::Add;
    }
    if rule == 2 {
        return Rule::Lowest;
    }
    if rule == 3 {
        return Rule::Highest;
    }
    Rule::Replace
}

fn rule_f64_of(rule: u64, limit: f64) -> RuleF64
    ensures { result ≡ rule_f64_of rule limit }
{
    if rule == 1 {
        return RuleF64::Add;
    }
    if rule == 2 {
        return RuleF64::Lowest;
    }
    if rule == 3 {
        return RuleF64::Highest;
    }
    if rule == 4 {
        return RuleF64::Replace;
    }
    RuleF64::Ceiling(limit)
}

// The first refusal of a gather's compile as number, a, b and 0; zeros where compile gives a plan.
pub fn strided_gather_refusal(
    operand_extents: &[u64],
    operand_strides: &[i64],
    index_extents: &[u64],
    index_strides: &[i64],
    dest_extents: &[u64],
    dest_strides: &[i64],
    offset_dims: &[u64],
    collapsed_slice_dims: &[u64],
    start_index_map: &[u64],
    index_vector_dim: u64,
    slice_sizes: &[u64],
    answer: &mut [u64; 4],
)
    ensures { answer.new ≡ words (bare (compile_gather (gather_from operand_extents.now operand_strides.now index_extents.now index_strides.now dest_extents.now dest_strides.now offset_dims.now collapsed_slice_dims.now start_index_map.now index_vector_dim slice_sizes.now))) }
{
    let r = gather_checks::gather_refusal(
        operand_extents,
        operand_strides,
        index_extents,
        index_strides,
        dest_extents,
        dest_strides,
        offset_dims,
        collapsed_slice_dims,
        start_index_map,
        index_vector_dim,
        slice_sizes,
    );
    *answer = bare_words(r);
}

// The first refusal of a scatter's compile as number, a, b and 0; zeros where compile gives a plan.
pub fn strided_scatter_refusal(
    index_extents: &[u64],
    index_strides: &[i64],
    updates_extents: &[u64],
    updates_strides: &[i64],
    dest_extents: &[u64],
    dest_strides: &[i64],
    update_window_dims: &[u64],
    inserted_window_dims: &[u64],
    scatter_dims_to_operand_dims: &[u64],
    index_vector_dim: u64,
    answer: &mut [u64; 4],
)
    ensures { answer.new ≡ words (bare (compile_scatter (scatter_from index_extents.now index_strides.now updates_extents.now updates_strides.now dest_extents.now dest_strides.now update_window_dims.now inserted_window_dims.now scatter_dims_to_operand_dims.now index_vector_dim))) }
{
    let r = scatter_checks::scatter_refusal(
        index_extents,
        index_strides,
        updates_extents,
        updates_strides,
        dest_extents,
        dest_strides,
        update_window_dims,
        inserted_window_dims,
        scatter_dims_to_operand_dims,
        index_vector_dim,
    );
    *answer = bare_words(r);
}

// A gather of i32: compile by the first eleven arguments, and the call on the three views and their slices. The answer as number, a, b
// and how many windows slid.
pub fn strided_raw_gather_i32(
    operand_extents: &[u64],
    operand_strides: &[i64],
    index_extents: &[u64],
    index_strides: &[i64],
    dest_extents: &[u64],
    dest_strides: &[i64],
    offset_dims: &[u64],
    collapsed_slice_dims: &[u64],
    start_index_map: &[u64],
    index_vector_dim: u64,
    slice_sizes: &[u64],
    operand_view_extents: &[u64],
    operand_view_strides: &[i64],
    operand_offset: i64,
    index_view_extents: &[u64],
    index_view_strides: &[i64],
    index_offset: i64,
    dest_view_extents: &[u64],
    dest_view_strides: &[i64],
    dest_offset: i64,
    operand: &[i32],
    starts: &[i64],
    dest: &mut [i32],
    answer: &mut [u64; 4],
)
    ensures { Gathers (pos 0) words (gathers.by_lists (gather_from operand_extents.now operand_strides.now index_extents.now index_strides.now dest_extents.now dest_strides.now offset_dims.now collapsed_slice_dims.now start_index_map.now index_vector_dim slice_sizes.now) (view_with operand_view_extents.now operand_view_strides.now operand_offset) (view_with index_view_extents.now index_view_strides.now index_offset) (view_with dest_view_extents.now dest_view_strides.now dest_offset) starts.now) operand.now dest.old dest.new answer.new }
{
    let p = gather_lists::prepare_views(
        operand_extents,
        operand_strides,
        index_extents,
        index_strides,
        dest_extents,
        dest_strides,
        offset_dims,
        collapsed_slice_dims,
        start_index_map,
        index_vector_dim,
        slice_sizes,
        operand_view_extents,
        operand_view_strides,
        operand_offset,
        index_view_extents,
        index_view_strides,
        index_offset,
        dest_view_extents,
        dest_view_strides,
        dest_offset,
        operand.len(),
        starts.len(),
        dest.len(),
    );
    let r = gather_move::move_elements(p, operand, starts, dest);
    *answer = words_of(r);
}

// A gather of f64: compile by the first eleven arguments, and the call on the three views and their slices. The answer as number, a, b
// and how many windows slid.
pub fn strided_raw_gather_f64(
    operand_extents: &[u64],
    operand_strides: &[i64],
    index_extents: &[u64],
    index_strides: &[i64],
    dest_extents: &[u64],
    dest_strides: &[i64],
    offset_dims: &[u64],
    collapsed_slice_dims: &[u64],
    start_index_map: &[u64],
    index_vector_dim: u64,
    slice_sizes: &[u64],
    operand_view_extents: &[u64],
    operand_view_strides: &[i64],
    operand_offset: i64,
    index_view_extents: &[u64],
    index_view_strides: &[i64],
    index_offset: i64,
    dest_view_extents: &[u64],
    dest_view_strides: &[i64],
    dest_offset: i64,
    operand: &[f64],
    starts: &[i64],
    dest: &mut [f64],
    answer: &mut [u64; 4],
)
    ensures { Gathers nan words (gathers.by_lists (gather_from operand_extents.now operand_strides.now index_extents.now index_strides.now dest_extents.now dest_strides.now offset_dims.now collapsed_slice_dims.now start_index_map.now index_vector_dim slice_sizes.now) (view_with operand_view_extents.now operand_view_strides.now operand_offset) (view_with index_view_extents.now index_view_strides.now index_offset) (view_with dest_view_extents.now dest_view_strides.now dest_offset) starts.now) operand.now dest.old dest.new answer.new }
{
    let p = gather_lists::prepare_views(
        operand_extents,
        operand_strides,
        index_extents,
        index_strides,
        dest_extents,
        dest_strides,
        offset_dims,
        collapsed_slice_dims,
        start_index_map,
        index_vector_dim,
        slice_sizes,
        operand_view_extents,
        operand_view_strides,
        operand_offset,
        index_view_extents,
        index_view_strides,
        index_offset,
        dest_view_extents,
        dest_view_strides,
        dest_offset,
        operand.len(),
        starts.len(),
        dest.len(),
    );
    let r = gather_move::move_elements(p, operand, starts, dest);
    *answer = words_of(r);
}

// A scatter of i32 by the rule of a number: compile by the next ten arguments, and the call on the three views and their slices. The
// answer as number, a, b and how many windows slid: 18 before all others for a number that is not listed.
pub fn strided_raw_scatter_i32(
    rule: u64,
    index_extents: &[u64],
    index_strides: &[i64],
    updates_extents: &[u64],
    updates_strides: &[i64],
    dest_extents: &[u64],
    dest_strides: &[i64],
    update_window_dims: &[u64],
    inserted_window_dims: &[u64],
    scatter_dims_to_operand_dims: &[u64],
    index_vector_dim: u64,
    index_view_extents: &[u64],
    index_view_strides: &[i64],
    index_offset: i64,
    updates_view_extents: &[u64],
    updates_view_strides: &[i64],
    updates_offset: i64,
    dest_view_extents: &[u64],
    dest_view_strides: &[i64],
    dest_offset: i64,
    starts: &[i64],
    updates: &[i32],
    dest: &mut [i32],
    answer: &mut [u64; 4],
)
    ensures { Scatters (pos 0) (rule_i32 (rule_of rule)) words (named rules_i32 rule (scatters.by_lists (scatter_from index_extents.now index_strides.now updates_extents.now updates_strides.now dest_extents.now dest_strides.now update_window_dims.now inserted_window_dims.now scatter_dims_to_operand_dims.now index_vector_dim) (view_with index_view_extents.now index_view_strides.now index_offset) (view_with updates_view_extents.now updates_view_strides.now updates_offset) (view_with dest_view_extents.now dest_view_strides.now dest_offset) starts.now updates.now)) dest.old dest.new answer.new }
{
    let listed = check_rule(RULES_I32, rule);
    if !layout::is_done(listed) {
        *answer = bare_words(listed);
        return;
    }
    let p = scatter_lists::prepare_views(
        index_extents,
        index_strides,
        updates_extents,
        updates_strides,
        dest_extents,
        dest_strides,
        update_window_dims,
        inserted_window_dims,
        scatter_dims_to_operand_dims,
        index_vector_dim,
        index_view_extents,
        index_view_strides,
        index_offset,
        updates_view_extents,
        updates_view_strides,
        updates_offset,
        dest_view_extents,
        dest_view_strides,
        dest_offset,
        starts.len(),
        updates.len(),
        dest.len(),
    );
    let by = rule_of(rule);
    let r = scatter_move::move_i32(by, p, starts, updates, dest);
    *answer = words_of(r);
}

// A scatter of f64 by the rule of a number, whose limit Ceiling alone reads: compile by the next ten arguments, and the call on the
// three views and their slices. The answer as number, a, b and how many windows slid: 18 before all others for a number that is not
// listed.
pub fn strided_raw_scatter_f64(
    rule: u64,
    limit: f64,
    index_extents: &[u64],
    index_strides: &[i64],
    updates_extents: &[u64],
    updates_strides: &[i64],
    dest_extents: &[u64],
    dest_strides: &[i64],
    update_window_dims: &[u64],
    inserted_window_dims: &[u64],
    scatter_dims_to_operand_dims: &[u64],
    index_vector_dim: u64,
    index_view_extents: &[u64],
    index_view_strides: &[i64],
    index_offset: i64,
    updates_view_extents: &[u64],
    updates_view_strides: &[i64],
    updates_offset: i64,
    dest_view_extents: &[u64],
    dest_view_strides: &[i64],
    dest_offset: i64,
    starts: &[i64],
    updates: &[f64],
    dest: &mut [f64],
    answer: &mut [u64; 4],
)
    ensures { Scatters nan (rule_f64 (rule_f64_of rule limit)) words (named rules_f64 rule (scatters.by_lists (scatter_from index_extents.now index_strides.now updates_extents.now updates_strides.now dest_extents.now dest_strides.now update_window_dims.now inserted_window_dims.now scatter_dims_to_operand_dims.now index_vector_dim) (view_with index_view_extents.now index_view_strides.now index_offset) (view_with updates_view_extents.now updates_view_strides.now updates_offset) (view_with dest_view_extents.now dest_view_strides.now dest_offset) starts.now updates.now)) dest.old dest.new answer.new }
{
    let listed = check_rule(RULES_F64, rule);
    if !layout::is_done(listed) {
        *answer = bare_words(listed);
        return;
    }
    let p = scatter_lists::prepare_views(
        index_extents,
        index_strides,
        updates_extents,
        updates_strides,
        dest_extents,
        dest_strides,
        update_window_dims,
        inserted_window_dims,
        scatter_dims_to_operand_dims,
        index_vector_dim,
        index_view_extents,
        index_view_strides,
        index_offset,
        updates_view_extents,
        updates_view_strides,
        updates_offset,
        dest_view_extents,
        dest_view_strides,
        dest_offset,
        starts.len(),
        updates.len(),
        dest.len(),
    );
    let by = rule_f64_of(rule, limit);
    let r = scatter_move::move_f64(by, p, starts, updates, dest);
    *answer = words_of(r);
}

// ---- scatters with an operand

// The first refusal of the compile of a scatter with an operand as number, a, b and 0; zeros where compile gives a plan.
pub fn strided_scatter_operand_refusal(
    operand_extents: &[u64],
    operand_strides: &[i64],
    index_extents: &[u64],
    index_strides: &[i64],
    updates_extents: &[u64],
    updates_strides: &[i64],
    dest_extents: &[u64],
    dest_strides: &[i64],
    update_window_dims: &[u64],
    inserted_window_dims: &[u64],
    scatter_dims_to_operand_dims: &[u64],
    index_vector_dim: u64,
    answer: &mut [u64; 4],
)
    ensures { answer.new ≡ words (bare (compile_operand (view_from operand_extents.now operand_strides.now) (scatter_from index_extents.now index_strides.now updates_extents.now updates_strides.now dest_extents.now dest_strides.now update_window_dims.now inserted_window_dims.now scatter_dims_to_operand_dims.now index_vector_dim))) }
{
    let r = operand_checks::operand_refusal(
        operand_extents,
        operand_strides,
        index_extents,
        index_strides,
        updates_extents,
        updates_strides,
        dest_extents,
        dest_strides,
        update_window_dims,
        inserted_window_dims,
        scatter_dims_to_operand_dims,
        index_vector_dim,
    );
    *answer = bare_words(r);
}

// A scatter of i32 with an operand, by the rule of a number: compile by the next twelve arguments, and the call on the four views and
// their slices: the operand is copied into the destination, and the updates are put on that. The answer as number, a, b and how many
// windows slid: 18 before all others for a number that is not listed.
pub fn strided_raw_scatter_operand_i32(
    rule: u64,
    operand_extents: &[u64],
    operand_strides: &[i64],
    index_extents: &[u64],
    index_strides: &[i64],
    updates_extents: &[u64],
    updates_strides: &[i64],
    dest_extents: &[u64],
    dest_strides: &[i64],
    update_window_dims: &[u64],
    inserted_window_dims: &[u64],
    scatter_dims_to_operand_dims: &[u64],
    index_vector_dim: u64,
    operand_view_extents: &[u64],
    operand_view_strides: &[i64],
    operand_offset: i64,
    index_view_extents: &[u64],
    index_view_strides: &[i64],
    index_offset: i64,
    updates_view_extents: &[u64],
    updates_view_strides: &[i64],
    updates_offset: i64,
    dest_view_extents: &[u64],
    dest_view_strides: &[i64],
    dest_offset: i64,
    operand: &[i32],
    starts: &[i64],
    updates: &[i32],
    dest: &mut [i32],
    answer: &mut [u64; 4],
)
    ensures { ScattersOn (pos 0) (rule_i32 (rule_of rule)) words (record { view = (view_with operand_view_extents.now operand_view_strides.now operand_offset); elements = operand.now }) (named rules_i32 rule (operands.by_lists (view_from operand_extents.now operand_strides.now) (scatter_from index_extents.now index_strides.now updates_extents.now updates_strides.now dest_extents.now dest_strides.now update_window_dims.now inserted_window_dims.now scatter_dims_to_operand_dims.now index_vector_dim) (view_with operand_view_extents.now operand_view_strides.now operand_offset) (view_with index_view_extents.now index_view_strides.now index_offset) (view_with updates_view_extents.now updates_view_strides.now updates_offset) (view_with dest_view_extents.now dest_view_strides.now dest_offset) (length operand.now) starts.now updates.now)) dest.old dest.new answer.new }
{
    let listed = check_rule(RULES_I32, rule);
    if !layout::is_done(listed) {
        *answer = bare_words(listed);
        return;
    }
    let p = operand_lists::prepare_views(
        operand_extents,
        operand_strides,
        index_extents,
        index_strides,
        updates_extents,
        updates_strides,
        dest_extents,
        dest_strides,
        update_window_dims,
        inserted_window_dims,
        scatter_dims_to_operand_dims,
        index_vector_dim,
        operand_view_extents,
        operand_view_strides,
        operand_offset,
        index_view_extents,
        index_view_strides,
        index_offset,
        updates_view_extents,
        updates_view_strides,
        updates_offset,
        dest_view_extents,
        dest_view_strides,
        dest_offset,
        operand.len(),
        starts.len(),
        updates.len(),
        dest.len(),
    );
    let by = rule_of(rule);
    let c = operand_calls::copy_from(
        operand_view_extents,
        operand_view_strides,
        dest_view_strides,
        operand_offset,
    );
    let r = operand_move::move_i32(by, p, c, operand, starts, updates, dest);
    *answer = words_of(r);
}

// A scatter of f64 with an operand, by the rule of a number, whose limit Ceiling alone reads.
pub fn strided_raw_scatter_operand_f64(
    rule: u64,
    limit: f64,
    operand_extents: &[u64],
    operand_strides: &[i64],
    index_extents: &[u64],
    index_strides: &[i64],
    updates_extents: &[u64],
    updates_strides: &[i64],
    dest_extents: &[u64],
    dest_strides: &[i64],
    update_window_dims: &[u64],
    inserted_window_dims: &[u64],
    scatter_dims_to_operand_dims: &[u64],
    index_vector_dim: u64,
    operand_view_extents: &[u64],
    operand_view_strides: &[i64],
    operand_offset: i64,
    index_view_extents: &[u64],
    index_view_strides: &[i64],
    index_offset: i64,
    updates_view_extents: &[u64],
    updates_view_strides: &[i64],
    updates_offset: i64,
    dest_view_extents: &[u64],
    dest_view_strides: &[i64],
    dest_offset: i64,
    operand: &[f64],
    starts: &[i64],
    updates: &[f64],
    dest: &mut [f64],
    answer: &mut [u64; 4],
)
    ensures { ScattersOn nan (rule_f64 (rule_f64_of rule limit)) words (record { view = (view_with operand_view_extents.now operand_view_strides.now operand_offset); elements = operand.now }) (named rules_f64 rule (operands.by_lists (view_from operand_extents.now operand_strides.now) (scatter_from index_extents.now index_strides.now updates_extents.now updates_strides.now dest_extents.now dest_strides.now update_window_dims.now inserted_window_dims.now scatter_dims_to_operand_dims.now index_vector_dim) (view_with operand_view_extents.now operand_view_strides.now operand_offset) (view_with index_view_extents.now index_view_strides.now index_offset) (view_with updates_view_extents.now updates_view_strides.now updates_offset) (view_with dest_view_extents.now dest_view_strides.now dest_offset) (length operand.now) starts.now updates.now)) dest.old dest.new answer.new }
{
    let listed = check_rule(RULES_F64, rule);
    if !layout::is_done(listed) {
        *answer = bare_words(listed);
        return;
    }
    let p = operand_lists::prepare_views(
        operand_extents,
        operand_strides,
        index_extents,
        index_strides,
        updates_extents,
        updates_strides,
        dest_extents,
        dest_strides,
        update_window_dims,
        inserted_window_dims,
        scatter_dims_to_operand_dims,
        index_vector_dim,
        operand_view_extents,
        operand_view_strides,
        operand_offset,
        index_view_extents,
        index_view_strides,
        index_offset,
        updates_view_extents,
        updates_view_strides,
        updates_offset,
        dest_view_extents,
        dest_view_strides,
        dest_offset,
        operand.len(),
        starts.len(),
        updates.len(),
        dest.len(),
    );
    let by = rule_f64_of(rule, limit);
    let c = operand_calls::copy_from(
        operand_view_extents,
        operand_view_strides,
        dest_view_strides,
        operand_offset,
    );
    let r = operand_move::move_f64(by, p, c, operand, starts, updates, dest);
    *answer = words_of(r);
}

// ---- stored jobs

// Whether the bytes store a job: zeros, or 10 with the place as a.
pub fn strided_read_job(bytes: &[u8], answer: &mut [u64; 4])
    ensures { answer.new ≡ words (bare (read_job (job_at bytes.now)).answer) }
{
    let r = job_reader::read_job(bytes);
    let x = r.answer;
    *answer = bare_words(x);
}

// The element by the number that stands for it in a stored job. Numbers that are not listed are refused by `listed`.
fn element_of(element: u64) -> Element
    ensures { result ≡ element_of element }
{
    if element == 1 {
        Element::I32
    } else {
        Element::F64
    }
}

// The job, if its element is listed.
fn listed(element: u64, made: MadeJob) -> MadeJob
    ensures { result ≡ element_listed element made }
{
    if element == 1 {
        return made;
    }
    if element == 2 {
        return made;
    }
    let answer = Err(Refusal::JobBytes(6));
    let job = job::no_job();
    MadeJob { answer, job }
}

// The refusal by which a job was not made, or what the writer answers.
fn store(made: MadeJob, out: &mut [u8]) -> Result<(), Refusal>
    ensures { Stored made out.old out.new result }
{
    let a = made.answer;
    if !layout::is_done(a) {
        return a;
    }
    let job = made.job;
    job_writer::write_job(job, out)
}

// Writes a gather as a stored job from the first byte on. The answer as number, a, b and 0: 10 for an element that is not listed, 1, 2,
// 5 for a list that no job holds, 9 with the bytes that are needed as b.
pub fn strided_write_gather_job(
    element: u64,
    operand_extents: &[u64],
    operand_strides: &[i64],
    operand_offset: i64,
    index_extents: &[u64],
    index_strides: &[i64],
    index_offset: i64,
    dest_extents: &[u64],
    dest_strides: &[i64],
    dest_offset: i64,
    offset_dims: &[u64],
    collapsed_slice_dims: &[u64],
    start_index_map: &[u64],
    index_vector_dim: u64,
    slice_sizes: &[u64],
    out: &mut [u8],
    answer: &mut [u64; 4],
)
    ensures { StoredAs (element_listed element (job_from K.Gather (element_of element) operand_extents.now operand_strides.now operand_offset index_extents.now index_strides.now index_offset dest_extents.now dest_strides.now dest_offset offset_dims.now collapsed_slice_dims.now start_index_map.now index_vector_dim slice_sizes.now)) out.old out.new answer.new }
{
    let e = element_of(element);
    let made = job::make_gather_job(
        e,
        operand_extents,
        operand_strides,
        operand_offset,
        index_extents,
        index_strides,
        index_offset,
        dest_extents,
        dest_strides,
        dest_offset,
        offset_dims,
        collapsed_slice_dims,
        start_index_map,
        index_vector_dim,
        slice_sizes,
    );
    let job = listed(element, made);
    let r = store(job, out);
    *answer = bare_words(r);
}

// Writes a scatter as a stored job from the first byte on. The answer as number, a, b and 0.
pub fn strided_write_scatter_job(
    element: u64,
    index_extents: &[u64],
    index_strides: &[i64],
    index_offset: i64,
    updates_extents: &[u64],
    updates_strides: &[i64],
    updates_offset: i64,
    dest_extents: &[u64],
    dest_strides: &[i64],
    dest_offset: i64,
    update_window_dims: &[u64],
    inserted_window_dims: &[u64],
    scatter_dims_to_operand_dims: &[u64],
    index_vector_dim: u64,
    out: &mut [u8],
    answer: &mut [u64; 4],
)
    ensures { StoredAs (element_listed element (job_from K.Scatter (element_of element) index_extents.now index_strides.now index_offset updates_extents.now updates_strides.now updates_offset dest_extents.now dest_strides.now dest_offset update_window_dims.now inserted_window_dims.now scatter_dims_to_operand_dims.now index_vector_dim [])) out.old out.new answer.new }
{
    let e = element_of(element);
    let made = job::make_scatter_job(
        e,
        index_extents,
        index_strides,
        index_offset,
        updates_extents,
        updates_strides,
        updates_offset,
        dest_extents,
        dest_strides,
        dest_offset,
        update_window_dims,
        inserted_window_dims,
        scatter_dims_to_operand_dims,
        index_vector_dim,
    );
    let job = listed(element, made);
    let r = store(job, out);
    *answer = bare_words(r);
}

// A stored gather of i32, read, compiled and called. The answer as number, a, b and how many windows slid: 10 5 0 and 10 6 0 also for a
// job that is no gather or not of i32.
pub fn strided_gather_i32(
    job: &[u8],
    operand: &[i32],
    starts: &[i64],
    dest: &mut [i32],
    answer: &mut [u64; 4],
)
    ensures { Gathers (pos 0) words (gather_by_job E.I32 job.now starts.now) operand.now dest.old dest.new answer.new }
{
    let p = job_calls::prepare_gather(job, Element::I32, operand.len(), starts.len(), dest.len());
    let r = gather_move::move_elements(p, operand, starts, dest);
    *answer = words_of(r);
}

// A stored gather of f64, read, compiled and called. The answer as number, a, b and how many windows slid: 10 5 0 and 10 6 0 also for a
// job that is no gather or not of f64.
pub fn strided_gather_f64(
    job: &[u8],
    operand: &[f64],
    starts: &[i64],
    dest: &mut [f64],
    answer: &mut [u64; 4],
)
    ensures { Gathers nan words (gather_by_job E.F64 job.now starts.now) operand.now dest.old dest.new answer.new }
{
    let p = job_calls::prepare_gather(job, Element::F64, operand.len(), starts.len(), dest.len());
    let r = gather_move::move_elements(p, operand, starts, dest);
    *answer = words_of(r);
}

// A stored scatter of i32, read, compiled and called. The answer as number, a, b and how many windows slid: 10 5 0 and 10 6 0 also for a
// job that is no scatter or not of i32.
pub fn strided_scatter_i32(
    job: &[u8],
    starts: &[i64],
    updates: &[i32],
    dest: &mut [i32],
    answer: &mut [u64; 4],
)
    ensures { Scatters (pos 0) add_i32 words (scatter_by_job E.I32 job.now starts.now updates.now) dest.old dest.new answer.new }
{
    let p = job_calls::prepare_scatter(job, Element::I32, starts.len(), updates.len(), dest.len());
    let r = scatter_move::move_i32(Rule::Add, p, starts, updates, dest);
    *answer = words_of(r);
}

// A stored scatter of f64, read, compiled and called. The answer as number, a, b and how many windows slid: 10 5 0 and 10 6 0 also for a
// job that is no scatter or not of f64.
pub fn strided_scatter_f64(
    job: &[u8],
    starts: &[i64],
    updates: &[f64],
    dest: &mut [f64],
    answer: &mut [u64; 4],
)
    ensures { Scatters nan add_f64 words (scatter_by_job E.F64 job.now starts.now updates.now) dest.old dest.new answer.new }
{
    let p = job_calls::prepare_scatter(job, Element::F64, starts.len(), updates.len(), dest.len());
    let r = scatter_move::move_f64(RuleF64::Add, p, starts, updates, dest);
    *answer = words_of(r);
}
