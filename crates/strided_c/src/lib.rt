// The static library: each function of `strided` under its own name, by the same clauses. A list is lent as a slice: to C and Rust a
// pointer, then a count.
#![tactic(auto)]

ghost use Rattle.std.specs.Prelude.{◌≡◌, [], pos, length};
ghost use Rattle.std.specs.Float.{nan};
ghost use Rattle.indexing.specs.Scatter.{add_i32, add_f64};
ghost use Rattle.checks.specs.Checks.{view_from};
ghost use Rattle.calls.specs.Calls.{view_with, Gathers, Scatters};
ghost use Rattle.gather_checks.specs.Refusals.{gather_from, compile_refusal as compile_gather};
ghost use Rattle.scatter_checks.specs.Refusals.{scatter_from, compile_refusal as compile_scatter};
ghost use Rattle.gather_lists.specs.Lists as gathers;
ghost use Rattle.scatter_lists.specs.Lists as scatters;
ghost use Rattle.operand_checks.specs.Refusals.{compile_refusal as compile_operand};
ghost use Rattle.operand_calls.specs.Calls.{ScattersOn};
ghost use Rattle.operand_lists.specs.Lists as operands;
ghost use Rattle.job.specs.declared.Kind.TheVariants as K;
ghost use Rattle.job.specs.declared.Element.TheVariants as E;
ghost use Rattle.job.specs.Jobs.{job_from};
ghost use Rattle.job.specs.Format.{element_of, job_at};
ghost use Rattle.job_reader.specs.Held.{read_job};
ghost use Rattle.job_calls.specs.Jobs.{gather_by_job, scatter_by_job};
ghost use Rattle.rules.specs.Rules.{rule_i32, rule_f64};
ghost use Rattle.strided.specs.Words.{words, bare};
ghost use Rattle.strided.specs.Named.{rule_of, rule_f64_of, rules_i32, rules_f64, named};
ghost use Rattle.strided.specs.Stored.{element_listed, StoredAs};

// The version of the exports.
#[unsafe(no_mangle)]
pub extern "C" fn strided_version_4() -> u64
    ensures { result ≡ 4 }
{
    strided::strided_version_4()
}

// The first refusal of a gather's compile as number, a, b and 0; zeros where compile gives a plan.
#[unsafe(no_mangle)]
pub extern "C" fn strided_gather_refusal(
    operand_extents: &[u64],
    operand_strides: &[i64],
    index_extents: &[u64],
    index_strides: &[i64],
    dest_extents: &[u64],
    dest_strides: &[i64],
    offset_dims: &[u64],
    collapsed_slice_dims: &[u64],
    start_index_map: &[u64],
    index_vector_dim: u64,
    slice_sizes: &[u64],
    answer: &mut [u64; 4],
)
    ensures { answer.new ≡ words (bare (compile_gather (gather_from operand_extents.now operand_strides.now index_extents.now index_strides.now dest_extents.now dest_strides.now offset_dims.now collapsed_slice_dims.now start_index_map.now index_vector_dim slice_sizes.now))) }
{
    strided::strided_gather_refusal(
        operand_extents,
        operand_strides,
        index_extents,
        index_strides,
        dest_extents,
        dest_strides,
        offset_dims,
        collapsed_slice_dims,
        start_index_map,
        index_vector_dim,
        slice_sizes,
        answer,
    );
}

// The first refusal of a scatter's compile as number, a, b and 0; zeros where compile gives a plan.
#[unsafe(no_mangle)]
pub extern "C" fn strided_scatter_refusal(
    index_extents: &[u64],
    index_strides: &[i64],
    updates_extents: &[u64],
    updates_strides: &[i64],
    dest_extents: &[u64],
    dest_strides: &[i64],
    update_window_dims: &[u64],
    inserted_window_dims: &[u64],
    scatter_dims_to_operand_dims: &[u64],
    index_vector_dim: u64,
    answer: &mut [u64; 4],
)
    ensures { answer.new ≡ words (bare (compile_scatter (scatter_from index_extents.now index_strides.now updates_extents.now updates_strides.now dest_extents.now dest_strides.now update_window_dims.now inserted_window_dims.now scatter_dims_to_operand_dims.now index_vector_dim))) }
{
    strided::strided_scatter_refusal(
        index_extents,
        index_strides,
        updates_extents,
        updates_strides,
        dest_extents,
        dest_strides,
        update_window_dims,
        inserted_window_dims,
        scatter_dims_to_operand_dims,
        index_vector_dim,
        answer,
    );
}

// A gather of i32: compile by the first eleven arguments, and the call on the three views and their slices. The answer as number, a, b
// and how many windows slid.
#[unsafe(no_mangle)]
pub extern "C" fn strided_raw_gather_i32(
    operand_extents: &[u64],
    operand_strides: &[i64],
    index_extents: &[u64],
    index_strides: &[i64],
    dest_extents: &[u64],
    dest_strides: &[i64],
    offset_dims: &[u64],
    collapsed_slice_dims: &[u64],
    start_index_map: &[u64],
    index_vector_dim: u64,
    slice_sizes: &[u64],
    operand_view_extents: &[u64],
    operand_view_strides: &[i64],
    operand_offset: i64,
    index_view_extents: &[u64],
    index_view_strides: &[i64],
    index_offset: i64,
    dest_view_extents: &[u64],
    dest_view_strides: &[i64],
    dest_offset: i64,
    operand: &[i32],
    starts: &[i64],
    dest: &mut [i32],
    answer: &mut [u64; 4],
)
    ensures { Gathers (pos 0) words (gathers.by_lists (gather_from operand_extents.now operand_strides.now index_extents.now index_strides.now dest_extents.now dest_strides.now offset_dims.now collapsed_slice_dims.now start_index_map.now index_vector_dim slice_sizes.now) (view_with operand_view_extents.now operand_view_strides.now operand_offset) (view_with index_view_extents.now index_view_strides.now index_offset) (view_with dest_view_extents.now dest_view_strides.now dest_offset) starts.now) operand.now dest.old dest.new answer.new }
{
    strided::strided_raw_gather_i32(
        operand_extents,
        operand_strides,
        index_extents,
        index_strides,
        dest_extents,
        dest_strides,
        offset_dims,
        collapsed_slice_dims,
        start_index_map,
        index_vector_dim,
        slice_sizes,
        operand_view_extents,
        operand_view_strides,
        operand_offset,
        index_view_extents,
        index_view_strides,
        index_offset,
        dest_view_extents,
        dest_view_strides,
        dest_offset,
        operand,
        starts,
        dest,
        answer,
    );
}

// A gather of f64: compile by the first eleven arguments, and the call on the three views and their slices. The answer as number, a, b
// and how many windows slid.
#[unsafe(no_mangle)]
pub extern "C" fn strided_raw_gather_f64(
    operand_extents: &[u64],
    operand_strides: &[i64],
    index_extents: &[u64],
    index_strides: &[i64],
    dest_extents: &[u64],
    dest_strides: &[i64],
    offset_dims: &[u64],
    collapsed_slice_dims: &[u64],
    start_index_map: &[u64],
    index_vector_dim: u64,
    slice_sizes: &[u64],
    operand_view_extents: &[u64],
    operand_view_strides: &[i64],
    operand_offset: i64,
    index_view_extents: &[u64],
    index_view_strides: &[i64],
    index_offset: i64,
    dest_view_extents: &[u64],
    dest_view_strides: &[i64],
    dest_offset: i64,
    operand: &[f64],
    starts: &[i64],
    dest: &mut [f64],
    answer: &mut [u64; 4],
)
    ensures { Gathers nan words (gathers.by_lists (gather_from operand_extents.now operand_strides.now index_extents.now index_strides.now dest_extents.now dest_strides.now offset_dims.now collapsed_slice_dims.now start_index_map.now index_vector_dim slice_sizes.now) (view_with operand_view_extents.now operand_view_strides.now operand_offset) (view_with index_view_extents.now index_view_strides.now index_offset) (view_with dest_view_extents.now dest_view_strides.now dest_offset) starts.now) operand.now dest.old dest.new answer.new }
{
    strided::strided_raw_gather_f64(
        operand_extents,
        operand_strides,
        index_extents,
        index_strides,
        dest_extents,
        dest_strides,
        offset_dims,
        collapsed_slice_dims,
        start_index_map,
        index_vector_dim,
        slice_sizes,
        operand_view_extents,
        operand_view_strides,
        operand_offset,
        index_view_extents,
        index_view_strides,
        index_offset,
        dest_view_extents,
        dest_view_strides,
        dest_offset,
        operand,
        starts,
        dest,
        answer,
    );
}

// A scatter of i32 by the rule of a number: compile by the next ten arguments, and the call on the three views and their slices. The
// answer as number, a, b and how many windows slid: 18 before all others for a number that is not listed.
#[unsafe(no_mangle)]
pub extern "C" fn strided_raw_scatter_i32(
    rule: u64,
    index_extents: &[u64],
    index_strides: &[i64],
    updates_extents: &[u64],
    updates_strides: &[i64],
    dest_extents: &[u64],
    dest_strides: &[i64],
    update_window_dims: &[u64],
    inserted_window_dims: &[u64],
    scatter_dims_to_operand_dims: &[u64],
    index_vector_dim: u64,
    index_view_extents: &[u64],
    index_view_strides: &[i64],
    index_offset: i64,
    updates_view_extents: &[u64],
    updates_view_strides: &[i64],
    updates_offset: i64,
    dest_view_extents: &[u64],
    dest_view_strides: &[i64],
    dest_offset: i64,
    starts: &[i64],
    updates: &[i32],
    dest: &mut [i32],
    answer: &mut [u64; 4],
)
    ensures { Scatters (pos 0) (rule_i32 (rule_of rule)) words (named rules_i32 rule (scatters.by_lists (scatter_from index_extents.now index_strides.now updates_extents.now updates_strides.now dest_extents.now dest_strides.now update_window_dims.now inserted_window_dims.now scatter_dims_to_operand_dims.now index_vector_dim) (view_with index_view_extents.now index_view_strides.now index_offset) (view_with updates_view_extents.now updates_view_strides.now updates_offset) (view_with dest_view_extents.now dest_view_strides.now dest_offset) starts.now updates.now)) dest.old dest.new answer.new }
{
    strided::strided_raw_scatter_i32(
        rule,
        index_extents,
        index_strides,
        updates_extents,
        updates_strides,
        dest_extents,
        dest_strides,
        update_window_dims,
        inserted_window_dims,
        scatter_dims_to_operand_dims,
        index_vector_dim,
        index_view_extents,
        index_view_strides,
        index_offset,
        updates_view_extents,
        updates_view_strides,
        updates_offset,
        dest_view_extents,
        dest_view_strides,
        dest_offset,
        starts,
        updates,
        dest,
        answer,
    );
}

// A scatter of f64 by the rule of a number, whose limit Ceiling alone reads: compile by the next ten arguments, and the call on the
// three views and their slices. The answer as number, a, b and how many windows slid: 18 before all others for a number that is not
// listed.
#[unsafe(no_mangle)]
pub extern "C" fn strided_raw_scatter_f64(
    rule: u64,
    limit: f64,
    index_extents: &[u64],
    index_strides: &[i64],
    updates_extents: &[u64],
    updates_strides: &[i64],
    dest_extents: &[u64],
    dest_strides: &[i64],
    update_window_dims: &[u64],
    inserted_window_dims: &[u64],
    scatter_dims_to_operand_dims: &[u64],
    index_vector_dim: u64,
    index_view_extents: &[u64],
    index_view_strides: &[i64],
    index_offset: i64,
    updates_view_extents: &[u64],
    updates_view_strides: &[i64],
    updates_offset: i64,
    dest_view_extents: &[u64],
    dest_view_strides: &[i64],
    dest_offset: i64,
    starts: &[i64],
    updates: &[f64],
    dest: &mut [f64],
    answer: &mut [u64; 4],
)
    ensures { Scatters nan (rule_f64 (rule_f64_of rule limit)) words (named rules_f64 rule (scatters.by_lists (scatter_from index_extents.now index_strides.now updates_extents.now updates_strides.now dest_extents.now dest_strides.now update_window_dims.now inserted_window_dims.now scatter_dims_to_operand_dims.now index_vector_dim) (view_with index_view_extents.now index_view_strides.now index_offset) (view_with updates_view_extents.now updates_view_strides.now updates_offset) (view_with dest_view_extents.now dest_view_strides.now dest_offset) starts.now updates.now)) dest.old dest.new answer.new }
{
    strided::strided_raw_scatter_f64(
        rule,
        limit,
        index_extents,
        index_strides,
        updates_extents,
        updates_strides,
        dest_extents,
        dest_strides,
        update_window_dims,
        inserted_window_dims,
        scatter_dims_to_operand_dims,
        index_vector_dim,
        index_view_extents,
        index_view_strides,
        index_offset,
        updates_view_extents,
        updates_view_strides,
        updates_offset,
        dest_view_extents,
        dest_view_strides,
        dest_offset,
        starts,
        updates,
        dest,
        answer,
    );
}

// The first refusal of the compile of a scatter with an operand as number, a, b and 0; zeros where compile gives a plan.
#[unsafe(no_mangle)]
pub extern "C" fn strided_scatter_operand_refusal(
    operand_extents: &[u64],
    operand_strides: &[i64],
    index_extents: &[u64],
    index_strides: &[i64],
    updates_extents: &[u64],
    updates_strides: &[i64],
    dest_extents: &[u64],
    dest_strides: &[i64],
    update_window_dims: &[u64],
    inserted_window_dims: &[u64],
    scatter_dims_to_operand_dims: &[u64],
    index_vector_dim: u64,
    answer: &mut [u64; 4],
)
    ensures { answer.new ≡ words (bare (compile_operand (view_from operand_extents.now operand_strides.now) (scatter_from index_extents.now index_strides.now updates_extents.now updates_strides.now dest_extents.now dest_strides.now update_window_dims.now inserted_window_dims.now scatter_dims_to_operand_dims.now index_vector_dim))) }
{
    strided::strided_scatter_operand_refusal(
        operand_extents,
        operand_strides,
        index_extents,
        index_strides,
        updates_extents,
        updates_strides,
        dest_extents,
        dest_strides,
        update_window_dims,
        inserted_window_dims,
        scatter_dims_to_operand_dims,
        index_vector_dim,
        answer,
    );
}

// A scatter of i32 with an operand, by the rule of a number: compile by the next twelve arguments, and the call on the four views and
// their slices: the operand is copied into the destination, and the updates are put on that. The answer as number, a, b and how many
// windows slid: 18 before all others for a number that is not listed.
#[unsafe(no_mangle)]
pub extern "C" fn strided_raw_scatter_operand_i32(
    rule: u64,
    operand_extents: &[u64],
    operand_strides: &[i64],
    index_extents: &[u64],
    index_strides: &[i64],
    updates_extents: &[u64],
    updates_strides: &[i64],
    dest_extents: &[u64],
    dest_strides: &[i64],
    update_window_dims: &[u64],
    inserted_window_dims: &[u64],
    scatter_dims_to_operand_dims: &[u64],
    index_vector_dim: u64,
    operand_view_extents: &[u64],
    operand_view_strides: &[i64],
    operand_offset: i64,
    index_view_extents: &[u64],
    index_view_strides: &[i64],
    index_offset: i64,
    updates_view_extents: &[u64],
    updates_view_strides: &[i64],
    updates_offset: i64,
    dest_view_extents: &[u64],
    dest_view_strides: &[i64],
    dest_offset: i64,
    operand: &[i32],
    starts: &[i64],
    updates: &[i32],
    dest: &mut [i32],
    answer: &mut [u64; 4],
)
    ensures { ScattersOn (pos 0) (rule_i32 (rule_of rule)) words (record { view = (view_with operand_view_extents.now operand_view_strides.now operand_offset); elements = operand.now }) (named rules_i32 rule (operands.by_lists (view_from operand_extents.now operand_strides.now) (scatter_from index_extents.now index_strides.now updates_extents.now updates_strides.now dest_extents.now dest_strides.now update_window_dims.now inserted_window_dims.now scatter_dims_to_operand_dims.now index_vector_dim) (view_with operand_view_extents.now operand_view_strides.now operand_offset) (view_with index_view_extents.now index_view_strides.now index_offset) (view_with updates_view_extents.now updates_view_strides.now updates_offset) (view_with dest_view_extents.now dest_view_strides.now dest_offset) (length operand.now) starts.now updates.now)) dest.old dest.new answer.new }
{
    strided::strided_raw_scatter_operand_i32(
        rule,
        operand_extents,
        operand_strides,
        index_extents,
        index_strides,
        updates_extents,
        updates_strides,
        dest_extents,
        dest_strides,
        update_window_dims,
        inserted_window_dims,
        scatter_dims_to_operand_dims,
        index_vector_dim,
        operand_view_extents,
        operand_view_strides,
        operand_offset,
        index_view_extents,
        index_view_strides,
        index_offset,
        updates_view_extents,
        updates_view_strides,
        updates_offset,
        dest_view_extents,
        dest_view_strides,
        dest_offset,
        operand,
        starts,
        updates,
        dest,
        answer,
    );
}

// A scatter of f64 with an operand, by the rule of a number, whose limit Ceiling alone reads.
#[unsafe(no_mangle)]
pub extern "C" fn strided_raw_scatter_operand_f64(
    rule: u64,
    limit: f64,
    operand_extents: &[u64],
    operand_strides: &[i64],
    index_extents: &[u64],
    index_strides: &[i64],
    updates_extents: &[u64],
    updates_strides: &[i64],
    dest_extents: &[u64],
    dest_strides: &[i64],
    update_window_dims: &[u64],
    inserted_window_dims: &[u64],
    scatter_dims_to_operand_dims: &[u64],
    index_vector_dim: u64,
    operand_view_extents: &[u64],
    operand_view_strides: &[i64],
    operand_offset: i64,
    index_view_extents: &[u64],
    index_view_strides: &[i64],
    index_offset: i64,
    updates_view_extents: &[u64],
    updates_view_strides: &[i64],
    updates_offset: i64,
    dest_view_extents: &[u64],
    dest_view_strides: &[i64],
    dest_offset: i64,
    operand: &[f64],
    starts: &[i64],
    updates: &[f64],
    dest: &mut [f64],
    answer: &mut [u64; 4],
)
    ensures { ScattersOn nan (rule_f64 (rule_f64_of rule limit)) words (record { view = (view_with operand_view_extents.now operand_view_strides.now operand_offset); elements = operand.now }) (named rules_f64 rule (operands.by_lists (view_from operand_extents.now operand_strides.now) (scatter_from index_extents.now index_strides.now updates_extents.now updates_strides.now dest_extents.now dest_strides.now update_window_dims.now inserted_window_dims.now scatter_dims_to_operand_dims.now index_vector_dim) (view_with operand_view_extents.now operand_view_strides.now operand_offset) (view_with index_view_extents.now index_view_strides.now index_offset) (view_with updates_view_extents.now updates_view_strides.now updates_offset) (view_with dest_view_extents.now dest_view_strides.now dest_offset) (length operand.now) starts.now updates.now)) dest.old dest.new answer.new }
{
    strided::strided_raw_scatter_operand_f64(
        rule,
        limit,
        operand_extents,
        operand_strides,
        index_extents,
        index_strides,
        updates_extents,
        updates_strides,
        dest_extents,
        dest_strides,
        update_window_dims,
        inserted_window_dims,
        scatter_dims_to_operand_dims,
        index_vector_dim,
        operand_view_extents,
        operand_view_strides,
        operand_offset,
        index_view_extents,
        index_view_strides,
        index_offset,
        updates_view_extents,
        updates_view_strides,
        updates_offset,
        dest_view_extents,
        dest_view_strides,
        dest_offset,
        operand,
        starts,
        updates,
        dest,
        answer,
    );
}

// Whether the bytes store a job: zeros, or 10 with the place as a.
#[unsafe(no_mangle)]
pub extern "C" fn strided_read_job(bytes: &[u8], answer: &mut [u64; 4])
    ensures { answer.new ≡ words (bare (read_job (job_at bytes.now)).answer) }
{
    strided::strided_read_job(bytes, answer);
}

// Writes a gather as a stored job from the first byte on. The answer as number, a, b and 0: 10 for an element that is not listed, 1, 2,
// 5 for a list that no job holds, 9 with the bytes that are needed as b.
#[unsafe(no_mangle)]
pub extern "C" fn strided_write_gather_job(
    element: u64,
    operand_extents: &[u64],
    operand_strides: &[i64],
    operand_offset: i64,
    index_extents: &[u64],
    index_strides: &[i64],
    index_offset: i64,
    dest_extents: &[u64],
    dest_strides: &[i64],
    dest_offset: i64,
    offset_dims: &[u64],
    collapsed_slice_dims: &[u64],
    start_index_map: &[u64],
    index_vector_dim: u64,
    slice_sizes: &[u64],
    out: &mut [u8],
    answer: &mut [u64; 4],
)
    ensures { StoredAs (element_listed element (job_from K.Gather (element_of element) operand_extents.now operand_strides.now operand_offset index_extents.now index_strides.now index_offset dest_extents.now dest_strides.now dest_offset offset_dims.now collapsed_slice_dims.now start_index_map.now index_vector_dim slice_sizes.now)) out.old out.new answer.new }
{
    strided::strided_write_gather_job(
        element,
        operand_extents,
        operand_strides,
        operand_offset,
        index_extents,
        index_strides,
        index_offset,
        dest_extents,
        dest_strides,
        dest_offset,
        offset_dims,
        collapsed_slice_dims,
        start_index_map,
        index_vector_dim,
        slice_sizes,
        out,
        answer,
    );
}

// Writes a scatter as a stored job from the first byte on. The answer as number, a, b and 0.
#[unsafe(no_mangle)]
pub extern "C" fn strided_write_scatter_job(
    element: u64,
    index_extents: &[u64],
    index_strides: &[i64],
    index_offset: i64,
    updates_extents: &[u64],
    updates_strides: &[i64],
    updates_offset: i64,
    dest_extents: &[u64],
    dest_strides: &[i64],
    dest_offset: i64,
    update_window_dims: &[u64],
    inserted_window_dims: &[u64],
    scatter_dims_to_operand_dims: &[u64],
    index_vector_dim: u64,
    out: &mut [u8],
    answer: &mut [u64; 4],
)
    ensures { StoredAs (element_listed element (job_from K.Scatter (element_of element) index_extents.now index_strides.now index_offset updates_extents.now updates_strides.now updates_offset dest_extents.now dest_strides.now dest_offset update_window_dims.now inserted_window_dims.now scatter_dims_to_operand_dims.now index_vector_dim [])) out.old out.new answer.new }
{
    strided::strided_write_scatter_job(
        element,
        index_extents,
        index_strides,
        index_offset,
        updates_extents,
        updates_strides,
        updates_offset,
        dest_extents,
        dest_strides,
        dest_offset,
        update_window_dims,
        inserted_window_dims,
        scatter_dims_to_operand_dims,
        index_vector_dim,
        out,
        answer,
    );
}

// A stored gather of i32, read, compiled and called. The answer as number, a, b and how many windows slid: 10 5 0 and 10 6 0 also for a
// job that is no gather or not of i32.
#[unsafe(no_mangle)]
pub extern "C" fn strided_gather_i32(
    job: &[u8],
    operand: &[i32],
    starts: &[i64],
    dest: &mut [i32],
    answer: &mut [u64; 4],
)
    ensures { Gathers (pos 0) words (gather_by_job E.I32 job.now starts.now) operand.now dest.old dest.new answer.new }
{
    strided::strided_gather_i32(job, operand, starts, dest, answer);
}

// A stored gather of f64, read, compiled and called. The answer as number, a, b and how many windows slid: 10 5 0 and 10 6 0 also for a
// job that is no gather or not of f64.
#[unsafe(no_mangle)]
pub extern "C" fn strided_gather_f64(
    job: &[u8],
    operand: &[f64],
    starts: &[i64],
    dest: &mut [f64],
    answer: &mut [u64; 4],
)
    ensures { Gathers nan words (gather_by_job E.F64 job.now starts.now) operand.now dest.old dest.new answer.new }
{
    strided::strided_gather_f64(job, operand, starts, dest, answer);
}

// A stored scatter of i32, read, compiled and called. The answer as number, a, b and how many windows slid: 10 5 0 and 10 6 0 also for a
// job that is no scatter or not of i32.
#[unsafe(no_mangle)]
pub extern "C" fn strided_scatter_i32(
    job: &[u8],
    starts: &[i64],
    updates: &[i32],
    dest: &mut [i32],
    answer: &mut [u64; 4],
)
    ensures { Scatters (pos 0) add_i32 words (scatter_by_job E.I32 job.now starts.now updates.now) dest.old dest.new answer.new }
{
    strided::strided_scatter_i32(job, starts, updates, dest, answer);
}

// A stored scatter of f64, read, compiled and called. The answer as number, a, b and how many windows slid: 10 5 0 and 10 6 0 also for a
// job that is no scatter or not of f64.
#[unsafe(no_mangle)]
pub extern "C" fn strided_scatter_f64(
    job: &[u8],
    starts: &[i64],
    updates: &[f64],
    dest: &mut [f64],
    answer: &mut [u64; 4],
)
    ensures { Scatters nan add_f64 words (scatter_by_job E.F64 job.now starts.now updates.now) dest.old dest.new answer.new }
{
    strided::strided_scatter_f64(job, starts, updates, dest, answer);
}
