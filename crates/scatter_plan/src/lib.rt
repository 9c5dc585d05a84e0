// The plan of a scatter by value, and compile. The rows of its two walks stand beside it.
#![tactic(auto)]

ghost use Rattle.std.specs.Prelude.{◌≡◌, true, ◌≤◌, length};
ghost use Rattle.indexing.specs.Coordinates.{pick, spread, others};
ghost use Rattle.layout.specs.Answers.{is_done};
ghost use Rattle.layout.specs.Layouts.{rank_limit};
ghost use Rattle.axis_lists.specs.Held.{held_numbers};
ghost use Rattle.checks.specs.Values.{total_or};
ghost use Rattle.scatter_checks.specs.Refusals.{scatter_from};
ghost use Rattle.scatter_checks.specs.Examine.{Found};
ghost use Rattle.scatter_plan.specs.Plan.{plan_of, refused_scatter, compiled_by, compiled_scatter, compiled_again};

use axis_lists::{Numbers, Steps};
use layout::{Layout, RAW_FUSED_RANK_LIMIT, Refusal};
use replay::{CompiledReplay, WindowReplay, WindowReplayAxis};
use scatter_checks::Examined;

// `windows` is the window's extent on each operand axis, `batches` and `cells` how many batches and cells of a window there are.
#[derive(Clone, Copy, PartialEq, Eq)]
pub struct ScatterPlan {
    pub index: Layout,
    pub updates: Layout,
    pub dest: Layout,
    pub update_window_dims: Numbers,
    pub inserted_window_dims: Numbers,
    pub scatter_dims_to_operand_dims: Numbers,
    pub index_vector_dim: u64,
    pub batch: WindowReplay,
    pub window: WindowReplay,
    pub window_shape: Numbers,
    pub index_component_offsets: Steps,
    pub index_operand_strides: Steps,
    pub batch_elems: u64,
    pub window_elems: u64,
}

// A plan, and the merged axes of its two walks, of which their rows are made; where the scatter is refused, the plan of no axes.
#[derive(Clone, Copy)]
pub struct CompiledScatter {
    pub answer: Result<(), Refusal>,
    pub plan: ScatterPlan,
    pub batch_axes: [WindowReplayAxis; RAW_FUSED_RANK_LIMIT],
    pub window_axes: [WindowReplayAxis; RAW_FUSED_RANK_LIMIT],
}

fn refused(answer: Result<(), Refusal>) -> CompiledScatter
    ensures { result ≡ refused_scatter answer }
{
    let extents = [1u64; RAW_FUSED_RANK_LIMIT];
    let strides = [0i64; RAW_FUSED_RANK_LIMIT];
    let zeros = [0u64; RAW_FUSED_RANK_LIMIT];
    let none = replay::refused_replay();
    let walk = none.replay;
    let axes = none.axes;
    let l = Layout {
        rank: 0,
        extents,
        strides,
    };
    let numbers = Numbers {
        count: 0,
        entries: zeros,
    };
    let steps = Steps {
        count: 0,
        entries: strides,
    };
    CompiledScatter {
        answer,
        plan: ScatterPlan {
            index: l,
            updates: l,
            dest: l,
            update_window_dims: numbers,
            inserted_window_dims: numbers,
            scatter_dims_to_operand_dims: numbers,
            index_vector_dim: 0,
            batch: walk,
            window: walk,
            window_shape: numbers,
            index_component_offsets: steps,
            index_operand_strides: steps,
            batch_elems: 0,
            window_elems: 0,
        },
        batch_axes: axes,
        window_axes: axes,
    }
}

// The product of the extents on the axes, and 0 where it does not fit.
fn product_value(axes: &[u64], list: &[u64]) -> u64
    requires { length axes.now ≤ rank_limit }
    ensures { result ≡ total_or (pick 0 axes.now list.now) }
{
    let sizes = scatter_checks::picked_extents(axes, list);
    let n = axes.len();
    let total = spans::checked_total_len(&sizes[0..n]);
    match total {
        Some(m) => m,
        None => 0,
    }
}

// How many batches: the product of the updates' extents on their other axes.
pub fn batch_elems(updates: &[u64], window: &[u64]) -> u64
    requires { length updates.now ≤ rank_limit }
    ensures { result ≡ total_or (pick 0 (others (length updates.now) window.now) updates.now) }
{
    let batch = axis_lists::other_axes(updates.len(), window);
    let axes = batch.entries;
    let n = batch.count;
    product_value(&axes[0..n], updates)
}

// The window's extent on each operand axis, 1 on inserted ones.
fn windows_of(dest: &[u64], updates: &[u64], window: &[u64], inserted: &[u64]) -> Numbers
    requires { (length dest.now ≤ rank_limit) × (length window.now ≤ rank_limit) }
    ensures { result ≡ held_numbers (spread 1 (length dest.now) (others (length dest.now) inserted.now) (pick 0 window.now updates.now)) }
{
    let kept = axis_lists::other_axes(dest.len(), inserted);
    let shape = axis_lists::pick(window, updates, 0);
    axis_lists::spread(dest.len(), kept.as_slice(), shape.as_slice(), 1, 0)
}

// The plan of a scatter that is not refused, with the walks that compile's checks found.
fn plan_of(
    index_extents: &[u64],
    index_strides: &[i64],
    updates_extents: &[u64],
    updates_strides: &[i64],
    dest_extents: &[u64],
    dest_strides: &[i64],
    window: &[u64],
    inserted: &[u64],
    map: &[u64],
    vector: u64,
    from_batch: CompiledReplay,
    from_cell: CompiledReplay,
) -> ScatterPlan
    requires { Found (scatter_from index_extents.now index_strides.now updates_extents.now updates_strides.now dest_extents.now dest_strides.now window.now inserted.now map.now vector) from_batch from_cell }
    ensures { result ≡ plan_of (scatter_from index_extents.now index_strides.now updates_extents.now updates_strides.now dest_extents.now dest_strides.now window.now inserted.now map.now vector) }
{
    let first = layout::make_layout(index_extents, index_strides);
    let second = layout::make_layout(updates_extents, updates_strides);
    let third = layout::make_layout(dest_extents, dest_strides);
    let index = first.layout;
    let updates = second.layout;
    let dest = third.layout;
    let windows = windows_of(dest_extents, updates_extents, window, inserted);
    let stride = axis_lists::stride_at(index_strides, vector);
    let offsets = components::index_component_offsets(stride, map.len());
    let entries = components::strides_on(map, dest_strides);
    let strides = Steps {
        count: map.len(),
        entries,
    };
    let batches = batch_elems(updates_extents, window);
    let cells = product_value(window, updates_extents);
    let batch = from_batch.replay;
    let in_window = from_cell.replay;
    ScatterPlan {
        index,
        updates,
        dest,
        update_window_dims: Numbers::from_slice(window, 0),
        inserted_window_dims: Numbers::from_slice(inserted, 0),
        scatter_dims_to_operand_dims: Numbers::from_slice(map, 0),
        index_vector_dim: vector,
        batch,
        window: in_window,
        window_shape: windows,
        index_component_offsets: offsets,
        index_operand_strides: strides,
        batch_elems: batches,
        window_elems: cells,
    }
}

// What compile gives, by what its checks found.
pub fn compiled_from(
    found: Examined,
    index_extents: &[u64],
    index_strides: &[i64],
    updates_extents: &[u64],
    updates_strides: &[i64],
    dest_extents: &[u64],
    dest_strides: &[i64],
    update_window_dims: &[u64],
    inserted_window_dims: &[u64],
    scatter_dims_to_operand_dims: &[u64],
    index_vector_dim: u64,
) -> CompiledScatter
    requires { is_done found.answer ≡ true → Found (scatter_from index_extents.now index_strides.now updates_extents.now updates_strides.now dest_extents.now dest_strides.now update_window_dims.now inserted_window_dims.now scatter_dims_to_operand_dims.now index_vector_dim) found.batch found.window }
    ensures { result ≡ compiled_by found.answer (scatter_from index_extents.now index_strides.now updates_extents.now updates_strides.now dest_extents.now dest_strides.now update_window_dims.now inserted_window_dims.now scatter_dims_to_operand_dims.now index_vector_dim) }
{
    let answer = found.answer;
    if !layout::is_done(answer) {
        return refused(answer);
    }
    let from_batch = found.batch;
    let from_cell = found.window;
    let plan = plan_of(
        index_extents,
        index_strides,
        updates_extents,
        updates_strides,
        dest_extents,
        dest_strides,
        update_window_dims,
        inserted_window_dims,
        scatter_dims_to_operand_dims,
        index_vector_dim,
        from_batch,
        from_cell,
    );
    let batch_axes = from_batch.axes;
    let window_axes = from_cell.axes;
    CompiledScatter {
        answer,
        plan,
        batch_axes,
        window_axes,
    }
}

// The plan of a scatter, or its first refusal.
pub fn compile(
    index_extents: &[u64],
    index_strides: &[i64],
    updates_extents: &[u64],
    updates_strides: &[i64],
    dest_extents: &[u64],
    dest_strides: &[i64],
    update_window_dims: &[u64],
    inserted_window_dims: &[u64],
    scatter_dims_to_operand_dims: &[u64],
    index_vector_dim: u64,
) -> CompiledScatter
    ensures { result ≡ compiled_scatter (scatter_from index_extents.now index_strides.now updates_extents.now updates_strides.now dest_extents.now dest_strides.now update_window_dims.now inserted_window_dims.now scatter_dims_to_operand_dims.now index_vector_dim) }
{
    let found = scatter_checks::examine(
        index_extents,
        index_strides,
        updates_extents,
        updates_strides,
        dest_extents,
        dest_strides,
        update_window_dims,
        inserted_window_dims,
        scatter_dims_to_operand_dims,
        index_vector_dim,
    );
    compiled_from(
        found,
        index_extents,
        index_strides,
        updates_extents,
        updates_strides,
        dest_extents,
        dest_strides,
        update_window_dims,
        inserted_window_dims,
        scatter_dims_to_operand_dims,
        index_vector_dim,
    )
}

// The same at a call, where 4 is not tried again.
pub fn compile_again(
    index_extents: &[u64],
    index_strides: &[i64],
    updates_extents: &[u64],
    updates_strides: &[i64],
    dest_extents: &[u64],
    dest_strides: &[i64],
    update_window_dims: &[u64],
    inserted_window_dims: &[u64],
    scatter_dims_to_operand_dims: &[u64],
    index_vector_dim: u64,
) -> CompiledScatter
    ensures { result ≡ compiled_again (scatter_from index_extents.now index_strides.now updates_extents.now updates_strides.now dest_extents.now dest_strides.now update_window_dims.now inserted_window_dims.now scatter_dims_to_operand_dims.now index_vector_dim) }
{
    let found = scatter_checks::examine_again(
        index_extents,
        index_strides,
        updates_extents,
        updates_strides,
        dest_extents,
        dest_strides,
        update_window_dims,
        inserted_window_dims,
        scatter_dims_to_operand_dims,
        index_vector_dim,
    );
    compiled_from(
        found,
        index_extents,
        index_strides,
        updates_extents,
        updates_strides,
        dest_extents,
        dest_strides,
        update_window_dims,
        inserted_window_dims,
        scatter_dims_to_operand_dims,
        index_vector_dim,
    )
}
