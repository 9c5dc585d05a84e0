// Forged plans: each field of a compiled plan changed in turn, arrays past their counts as well. A call with such a plan is
// refused by 8 and leaves the destination as it was. The gather is document 01's: operand 10 20 30 40 50, windows of 2. Last, a
// plan whose two cells share an element, compiled with 4 not tried: it is accepted, and the last cell stays.
#![tactic(auto)]

use changed_plans::trials::{
    Outcome, Trial, put_called, try_entries, try_layout, try_list, try_number, try_places, view,
};
use changed_plans::{Change, Changed};
use gather_plan::{CompiledGather, GatherPlan, GatherReplayAxis};
use layout::{CallAnswer, RAW_FUSED_RANK_LIMIT};
use std::io;

// What the operand holds, and the destination before each call.
const OPERAND: [i32; 5] = [10, 20, 30, 40, 50];

const BEFORE: [i32; 4] = [1, 2, 3, 4];

fn compile(window: u64) -> CompiledGather {
    gather_plan::compile(
        &[5],
        &[1],
        &[2],
        &[1],
        &[2, 2],
        &[1, 2],
        &[0],
        &[],
        &[0],
        1,
        &[window],
    )
}

// The call on the views of the gather, with starts 4 and -1.
fn call(plan: GatherPlan, into: &mut [i32]) -> CallAnswer {
    let operand = view(&[5], &[1]);
    let index = view(&[2], &[1]);
    let dest = view(&[2, 2], &[1, 2]);
    gather::gather_i32(plan, operand, index, dest, &OPERAND, &[4, -1], into)
}

// The call on views of no axes, as the plan has them that stands where compile refused.
fn call_on_scalars(plan: GatherPlan, into: &mut [i32]) -> CallAnswer {
    let scalar = view(&[], &[]);
    gather::gather_i32(plan, scalar, scalar, scalar, &OPERAND, &[4, -1], into)
}

// ---- one number changed

#[derive(Clone, Copy)]
struct Forged {
    plan: GatherPlan,
}

impl Trial for Forged {
    fn call(self) -> Outcome {
        let mut into = BEFORE;
        let told = call(self.plan, &mut into);
        Outcome {
            told,
            unchanged: into == BEFORE,
        }
    }
}

fn layouts(rt: &impl Print, forged: Forged) -> io::Result<()> {
    try_layout(rt, forged, "operand", |f| &mut f.plan.operand)?;
    try_layout(rt, forged, "index", |f| &mut f.plan.index)?;
    try_layout(rt, forged, "destination", |f| &mut f.plan.dest)
}

fn spec(rt: &impl Print, forged: Forged) -> io::Result<()> {
    try_list(
        rt,
        forged,
        "offset_dims",
        |f| &mut f.plan.offset_dims.count,
        |f| &mut f.plan.offset_dims.entries,
    )?;
    try_list(
        rt,
        forged,
        "collapsed_slice_dims",
        |f| &mut f.plan.collapsed_slice_dims.count,
        |f| &mut f.plan.collapsed_slice_dims.entries,
    )?;
    try_list(
        rt,
        forged,
        "start_index_map",
        |f| &mut f.plan.start_index_map.count,
        |f| &mut f.plan.start_index_map.entries,
    )?;
    try_number(rt, forged, "index_vector_dim", |f| {
        &mut f.plan.index_vector_dim
    })?;
    try_list(
        rt,
        forged,
        "slice_sizes",
        |f| &mut f.plan.slice_sizes.count,
        |f| &mut f.plan.slice_sizes.entries,
    )
}

// The role or a number of each axis.
fn try_axes<N: Changed, F: Fn(&mut GatherReplayAxis) -> &mut N>(
    rt: &impl Print,
    forged: Forged,
    name: &str,
    field: F,
) -> io::Result<()>
    requires { (state : F) (x : _) → F.pre state x }
{
    print!(rt; "axes, ")?;
    try_places(
        rt,
        forged,
        name,
        RAW_FUSED_RANK_LIMIT,
        |f: &mut Forged, i: usize, change: Change|
            requires { (x : _) → F.pre field x }
        {
            if let Some(axis) = f.plan.axes.get_mut(i) {
                let number = field(axis);
                *number = number.changed(change);
            }
        },
    )
}

fn axes(rt: &impl Print, forged: Forged) -> io::Result<()> {
    try_axes(rt, forged, "role", |axis| &mut axis.role)?;
    try_axes(rt, forged, "destination step", |axis| &mut axis.dest_step)?;
    try_axes(rt, forged, "destination reset", |axis| &mut axis.dest_reset)?;
    try_axes(rt, forged, "window step", |axis| &mut axis.window_step)?;
    try_axes(rt, forged, "window reset", |axis| &mut axis.window_reset)?;
    try_axes(rt, forged, "batch step", |axis| &mut axis.index_batch_step)?;
    try_axes(rt, forged, "batch reset", |axis| {
        &mut axis.index_batch_reset
    })
}

fn components(rt: &impl Print, forged: Forged) -> io::Result<()> {
    try_list(
        rt,
        forged,
        "component offsets",
        |f| &mut f.plan.index_component_offsets.count,
        |f| &mut f.plan.index_component_offsets.entries,
    )?;
    try_list(
        rt,
        forged,
        "component strides",
        |f| &mut f.plan.index_operand_strides.count,
        |f| &mut f.plan.index_operand_strides.entries,
    )
}

// ---- whole plans

// Windows of 6 are refused by 6.
fn refused(rt: &impl Print) -> io::Result<()> {
    let compiled = compile(6);
    let plan = compiled.plan;
    let number = layout::number(compiled.answer);
    println!(rt; "compile with windows of 6: answer {number}")?;
    let mut into = BEFORE;
    let told = call(plan, &mut into);
    put_called(rt, "the plan that stands there", told, &into)?;
    let mut into = BEFORE;
    let told = call_on_scalars(plan, &mut into);
    put_called(rt, "the same on views of its layouts", told, &into)
}

// Operand 3 4, one cell for each start, into a destination [2] with stride 0: compiled, and compiled with 4 not tried.
fn shared_compiled() -> CompiledGather {
    gather_plan::compile(&[2], &[1], &[2], &[1], &[2], &[0], &[], &[0], &[0], 1, &[1])
}

fn shared_again() -> CompiledGather {
    gather_plan::compile_again(&[2], &[1], &[2], &[1], &[2], &[0], &[], &[0], &[0], 1, &[1])
}

fn call_shared(plan: GatherPlan, into: &mut [i32]) -> CallAnswer {
    let operand = view(&[2], &[1]);
    let index = view(&[2], &[1]);
    let dest = view(&[2], &[0]);
    gather::gather_i32(plan, operand, index, dest, &[3, 4], &[0, 1], into)
}

fn shared(rt: &impl Print) -> io::Result<()> {
    let number = layout::number(shared_compiled().answer);
    println!(rt; "compile of 3 4 into [2] with stride 0: answer {number}")?;
    let plan = shared_again().plan;
    let mut into = [9i32];
    let told = call_shared(plan, &mut into);
    put_called(rt, "the plan with 4 not tried", told, &into)
}

fn main(rt: HostRuntime) -> io::Result<()> {
    let plan = compile(2).plan;
    let forged = Forged { plan };
    let mut into = BEFORE;
    let told = call(plan, &mut into);
    put_called(&rt, "the compiled plan", told, &into)?;
    layouts(&rt, forged)?;
    spec(&rt, forged)?;
    axes(&rt, forged)?;
    components(&rt, forged)?;
    try_number(&rt, forged, "total", |f| &mut f.plan.total)?;
    refused(&rt)?;
    shared(&rt)
}
