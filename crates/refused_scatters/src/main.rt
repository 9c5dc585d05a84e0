// Forged plans of a scatter: each field of a compiled plan changed in turn, arrays past their counts as well, and each number
// of the rows of its two walks. A call with such a plan or such rows is refused by 8 and leaves the destination as it was. Last, a
// plan whose two cells share an element, compiled with 4 not tried: it is accepted, and both updates land there.
#![tactic(auto)]

use changed_plans::trials::{
    put_called, try_entries, try_layout, try_list, try_number, try_places,
};
use changed_plans::{Change, Changed, change_entry};
use layout::RAW_FUSED_RANK_LIMIT;
use replay::{ReplaySpans, WindowReplay};
use scatter_plan::CompiledScatter;
use scatter_trials::{BEFORE, Forged, Rows, compile};
use std::io;

// ---- one number changed

fn layouts(rt: &impl Print, forged: Forged) -> io::Result<()> {
    try_layout(rt, forged, "index", |f| &mut f.plan.index)?;
    try_layout(rt, forged, "updates", |f| &mut f.plan.updates)?;
    try_layout(rt, forged, "destination", |f| &mut f.plan.dest)
}

fn spec(rt: &impl Print, forged: Forged) -> io::Result<()> {
    try_list(
        rt,
        forged,
        "update_window_dims",
        |f| &mut f.plan.update_window_dims.count,
        |f| &mut f.plan.update_window_dims.entries,
    )?;
    try_list(
        rt,
        forged,
        "inserted_window_dims",
        |f| &mut f.plan.inserted_window_dims.count,
        |f| &mut f.plan.inserted_window_dims.entries,
    )?;
    try_list(
        rt,
        forged,
        "scatter_dims_to_operand_dims",
        |f| &mut f.plan.scatter_dims_to_operand_dims.count,
        |f| &mut f.plan.scatter_dims_to_operand_dims.entries,
    )?;
    try_number(rt, forged, "index_vector_dim", |f| {
        &mut f.plan.index_vector_dim
    })
}

// Changes number i of four.
fn change_span(spans: &mut ReplaySpans, i: usize, change: Change) {
    let span = match i {
        0 => &mut spans.source_low,
        1 => &mut spans.source_high,
        2 => &mut spans.dest_low,
        3 => &mut spans.dest_high,
        _ => return,
    };
    *span = span.changed(change);
}

fn try_walk<F: Fn(&mut Forged) -> &mut WindowReplay>(
    rt: &impl Print,
    forged: Forged,
    name: &str,
    field: F,
) -> io::Result<()>
    requires { (state : F) (x : _) → F.pre state x }
{
    print!(rt; "{name} ")?;
    try_number(
        rt,
        forged,
        "rank",
        |f: &mut Forged| -> &mut usize
            requires { (x : _) → F.pre field x }
        { &mut field(f).rank },
    )?;
    print!(rt; "{name} ")?;
    try_entries(
        rt,
        forged,
        "extents",
        |f: &mut Forged| -> &mut [u64]
            requires { (x : _) → F.pre field x }
        { &mut field(f).extents },
    )?;
    print!(rt; "{name} ")?;
    try_places(
        rt,
        forged,
        "spans",
        4,
        |f: &mut Forged, i: usize, change: Change|
            requires { (x : _) → F.pre field x }
        { change_span(&mut field(f).spans, i, change) },
    )
}

fn walks(rt: &impl Print, forged: Forged) -> io::Result<()> {
    try_walk(rt, forged, "batch", |f| &mut f.plan.batch)?;
    try_walk(rt, forged, "window", |f| &mut f.plan.window)
}

fn starts(rt: &impl Print, forged: Forged) -> io::Result<()> {
    try_list(
        rt,
        forged,
        "windows",
        |f| &mut f.plan.window_shape.count,
        |f| &mut f.plan.window_shape.entries,
    )?;
    try_list(
        rt,
        forged,
        "component offsets",
        |f| &mut f.plan.index_component_offsets.count,
        |f| &mut f.plan.index_component_offsets.entries,
    )?;
    try_list(
        rt,
        forged,
        "component strides",
        |f| &mut f.plan.index_operand_strides.count,
        |f| &mut f.plan.index_operand_strides.entries,
    )?;
    try_number(rt, forged, "batches", |f| &mut f.plan.batch_elems)?;
    try_number(rt, forged, "cells", |f| &mut f.plan.window_elems)
}

// Each number of the rows, counted row by row.
fn try_rows<F: Fn(&mut Forged) -> &mut Rows>(
    rt: &impl Print,
    forged: Forged,
    name: &str,
    field: F,
) -> io::Result<()>
    requires { (state : F) (x : _) → F.pre state x }
{
    try_places(
        rt,
        forged,
        name,
        4 * RAW_FUSED_RANK_LIMIT,
        |f: &mut Forged, i: usize, change: Change|
            requires { (x : _) → F.pre field x }
        { change_entry(field(f).as_flattened_mut(), i, change) },
    )
}

// ---- whole plans

fn put_compiled(rt: &impl Print, name: &str, compiled: CompiledScatter) -> io::Result<()> {
    println!(rt; "{name}: answer {}", layout::number(compiled.answer))
}

fn exchanged_rows(rt: &impl Print, forged: Forged) -> io::Result<()> {
    let plan = forged.plan;
    let batch_rows = forged.window_rows;
    let window_rows = forged.batch_rows;
    let exchanged = Forged {
        plan,
        batch_rows,
        window_rows,
    };
    let mut into = BEFORE;
    let told = exchanged.call_on_views(&mut into);
    put_called(rt, "its rows exchanged", told, &into)
}

// Windows of 4 on an axis of 3 are refused.
fn refused(rt: &impl Print) -> io::Result<()> {
    let compiled = compile(4);
    let forged = Forged::new(compiled);
    put_compiled(rt, "compile with windows of 4", compiled)?;
    let mut into = BEFORE;
    let told = forged.call_on_views(&mut into);
    put_called(rt, "the plan that stands there", told, &into)?;
    let mut into = BEFORE;
    let told = forged.call_on_scalars(&mut into);
    put_called(rt, "the same on views of its layouts", told, &into)
}

// Document 01's walks of updates: a batch whose two axes do not merge within i64, and its first axis alone.
fn two_axes() -> CompiledScatter {
    scatter_plan::compile(
        &[2, 1],
        &[1, 1],
        &[2, 1],
        &[1 << 62, 0],
        &[1],
        &[1],
        &[],
        &[0],
        &[0],
        2,
    )
}

fn one_axis() -> CompiledScatter {
    scatter_plan::compile(&[2], &[1], &[2], &[1 << 62], &[1], &[1], &[], &[0], &[0], 1)
}

fn batches(rt: &impl Print) -> io::Result<()> {
    put_compiled(
        rt,
        "compile with update batches [2, 1], strides [2^62, 0]",
        two_axes(),
    )?;
    put_compiled(
        rt,
        "compile with update batches [2], strides [2^62]",
        one_axis(),
    )
}

fn shared(rt: &impl Print) -> io::Result<()> {
    put_compiled(
        rt,
        "compile of updates into [2] with stride 0",
        scatter_trials::shared(),
    )?;
    let mut into = [5i32];
    let told = Forged::new(scatter_trials::shared_again()).call_on_shared(&mut into);
    put_called(rt, "the plan with 4 not tried", told, &into)
}

fn main(rt: HostRuntime) -> io::Result<()> {
    let forged = Forged::new(compile(2));
    let mut into = BEFORE;
    let told = forged.call_on_views(&mut into);
    put_called(&rt, "the compiled plan", told, &into)?;
    layouts(&rt, forged)?;
    spec(&rt, forged)?;
    walks(&rt, forged)?;
    starts(&rt, forged)?;
    try_rows(&rt, forged, "rows of the batches", |f| &mut f.batch_rows)?;
    try_rows(&rt, forged, "rows of the windows", |f| &mut f.window_rows)?;
    exchanged_rows(&rt, forged)?;
    refused(&rt)?;
    batches(&rt)?;
    shared(&rt)
}
