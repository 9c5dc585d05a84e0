// What a call by a stored job decides before it touches an element: the job is read, and its views and lists are a call by lists.
#![tactic(auto)]

ghost use Rattle.std.specs.Prelude.{◌≡◌};
ghost use Rattle.job.specs.Format.{job_at};
ghost use Rattle.job_reader.specs.Held.{read_job};
ghost use Rattle.gather_move.specs.Prepared as gathers;
ghost use Rattle.scatter_move.specs.Prepared as scatters;
ghost use Rattle.job_calls.specs.Jobs.{kind_answer, element_answer, held_gather, held_scatter, gather_answer, scatter_answer, job_gather, job_scatter};
ghost use Rattle.gather_lists.specs.Lists as listed-gathers;
ghost use Rattle.scatter_lists.specs.Lists as listed-scatters;

use gather_move::PreparedGather;
use job::{Element, Job, Kind};
use layout::Refusal;
use scatter_move::PreparedScatter;

// 10 at the kind byte, if a job is not of this kind.
fn kind_answer(kind: Kind, wanted: Kind) -> Result<(), Refusal>
    ensures { result ≡ kind_answer kind wanted }
{
    if kind == wanted {
        Ok(())
    } else {
        Err(Refusal::JobBytes(5))
    }
}

// 10 at the element byte, if a job is not of this element.
fn element_answer(element: Element, wanted: Element) -> Result<(), Refusal>
    ensures { result ≡ element_answer element wanted }
{
    if element == wanted {
        Ok(())
    } else {
        Err(Refusal::JobBytes(6))
    }
}

// A gather by a job's views and spec, given the lengths of the three slices.
fn gather_of(job: Job, operand_len: usize, starts_len: usize, dest_len: usize) -> PreparedGather
    ensures { listed-gathers.ListedAt result (held_gather job) job.views.first.offset job.views.second.offset job.views.third.offset operand_len starts_len dest_len }
{
    let operand = &job.views.first.layout;
    let index = &job.views.second.layout;
    let dest = &job.views.third.layout;
    let spec = &job.spec;
    let n = layout::axis_count(operand.rank);
    let m = layout::axis_count(index.rank);
    let k = layout::axis_count(dest.rank);
    gather_lists::prepare(
        &operand.extents[..n],
        &operand.strides[..n],
        &index.extents[..m],
        &index.strides[..m],
        &dest.extents[..k],
        &dest.strides[..k],
        spec.window_dims.counted(),
        spec.unit_dims.counted(),
        spec.start_map.counted(),
        spec.index_vector_dim,
        spec.slice_sizes.counted(),
        job.views.first.offset,
        job.views.second.offset,
        job.views.third.offset,
        operand_len,
        starts_len,
        dest_len,
    )
}

// A scatter by a job's views and spec, given the lengths of the three slices.
fn scatter_of(job: Job, starts_len: usize, updates_len: usize, dest_len: usize) -> PreparedScatter
    ensures { listed-scatters.ListedAt result (held_scatter job) job.views.first.offset job.views.second.offset job.views.third.offset starts_len updates_len dest_len }
{
    let index = &job.views.first.layout;
    let updates = &job.views.second.layout;
    let dest = &job.views.third.layout;
    let spec = &job.spec;
    let n = layout::axis_count(index.rank);
    let m = layout::axis_count(updates.rank);
    let k = layout::axis_count(dest.rank);
    scatter_lists::prepare(
        &index.extents[..n],
        &index.strides[..n],
        &updates.extents[..m],
        &updates.strides[..m],
        &dest.extents[..k],
        &dest.strides[..k],
        spec.window_dims.counted(),
        spec.unit_dims.counted(),
        spec.start_map.counted(),
        spec.index_vector_dim,
        job.views.first.offset,
        job.views.second.offset,
        job.views.third.offset,
        starts_len,
        updates_len,
        dest_len,
    )
}

// A stored gather of this element, given the lengths of the three slices.
pub fn prepare_gather(
    bytes: &[u8],
    element: Element,
    operand_len: usize,
    starts_len: usize,
    dest_len: usize,
) -> PreparedGather
    ensures { gathers.Prepares result (gather_answer element (read_job (job_at bytes.now)) operand_len starts_len dest_len) (job_gather (read_job (job_at bytes.now)).job) operand_len starts_len dest_len }
{
    let r = job_reader::read_job(bytes);
    let job = r.job;
    let a = kind_answer(job.kind, Kind::Gather);
    let b = element_answer(job.element, element);
    let refusal = checks::or_else(r.answer, checks::or_else(a, b));
    if !layout::is_done(refusal) {
        return gather_move::refused(refusal);
    }
    gather_of(job, operand_len, starts_len, dest_len)
}

// A stored scatter of this element, given the lengths of the three slices.
pub fn prepare_scatter(
    bytes: &[u8],
    element: Element,
    starts_len: usize,
    updates_len: usize,
    dest_len: usize,
) -> PreparedScatter
    ensures { scatters.Prepares result (scatter_answer element (read_job (job_at bytes.now)) starts_len updates_len dest_len) (job_scatter (read_job (job_at bytes.now)).job) starts_len updates_len dest_len }
{
    let r = job_reader::read_job(bytes);
    let job = r.job;
    let a = kind_answer(job.kind, Kind::Scatter);
    let b = element_answer(job.element, element);
    let refusal = checks::or_else(r.answer, checks::or_else(a, b));
    if !layout::is_done(refusal) {
        return scatter_move::refused(refusal);
    }
    scatter_of(job, starts_len, updates_len, dest_len)
}
