// The writer of a stored job. Of an array, the first entries count, as many as its rank or count says; a job with more axes or
// entries than are stored is refused.
#![tactic(auto)]

ghost use Rattle.std.specs.Prelude.{◌≡◌, map, ◌+◌, ◌*◌, ◌≤◌, length};
ghost use Rattle.job_bytes.specs.Fields.{word_of};
ghost use Rattle.job.specs.Format.{view_bytes, list_bytes, sizes_bytes, spec_bytes, views_bytes, body_bytes, view_most, list_most, views_most, spec_most};
ghost use Rattle.job_bytes.specs.Version.{stored_rank_limit};
ghost use Rattle.job_writer.specs.Written.{Put, PutJob, Written, Sized};

use job::{Job, Kind, List16, Spec, Views};
use job_bytes::{STORED_RANK_LIMIT, VERSION};
use layout::{RAW_FUSED_RANK_LIMIT, Refusal, View};

// The stored size of a layout with its offset, by its rank.
const LAYOUT_SIZES: [usize; STORED_RANK_LIMIT + 1] = [9, 25, 41, 57, 73, 89, 105, 121, 137];

fn layout_size(rank: usize) -> usize
    requires { rank ≤ stored_rank_limit }
    ensures { result ≡ 9 + 16 * rank }
{
    LAYOUT_SIZES[rank]
}

fn view_size(view: View) -> usize
    ensures { Sized (view_bytes view) view_most result }
{
    layout_size(view.layout.rank.min(STORED_RANK_LIMIT))
}

fn views_size(views: Views) -> usize
    ensures { Sized (views_bytes views) views_most result }
{
    view_size(views.first) + (view_size(views.second) + view_size(views.third))
}

fn list_size(list: List16) -> usize
    ensures { Sized (list_bytes list) list_most result }
{
    1 + 8 * list.counted().len()
}

fn sizes_size(kind: Kind, list: List16) -> usize
    ensures { Sized (sizes_bytes kind list) list_most result }
{
    match kind {
        Kind::Gather => list_size(list),
        Kind::Scatter => 0,
    }
}

fn spec_size(kind: Kind, spec: Spec) -> usize
    ensures { Sized (spec_bytes kind spec) spec_most result }
{
    let window = list_size(spec.window_dims);
    let unit = list_size(spec.unit_dims);
    let map = list_size(spec.start_map);
    let sizes = sizes_size(kind, spec.slice_sizes);
    window + (unit + (map + (8 + sizes)))
}

// The bytes that follow the count.
fn body_size(job: Job) -> usize
    ensures { Sized (body_bytes job) (3 + (views_most + spec_most)) result }
{
    3 + (views_size(job.views) + spec_size(job.kind, job.spec))
}

// Strides as words, in two's complement.
fn stride_words(strides: [i64; RAW_FUSED_RANK_LIMIT]) -> [u64; RAW_FUSED_RANK_LIMIT]
    ensures { result ≡ map word_of strides }
{
    strides.map(|stride| stride.cast_unsigned())
}

// Writes a layout with its offset from `at`.
fn put_view(out: &mut [u8], at: usize, view: View) -> usize
    requires { at + length (view_bytes view) ≤ length out.old }
    ensures { Put out.old out.new at (view_bytes view) result }
{
    let layout = view.layout;
    let n = layout.rank.min(STORED_RANK_LIMIT);
    let words = stride_words(layout.strides);
    job_bytes::put_number(out, at, 1, n as u64);
    job_bytes::put_words(out, at + 1, &layout.extents[..n]);
    job_bytes::put_words(out, at + 1 + 8 * n, &words[..n]);
    job_bytes::put_number(out, at + 1 + 16 * n, 8, view.offset.cast_unsigned());
    at + layout_size(n)
}

fn put_views(out: &mut [u8], at: usize, views: Views) -> usize
    requires { at + length (views_bytes views) ≤ length out.old }
    ensures { Put out.old out.new at (views_bytes views) result }
{
    let second = put_view(out, at, views.first);
    let third = put_view(out, second, views.second);
    put_view(out, third, views.third)
}

fn put_list(out: &mut [u8], at: usize, list: List16) -> usize
    requires { at + length (list_bytes list) ≤ length out.old }
    ensures { Put out.old out.new at (list_bytes list) result }
{
    let entries = list.counted();
    job_bytes::put_number(out, at, 1, entries.len() as u64);
    job_bytes::put_words(out, at + 1, entries);
    at + 1 + 8 * entries.len()
}

fn put_sizes(out: &mut [u8], at: usize, kind: Kind, list: List16) -> usize
    requires { at + length (sizes_bytes kind list) ≤ length out.old }
    ensures { Put out.old out.new at (sizes_bytes kind list) result }
{
    match kind {
        Kind::Gather => put_list(out, at, list),
        Kind::Scatter => at,
    }
}

fn put_spec(out: &mut [u8], at: usize, kind: Kind, spec: Spec) -> usize
    requires { at + length (spec_bytes kind spec) ≤ length out.old }
    ensures { Put out.old out.new at (spec_bytes kind spec) result }
{
    let unit = put_list(out, at, spec.window_dims);
    let map = put_list(out, unit, spec.unit_dims);
    let vector = put_list(out, map, spec.start_map);
    job_bytes::put_number(out, vector, 8, spec.index_vector_dim);
    put_sizes(out, vector + 8, kind, spec.slice_sizes)
}

// Writes the job from the first byte on, or refuses by 9 with the bytes that are needed. Of a scatter no slice sizes are written.
fn put_job(job: Job, out: &mut [u8]) -> Result<(), Refusal>
    ensures { PutJob job out.old result out.new }
{
    let size = body_size(job);
    if out.len() < 4 + size {
        return Err(Refusal::BufferBounds(0, 4 + size as u64));
    }
    job_bytes::put_number(out, 0, 4, size as u64);
    job_bytes::put_number(out, 4, 1, VERSION);
    job_bytes::put_number(out, 5, 1, u64::from(job.kind));
    job_bytes::put_number(out, 6, 1, u64::from(job.element));
    let next = put_views(out, 7, job.views);
    put_spec(out, next, job.kind, job.spec);
    Ok(())
}

// The same after 2 and 5, whoever made the job.
pub fn write_job(job: Job, out: &mut [u8]) -> Result<(), Refusal>
    ensures { Written job out.old result out.new }
{
    let refusal = job::job_refusal(job);
    if !layout::is_done(refusal) {
        return refusal;
    }
    put_job(job, out)
}
