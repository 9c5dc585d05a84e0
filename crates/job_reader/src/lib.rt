// The reader of a stored job: its head, its views and its spec, in order, and that no byte is left over.
#![tactic(auto)]

ghost use Rattle.std.specs.Prelude.{◌≡◌};
ghost use Rattle.job_bytes.specs.Fields.{held};
ghost use Rattle.job.specs.Format.{spec_at, views_at, count_at, head_at, job_at};
ghost use Rattle.job_reader.specs.Held.{held_head, read_job};

use job::{Element, Job, Kind, Spec, Views};
use job_bytes::{Fault, Read, VERSION};
use layout::Refusal;

#[derive(Clone, Copy)]
pub struct ReadJob {
    pub answer: Result<(), Refusal>,
    pub job: Job,
}

// What stands in front of the views.
#[derive(Clone, Copy)]
pub struct Head {
    pub kind: Kind,
    pub element: Element,
}

fn read_views(bytes: &[u8], at: usize) -> Result<Read<Views>, Fault>
    ensures { result ≡ held (views_at bytes.now at) }
{
    let first = job_lists::read_view(bytes, at)?;
    let second = job_lists::read_view(bytes, first.at)?;
    let third = job_lists::read_view(bytes, second.at)?;
    Ok(Read {
        value: Views {
            first: first.value,
            second: second.value,
            third: third.value,
        },
        at: third.at,
    })
}

fn read_spec(bytes: &[u8], at: usize, kind: Kind) -> Result<Read<Spec>, Fault>
    ensures { result ≡ held (spec_at kind bytes.now at) }
{
    let window = job_lists::read_list(bytes, at)?;
    let unit = job_lists::read_list(bytes, window.at)?;
    let map = job_lists::read_list(bytes, unit.at)?;
    let vector = job_bytes::read_number(bytes, map.at, 8)?;
    let sizes = job_lists::read_sizes(bytes, vector.at, kind)?;
    Ok(Read {
        value: Spec {
            window_dims: window.value,
            unit_dims: unit.value,
            start_map: map.value,
            index_vector_dim: vector.value,
            slice_sizes: sizes.value,
        },
        at: sizes.at,
    })
}

// The four bytes that count those behind them.
fn read_count(bytes: &[u8]) -> Result<Read<u64>, Fault>
    ensures { result ≡ held (count_at bytes.now) }
{
    let count = job_bytes::read_number(bytes, 0, 4)?;
    if bytes.len() as u64 - 4 != count.value {
        return Err(Fault { at: 0 });
    }
    Ok(count)
}

// Kind and element, behind the count and the version.
fn read_head(bytes: &[u8]) -> Result<Read<Head>, Fault>
    ensures { result ≡ held_head (head_at bytes.now) }
{
    let count = read_count(bytes)?;
    let version = job_bytes::read_byte(bytes, count.at, VERSION, VERSION)?;
    let first = job_bytes::read_number(bytes, version.at, 1)?;
    let Ok(kind) = Kind::try_from(first.value) else {
        return Err(Fault { at: version.at });
    };
    let second = job_bytes::read_number(bytes, first.at, 1)?;
    let Ok(element) = Element::try_from(second.value) else {
        return Err(Fault { at: first.at });
    };
    Ok(Read {
        value: Head { kind, element },
        at: second.at,
    })
}

// The job that the bytes store, or the place of the first field that is cut off or has an unlisted value, or of the first byte
// left over.
fn job_of(bytes: &[u8]) -> Result<Read<Job>, Fault>
    ensures { result ≡ held (job_at bytes.now) }
{
    let head = read_head(bytes)?;
    let views = read_views(bytes, head.at)?;
    let spec = read_spec(bytes, views.at, head.value.kind)?;
    if spec.at != bytes.len() {
        return Err(Fault { at: spec.at });
    }
    Ok(Read {
        value: Job {
            kind: head.value.kind,
            element: head.value.element,
            views: views.value,
            spec: spec.value,
        },
        at: spec.at,
    })
}

// The job that the bytes store, or 10 with the place of the fault.
pub fn read_job(bytes: &[u8]) -> ReadJob
    ensures { result ≡ read_job (job_at bytes.now) }
{
    match job_of(bytes) {
        Ok(read) => ReadJob {
            answer: Ok(()),
            job: read.value,
        },
        Err(fault) => ReadJob {
            answer: Err(Refusal::JobBytes(fault.at as u64)),
            job: job::no_job(),
        },
    }
}
