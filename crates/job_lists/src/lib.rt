// The views and the lists of a stored job, read, each with the place after it or that of the field at fault.
#![tactic(auto)]

ghost use Rattle.std.specs.Prelude.{◌≡◌, map};
ghost use Rattle.job_bytes.specs.Fields.{held, signed_of};
ghost use Rattle.job.specs.Format.{view_at, list_at, sizes_at};
ghost use Rattle.job_lists.specs.Held.{held_entries};

use job::{Kind, List16};
use job_bytes::{Fault, LIST_LIMIT, Read, STORED_RANK_LIMIT};
use layout::View;

// Words as strides, in two's complement.
fn signed_words(words: [u64; LIST_LIMIT]) -> [i64; LIST_LIMIT]
    ensures { result ≡ map signed_of words }
{
    words.map(|word| word.cast_signed())
}

// A layout with its offset.
pub fn read_view(bytes: &[u8], at: usize) -> Result<Read<View>, Fault>
    ensures { result ≡ held (view_at bytes.now at) }
{
    let rank = job_bytes::read_byte(bytes, at, 0, STORED_RANK_LIMIT as u64)?;
    let n = rank.value as usize;
    let extents = job_bytes::read_words(bytes, rank.at, n)?;
    let words = job_bytes::read_words(bytes, extents.at, n)?;
    let offset = job_bytes::read_number(bytes, words.at, 8)?;
    let strides = signed_words(words.value);
    let view = job::view_from(
        &extents.value[..n],
        &strides[..n],
        offset.value.cast_signed(),
    );
    Ok(Read {
        value: view,
        at: offset.at,
    })
}

pub fn read_list(bytes: &[u8], at: usize) -> Result<Read<List16>, Fault>
    ensures { result ≡ held_entries (list_at bytes.now at) }
{
    let count = job_bytes::read_byte(bytes, at, 0, LIST_LIMIT as u64)?;
    let n = count.value as usize;
    let words = job_bytes::read_words(bytes, count.at, n)?;
    let entries = words.value;
    Ok(Read {
        value: List16 { count: n, entries },
        at: words.at,
    })
}

// Slice sizes, which a scatter has not.
#[tactic(auto, unfolding(job::specs::Format::sizes_at))]
pub fn read_sizes(bytes: &[u8], at: usize, kind: Kind) -> Result<Read<List16>, Fault>
    ensures { result ≡ held_entries (sizes_at kind bytes.now at) }
{
    match kind {
        Kind::Gather => read_list(bytes, at),
        Kind::Scatter => Ok(Read {
            value: job::no_list(),
            at,
        }),
    }
}
