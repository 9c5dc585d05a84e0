// A job by value: kind, element, views and spec, made from lent slices. Every function answers for all its arguments: of an
// array, the first entries count, as many as its rank or count says, or all where that is larger.
#![tactic(auto)]

ghost use Rattle.std.specs.Prelude.{◌≡◌, [], length, pos};
ghost use Rattle.layout.specs.Answers.{or_else};
ghost use Rattle.job.specs.declared.Kind.TheVariants as K;
ghost use Rattle.job.specs.Format.{kind_byte, element_byte, listed_kind, listed_element};
ghost use Rattle.job.specs.Jobs.{held_list, view_of, entries_of, no_job, rank_stored, list_at_most, views_refusal, lists_refusal, stored_sizes, job_refusal, made_job, job_from};

use job_bytes::{LIST_LIMIT, STORED_RANK_LIMIT};
use layout::{Layout, RAW_FUSED_RANK_LIMIT, Refusal, View};

#[derive(Clone, Copy, Debug, PartialEq, Eq)]
pub enum Kind {
    Gather,
    Scatter,
}

#[derive(Clone, Copy, Debug, PartialEq, Eq)]
pub enum Element {
    I32,
    F64,
}

// A number that stands for no kind or no element.
#[derive(Clone, Copy, Debug, PartialEq, Eq)]
pub struct Unlisted;

impl From<Kind> for u64 {
    ghost from_gives = { λ kind byte. byte ≡ kind_byte kind };

    fn from(kind: Kind) -> u64 {
        match kind {
            Kind::Gather => 1,
            Kind::Scatter => 2,
        }
    }
}

impl TryFrom<u64> for Kind {
    type Error = Unlisted;

    ghost try_from_gives = { λ byte kind. kind ≡ listed_kind byte };

    fn try_from(byte: u64) -> Result<Kind, Unlisted> {
        match byte {
            1 => Ok(Kind::Gather),
            2 => Ok(Kind::Scatter),
            _ => Err(Unlisted),
        }
    }
}

impl From<Element> for u64 {
    ghost from_gives = { λ element byte. byte ≡ element_byte element };

    fn from(element: Element) -> u64 {
        match element {
            Element::I32 => 1,
            Element::F64 => 2,
        }
    }
}

impl TryFrom<u64> for Element {
    type Error = Unlisted;

    ghost try_from_gives = { λ byte element. element ≡ listed_element byte };

    fn try_from(byte: u64) -> Result<Element, Unlisted> {
        match byte {
            1 => Ok(Element::I32),
            2 => Ok(Element::F64),
            _ => Err(Unlisted),
        }
    }
}

// A list of up to `LIST_LIMIT` entries. Past the count stand zeros.
#[derive(Clone, Copy)]
pub struct List16 {
    pub count: usize,
    pub entries: [u64; LIST_LIMIT],
}

impl List16 {
    // The entries that count.
    pub fn counted(&self) -> &[u64]
        ensures { result.now ≡ entries_of self.now }
    {
        &self.entries[..self.count.min(LIST_LIMIT)]
    }
}

// In view order. Gather: operand, index, destination; scatter: index, updates, destination.
#[derive(Clone, Copy)]
pub struct Views {
    pub first: View,
    pub second: View,
    pub third: View,
}

// Gather: offset_dims, collapsed_slice_dims, start_index_map, index_vector_dim, slice_sizes. Scatter: update_window_dims,
// inserted_window_dims, scatter_dims_to_operand_dims, index_vector_dim, and no sizes.
#[derive(Clone, Copy)]
pub struct Spec {
    pub window_dims: List16,
    pub unit_dims: List16,
    pub start_map: List16,
    pub index_vector_dim: u64,
    pub slice_sizes: List16,
}

#[derive(Clone, Copy)]
pub struct Job {
    pub kind: Kind,
    pub element: Element,
    pub views: Views,
    pub spec: Spec,
}

// A job; where it is refused, that of no axes and no entries.
#[derive(Clone, Copy)]
pub struct MadeJob {
    pub answer: Result<(), Refusal>,
    pub job: Job,
}

pub fn no_view() -> View
    ensures { result ≡ view_of [] [] (pos 0) }
{
    view_from(&[], &[], 0)
}

pub fn no_list() -> List16
    ensures { result ≡ held_list [] }
{
    list_from(&[])
}

pub fn no_job() -> Job
    ensures { result ≡ no_job }
{
    Job {
        kind: Kind::Gather,
        element: Element::I32,
        views: Views {
            first: no_view(),
            second: no_view(),
            third: no_view(),
        },
        spec: Spec {
            window_dims: no_list(),
            unit_dims: no_list(),
            start_map: no_list(),
            index_vector_dim: 0,
            slice_sizes: no_list(),
        },
    }
}

// A view of these extents and strides, of which a layout holds the first.
pub fn view_from(extents: &[u64], strides: &[i64], offset: i64) -> View
    ensures { result ≡ view_of extents.now strides.now offset }
{
    View {
        layout: Layout {
            rank: extents.len(),
            extents: layout::padded_extents(extents),
            strides: layout::padded_strides(strides),
        },
        offset,
    }
}

// A lent list, of which the first entries are held.
pub fn list_from(list: &[u64]) -> List16
    ensures { result ≡ held_list list.now }
{
    let n = list.len().min(LIST_LIMIT);
    let mut entries = [0u64; LIST_LIMIT];
    entries[..n].copy_from_slice(&list[..n]);
    List16 {
        count: list.len(),
        entries,
    }
}

// 2 for a rank above what is stored.
fn check_rank(n: usize) -> Result<(), Refusal>
    ensures { result ≡ rank_stored n }
{
    if n <= STORED_RANK_LIMIT {
        Ok(())
    } else {
        Err(Refusal::RankTooLarge(n as u64, STORED_RANK_LIMIT as u64))
    }
}

// 1 for all views, given the counts of their strides, then 2.
#[tactic(auto, unfolding(crate::specs::Jobs::views_refusal))]
fn check_views(
    views: Views,
    first_strides: usize,
    second_strides: usize,
    third_strides: usize,
) -> Result<(), Refusal>
    ensures { result ≡ views_refusal views.first.layout.rank first_strides views.second.layout.rank second_strides views.third.layout.rank third_strides }
{
    let first = views.first.layout.rank;
    let second = views.second.layout.rank;
    let third = views.third.layout.rank;
    layout::check_stride_length(first, first_strides)?;
    layout::check_stride_length(second, second_strides)?;
    layout::check_stride_length(third, third_strides)?;
    check_rank(first)?;
    check_rank(second)?;
    check_rank(third)
}

// 5 for a list that is too long.
fn check_list(n: usize) -> Result<(), Refusal>
    ensures { result ≡ list_at_most n }
{
    if n <= LIST_LIMIT {
        Ok(())
    } else {
        Err(Refusal::RankMismatch(n as u64, LIST_LIMIT as u64))
    }
}

// The slice sizes that are stored: of a scatter none.
fn stored_sizes(kind: Kind, sizes: List16) -> List16
    ensures { result ≡ stored_sizes kind sizes }
{
    match kind {
        Kind::Gather => sizes,
        Kind::Scatter => no_list(),
    }
}

// 5 for the lists as they are declared.
#[tactic(auto, unfolding(crate::specs::Jobs::lists_refusal))]
fn check_lists(kind: Kind, spec: Spec) -> Result<(), Refusal>
    ensures { result ≡ lists_refusal spec.window_dims.count spec.unit_dims.count spec.start_map.count (stored_sizes kind spec.slice_sizes).count }
{
    check_list(spec.window_dims.count)?;
    check_list(spec.unit_dims.count)?;
    check_list(spec.start_map.count)?;
    check_list(stored_sizes(kind, spec.slice_sizes).count)
}

// 2 and 5 of a job by value, whoever made it.
pub fn job_refusal(job: Job) -> Result<(), Refusal>
    ensures { result ≡ job_refusal job }
{
    let views = job.views;
    let first = views.first.layout.rank;
    let second = views.second.layout.rank;
    let third = views.third.layout.rank;
    check_views(views, first, second, third)?;
    check_lists(job.kind, job.spec)
}

// The job, if the answer is that it is done.
fn made_job(answer: Result<(), Refusal>, job: Job) -> MadeJob
    ensures { result ≡ made_job answer job }
{
    if answer.is_ok() {
        MadeJob { answer, job }
    } else {
        MadeJob {
            answer,
            job: no_job(),
        }
    }
}

// The job, given the counts of the strides that were lent: refusals 1, 2, 5, or the job.
fn checked_job(
    job: Job,
    first_strides: usize,
    second_strides: usize,
    third_strides: usize,
) -> MadeJob
    ensures { result ≡ made_job (or_else (views_refusal job.views.first.layout.rank first_strides job.views.second.layout.rank second_strides job.views.third.layout.rank third_strides) (lists_refusal job.spec.window_dims.count job.spec.unit_dims.count job.spec.start_map.count (stored_sizes job.kind job.spec.slice_sizes).count)) job }
{
    let views = check_views(job.views, first_strides, second_strides, third_strides);
    let lists = check_lists(job.kind, job.spec);
    made_job(views.and(lists), job)
}

// A gather from its parts.
#[tactic(auto, unfolding(crate::specs::Jobs::job_from))]
pub fn make_gather_job(
    element: Element,
    operand_extents: &[u64],
    operand_strides: &[i64],
    operand_offset: i64,
    index_extents: &[u64],
    index_strides: &[i64],
    index_offset: i64,
    dest_extents: &[u64],
    dest_strides: &[i64],
    dest_offset: i64,
    offset_dims: &[u64],
    collapsed_slice_dims: &[u64],
    start_index_map: &[u64],
    index_vector_dim: u64,
    slice_sizes: &[u64],
) -> MadeJob
    ensures { result ≡ job_from K.Gather element operand_extents.now operand_strides.now operand_offset index_extents.now index_strides.now index_offset dest_extents.now dest_strides.now dest_offset offset_dims.now collapsed_slice_dims.now start_index_map.now index_vector_dim slice_sizes.now }
{
    let views = Views {
        first: view_from(operand_extents, operand_strides, operand_offset),
        second: view_from(index_extents, index_strides, index_offset),
        third: view_from(dest_extents, dest_strides, dest_offset),
    };
    let spec = Spec {
        window_dims: list_from(offset_dims),
        unit_dims: list_from(collapsed_slice_dims),
        start_map: list_from(start_index_map),
        index_vector_dim,
        slice_sizes: list_from(slice_sizes),
    };
    let job = Job {
        kind: Kind::Gather,
        element,
        views,
        spec,
    };
    checked_job(
        job,
        operand_strides.len(),
        index_strides.len(),
        dest_strides.len(),
    )
}

// A scatter from its parts.
#[tactic(auto, unfolding(crate::specs::Jobs::job_from))]
pub fn make_scatter_job(
    element: Element,
    index_extents: &[u64],
    index_strides: &[i64],
    index_offset: i64,
    update_extents: &[u64],
    update_strides: &[i64],
    update_offset: i64,
    dest_extents: &[u64],
    dest_strides: &[i64],
    dest_offset: i64,
    update_window_dims: &[u64],
    inserted_window_dims: &[u64],
    scatter_dims_to_operand_dims: &[u64],
    index_vector_dim: u64,
) -> MadeJob
    ensures { result ≡ job_from K.Scatter element index_extents.now index_strides.now index_offset update_extents.now update_strides.now update_offset dest_extents.now dest_strides.now dest_offset update_window_dims.now inserted_window_dims.now scatter_dims_to_operand_dims.now index_vector_dim [] }
{
    let views = Views {
        first: view_from(index_extents, index_strides, index_offset),
        second: view_from(update_extents, update_strides, update_offset),
        third: view_from(dest_extents, dest_strides, dest_offset),
    };
    let spec = Spec {
        window_dims: list_from(update_window_dims),
        unit_dims: list_from(inserted_window_dims),
        start_map: list_from(scatter_dims_to_operand_dims),
        index_vector_dim,
        slice_sizes: no_list(),
    };
    let job = Job {
        kind: Kind::Scatter,
        element,
        views,
        spec,
    };
    checked_job(
        job,
        index_strides.len(),
        update_strides.len(),
        dest_strides.len(),
    )
}
