// Scatter with an operand of its own: compile's checks in the request's order, over lent extents and strides. What comes from 4 on is
// the scatter's without an operand.
#![tactic(auto)]

ghost use Rattle.std.specs.Prelude.{◌≡◌, length};
ghost use Rattle.layout.specs.Answers.{or_else};
ghost use Rattle.layout.specs.Spans.{total_of, spanned};
ghost use Rattle.checks.specs.Checks.{view_from, nested_refusal, total_fits, span_fits};
ghost use Rattle.scatter_checks.specs.Refusals.{scatter_from};
ghost use Rattle.operand_checks.specs.Refusals.{layouts_refusal, extents_refusal, numbers_refusal, sizes_refusal, compile_refusal};
ghost use Rattle.operand_checks.specs.Examine.{ExaminesOn};

use layout::Refusal;
use scatter_checks::Examined;

// 1 for the four views, operand first, then 2: the counts of extents and of strides.
fn check_layouts(
    oe: usize,
    os: usize,
    ie: usize,
    is: usize,
    ue: usize,
    us: usize,
    de: usize,
    ds: usize,
) -> Result<(), Refusal>
    ensures { result ≡ layouts_refusal oe os ie is ue us de ds }
{
    layout::check_stride_length(oe, os)?;
    layout::check_stride_length(ie, is)?;
    layout::check_stride_length(ue, us)?;
    layout::check_stride_length(de, ds)?;
    layout::check_rank(oe)?;
    layout::check_rank(ie)?;
    layout::check_rank(ue)?;
    layout::check_rank(de)
}

// 7 where the destination's extents are not the operand's.
fn check_extents(dest: &[u64], operand: &[u64]) -> Result<(), Refusal>
    ensures { result ≡ extents_refusal dest.now operand.now }
{
    if dest == operand {
        Ok(())
    } else {
        Err(Refusal::ShapeMismatch(dest.len() as u64, operand.len() as u64))
    }
}

// 3 for the products, 7, then 3 for the destination's span and for the operand's.
fn check_numbers(
    operand: &[u64],
    operand_strides: &[i64],
    index: &[u64],
    updates: &[u64],
    dest: &[u64],
    dest_strides: &[i64],
) -> Result<(), Refusal>
    requires { (length operand_strides.now ≡ length operand.now) × (length dest_strides.now ≡ length dest.now) }
    ensures { result ≡ numbers_refusal operand.now operand_strides.now index.now updates.now dest.now dest_strides.now }
{
    checks::check_total(operand)?;
    checks::check_total(index)?;
    checks::check_total(updates)?;
    check_extents(dest, operand)?;
    checks::check_span(dest, dest_strides)?;
    checks::check_span(operand, operand_strides)
}

// What is asked before 4.
#[tactic(auto, unfolding(crate::specs::Refusals::sizes_refusal))]
pub fn check_sizes(
    oe: &[u64],
    os: &[i64],
    ie: &[u64],
    is: &[i64],
    ue: &[u64],
    us: &[i64],
    de: &[u64],
    ds: &[i64],
) -> Result<(), Refusal>
    ensures { result ≡ sizes_refusal oe.now os.now ie.now is.now ue.now us.now de.now ds.now }
{
    check_layouts(
        oe.len(),
        os.len(),
        ie.len(),
        is.len(),
        ue.len(),
        us.len(),
        de.len(),
        ds.len(),
    )?;
    check_numbers(oe, os, ie, ue, de, ds)
}

// The first refusal of a scatter with an operand in the request's order, or Done, with its two walks.
pub fn examine(
    operand_extents: &[u64],
    operand_strides: &[i64],
    index_extents: &[u64],
    index_strides: &[i64],
    updates_extents: &[u64],
    updates_strides: &[i64],
    dest_extents: &[u64],
    dest_strides: &[i64],
    update_window_dims: &[u64],
    inserted_window_dims: &[u64],
    scatter_dims_to_operand_dims: &[u64],
    index_vector_dim: u64,
) -> Examined
    ensures { ExaminesOn result (nested_refusal dest_extents.now dest_strides.now) (view_from operand_extents.now operand_strides.now) (scatter_from index_extents.now index_strides.now updates_extents.now updates_strides.now dest_extents.now dest_strides.now update_window_dims.now inserted_window_dims.now scatter_dims_to_operand_dims.now index_vector_dim) }
{
    let sizes = check_sizes(
        operand_extents,
        operand_strides,
        index_extents,
        index_strides,
        updates_extents,
        updates_strides,
        dest_extents,
        dest_strides,
    );
    if let Err(refusal) = sizes {
        return scatter_checks::unexamined(Err(refusal));
    }
    let four = checks::check_nested(dest_extents, dest_strides);
    scatter_checks::examine_from(
        index_extents,
        index_strides,
        updates_extents,
        updates_strides,
        dest_extents,
        dest_strides,
        update_window_dims,
        inserted_window_dims,
        scatter_dims_to_operand_dims,
        index_vector_dim,
        four,
    )
}

// The first refusal of a scatter with an operand in the request's order, or Done.
pub fn operand_refusal(
    operand_extents: &[u64],
    operand_strides: &[i64],
    index_extents: &[u64],
    index_strides: &[i64],
    updates_extents: &[u64],
    updates_strides: &[i64],
    dest_extents: &[u64],
    dest_strides: &[i64],
    update_window_dims: &[u64],
    inserted_window_dims: &[u64],
    scatter_dims_to_operand_dims: &[u64],
    index_vector_dim: u64,
) -> Result<(), Refusal>
    ensures { result ≡ compile_refusal (view_from operand_extents.now operand_strides.now) (scatter_from index_extents.now index_strides.now updates_extents.now updates_strides.now dest_extents.now dest_strides.now update_window_dims.now inserted_window_dims.now scatter_dims_to_operand_dims.now index_vector_dim) }
{
    let found = examine(
        operand_extents,
        operand_strides,
        index_extents,
        index_strides,
        updates_extents,
        updates_strides,
        dest_extents,
        dest_strides,
        update_window_dims,
        inserted_window_dims,
        scatter_dims_to_operand_dims,
        index_vector_dim,
    );
    found.answer
}
