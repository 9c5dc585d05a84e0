// The checks that gather's compile and scatter's share. Each answers Ok or its refusal; `or_else` takes the first that refuses.
#![tactic(auto)]

ghost use Rattle.std.specs.Prelude.{◌≡◌, ◌+◌, length};
ghost use Rattle.layout.specs.Answers.{or_else};
ghost use Rattle.layout.specs.Spans.{total_of, spanned};
ghost use Rattle.checks.specs.Checks.{layouts_refusal, total_fits, span_fits, nested_refusal, same_count, vector_axis, components_of, windows_fit};

use layout::Refusal;

// The first of two answers that refuses.
pub fn or_else(a: Result<(), Refusal>, b: Result<(), Refusal>) -> Result<(), Refusal>
    ensures { result ≡ or_else a b }
{
    if layout::is_done(a) { b } else { a }
}

// 1 for three views, then 2: the counts of extents and of strides.
pub fn check_layouts(
    first_extents: usize,
    first_strides: usize,
    second_extents: usize,
    second_strides: usize,
    third_extents: usize,
    third_strides: usize,
) -> Result<(), Refusal>
    ensures { result ≡ layouts_refusal first_extents first_strides second_extents second_strides third_extents third_strides }
{
    layout::check_stride_length(first_extents, first_strides)?;
    layout::check_stride_length(second_extents, second_strides)?;
    layout::check_stride_length(third_extents, third_strides)?;
    layout::check_rank(first_extents)?;
    layout::check_rank(second_extents)?;
    layout::check_rank(third_extents)
}

// 3 where the product of the extents does not fit.
pub fn check_total(extents: &[u64]) -> Result<(), Refusal>
    ensures { result ≡ total_fits (total_of extents.now) }
{
    match spans::checked_total_len(extents) {
        Some(_) => Ok(()),
        None => Err(Refusal::OffsetOverflow),
    }
}

// 3 where the span does not fit.
pub fn check_span(extents: &[u64], strides: &[i64]) -> Result<(), Refusal>
    requires { length strides.now ≡ length extents.now }
    ensures { result ≡ span_fits (spanned extents.now strides.now) }
{
    match spans::validate_layout_span(extents, strides) {
        Some(_) => Ok(()),
        None => Err(Refusal::OffsetOverflow),
    }
}

// 4 where the axes are not nested.
pub fn check_nested(extents: &[u64], strides: &[i64]) -> Result<(), Refusal>
    requires { length strides.now ≡ length extents.now }
    ensures { result ≡ nested_refusal extents.now strides.now }
{
    if spans::nested_in(extents, strides) {
        Ok(())
    } else {
        Err(Refusal::NonInjectiveOutputLayout)
    }
}

// 5 where two counts differ.
pub fn check_same_count(a: u64, b: u64) -> Result<(), Refusal>
    ensures { result ≡ same_count a b }
{
    if a == b {
        Ok(())
    } else {
        Err(Refusal::RankMismatch(a, b))
    }
}

// 6 where the vector axis is above the index rank.
pub fn check_vector_axis(vector: u64, rank: usize) -> Result<(), Refusal>
    ensures { result ≡ vector_axis vector rank }
{
    let n = rank as u64;
    if vector <= n {
        Ok(())
    } else {
        Err(Refusal::InvalidAxis(vector, n + 1))
    }
}

// How many components a start has, by the index view's extents.
pub fn component_count(extents: &[u64], vector: u64) -> u64
    ensures { result ≡ components_of extents.now vector }
{
    if vector == extents.len() as u64 {
        1
    } else {
        axis_lists::entry_at(extents, vector)
    }
}

// 6 for the first window above its extent.
pub fn check_windows(windows: &[u64], extents: &[u64]) -> Result<(), Refusal>
    ensures { result ≡ windows_fit 0 extents.now windows.now }
{
    for i in 0..windows.len().min(extents.len()) {
        if windows[i] > extents[i] {
            return Err(Refusal::InvalidAxis(i as u64, extents.len() as u64));
        }
    }
    Ok(())
}
