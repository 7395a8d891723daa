//! The places of a view in the order in which they lie, for what depends on no order.
ghost use Rattle.std.specs.List.{All};
ghost use Rattle.std.specs.List.Sorted.{IsPermutation};
ghost use Rattle.std.specs.Prelude.{◌≡◌, ◌-◌, ◌<◌, ◌≤◌, ◌++◌, IfSome, length, map, replicate, slice_index_or, zip};
ghost use Rattle.ndarray_layout.specs.declared.Order.TheVariants.{RowMajor};
ghost use Rattle.ndarray_layout.specs.Dim.{lengths};
ghost use Rattle.ndarray_layout.specs.Nearest.{pairs_of_places};
ghost use Rattle.ndarray_layout.specs.Rows.{rows_places};
ghost use Rattle.ndarray_layout.specs.View.{IsView, view_places};

use ndarray_layout::{CanIndexCheckMode, Ix6, Lengths, Order, Rows, Strided, new_ix6, signed};

/// How many axes a view has at most that is gone over in another order: so many as the greatest dimension type fixes. A copy
/// of it takes no memory then.
const AXES: usize = 6;

/// Whether row-major order goes through the data otherwise than forwards: whether a stride is negative, or greater than one
/// before it. Axes of length 1 don't count. Where an axis has the stride 0, as after a broadcast, row-major order is as good.
#[inline(always)]
fn goes_otherwise(lens: &[usize], strides: &[usize]) -> bool {
    let mut slower = isize::MAX;
    let mut otherwise = false;
    for (len, stride) in lens.iter().zip(strides) {
        if *len > 1 {
            let stride = signed(*stride);
            if stride == 0 {
                return false;
            }
            otherwise |= stride < 0 || stride > slower;
            slower = stride;
        }
    }
    otherwise
}

/// The number of an axis; the other one where it has none.
fn number_of(numbers: &[usize], axis: usize, other: usize) -> usize
    ensures { result ≡ slice_index_or numbers.now axis other }
{
    if axis < numbers.len() {
        return numbers[axis];
    }
    other
}

/// These numbers, and then the other one for each of six axes that has none.
fn six_axes(numbers: &[usize], other: usize) -> Ix6
    requires { length numbers.now ≤ AXES }
    ensures { lengths result ≡ numbers.now ++ replicate (AXES - length numbers.now) other }
{
    new_ix6(
        number_of(numbers, 0, other),
        number_of(numbers, 1, other),
        number_of(numbers, 2, other),
        number_of(numbers, 3, other),
        number_of(numbers, 4, other),
        number_of(numbers, 5, other),
    )
}

/// The view with axes of length 1 after its own, six in all; `None` where it has more.
fn with_six_axes<D: Lengths>(view: &Strided<D>) -> Option<Strided<Ix6>>
    ensures shape { IfSome result (λ six. six.shape
        ≡ view.now.shape ++ replicate (AXES - length view.now.shape) 1) }
    ensures places { IfSome result (λ six. view_places RowMajor six ≡ view_places RowMajor view.now) }
    ensures is_view { IfSome result (λ six. IsView six) }
{
    let (lens, strides) = (view.dim().slice(), view.strides().slice());
    if lens.len() > AXES {
        return None;
    }
    // (that each place has an item is known: here no length of the data is too short)
    let (elem_size, len) = (1, usize::MAX);
    let (dim, strides) = (six_axes(lens, 1), six_axes(strides, 0));
    Strided::from_parts(
        view.start(),
        dim,
        strides,
        elem_size,
        len,
        CanIndexCheckMode::ReadOnly,
    )
    .ok()
}

/// A view whose row-major order goes forwards through the places of this one; `None` where its own does, where none is known, or
/// where it has no more than `few` indices.
pub(crate) fn nearest_of_many<D: Lengths>(view: &Strided<D>, few: usize) -> Option<Strided<Ix6>>
    ensures { IfSome result (λ nearest.
        IsPermutation (view_places RowMajor nearest) (view_places RowMajor view.now)) }
{
    if view.len() <= few || !goes_otherwise(view.dim().slice(), view.strides().slice()) {
        return None;
    }
    Some(with_six_axes(view)?.nearest())
}

/// A view whose row-major order goes forwards through the places of this one; `None` where its own does, or none is known.
pub fn nearest_view<D: Lengths>(view: &Strided<D>) -> Option<Strided<Ix6>>
    ensures { IfSome result (λ nearest.
        IsPermutation (view_places RowMajor nearest) (view_places RowMajor view.now)) }
{
    nearest_of_many(view, 0)
}

/// The rows of the nearest view, or those of the view itself where there is none.
#[inline(always)]
pub fn nearest_rows<'a, D: Lengths>(
    view: &'a Strided<D>,
    nearest: &'a Option<Strided<Ix6>>,
) -> Rows<'a>
    requires { IfSome nearest.now (λ nearest.
        IsPermutation (view_places RowMajor nearest) (view_places RowMajor view.now)) }
    ensures places { IsPermutation (rows_places result) (view_places RowMajor view.now) }
    ensures some { All (λ row. 0 < row.len) result }
{
    match nearest {
        Some(nearest) => nearest.joined_rows(Order::RowMajor),
        None => view.joined_rows(Order::RowMajor),
    }
}

/// `nearest_view` of the first of two views of one shape, and the other one turned and sorted alike.
pub fn nearest_views<D: Lengths>(
    view: &Strided<D>,
    other: &Strided<D>,
) -> Option<(Strided<Ix6>, Strided<Ix6>)>
    requires { view.now.shape ≡ other.now.shape }
    ensures places { IfSome result (λ nearest.
        IsPermutation (pairs_of_places nearest.0 nearest.1) (pairs_of_places view.now other.now)) }
    ensures shape { IfSome result (λ nearest. nearest.0.shape ≡ nearest.1.shape) }
    ensures are_views { IfSome result (λ nearest. IsView nearest.0 × IsView nearest.1) }
{
    if !goes_otherwise(view.dim().slice(), view.strides().slice()) {
        return None;
    }
    Some(with_six_axes(view)?.nearest_with(with_six_axes(other)?))
}

/// `nearest_rows` of two views of one shape: rows that are alike.
#[inline(always)]
pub fn nearest_rows_with<'a, D: Lengths>(
    view: &'a Strided<D>,
    other: &'a Strided<D>,
    nearest: &'a Option<(Strided<Ix6>, Strided<Ix6>)>,
) -> (Rows<'a>, Rows<'a>)
    requires shape { view.now.shape ≡ other.now.shape }
    requires nearest { IfSome nearest.now (λ nearest. nearest.0.shape ≡ nearest.1.shape) }
    requires places { IfSome nearest.now (λ nearest.
        IsPermutation (pairs_of_places nearest.0 nearest.1) (pairs_of_places view.now other.now)) }
    ensures places { IsPermutation (zip (rows_places result.0) (rows_places result.1))
        (pairs_of_places view.now other.now) }
    ensures alike { map (λ row. row.len) result.0 ≡ map (λ row. row.len) result.1 }
    ensures some { All (λ row. 0 < row.len) result.0 }
{
    match nearest {
        Some((view, other)) => view.joined_rows_with(other, Order::RowMajor),
        None => view.joined_rows_with(other, Order::RowMajor),
    }
}
