//! Which slice arguments fit a shape.
ghost use Rattle.std.specs.Prelude.{◌≡◌};
ghost use Rattle.std.specs.Result.{result_err};
ghost use Rattle.nd_slice.specs.SliceFault.{argument_fault, in_count, out_count};

use crate::axis_elems::AxisElems;
use crate::elem::SliceInfoElem;
use crate::elems::SliceElems;
use crate::fit::Fit;
use crate::picks::resolve_elem;
use nd_base::{ErrorKind, Lengths, ShapeError, from_kind};

/// The number of axes of the shapes that a slice argument is for: one for each element but a new
/// axis.
///
/// Takes time in proportion to the slices and indices of the argument.
///
/// `..,2,NewAxis`: 2. ndarray's `SliceArg::in_ndim` of a bare list.
#[inline]
pub fn in_ndim_of(list: &[SliceInfoElem]) -> usize
    ensures { result ≡ in_count list.now }
{
    // (a loop that adds 0 or 1 has no branch, and unrolls where the count of elements is known)
    let mut count = 0;
    for elem in list {
        count += usize::from(!matches!(elem, SliceInfoElem::NewAxis));
    }
    count
}

/// The number of axes that a slice argument leaves: one for each element but an index.
///
/// Takes time in proportion to the slices and indices of the argument.
///
/// `..,2,NewAxis`: 2. ndarray's `SliceArg::out_ndim` of a bare list.
#[inline]
pub fn out_ndim_of(list: &[SliceInfoElem]) -> usize
    ensures { result ≡ out_count list.now }
{
    let mut count = 0;
    for elem in list {
        count += usize::from(!matches!(elem, SliceInfoElem::Index(_)));
    }
    count
}

/// Returns `Ok` if and only if the elements of a slice argument fit a shape.
///
/// `shape` has one length for each axis; each element but a new axis is for the next axis.
///
/// # Errors
///
/// `IncompatibleShape` where the elements are for more axes than the shape has, or for fewer.
/// Otherwise the error of the first element that doesn't fit: `OutOfBounds` for an index that is no
/// coordinate of its axis, or for a bound that means no number from 0 to the length (never with
/// `Fit::Clamp`); then `Unsupported` for the step 0.
///
/// Takes time in proportion to the slices and indices of the argument.
///
/// `1..,5` on `[2,3]`: `OutOfBounds`. In place of the panics of ndarray's `slice_collapse`.
pub fn check_elems(shape: &[usize], elems: &[SliceInfoElem], fit: Fit) -> Result<(), ShapeError>
    ensures { result_err result ≡ argument_fault fit shape.now elems.now }
{
    if in_ndim_of(elems) != shape.len() {
        return Err(from_kind(ErrorKind::IncompatibleShape));
    }
    for (len, elem) in AxisElems::new(shape, elems) {
        resolve_elem(len, elem, fit)?;
    }
    Ok(())
}

/// Returns `Ok` if and only if a slice argument fits a shape, whatever types hold the two.
///
/// # Errors
///
/// Those of `check_elems`, in its order.
///
/// Takes time in proportion to the slices and indices of the argument.
///
/// `..;0,7` on `[2,3]`: `Unsupported`. In place of the panics of ndarray's `slice_move`.
#[inline]
pub fn check_slice<D: Lengths, S: SliceElems>(
    dim: &D,
    slices: &S,
    fit: Fit,
) -> Result<(), ShapeError>
    ensures { result_err result ≡ argument_fault fit (D.list dim.now) (S.list slices.now) }
{
    check_elems(dim.slice(), slices.elems(), fit)
}
