//! Where the indices of a shape lie from its first index.
ghost use Rattle.std.specs.Int.{w64};
ghost use Rattle.std.specs.Int.RustNames.{FitsSigned};
ghost use Rattle.std.specs.Prelude.{◌≡◌, ◌≤◌, pos, ◌+ℤ◌, ◌*ℤ◌};
ghost use Rattle.std.specs.List.{All};
ghost use Rattle.nd_base.specs.Offset.{offset_of, checked_offset};
ghost use Rattle.nd_base.specs.FarthestOffset.{farthest_offset};
ghost use Rattle.nd_base.specs.Signed.{signed, all_signed};
ghost use Rattle.nd_base.specs.Size.{limit};
ghost use Rattle.nd_base.specs.ValidLayout.{IsValidLayout};

use crate::signed_strides::stride_offset;

/// An offset, moved from coordinate 0 of an axis to another one.
#[inline(always)]
fn offset_along(offset: isize, coordinate: usize, stride: usize) -> isize
    requires small { coordinate ≤ limit }
    requires part { FitsSigned w64 (pos coordinate *ℤ signed stride) }
    requires whole { FitsSigned w64 (offset +ℤ (pos coordinate *ℤ signed stride)) }
    ensures { result ≡ offset +ℤ (pos coordinate *ℤ signed stride) }
{
    offset + stride_offset(coordinate, stride)
}

/// The sum of each coordinate times its stride, in elements.
///
/// The caller ensures that no coordinate is greater than `isize::MAX`, and that the coordinates
/// times the magnitudes of their strides add up to at most that, as of an index of a valid layout
/// (`is_index`).
///
/// Takes time in proportion to the count of axes.
///
/// (1,2) along the strides `[3,1]`: 5. The project's own.
#[inline(always)]
pub fn index_offset(index: &[usize], strides: &[usize]) -> isize
    requires small { All (λ coordinate. coordinate ≤ limit) index.now }
    requires fits { farthest_offset (all_signed strides.now) index.now ≤ limit }
    ensures { result ≡ offset_of (all_signed strides.now) index.now }
{
    // (by number, since a `zip` asks both lists for their end at each coordinate)
    let axes = index.len().min(strides.len());
    let mut offset = 0isize;
    for axis in 0..axes {
        offset = offset_along(offset, index[axis], strides[axis]);
    }
    offset
}

/// The offset in elements, with its sign, from the first index of the shape `dim` to this one;
/// `None` where this is no index of the shape.
///
/// The caller ensures that the layout is valid: one stride for each axis, and neither the product
/// of the lengths that are not 0 nor the span is greater than `isize::MAX`.
///
/// Takes time in proportion to the count of axes.
///
/// (1,2) of `[2,3]` with the strides `[-3,1]`: -1. ndarray's `stride_offset_checked`.
#[inline(always)]
pub fn stride_offset_checked(dim: &[usize], strides: &[usize], index: &[usize]) -> Option<isize>
    requires { IsValidLayout dim.now (all_signed strides.now) }
    ensures { result ≡ checked_offset dim.now (all_signed strides.now) index.now }
{
    if dim.len() != index.len() {
        return None;
    }
    // (there are as many strides, which is said so that none is asked whether it is there)
    let axes = dim.len().min(strides.len());
    let mut offset = 0isize;
    for axis in 0..axes {
        if index[axis] >= dim[axis] {
            return None;
        }
        offset = offset_along(offset, index[axis], strides[axis]);
    }
    Some(offset)
}
