//! The axes of least and of greatest stride.
ghost use Rattle.std.specs.Prelude.{◌≡◌, ℕ, ◌<◌, ◌≤◌, length};
ghost use Rattle.nd_base.specs.Signed.{all_signed};
ghost use Rattle.nd_dim.specs.StrideOrder.{magnitude_at as magnitude_at_axis, IsLeastStrideAxis, IsGreatestStrideAxis};

use nd_base::signed;

/// The magnitude of the stride of an axis, in elements; 0 past the last axis.
///
/// Axis 0 of the strides `[-3,1]`: 3. The project's own.
#[inline]
pub fn magnitude_at(strides: &[usize], axis: usize) -> usize
    ensures { result ≡ magnitude_at_axis (all_signed strides.now) axis }
{
    strides
        .get(axis)
        .map_or(0, |stride| signed(*stride).unsigned_abs())
}

/// The axis whose stride is of least magnitude, and the last of these where several are.
#[inline(always)]
fn least_of_all(strides: &[usize]) -> usize
    requires { 0 < length strides.now }
    ensures exists { result < length strides.now }
    ensures leading { (other : ℕ) → other < length strides.now →
        magnitude_at_axis (all_signed strides.now) result
        ≤ magnitude_at_axis (all_signed strides.now) other }
    ensures of_equals { (other : ℕ) → other < length strides.now →
        magnitude_at_axis (all_signed strides.now) result
        ≡ magnitude_at_axis (all_signed strides.now) other
        → other ≤ result }
{
    let mut least = 0;
    let mut shortest = magnitude_at(strides, 0);
    for axis in 0..strides.len() {
        let magnitude = magnitude_at(strides, axis);
        if magnitude <= shortest {
            least = axis;
            shortest = magnitude;
        }
    }
    least
}

/// The same among the axes of length greater than 1; the last axis where there is none. It stays a call, which is seldom made.
#[inline(never)]
fn least_of_long(lens: &[usize], strides: &[usize]) -> usize
    requires some_axis { 0 < length lens.now }
    requires same_count { length lens.now ≡ length strides.now }
    ensures { IsLeastStrideAxis lens.now (all_signed strides.now) result }
{
    let mut least = lens.len() - 1;
    for (axis, len) in lens.iter().enumerate() {
        if *len > 1
            && (lens[least] <= 1 || magnitude_at(strides, axis) <= magnitude_at(strides, least))
        {
            least = axis;
        }
    }
    least
}

/// The axis whose stride is of least magnitude among those of length greater than 1, and the last
/// of these where several are; the last axis where there is none. ndarray's
/// `min_stride_axis`.
#[inline(always)]
pub(crate) fn min_stride_axis(lens: &[usize], strides: &[usize]) -> usize
    requires some_axis { 0 < length lens.now }
    requires same_count { length lens.now ≡ length strides.now }
    ensures { IsLeastStrideAxis lens.now (all_signed strides.now) result }
{
    // (where the axis of the least stride of all has a length greater than 1, no other length matters)
    let least = least_of_all(strides);
    if lens[least] > 1 {
        least
    } else {
        least_of_long(lens, strides)
    }
}

/// The axis whose stride is of greatest magnitude among those of length greater than 1, and the
/// last of these where several are; the first axis where there is none. ndarray's
/// `max_stride_axis`.
pub(crate) fn max_stride_axis(lens: &[usize], strides: &[usize]) -> usize
    requires some_axis { 0 < length lens.now }
    requires same_count { length lens.now ≡ length strides.now }
    ensures { IsGreatestStrideAxis lens.now (all_signed strides.now) result }
{
    let mut greatest = 0;
    for (axis, len) in lens.iter().enumerate() {
        if *len > 1
            && (lens[greatest] <= 1
                || magnitude_at(strides, greatest) <= magnitude_at(strides, axis))
        {
            greatest = axis;
        }
    }
    greatest
}
