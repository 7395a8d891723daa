//! Why two shapes have none in common, and why a layout of a shape can't be read as one of another.
ghost use Rattle.std.specs.Prelude.{◌≡◌, ◌<◌, ◌≤◌, length};
ghost use Rattle.ndarray_layout.specs.BroadcastView.{broadcast_fault};
ghost use Rattle.ndarray_layout.specs.CommonShape.{common_shape_fault};
ghost use Rattle.ndarray_layout_c.specs.BroadcastReasons.{broadcast_reason, co_broadcast_reason, is_apart, is_fixed, padded_length};
ghost use Rattle.ndarray_layout_c.specs.Statuses.{ok, status_of};

use crate::reasons::{COMMON, COUNT, Reason, SIZE, STRETCH, TARGET, no_reason, of_axis, of_list};
use crate::sizes::times_lengths;
use crate::statuses::{INCOMPATIBLE_SHAPE, OK, OVERFLOW};

/// The length of an axis of a shape, padded with lengths of 1 in front up to so many axes.
fn padded_length(count: usize, shape: &[usize], axis: usize) -> usize
    requires fewer { length shape.now ≤ count }
    requires axis { axis < count }
    ensures { result ≡ padded_length count shape.now axis }
{
    let ones = count - shape.len();
    if axis < ones { 1 } else { shape[axis - ones] }
}

/// Whether the lengths that two shapes have at an axis, of so many, have none in common.
fn is_apart(count: usize, first: &[usize], second: &[usize], axis: usize) -> bool
    requires first { length first.now ≤ count }
    requires second { length second.now ≤ count }
    requires axis { axis < count }
    ensures { result ≡ is_apart count first.now second.now axis }
{
    let one = padded_length(count, first, axis);
    let other = padded_length(count, second, axis);
    one != other && one != 1 && other != 1
}

/// Why two shapes have none in common.
fn co_broadcast_reason(first: &[usize], second: &[usize]) -> Reason
    ensures { result ≡ co_broadcast_reason first.now second.now }
{
    let count = first.len().max(second.len());
    for axis in 0..count {
        if is_apart(count, first, second, axis) {
            let one = padded_length(count, first, axis);
            let other = padded_length(count, second, axis);
            return of_axis(INCOMPATIBLE_SHAPE, COMMON, axis, 0, one, other);
        }
    }
    no_reason()
}

/// Writes why two shapes have none in common.
#[unsafe(no_mangle)]
pub extern "C" fn nd_co_broadcast_reason(
    first: &[usize],
    second: &[usize],
    reason: &mut Reason,
) -> i32
    ensures status { result ≡ ok }
    ensures reason { reason.new ≡ co_broadcast_reason first.now second.now }
    ensures agrees { reason.new.status ≡ status_of (common_shape_fault first.now second.now) }
{
    *reason = co_broadcast_reason(first, second);
    OK
}

/// Whether the length that a shape has at an axis of another one is neither 1 nor that of the other.
fn is_fixed(shape: &[usize], target: &[usize], axis: usize) -> bool
    requires fewer { length shape.now ≤ length target.now }
    requires axis { axis < length target.now }
    ensures { result ≡ is_fixed shape.now target.now axis }
{
    let len = padded_length(target.len(), shape, axis);
    len != 1 && len != target[axis]
}

/// Why a layout of a shape can't be read as one of another.
fn broadcast_reason(shape: &[usize], target: &[usize]) -> Reason
    ensures { result ≡ broadcast_reason shape.now target.now }
{
    let count = target.len();
    if count < shape.len() {
        return of_list(INCOMPATIBLE_SHAPE, COUNT, TARGET, 0, count, shape.len());
    }
    for axis in 0..count {
        if is_fixed(shape, target, axis) {
            let len = padded_length(count, shape, axis);
            return of_axis(INCOMPATIBLE_SHAPE, STRETCH, axis, 0, len, target[axis]);
        }
    }
    if times_lengths(1, target).is_none() {
        return of_axis(OVERFLOW, SIZE, 0, 0, 0, 0);
    }
    no_reason()
}

/// Writes why a layout of a shape can't be read as one of another.
#[unsafe(no_mangle)]
pub extern "C" fn nd_broadcast_reason(shape: &[usize], target: &[usize], reason: &mut Reason) -> i32
    ensures status { result ≡ ok }
    ensures reason { reason.new ≡ broadcast_reason shape.now target.now }
    ensures agrees { reason.new.status ≡ status_of (broadcast_fault target.now shape.now) }
{
    *reason = broadcast_reason(shape, target);
    OK
}
