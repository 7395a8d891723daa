//! Why a shape can't be split at a coordinate of an axis, and why an axis can't be merged into another one.
ghost use Rattle.std.specs.Prelude.{◌≡◌};
ghost use Rattle.ndarray_layout.specs.MergedView.{axes_fault};
ghost use Rattle.ndarray_layout.specs.SplitView.{split_fault};
ghost use Rattle.ndarray_layout_c.specs.AxisReasons.{axes_reason, no_axis, split_reason};
ghost use Rattle.ndarray_layout_c.specs.Statuses.{ok, status_of};

use crate::reasons::{AXIS, Reason, SAME_AXIS, SPLIT, no_reason, of_axis};
use crate::statuses::{OK, OUT_OF_BOUNDS, UNSUPPORTED};

/// There is no such axis.
fn no_axis(shape: &[usize], axis: usize) -> Reason
    ensures { result ≡ no_axis shape.now axis }
{
    of_axis(OUT_OF_BOUNDS, AXIS, axis, 0, shape.len(), 0)
}

/// Why a shape can't be split at a coordinate of an axis.
fn split_reason(shape: &[usize], axis: usize, index: usize) -> Reason
    ensures { result ≡ split_reason shape.now axis index }
{
    if axis >= shape.len() {
        return no_axis(shape, axis);
    }
    if index > shape[axis] {
        return of_axis(OUT_OF_BOUNDS, SPLIT, axis, 0, shape[axis], index);
    }
    no_reason()
}

/// Writes why a shape can't be split at a coordinate of an axis.
#[unsafe(no_mangle)]
pub extern "C" fn nd_split_at_reason(
    shape: &[usize],
    axis: usize,
    index: usize,
    reason: &mut Reason,
) -> i32
    ensures status { result ≡ ok }
    ensures reason { reason.new ≡ split_reason shape.now axis index }
    ensures agrees { reason.new.status ≡ status_of (split_fault shape.now axis index) }
{
    *reason = split_reason(shape, axis, index);
    OK
}

/// Why an axis can't be merged into another one.
fn axes_reason(shape: &[usize], take: usize, into: usize) -> Reason
    ensures { result ≡ axes_reason shape.now take into }
{
    if take >= shape.len() {
        return no_axis(shape, take);
    }
    if into >= shape.len() {
        return no_axis(shape, into);
    }
    if take == into {
        return of_axis(UNSUPPORTED, SAME_AXIS, take, 0, 0, 0);
    }
    no_reason()
}

/// Writes why an axis can't be merged into another one.
#[unsafe(no_mangle)]
pub extern "C" fn nd_merge_axes_reason(
    shape: &[usize],
    take: usize,
    into: usize,
    reason: &mut Reason,
) -> i32
    ensures status { result ≡ ok }
    ensures reason { reason.new ≡ axes_reason shape.now take into }
    ensures agrees { reason.new.status ≡ status_of (axes_fault shape.now take into) }
{
    *reason = axes_reason(shape, take, into);
    OK
}
