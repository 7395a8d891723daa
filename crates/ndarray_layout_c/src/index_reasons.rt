//! Why a list is no index of a shape.
ghost use Rattle.std.specs.Prelude.{◌≡◌, ◌<◌, length};
ghost use Rattle.ndarray_layout_c.specs.IndexFault.{index_fault};
ghost use Rattle.ndarray_layout_c.specs.IndexReasons.{index_reason, is_outside};
ghost use Rattle.ndarray_layout_c.specs.Statuses.{ok, status_of};

use crate::reasons::{COORDINATE, COORDINATES, COUNT, Reason, no_reason, of_axis, of_list};
use crate::statuses::{OK, OUT_OF_BOUNDS};

/// Whether the coordinate of an axis is none of it.
fn is_outside(shape: &[usize], index: &[usize], axis: usize) -> bool
    requires axis { axis < length shape.now }
    requires same_count { length index.now ≡ length shape.now }
    ensures { result ≡ is_outside shape.now index.now axis }
{
    shape[axis] <= index[axis]
}

/// Why a list is no index of a shape.
fn index_reason(shape: &[usize], index: &[usize]) -> Reason
    ensures { result ≡ index_reason shape.now index.now }
{
    if index.len() != shape.len() {
        let (count, ndim) = (index.len(), shape.len());
        return of_list(OUT_OF_BOUNDS, COUNT, COORDINATES, 0, count, ndim);
    }
    for axis in 0..shape.len() {
        if is_outside(shape, index, axis) {
            return of_axis(OUT_OF_BOUNDS, COORDINATE, axis, 0, index[axis], shape[axis]);
        }
    }
    no_reason()
}

/// Writes why a list is no index of a shape.
#[unsafe(no_mangle)]
pub extern "C" fn nd_index_reason(shape: &[usize], index: &[usize], reason: &mut Reason) -> i32
    ensures status { result ≡ ok }
    ensures reason { reason.new ≡ index_reason shape.now index.now }
    ensures agrees { reason.new.status ≡ status_of (index_fault shape.now index.now) }
{
    *reason = index_reason(shape, index);
    OK
}
