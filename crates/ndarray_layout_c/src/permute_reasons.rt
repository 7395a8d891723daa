//! Why a list of axes is no order of the axes of a shape.
ghost use Rattle.std.specs.Prelude.{◌≡◌};
ghost use Rattle.ndarray_layout.specs.PermutedView.{permute_fault};
ghost use Rattle.ndarray_layout_c.specs.PermuteReasons.{is_listed, permute_reason};
ghost use Rattle.ndarray_layout_c.specs.Statuses.{ok, status_of};

use crate::reasons::{AXES, COUNT, MISSING, Reason, no_reason, of_axis, of_list};
use crate::statuses::{INCOMPATIBLE_SHAPE, OK};

/// Whether an axis is listed.
fn is_listed(axes: &[usize], axis: usize) -> bool
    ensures { result ≡ is_listed axes.now axis }
{
    axes.contains(&axis)
}

/// Why a list is no order of the axes of a shape.
fn permute_reason(shape: &[usize], axes: &[usize]) -> Reason
    ensures { result ≡ permute_reason shape.now axes.now }
{
    let ndim = shape.len();
    for axis in 0..ndim {
        if !is_listed(axes, axis) {
            return of_axis(INCOMPATIBLE_SHAPE, MISSING, axis, 0, axes.len(), ndim);
        }
    }
    if axes.len() != ndim {
        return of_list(INCOMPATIBLE_SHAPE, COUNT, AXES, 0, axes.len(), ndim);
    }
    no_reason()
}

/// Writes why a list is no order of the axes of a shape.
#[unsafe(no_mangle)]
pub extern "C" fn nd_permuted_axes_reason(
    shape: &[usize],
    axes: &[usize],
    reason: &mut Reason,
) -> i32
    ensures status { result ≡ ok }
    ensures reason { reason.new ≡ permute_reason shape.now axes.now }
    ensures agrees { reason.new.status ≡ status_of (permute_fault shape.now axes.now) }
{
    *reason = permute_reason(shape, axes);
    OK
}
