//! The axes in the order of their strides.
ghost use Rattle.std.specs.Prelude.{◌≡◌, length};
ghost use Rattle.nd_base.specs.Signed.{all_signed};
ghost use Rattle.nd_dim.specs.StrideOrder.{IsStrideOrder};

use crate::stride_axes::magnitude_at;

/// Writes the numbers of the axes, that of the least stride first, whatever the signs; axes of
/// equal strides stand in their own order. ndarray's `_fastest_varying_stride_order`.
pub(crate) fn fill_stride_order(strides: &[usize], order: &mut [usize])
    requires { length strides.now ≡ length order.old }
    ensures { IsStrideOrder (all_signed strides.now) order.new }
{
    for (axis, position) in order.iter_mut().enumerate() {
        *position = axis;
    }
    order.sort_unstable_by_key(|axis| (magnitude_at(strides, *axis), *axis));
}
