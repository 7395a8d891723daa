//! The axes of a layout one by one.
ghost use Rattle.std.specs.Prelude.{◌≡◌, length};
ghost use Rattle.std.specs.Iterator.{YieldsFirst, YieldsLast};
ghost use Rattle.std.specs.Iterator.Runs.{YieldsInOrder, YieldsInReverse};
ghost use Rattle.nd_base.specs.Signed.{all_signed};
ghost use Rattle.nd_shape.specs.Axes.{axes, axes_left};

pub use crate::axes_iter::{Axes, AxisDescription};
use nd_base::Lengths;

/// Iterator over the axes of a layout with their lengths and strides, from the first axis or from
/// the last.
///
/// `dim` has the lengths and `strides` the strides in elements. The caller ensures that there are
/// as many strides as axes.
///
/// `[2,3]` with the strides `[3,1]`: 2 and 3 of axis 0, 3 and 1 of axis 1. ndarray's `axes_of`.
pub fn axes_of<'a, D: Lengths>(dim: &'a D, strides: &'a D) -> Axes<'a>
    requires { length (D.list dim.now) ≡ length (D.list strides.now) }
    ensures list { axes_left result ≡ axes (D.list dim.now) (all_signed (D.list strides.now)) }
    ensures in_order { YieldsInOrder (YieldsFirst axes_left) axes_left }
    ensures in_reverse { YieldsInReverse (YieldsLast axes_left) axes_left }
{
    Axes::new(dim.slice(), strides.slice())
}
