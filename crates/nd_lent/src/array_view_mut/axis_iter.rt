//! The parts at the coordinates of an axis one after another, each a part of its own.
ghost use Rattle.std.specs.Prelude.{◌≡◌, IfOk};
ghost use Rattle.std.specs.Result.{result_err};
ghost use Rattle.ndarray_layout.specs.InvertedView.{invert_fault};
ghost use Rattle.nd_lent.specs.AlongAxis.{arrays_along};
ghost use Rattle.nd_lent.specs.Lent.{access_of, array_of};

use crate::array_view_mut::ArrayViewMut;
use crate::array_view_mut::parts::Parts;
use crate::views::along_axis::AlongAxis;
use crate::views::numbered::Numbered;
use ndarray_layout::{Axis, RemoveAxis, ShapeError};

/// The parts at the coordinates of an axis that are still to come, without the axis. ndarray's `AxisIterMut`.
pub type AxisIterMut<'a, T, D> = Parts<'a, T, Numbered<AlongAxis<D>>>;

impl<'a, T: Drop, D: RemoveAxis> ArrayViewMut<'a, T, D> {
    /// An iterator over the parts at the coordinates of an axis, without the axis, from both ends, each a part of its own: several
    /// may be used at once, and in threads, whatever the strides are. It ends this part.
    ///
    /// # Errors
    ///
    /// `OutOfBounds` where there is no such axis. The part is gone then.
    ///
    /// Takes no memory. A part takes the time of `Strided::index_axis`.
    ///
    /// Axis 1 of `[2,2]` over 5 6 7 8: the columns 5 7 and 6 8. ndarray's `axis_iter_mut`.
    pub fn into_axis_parts(self, axis: Axis) -> Result<AxisIterMut<'a, T, D>, ShapeError>
        ensures fault { result_err result ≡ invert_fault (array_of self.entry).view.shape axis.0 }
        ensures parts { IfOk result (λ left. left.arrays ≡ arrays_along axis.0 (array_of self.entry)) }
        ensures keeps_access { IfOk result (λ left. left.access ≡ access_of self.entry) }
    {
        let ArrayViewMut { cells, view } = self;
        let views = Numbered::along(view, axis)?;
        Ok(Parts { cells, views })
    }
}
