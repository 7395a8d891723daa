//! The arrays at the coordinates of an axis one after another, each lent for as long as the data is.
ghost use Rattle.std.specs.Prelude.{◌≡◌, IfOk};
ghost use Rattle.std.specs.Result.{result_err};
ghost use Rattle.ndarray_layout.specs.InvertedView.{invert_fault};
ghost use Rattle.nd_lent.specs.AlongAxis.{arrays_along};

use crate::array_view::ArrayView;
use crate::array_view::arrays::Arrays;
use crate::views::along_axis::AlongAxis;
use crate::views::numbered::Numbered;
use ndarray_layout::{Axis, RemoveAxis, ShapeError};

/// The arrays at the coordinates of an axis that are still to come, without the axis. ndarray's `AxisIter`.
pub type AxisIter<'a, T, D> = Arrays<'a, T, Numbered<AlongAxis<D>>>;

impl<'a, T, D: RemoveAxis> ArrayView<'a, T, D> {
    /// An iterator over the arrays at the coordinates of an axis, without the axis, from both ends, each lent for as long as the data
    /// is. It ends the array.
    ///
    /// # Errors
    ///
    /// `OutOfBounds` where there is no such axis.
    ///
    /// Takes no memory. An array takes the time of `Strided::index_axis`.
    ///
    /// Axis 1 of `[2,2]` over 5 6 7 8: the columns 5 7 and 6 8. ndarray's `axis_iter`.
    pub fn into_axis_iter(self, axis: Axis) -> Result<AxisIter<'a, T, D>, ShapeError>
        ensures fault { result_err result ≡ invert_fault self.entry.view.shape axis.0 }
        ensures arrays { IfOk result (λ left. left ≡ arrays_along axis.0 self.entry) }
    {
        let ArrayView { reader, view } = self;
        let views = Numbered::along(view, axis)?;
        Ok(Arrays { reader, views })
    }
}
