//! The views at the coordinates of an axis, without the axis.
ghost use Rattle.std.specs.Prelude.{◌≡◌, ◌<◌, IfOk, length};
ghost use Rattle.std.specs.Result.{result_err};
ghost use Rattle.ndarray_layout.specs.InvertedView.{invert_fault};
ghost use Rattle.nd_lent.specs.AlongAxis.{views_along};

use crate::views::numbered::{ByNumber, Numbered};
use ndarray_layout::{
    Axis, ErrorKind, RemoveAxis, ShapeError, Strided, axis_of, from_kind, has_axis,
};
use std::alloc::{AllocError, Global};

/// The view at each coordinate of an axis.
#[derive(Drop)]
pub struct AlongAxis<D: RemoveAxis> {
    pub(crate) view: Strided<D>,
    pub(crate) axis: Axis,
}

impl<D: RemoveAxis> ByNumber for AlongAxis<D> {
    ghost use Rattle.std.specs.Prelude.{slice_index};
    ghost use Rattle.ndarray_layout.specs.IndexedView.{indexed_of};

    type Dim = D::Smaller;

    ghost count = { λ views. slice_index views.view.shape views.axis.0 };

    ghost at = { λ views number. indexed_of views.axis.0 number views.view };

    #[inline]
    fn view_at(&self, alloc: Global, number: usize) -> Result<Strided<D::Smaller>, AllocError> {
        match self.view.index_axis(alloc, self.axis, number) {
            Ok(view) => Ok(view),
            // (the axis has the coordinate, so an allocation has failed)
            Err(_) => Err(AllocError),
        }
    }
}

impl<D: RemoveAxis> Numbered<AlongAxis<D>> {
    /// Those of all coordinates of an axis.
    /// Errors: `OutOfBounds` where there is no such axis.
    pub(crate) fn along(view: Strided<D>, axis: Axis) -> Result<Self, ShapeError>
        ensures fault { result_err result ≡ invert_fault view.shape axis.0 }
        ensures there { IfOk result (λ _. axis.0 < length view.shape) }
        ensures views { IfOk result (λ left. left ≡ views_along axis.0 view) }
    {
        if !has_axis(view.dim().slice(), axis) {
            return Err(from_kind(ErrorKind::OutOfBounds));
        }
        let count = axis_of(view.dim().slice(), axis);
        Ok(Numbered::new(AlongAxis { view, axis }, count))
    }
}
