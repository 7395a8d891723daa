//! One coordinate of an axis, without the axis.
ghost use Rattle.std.specs.Prelude.{◌≡◌, ◌-◌, None, IfOk, IsOk, length};
ghost use Rattle.nd_base.specs.Memory.{NeedsNoMemory};
ghost use Rattle.nd_base.specs.ShapeFault.{shape_fault};
ghost use Rattle.ndarray_layout.specs.CollapsedView.{collapse_fault};
ghost use Rattle.ndarray_layout.specs.Descends.{Descends};
ghost use Rattle.ndarray_layout.specs.IndexedView.{indexed_of, index_source};

use crate::strided::Strided;
use crate::strided::collapsing::has_coordinate;
use crate::strided::places::place_along_axis;
use nd_base::{Axis, ErrorKind, LayoutError, axis_of, from_kind};
use nd_dim::RemoveAxis;
use std::alloc::Global;

impl<D: RemoveAxis> Strided<D> {
    /// The view at one coordinate of an axis, without the axis. No element is moved.
    ///
    /// # Errors
    ///
    /// `OutOfBounds` where there is no such axis or the index is not less than its length; then out of
    /// memory, never where the type fixes the count of axes or at most 4 are left.
    ///
    /// Takes time in proportion to the count of axes.
    ///
    /// Coordinate 1 of axis 0 of `[2,3]`, `[3,1]` from 0: `[3]`, `[1]` from 3. ndarray's `index_axis`.
    pub fn index_axis(
        &self,
        alloc: Global,
        axis: Axis,
        index: usize,
    ) -> Result<Strided<D::Smaller>, LayoutError>
        ensures fault { shape_fault result ≡ collapse_fault self.now.shape axis.0 index }
        ensures memory { shape_fault result ≡ None →
            NeedsNoMemory D.Smaller.NDIM (length self.now.shape - 1) → IsOk result }
        ensures indexed { IfOk result (λ v. v ≡ indexed_of axis.0 index self.now) }
        ensures kept { IfOk result (Descends (index_source axis.0 index) self.now) }
    {
        if !has_coordinate(self.dim.slice(), axis, index) {
            return Err(LayoutError::Shape(from_kind(ErrorKind::OutOfBounds)));
        }
        let dim = self.dim.remove_axis(alloc, axis)?;
        let strides = self.strides.remove_axis(alloc, axis)?;
        let stride = axis_of(self.strides.slice(), axis);
        let start = place_along_axis(self.start, index, stride);
        Ok(Strided {
            start,
            dim,
            strides,
        })
    }
}
