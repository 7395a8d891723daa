//! A new axis.
ghost use Rattle.std.specs.Prelude.{◌≡◌, ◌+◌, None, IfOk, IsOk, length};
ghost use Rattle.nd_base.specs.Memory.{NeedsNoMemory};
ghost use Rattle.nd_base.specs.ShapeFault.{shape_fault};
ghost use Rattle.ndarray_layout.specs.Descends.{Descends};
ghost use Rattle.ndarray_layout.specs.InsertedView.{insert_fault, inserted_of, insert_source};

use crate::strided::Strided;
use nd_base::{Axis, ErrorKind, LayoutError, from_kind};
use nd_dim::Dimension;
use std::alloc::Global;

impl<D: Dimension> Strided<D> {
    /// The view with a new axis before the axis of this number, or after all of them. The new axis has length
    /// 1 and the stride 1. No element is moved.
    ///
    /// # Errors
    ///
    /// `OutOfBounds` where the number is greater than the count of axes; then out of memory, never where the
    /// type of the result fixes the count of axes (that of `Ix6` doesn't) or there are at most 3.
    ///
    /// Takes time in proportion to the count of axes.
    ///
    /// Axis 1 of `[2,3]`, `[3,1]`: `[2,1,3]`, `[3,1,1]`. ndarray's `insert_axis`.
    pub fn insert_axis(&self, alloc: Global, axis: Axis) -> Result<Strided<D::Larger>, LayoutError>
        ensures fault { shape_fault result ≡ insert_fault self.now.shape axis.0 }
        ensures memory { shape_fault result ≡ None →
            NeedsNoMemory D.Larger.NDIM (length self.now.shape + 1) → IsOk result }
        ensures inserted { IfOk result (λ v. v ≡ inserted_of axis.0 self.now) }
        ensures kept { IfOk result (Descends (insert_source axis.0) self.now) }
    {
        if axis.index() > self.dim.ndim() {
            return Err(LayoutError::Shape(from_kind(ErrorKind::OutOfBounds)));
        }
        let dim = self.dim.insert_axis(alloc, axis)?;
        let strides = self.strides.insert_axis(alloc, axis)?;
        Ok(Strided {
            start: self.start,
            dim,
            strides,
        })
    }
}
