//! All windows of a view.
ghost use Rattle.std.specs.Prelude.{◌≡◌, ◌+◌, None, length, IfOk, IsOk};
ghost use Rattle.nd_base.specs.Memory.{NeedsNoMemory};
ghost use Rattle.nd_base.specs.ShapeFault.{shape_fault};
ghost use Rattle.ndarray_layout.specs.Descends.{IsViewOf};
ghost use Rattle.ndarray_layout.specs.View.{IsView};
ghost use Rattle.ndarray_layout.specs.WindowsView.{window_source, window_starts_of, windows_fault, windows_of};

use crate::strided::Strided;
use crate::strided::blocks::{Blocks, block_axes, start_axes};
use nd_base::{LayoutError, Lengths};
use std::alloc::Global;

impl<D: Lengths> Strided<D> {
    /// The view of all windows of a shape: first the index of the window, then the index in it.
    ///
    /// `window` is the shape of a window, one length for each axis. Index `i` in window `w` has the
    /// place of the index `w + i` of the view. An axis has `len - window + 1` windows, and none where
    /// the window is longer. The strides are those of the view, twice; without an index all are 0.
    /// Windows may overlap, so their places need not be distinct.
    ///
    /// # Errors
    ///
    /// `IncompatibleShape` where `window` has more or fewer axes than the view, or the type `E` fixes
    /// another count than twice as many; then `Unsupported` where a length of `window` is 0; then
    /// `Overflow` where the product of the lengths of the result that are not 0 is greater than
    /// `isize::MAX`; then out of memory, never where `E` fixes the count of axes or the result has at
    /// most 4.
    ///
    /// Takes time in proportion to the count of axes.
    ///
    /// `[4]`, `[1]` in windows of `[2]`: `[3,2]`, `[1,1]`. ndarray's `windows`, as one view; NumPy's
    /// `sliding_window_view`.
    pub fn windows<E: Lengths>(&self, alloc: Global, window: &D) -> Result<Strided<E>, LayoutError>
        ensures fault { shape_fault result ≡
            windows_fault E.NDIM self.now.shape (D.list window.now) }
        ensures memory { windows_fault E.NDIM self.now.shape (D.list window.now) ≡ None →
            NeedsNoMemory E.NDIM (length self.now.shape + length self.now.shape) → IsOk result }
        ensures windows { IfOk result (λ v. v ≡ windows_of (D.list window.now) self.now) }
        ensures kept { IfOk result (λ v.
            IsViewOf (window_source (length self.now.shape)) self.now v) }
    {
        let (shape, strides) = (self.dim.slice(), self.strides.slice());
        let (dim, strides) = block_axes(alloc, Blocks::Windows, shape, strides, window)?;
        Ok(Strided {
            start: self.start,
            dim,
            strides,
        })
    }

    /// The view of the first index of each window of a shape: its indices are those of the windows. Errors: those of
    /// `Strided::into_windows`.
    pub(super) fn window_starts(&self, alloc: Global, window: &D) -> Result<Self, LayoutError>
        ensures fault { shape_fault result ≡
            windows_fault None self.now.shape (D.list window.now) }
        ensures memory { windows_fault None self.now.shape (D.list window.now) ≡ None →
            NeedsNoMemory D.NDIM (length self.now.shape) → IsOk result }
        ensures starts { IfOk result (λ v. v ≡ window_starts_of (D.list window.now) self.now) }
        ensures is_view { IsView self.now }
    {
        let (shape, strides) = (self.dim.slice(), self.strides.slice());
        let (dim, strides) = start_axes(alloc, Blocks::Windows, shape, strides, window)?;
        Ok(Strided {
            start: self.start,
            dim,
            strides,
        })
    }
}
