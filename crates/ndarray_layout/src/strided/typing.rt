//! Views of another type for as many axes.
ghost use Rattle.std.specs.Prelude.{◌≡◌, None, length, IfOk, IsOk};
ghost use Rattle.nd_base.specs.Lengths.{IsCount};
ghost use Rattle.nd_base.specs.Memory.{NeedsNoMemory};
ghost use Rattle.nd_base.specs.ShapeFault.{shape_fault};
ghost use Rattle.ndarray_layout.specs.TypedView.{count_fault};

use crate::strided::Strided;
use crate::strided::slicing::allows;
use nd_base::{ErrorKind, LayoutError, Lengths, from_kind};
use std::alloc::{AllocError, Global};

/// The same lengths, or strides, at a type for as many.
///
/// Errors: out of memory; never where the type fixes the count or there are at most 4.
#[inline(always)]
fn typed<E: Lengths>(alloc: Global, lens: &[usize]) -> Result<E, AllocError>
    requires { IsCount E.NDIM (length lens.now) }
    ensures list { IfOk result (λ d. E.list d ≡ lens.now) }
    ensures memory { NeedsNoMemory E.NDIM (length lens.now) → IsOk result }
{
    let mut typed = E::zeros(alloc, lens.len())?;
    typed.slice_mut().copy_from_slice(lens);
    Ok(typed)
}

impl<D: Lengths> Strided<D> {
    /// The same view, of another type for as many axes.
    ///
    /// # Errors
    ///
    /// `IncompatibleShape` where the type `E` fixes another count of axes; then out of memory, never where it fixes the
    /// count or there are at most 4.
    ///
    /// Takes time in proportion to the count of axes.
    ///
    /// `[2,3]` with strides `[3,1]` at `IxDyn` becomes the same at `Ix2`. ndarray's `into_dimensionality`.
    pub fn into_dimensionality<E: Lengths>(self, alloc: Global) -> Result<Strided<E>, LayoutError>
        ensures fault { shape_fault result ≡ count_fault E.NDIM (length self.shape) }
        ensures memory { count_fault E.NDIM (length self.shape) ≡ None →
            NeedsNoMemory E.NDIM (length self.shape) → IsOk result }
        ensures view { IfOk result (λ v. v ≡ self) }
    {
        if !allows(E::NDIM, self.dim.ndim()) {
            return Err(LayoutError::Shape(from_kind(ErrorKind::IncompatibleShape)));
        }
        let dim = typed(alloc, self.dim.slice())?;
        let strides = typed(alloc, self.strides.slice())?;
        Ok(Strided {
            start: self.start,
            dim,
            strides,
        })
    }
}
