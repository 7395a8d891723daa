//! Views stretched to a shape, and the strides that they have then.
ghost use Rattle.std.specs.Prelude.{◌≡◌, ◌≤◌, None, length, IfOk, IsOk};
ghost use Rattle.std.specs.Result.{result_err};
ghost use Rattle.nd_base.specs.Memory.{NeedsNoMemory};
ghost use Rattle.nd_base.specs.ShapeFault.{shape_fault};
ghost use Rattle.nd_base.specs.Signed.{all_signed};
ghost use Rattle.ndarray_layout.specs.BroadcastView.{broadcast_fault, broadcast_strides, takes_in, broadcast_of, broadcast_source};
ghost use Rattle.ndarray_layout.specs.Descends.{IsViewOf};

use crate::strided::Strided;
use nd_base::{ErrorKind, LayoutError, Lengths, ShapeError, from_kind};
use nd_shape::size_of_shape_checked;
use std::alloc::{AllocError, Global};

/// Whether a shape can be stretched to another one: each of its axes has a length of 1, or that of the
/// axis of the other that lies as far from the last.
#[inline(always)]
fn stretches_to(view_shape: &[usize], shape: &[usize]) -> bool
    ensures { result ≡ takes_in shape.now view_shape.now }
{
    if view_shape.len() > shape.len() {
        return false;
    }
    let new_axes = shape.len() - view_shape.len();
    for axis in 0..view_shape.len() {
        if view_shape[axis] != shape[new_axes + axis] && view_shape[axis] != 1 {
            return false;
        }
    }
    true
}

/// Checks that a view of a shape can be read as one of another. Errors: `IncompatibleShape` where
/// the other is not the shape that both have in common, then `Overflow` where it is too large.
#[inline(always)]
fn check_broadcast<E: Lengths>(view_shape: &[usize], shape: &E) -> Result<(), ShapeError>
    ensures { result_err result ≡ broadcast_fault (E.list shape.now) view_shape.now }
{
    if !stretches_to(view_shape, shape.slice()) {
        return Err(from_kind(ErrorKind::IncompatibleShape));
    }
    size_of_shape_checked(shape)?;
    Ok(())
}

/// Writes the strides along which a view is read as one of a shape with no fewer axes: 0 for new axes and
/// for those of another length, the view's own for the others.
#[inline(always)]
fn stretch_strides(
    shape: &[usize],
    view_shape: &[usize],
    strides: &[usize],
    new_strides: &mut [usize],
)
    requires fewer { length view_shape.now ≤ length shape.now }
    requires counts { length view_shape.now ≡ length strides.now }
    requires room { length new_strides.old ≡ length shape.now }
    ensures { all_signed new_strides.new ≡
        broadcast_strides shape.now view_shape.now (all_signed strides.now) }
{
    let new_axes = shape.len() - view_shape.len();
    new_strides[..new_axes].fill(0);
    for axis in 0..view_shape.len() {
        let stays = shape[new_axes + axis] == view_shape[axis];
        new_strides[new_axes + axis] = if stays { strides[axis] } else { 0 };
    }
}

/// The strides along which a view is read as one of a shape with no fewer axes, as a value of the
/// shape's type (`stretch_strides`).
///
/// Errors: out of memory; never where the type fixes the count of axes or there are at most 4.
#[inline(always)]
fn stretched<E: Lengths>(
    alloc: Global,
    shape: &E,
    view_shape: &[usize],
    strides: &[usize],
) -> Result<E, AllocError>
    requires fewer { length view_shape.now ≤ length (E.list shape.now) }
    requires counts { length view_shape.now ≡ length strides.now }
    ensures strides { IfOk result (λ d. all_signed (E.list d) ≡
        broadcast_strides (E.list shape.now) view_shape.now (all_signed strides.now)) }
    ensures memory { NeedsNoMemory E.NDIM (length (E.list shape.now)) → IsOk result }
{
    let mut new_strides = E::zeros(alloc, shape.ndim())?;
    stretch_strides(shape.slice(), view_shape, strides, new_strides.slice_mut());
    Ok(new_strides)
}

/// The lengths and the strides with which a view is read as one of a shape. The caller ensures that
/// the view has a stride for each length. Errors: those of `Strided::broadcast`.
#[inline(always)]
fn broadcast_axes<E: Lengths>(
    alloc: Global,
    shape: &E,
    view_shape: &[usize],
    strides: &[usize],
) -> Result<(E, E), LayoutError>
    requires counts { length view_shape.now ≡ length strides.now }
    ensures fault { shape_fault result ≡ broadcast_fault (E.list shape.now) view_shape.now }
    ensures memory { broadcast_fault (E.list shape.now) view_shape.now ≡ None →
        NeedsNoMemory E.NDIM (length (E.list shape.now)) → IsOk result }
    ensures shape { IfOk result (λ (dim, new_strides). E.list dim ≡ E.list shape.now) }
    ensures strides { IfOk result (λ (dim, new_strides). all_signed (E.list new_strides) ≡
        broadcast_strides (E.list shape.now) view_shape.now (all_signed strides.now)) }
{
    check_broadcast(view_shape, shape)?;
    let new_strides = stretched(alloc, shape, view_shape, strides)?;
    let dim = shape.duplicate(alloc)?;
    Ok((dim, new_strides))
}

impl<D: Lengths> Strided<D> {
    /// The same data as a view of a shape that this view can be broadcast to.
    ///
    /// New axes come first. Along them, and along axes of length 1 that have another length in
    /// `shape`, each coordinate has the same place, and the stride is 0; the other axes keep their
    /// strides.
    ///
    /// # Errors
    ///
    /// `IncompatibleShape` where `shape` is not the common shape of it and the view's; then
    /// `Overflow` where the product of its lengths that are not 0 is greater than `isize::MAX`;
    /// then out of memory, never where the type fixes the count of axes or there are at most 4.
    ///
    /// Takes time in proportion to the count of axes.
    ///
    /// `[1,4]` with strides `[9,-1]` to `[2,3,4]`: strides `[0,0,-1]`. ndarray's `broadcast`.
    pub fn broadcast<E: Lengths>(&self, alloc: Global, shape: &E) -> Result<Strided<E>, LayoutError>
        ensures fault { shape_fault result ≡ broadcast_fault (E.list shape.now) self.now.shape }
        ensures memory { broadcast_fault (E.list shape.now) self.now.shape ≡ None →
            NeedsNoMemory E.NDIM (length (E.list shape.now)) → IsOk result }
        ensures broadcast { IfOk result (λ v. v ≡ broadcast_of (E.list shape.now) self.now) }
        ensures kept { IfOk result (λ v.
            IsViewOf (broadcast_source self.now.shape) self.now v) }
    {
        let (dim, strides) = broadcast_axes(alloc, shape, self.dim.slice(), self.strides.slice())?;
        Ok(Strided {
            start: self.start,
            dim,
            strides,
        })
    }
}
