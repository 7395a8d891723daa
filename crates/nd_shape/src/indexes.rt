//! Iterators over all indices of a shape.
ghost use Rattle.std.specs.Prelude.{◌≡◌, ◌<◌, ◌^◌, false, length, IsOk, IfOk};
ghost use Rattle.nd_base.specs.declared.order.Order.TheVariants.{ColumnMajor};
ghost use Rattle.nd_base.specs.Indices.{indices_in};
ghost use Rattle.nd_base.specs.Memory.{NeedsNoMemory};
ghost use Rattle.nd_base.specs.Size.{size};

mod cursor;
mod indices;
mod indices_iter;
mod order;

pub use cursor::{IndexCursor, IndexCursorF};
pub use indices::Indices;
pub use indices_iter::{IndicesIter, IndicesIterF};
use nd_base::Lengths;
use nd_dim::IntoDimension;
use std::alloc::{AllocError, Global};

/// All indices of a shape, over which a `for` loop iterates in row-major order, where the last axis
/// moves fastest.
///
/// The caller ensures that the product of the lengths is less than 2^64 (`size_checked`).
///
/// # Errors
///
/// Out of memory; never where the type fixes the count of axes or there are at most 4, nor from a
/// dimension, an `IxDynImpl` or a vector.
///
/// `[3,2]`: (0, 0), (0, 1), (1, 0), (1, 1), (2, 0), (2, 1). ndarray's `indices`.
pub fn all_indices<D: Lengths, T: IntoDimension<Dim = D>>(
    alloc: Global,
    shape: T,
) -> Result<Indices<D>, AllocError>
    requires { size (T.lens shape) < 2 ^ 64 }
    ensures dim { IfOk result (λ indices. D.list indices ≡ T.lens shape) }
    ensures memory { NeedsNoMemory D.NDIM (length (T.lens shape)) → IsOk result }
    ensures no_memory { T.needs_memory shape ≡ false → IsOk result }
{
    Ok(Indices::new(shape.into_dimension(alloc)?))
}

/// An iterator over all indices of a shape in column-major order, where the first axis moves fastest.
///
/// The caller ensures that the product of the lengths is less than 2^64 (`size_checked`).
///
/// # Errors
///
/// Out of memory; never where the type fixes the count of axes or there are at most 4.
///
/// `[3,2]`: (0, 0), (1, 0), (2, 0), (0, 1), (1, 1), (2, 1). ndarray's `indices_iter_f`.
pub fn indices_iter_f<D: Lengths, T: IntoDimension<Dim = D>>(
    alloc: Global,
    shape: T,
) -> Result<IndicesIterF<D>, AllocError>
    requires { size (T.lens shape) < 2 ^ 64 }
    ensures items { IfOk result (λ iter. iter ≡ indices_in ColumnMajor (T.lens shape)) }
    ensures memory { NeedsNoMemory D.NDIM (length (T.lens shape)) → IsOk result }
{
    let dim: D = shape.into_dimension(alloc)?;
    let first = D::zeros(alloc, dim.ndim())?;
    Ok(IndicesIterF::starting(dim, first))
}
