//! What a caller gives for a shape, with or without an order.
ghost use Rattle.std.specs.Prelude.{◌≡◌, ℕ, Bool, false, List, length, Option, Some, None, IsOk, IfOk};
ghost use Rattle.nd_base.specs.Memory.{NeedsNoMemory};
ghost use Rattle.nd_base.specs.declared.order.Order.{Order};

use crate::conversion::IntoDimension;
use nd_base::{Lengths, Order};
use std::alloc::{AllocError, Global};

/// A shape, and the order in which its indices are read where the caller gives one. ndarray's
/// `ShapeArg`.
pub trait ShapeArg {
    /// The dimension type of the shape.
    type Dim: Lengths;

    // The list of the shape,
    ghost shape_lens: { Self → List ℕ };

    // the order,
    ghost shape_order: { Self → Option Order };

    // and whether memory is needed to make a dimension of the list.
    ghost shape_needs_memory: { Self → Bool };

    /// The shape, and the order where the caller gives one.
    ///
    /// # Errors
    ///
    /// Out of memory; never where the type fixes the count or there are at most 4 axes, nor from a
    /// dimension, an `IxDynImpl` or a vector.
    ///
    /// ndarray's `into_shape_and_order`.
    fn into_shape_and_order(self, alloc: Global) -> Result<(Self::Dim, Option<Order>), AllocError>
        ensures list { IfOk result (λ shape. Self.Dim.list shape.0 ≡ shape_lens self) }
        ensures order { IfOk result (λ shape. shape.1 ≡ shape_order self) }
        ensures memory { NeedsNoMemory Self.Dim.NDIM (length (shape_lens self)) → IsOk result }
        ensures no_memory { shape_needs_memory self ≡ false → IsOk result };
}

impl<T: IntoDimension> ShapeArg for T {
    type Dim = T::Dim;

    ghost shape_lens = { T.lens };

    ghost shape_order = { λ _. None };

    ghost shape_needs_memory = { T.needs_memory };

    fn into_shape_and_order(self, alloc: Global) -> Result<(T::Dim, Option<Order>), AllocError> {
        Ok((self.into_dimension(alloc)?, None))
    }
}

impl<T: IntoDimension> ShapeArg for (T, Order) {
    type Dim = T::Dim;

    ghost shape_lens = { λ shape. T.lens shape.0 };

    ghost shape_order = { λ shape. Some shape.1 };

    ghost shape_needs_memory = { λ shape. T.needs_memory shape.0 };

    fn into_shape_and_order(self, alloc: Global) -> Result<(T::Dim, Option<Order>), AllocError> {
        let (lens, order) = self;
        Ok((lens.into_dimension(alloc)?, Some(order)))
    }
}
