//! All indices of a shape, to iterate over.
ghost use Rattle.std.specs.Prelude.{◌≡◌, ◌<◌, ◌^◌, ⊤};
ghost use Rattle.nd_base.specs.declared.order.Order.TheVariants.{RowMajor};
ghost use Rattle.nd_base.specs.Indices.{indices_in};
ghost use Rattle.nd_base.specs.Size.{size};

use crate::indexes::indices_iter::IndicesIter;
use nd_base::Lengths;
use nd_dim::Dimension;
use std::alloc::AllocError;
use std::marker::Model;

/// All indices of a shape, over which a `for` loop iterates in row-major order. A contract sees the
/// shape. ndarray's `Indices`.
#[derive(Debug, Drop)]
pub struct Indices<D: Lengths> {
    dim: D,
}

impl<D: Lengths> Model for Indices<D> {
    ghost use Rattle.std.specs.Prelude.{◌<◌, ◌^◌};
    ghost use Rattle.nd_base.specs.Size.{size as size_of};

    ghost Value = { D };

    ghost view = { λ indices. indices.dim };

    ghost invariant = { λ indices. size_of (D.list indices.dim) < 2 ^ 64 };

    ghost inverse = { λ dim. record { dim = dim } };
}

impl<D: Lengths> Indices<D> {
    /// All indices of a shape whose size fits.
    pub(super) fn new(dim: D) -> Self
        requires { size (D.list dim) < 2 ^ 64 }
        ensures { result ≡ dim }
    {
        Indices { dim }
    }
}

impl<D: Lengths + Copy> Clone for Indices<D> {
    ghost is_clone = { λ indices copy. copy ≡ indices };

    ghost is_infallible = { λ _. ⊤ };

    fn clone(&self) -> Result<Self, AllocError> {
        Ok(*self)
    }
}

impl<D: Lengths + Copy> Copy for Indices<D> {}

impl<D: Dimension + Copy> IntoIterator for Indices<D> {
    type Item = D::Pattern;

    type IntoIter = IndicesIter<D>;

    ghost into_iter_gives = { λ indices iter. iter ≡ indices_in RowMajor (D.list indices) };

    fn into_iter(self) -> IndicesIter<D> {
        let mut first = self.dim;
        first.slice_mut().fill(0);
        IndicesIter::starting(self.dim, first)
    }
}
