//! The iterator over the indices of a shape, in either order.
ghost use Rattle.std.specs.Prelude.{◌≡◌, ◌<◌, ◌≤◌, ◌^◌, Some, length, replicate, IfSome, ⊤};
ghost use Rattle.std.specs.Iterator.{UpTo, YieldsFirstBy, item_count};
ghost use Rattle.std.specs.Iterator.SizeHint.{IsWithinCount};
ghost use Rattle.nd_base.specs.Indices.{indices_in};
ghost use Rattle.nd_base.specs.Size.{size};

use crate::indexes::order::{ColumnMajorOrder, IterOrder, RowMajorOrder};
use nd_base::Lengths;
use nd_dim::{Dimension, product};
use std::alloc::AllocError;
use std::iter::FusedIterator;
use std::marker::{Model, PhantomData};

/// Iterator over the indices of a shape in row-major order, where the last axis moves fastest.
/// ndarray's `IndicesIter`.
pub type IndicesIter<D> = IndexIter<D, RowMajorOrder>;

/// Iterator over the indices of a shape in column-major order, where the first axis moves fastest.
/// ndarray's `IndicesIterF`.
pub type IndicesIterF<D> = IndexIter<D, ColumnMajorOrder>;

/// Iterator over the indices of a shape in an order. A contract sees the list of those that are
/// left.
#[derive(Drop)]
pub struct IndexIter<D: Lengths, O: IterOrder> {
    dim: D,
    // The next index, where there is one, and how many are left.
    index: D,
    has_remaining: bool,
    left: usize,
    order: PhantomData<O>,
}

impl<D: Lengths, O: IterOrder> Model for IndexIter<D, O> {
    ghost use Rattle.std.specs.Prelude.{ℕ, List, Some, None, if◌then◌else◌};
    ghost use Rattle.nd_shape.specs.IndicesLeft.{indices_left, StandsAtFirst};

    ghost Value = { List (List ℕ) };

    ghost view = { λ iter. indices_left O.order (D.list iter.dim) iter.left };

    ghost invariant = { λ iter. StandsAtFirst O.order (D.list iter.dim) iter.left
        (if iter.has_remaining then Some (D.list iter.index) else None) };
}

impl<D: Lengths, O: IterOrder> IndexIter<D, O> {
    /// The iterator over all indices of a shape whose size fits, from its first index, all 0.
    #[inline]
    pub(super) fn starting(dim: D, first: D) -> Self
        requires size { size (D.list dim) < 2 ^ 64 }
        requires first { D.list first ≡ replicate (length (D.list dim)) 0 }
        ensures items { result ≡ indices_in O.order (D.list dim) }
    {
        let left = product(dim.slice());
        IndexIter {
            dim,
            index: first,
            has_remaining: left != 0,
            left,
            order: PhantomData,
        }
    }
}

impl<D: Lengths + Copy, O: IterOrder> Clone for IndexIter<D, O> {
    ghost is_clone = { λ iter copy. copy ≡ iter };

    ghost is_infallible = { λ _. ⊤ };

    fn clone(&self) -> Result<Self, AllocError> {
        Ok(IndexIter {
            dim: self.dim,
            index: self.index,
            has_remaining: self.has_remaining,
            left: self.left,
            order: PhantomData,
        })
    }
}

impl<D: Dimension + Copy, O: IterOrder> Iterator for IndexIter<D, O> {
    type Item = D::Pattern;

    ghost next_gives = { YieldsFirstBy D.Pattern.lens (λ left. left) };

    ghost remaining = { item_count (λ left. left) };

    #[inline]
    fn next(&mut self) -> Option<D::Pattern> {
        if !self.has_remaining {
            return None;
        }
        self.left -= 1;
        let index = self.index;
        let mut next = index;
        self.has_remaining = O::advance(self.dim.slice(), next.slice_mut());
        // (of two axes the last index is kept: so the compiler keeps a branch for the end of a row, which can
        // be foreseen, and the loop runs in half the time; of more it keeps one anyway)
        if self.has_remaining || self.dim.ndim() != 2 {
            self.index = next;
        }
        Some(index.into_pattern())
    }

    fn size_hint(&self) -> (usize, Option<usize>)
        ensures lower { IsWithinCount result.0 (item_count (λ left. left) self.now) }
        ensures upper { IfSome result.1 (UpTo (item_count (λ left. left) self.now)) }
        ensures exact { (result.0 ≡ length self.now) × (result.1 ≡ Some (length self.now)) }
    {
        (self.left, Some(self.left))
    }
}

impl<D: Dimension + Copy, O: IterOrder> ExactSizeIterator for IndexIter<D, O> {
    fn len(&self) -> usize {
        self.left
    }
}

impl<D: Dimension + Copy, O: IterOrder> FusedIterator for IndexIter<D, O> {}
