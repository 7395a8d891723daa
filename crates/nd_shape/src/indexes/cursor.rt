//! The iterator over the indices of a shape of any number of axes, in either order. It lends each index, so that
//! only its making takes memory.
ghost use Rattle.std.specs.Borrow.{sem};
ghost use Rattle.std.specs.Io.BufRead.{Rests};
ghost use Rattle.std.specs.Option.{option_map};
ghost use Rattle.std.specs.Prelude.{◌≡◌, ◌<◌, ◌≤◌, ◌^◌, true, drop, length, slice_get, IsOk, IfOk};
ghost use Rattle.nd_base.specs.Dim.{lengths};
ghost use Rattle.nd_base.specs.Indices.{indices_in};
ghost use Rattle.nd_base.specs.Size.{size, is_empty};

use crate::indexes::order::{ColumnMajorOrder, IterOrder, RowMajorOrder};
use nd_base::{INLINE_AXES, IxDyn, Lengths};
use nd_dim::product;
use std::alloc::{AllocError, Global};
use std::marker::{Model, PhantomData};

/// Iterator that lends the indices of a shape in row-major order, where the last axis moves
/// fastest. In place of ndarray's `IndicesIter` over `IxDyn`.
pub type IndexCursor = Cursor<RowMajorOrder>;

/// Iterator that lends the indices of a shape in column-major order, where the first axis moves
/// fastest. In place of ndarray's `IndicesIterF` over `IxDyn`.
pub type IndexCursorF = Cursor<ColumnMajorOrder>;

/// Iterator that lends the indices of a shape in an order. A contract sees the list of those that
/// are left.
#[derive(Drop)]
pub struct Cursor<O: IterOrder> {
    dim: IxDyn,
    // The index that was lent last, or else the first one, and how many are left.
    index: IxDyn,
    is_lent: bool,
    left: usize,
    order: PhantomData<O>,
}

impl<O: IterOrder> Model for Cursor<O> {
    ghost use Rattle.std.specs.Prelude.{ℕ, List};
    ghost use Rattle.nd_base.specs.Dim.{lengths};
    ghost use Rattle.nd_shape.specs.IndicesLeft.{indices_left, StandsAfter};

    ghost Value = { List (List ℕ) };

    ghost view = { λ cursor. indices_left O.order (lengths cursor.dim) cursor.left };

    ghost invariant = { λ cursor. StandsAfter O.order (lengths cursor.dim)
        cursor.is_lent cursor.left (lengths cursor.index) };
}

impl<O: IterOrder> Cursor<O> {
    ghost use Rattle.nd_shape.specs.contracts.indexes.cursor.Cursor.{the_row};

    /// The iterator over all indices of a shape.
    ///
    /// The caller ensures that the product of the lengths is less than 2^64 (`size_checked`).
    ///
    /// # Errors
    ///
    /// Out of memory; never where there are at most 4 axes, or where a length is 0.
    ///
    /// `[3,2]` in row-major order: (0, 0), (0, 1), (1, 0), (1, 1), (2, 0), (2, 1).
    pub fn new(alloc: Global, dim: IxDyn) -> Result<Self, AllocError>
        requires { size (lengths dim) < 2 ^ 64 }
        ensures items { IfOk result (λ cursor. cursor ≡ indices_in O.order (lengths dim)) }
        ensures memory { length (lengths dim) ≤ INLINE_AXES → IsOk result }
        ensures no_index { is_empty (lengths dim) ≡ true → IsOk result }
    {
        let left = product(dim.slice());
        // (without an index to lend none is kept, which takes no memory)
        let axes = if left == 0 { 0 } else { dim.ndim() };
        let index = IxDyn::zeros(alloc, axes)?;
        Ok(Cursor {
            dim,
            index,
            is_lent: false,
            left,
            order: PhantomData,
        })
    }

    /// Lends the next index, or `None` after the last one, however often it is called. Takes no
    /// memory.
    #[inline]
    pub fn next(&mut self) -> Option<&[usize]>
        ensures* rest { sem 𝓛
            (Rests (the_row O.row O.IterOrder) self.entry (λ left. left ≡ drop 1 self.old)) }
        ensures index { option_map (λ index. index.now) result ≡ slice_get self.old 0 }
    {
        if self.left == 0 {
            return None;
        }
        if self.is_lent {
            O::advance(self.dim.slice(), self.index.slice_mut());
        }
        self.is_lent = true;
        self.left -= 1;
        Some(self.index.slice())
    }

    /// The number of indices that are left.
    pub fn len(&self) -> usize
        ensures { result ≡ length self.now }
    {
        self.left
    }
}
