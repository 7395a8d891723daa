//! The two orders of iterators over indices, as types.
ghost use Rattle.std.specs.Prelude.{◌≡◌, ◌+◌, ◌<◌, ◌↔◌, if◌then◌else◌, true, length, replicate, IsTrue};
ghost use Rattle.nd_base.specs.declared.order.Order.{Order};
ghost use Rattle.nd_base.specs.declared.order.Order.TheVariants.{RowMajor, ColumnMajor};
ghost use Rattle.nd_base.specs.Indices.{is_index};
ghost use Rattle.nd_base.specs.FlatIndex.{flat_index_in, index_of_flat_in};
ghost use Rattle.nd_base.specs.Size.{size};

use nd_dim::{advance_column_major, advance_row_major};

/// The order of an iterator over indices.
pub trait IterOrder {
    // The order that the type stands for.
    ghost order: { Order };

    /// Moves an index of a shape to the next one in the order, and returns whether there is one;
    /// the last index becomes the first, with `false`.
    ///
    /// The caller ensures that `index` is an index of the shape.
    fn advance(shape: &[usize], index: &mut [usize]) -> bool
        requires { is_index shape.now index.old ≡ true }
        ensures more { IsTrue result
            ↔ (flat_index_in order shape.now index.old + 1 < size shape.now) }
        ensures next { index.new ≡ (if result
            then index_of_flat_in order shape.now (flat_index_in order shape.now index.old + 1)
            else replicate (length shape.now) 0) };
}

/// Row-major order, where the last axis moves fastest.
pub struct RowMajorOrder;

/// Column-major order, where the first axis moves fastest.
pub struct ColumnMajorOrder;

impl IterOrder for RowMajorOrder {
    ghost order = { RowMajor };

    #[inline(always)]
    fn advance(shape: &[usize], index: &mut [usize]) -> bool {
        advance_row_major(shape, index)
    }
}

impl IterOrder for ColumnMajorOrder {
    ghost order = { ColumnMajor };

    #[inline(always)]
    fn advance(shape: &[usize], index: &mut [usize]) -> bool {
        advance_column_major(shape, index)
    }
}
