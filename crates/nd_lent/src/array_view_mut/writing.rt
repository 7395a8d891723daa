//! Writes to all items of a part, and swaps of two.
ghost use Rattle.std.specs.Prelude.{◌≡◌, ◌&&◌, ◌↔◌, IsOk, OnErr, OnOk, Some, length};
ghost use Rattle.std.specs.Result.{result_err};
ghost use Rattle.ndarray_layout.specs.declared.ErrorKind.TheVariants.{IncompatibleShape};
ghost use Rattle.ndarray_layout.specs.Indices.{is_index};
ghost use Rattle.nd_access.specs.HasItems.{HasItemsOf, with_swapped};
ghost use Rattle.nd_access.specs.Items.{item_at};

use crate::array_view::ArrayView;
use crate::array_view_mut::ArrayViewMut;
use nd_loops::{copy_view, map_nearest, nearest_views};
use ndarray_layout::{ErrorKind, Lengths, NdIndex, ShapeError, from_kind};

impl<'a, T: Drop, D: Lengths> ArrayViewMut<'a, T, D> {
    ghost use Rattle.nd_lent.specs.Lent.{access_of, array_of};

    /// Swaps the items of two indices, and returns whether both are indices of the shape; else the part is unchanged.
    ///
    /// `[2]`, `[2]` from 0 over 7 8 9: (0) and (1) make the items 9 8 7. ndarray's `swap`, which panics where one is no index.
    pub fn swap<I: NdIndex<D>, J: NdIndex<D>>(&mut self, index: &I, other: &J) -> bool
        ensures are_indices { result ≡
            (is_index (array_of self.old).view.shape (I.index_list index.now)
            && is_index (array_of self.old).view.shape (J.index_list other.now)) }
        ensures swapped { array_of self.new ≡ with_swapped (array_of self.old)
            (I.index_list index.now) (J.index_list other.now) }
        ensures keeps_access { access_of self.new ≡ access_of self.old }
    {
        match (self.view.place(index), self.view.place(other)) {
            (Some(one), Some(other)) => {
                self.cells.swap(one, other);
                true
            },
            _ => false,
        }
    }
}

/// A part of at most this many indices is filled without a sort of its axes, which takes longer than to write its items.
const FEW: usize = 16;

impl<'a, T: Drop + Copy, D: Lengths> ArrayViewMut<'a, T, D> {
    ghost use Rattle.nd_lent.specs.Lent.{access_of, array_of};

    /// Writes an item at each index. Other items are unchanged.
    ///
    /// Takes no memory. Goes over the items in the order in which they lie, as `map_in_place_nearest` does; with at most 16 indices in
    /// row-major order, which takes less time than to sort the axes.
    ///
    /// 5 to `[2]`, `[-1]` from 1 over 7 8 9: 5 5 9. ndarray's `fill`.
    pub fn fill(&mut self, item: T)
        ensures filled { HasItemsOf (λ index. Some item) (array_of self.old) (array_of self.new) }
        ensures count { length (array_of self.new).items ≡ length (array_of self.old).items }
        ensures keeps_access { access_of self.new ≡ access_of self.old }
    {
        map_nearest(
            &mut self.cells,
            &self.view,
            FEW,
            |stored: &mut T|
                ensures { stored.new ≡ item }
            {
                *stored = item;
            },
        );
    }

    /// Writes at each index a copy of the item that an array of the same shape has there.
    fn copy_items(&mut self, other: &ArrayView<'_, T, D>)
        requires { (array_of self.old).view.shape ≡ other.now.view.shape }
        ensures copied { HasItemsOf (item_at other.now) (array_of self.old) (array_of self.new) }
        ensures count { length (array_of self.new).items ≡ length (array_of self.old).items }
        ensures keeps_access { access_of self.new ≡ access_of self.old }
    {
        match nearest_views(&self.view, other.strided()) {
            Some((nearest, beside)) => {
                copy_view(&mut self.cells, &nearest, other.reader(), &beside);
            },
            None => {
                let source = other.strided();
                copy_view(&mut self.cells, &self.view, other.reader(), source);
            },
        }
    }

    /// Writes at each index a copy of the item that another array of the same shape has there. Other items are unchanged.
    ///
    /// Takes no memory. Goes over the items in the order in which they lie here: with at most 6 axes over the longest rows that the
    /// axes of both allow once they are turned and sorted by the strides here (`Strided::nearest_with`), with more axes in row-major
    /// order. Rows whose items follow one another in both are copied as slices.
    ///
    /// # Errors
    ///
    /// `IncompatibleShape` where the shapes differ; the items are unchanged. (A shape that can be broadcast is an error too:
    /// `ArrayView::broadcast` comes first.)
    ///
    /// 5 6 to `[2]`, `[-1]` from 1 over 7 8 9: 6 5 9. ndarray's `assign`.
    pub fn assign(&mut self, other: &ArrayView<'_, T, D>) -> Result<(), ShapeError>
        ensures fits { IsOk result ↔ ((array_of self.old).view.shape ≡ other.now.view.shape) }
        ensures fault { OnErr result (result_err result ≡ Some IncompatibleShape) }
        ensures unchanged { OnErr result (array_of self.new ≡ array_of self.old) }
        ensures assigned { OnOk result
            (HasItemsOf (item_at other.now) (array_of self.old) (array_of self.new)) }
        ensures count { length (array_of self.new).items ≡ length (array_of self.old).items }
        ensures keeps_access { access_of self.new ≡ access_of self.old }
    {
        if !self.view.dim().equal(other.dim()) {
            return Err(from_kind(ErrorKind::IncompatibleShape));
        }
        self.copy_items(other);
        Ok(())
    }
}
