//! Writes to the items of a part by those of another array, side by side.
ghost use Rattle.std.specs.Prelude.{◌≡◌, ◌↔◌, IsOk, OnErr, OnOk, Some};
ghost use Rattle.std.specs.Result.{result_err};
ghost use Rattle.ndarray_layout.specs.declared.ErrorKind.TheVariants.{IncompatibleShape};
ghost use Rattle.nd_loops.specs.AnyOrder.{CallsMakeInSomeOrder, InAnyOrder};
ghost use Rattle.nd_access.specs.HasItems.{HasItemsOf, KeepsSpare};
ghost use Rattle.nd_access.specs.Mapped.{CallsMake, row_major_items};
ghost use Rattle.nd_access.specs.Zipped.{ActsAsAtPair, CallableOnEachPair, CalledAtPair, row_major_pairs, zipped_at};

use crate::array_view::ArrayView;
use crate::array_view_mut::ArrayViewMut;
use nd_loops::{zip_nearest, zip_view};
use ndarray_layout::{ErrorKind, Lengths, ShapeError, from_kind};

impl<'a, T: Drop, D: Lengths> ArrayViewMut<'a, T, D> {
    ghost use Rattle.nd_lent.specs.Lent.{access_of, array_of};

    /// Calls a closure at each item and at that of the same index of another array of the same shape, in row-major order, to change
    /// the first in place. Other items are unchanged.
    ///
    /// Takes no memory. Goes over the longest rows that the axes of both allow (`Strided::joined_rows_with`): two whose items
    /// follow one another are a loop over two slices; in others each index takes the time of its place in both.
    ///
    /// # Errors
    ///
    /// `IncompatibleShape` where the shapes differ; the items are unchanged, and the closure isn't called. (A shape that can be
    /// broadcast is an error too: `ArrayView::broadcast` comes first.)
    ///
    /// `|item, other| *item += *other` with 5 6 at `[2]`, `[-1]` from 1 over 7 8 9: 13 13 9. ndarray's `zip_mut_with`.
    pub fn zip_mut_with<U, F: FnMut(&mut T, &U)>(
        &mut self,
        other: &ArrayView<'_, U, D>,
        f: F,
    ) -> Result<(), ShapeError>
        requires { (array_of self.old).view.shape ≡ other.now.view.shape →
            CallableOnEachPair F.FnMut (row_major_pairs (array_of self.old) other.now) f }
        ensures fits { IsOk result ↔ ((array_of self.old).view.shape ≡ other.now.view.shape) }
        ensures fault { OnErr result (result_err result ≡ Some IncompatibleShape) }
        ensures unchanged { OnErr result (array_of self.new ≡ array_of self.old) }
        ensures ran { OnOk result (CallsMake (CalledAtPair F.FnMut) f
            (row_major_pairs (array_of self.old) other.now) (row_major_items (array_of self.new))) }
        ensures zipped { OnOk result ((h : T → U → T) → ActsAsAtPair F.FnMut f h → HasItemsOf
            (zipped_at h (array_of self.old) other.now) (array_of self.old) (array_of self.new)) }
        ensures view { (array_of self.new).view ≡ (array_of self.old).view }
        ensures spare { KeepsSpare (array_of self.old) (array_of self.new) }
        ensures keeps_access { access_of self.new ≡ access_of self.old }
    {
        if !self.view.dim().equal(other.dim()) {
            return Err(from_kind(ErrorKind::IncompatibleShape));
        }
        let source = other.strided();
        zip_view(&mut self.cells, &self.view, other.reader(), source, f);
        Ok(())
    }

    /// Calls a closure at each item and at that of the same index of another array of the same shape, each index once, to change the
    /// first in place, in the order in which the items lie here: that in which ndarray goes. Other items are unchanged.
    ///
    /// It is `zip_mut_with` for a closure that needs no order. Takes no memory. With at most 6 axes it goes over the longest rows that
    /// the axes of both allow once they are turned and sorted by the strides here (`Strided::nearest_with`); with more axes as
    /// `zip_mut_with` does.
    ///
    /// # Errors
    ///
    /// `IncompatibleShape` where the shapes differ; the items are unchanged, and the closure isn't called. (A shape that can be
    /// broadcast is an error too: `ArrayView::broadcast` comes first.)
    ///
    /// `|item, other| *item += *other` with 5 6 at `[2]`, `[-1]` from 1 over 7 8 9: at 7 and 6, then at 8 and 5, 13 13 9. ndarray's
    /// `zip_mut_with`.
    pub fn zip_mut_with_nearest<U, F: FnMut(&mut T, &U)>(
        &mut self,
        other: &ArrayView<'_, U, D>,
        f: F,
    ) -> Result<(), ShapeError>
        requires { (array_of self.old).view.shape ≡ other.now.view.shape →
            InAnyOrder (λ pairs. CallableOnEachPair F.FnMut pairs f)
            (row_major_pairs (array_of self.old) other.now) }
        ensures fits { IsOk result ↔ ((array_of self.old).view.shape ≡ other.now.view.shape) }
        ensures fault { OnErr result (result_err result ≡ Some IncompatibleShape) }
        ensures unchanged { OnErr result (array_of self.new ≡ array_of self.old) }
        ensures ran { OnOk result (CallsMakeInSomeOrder (CalledAtPair F.FnMut) f
            (row_major_pairs (array_of self.old) other.now) (row_major_items (array_of self.new))) }
        ensures zipped { OnOk result ((h : T → U → T) → ActsAsAtPair F.FnMut f h → HasItemsOf
            (zipped_at h (array_of self.old) other.now) (array_of self.old) (array_of self.new)) }
        ensures view { (array_of self.new).view ≡ (array_of self.old).view }
        ensures spare { KeepsSpare (array_of self.old) (array_of self.new) }
        ensures keeps_access { access_of self.new ≡ access_of self.old }
    {
        if !self.view.dim().equal(other.dim()) {
            return Err(from_kind(ErrorKind::IncompatibleShape));
        }
        let source = other.strided();
        zip_nearest(&mut self.cells, &self.view, &other.reader(), source, f);
        Ok(())
    }
}
