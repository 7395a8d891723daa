//! Writes to the items of a part by those of two other arrays, side by side.
ghost use Rattle.std.specs.Prelude.{◌≡◌, ◌↔◌, IsOk, OnErr, OnOk, Some};
ghost use Rattle.std.specs.Result.{result_err};
ghost use Rattle.ndarray_layout.specs.declared.ErrorKind.TheVariants.{IncompatibleShape};
ghost use Rattle.nd_access.specs.HasItems.{HasItemsOf, KeepsSpare};
ghost use Rattle.nd_access.specs.Mapped.{CallsMake, row_major_items};
ghost use Rattle.nd_loops.specs.ZippedTwo.{ActsAsAtTriple, CallableOnEachTriple, CalledAtTriple, row_major_triples, zipped_two_at};

use crate::array_view::ArrayView;
use crate::array_view_mut::ArrayViewMut;
use nd_loops::{Beside, zip_two_view};
use ndarray_layout::{ErrorKind, Lengths, ShapeError, from_kind};

impl<'a, T: Drop, D: Lengths> ArrayViewMut<'a, T, D> {
    ghost use Rattle.nd_lent.specs.Lent.{access_of, array_of};

    /// Calls a closure at each item and at those of the same index of two other arrays of the same shape, in row-major order, to
    /// change the first in place. Other items are unchanged.
    ///
    /// Takes no memory. Goes over the longest rows that the axes of all three allow (`Strided::joined_rows_with_two`): three whose items
    /// follow one another are a loop over three slices; in others each index takes the time of its place in each array.
    ///
    /// # Errors
    ///
    /// `IncompatibleShape` where another array has another shape; the items are unchanged, and the closure isn't called. (A shape that
    /// can be broadcast is an error too: `ArrayView::broadcast` comes first.)
    ///
    /// `|item, other, third| *item += other * third` with 5 6 and 3 4 at `[2]`, `[-1]` from 1 over 7 8 9: 31 23 9. ndarray's
    /// `Zip::from(..).and(..).and(..)`.
    pub fn zip_mut_with_two<U, V, F: FnMut(&mut T, &U, &V)>(
        &mut self,
        other: &ArrayView<'_, U, D>,
        third: &ArrayView<'_, V, D>,
        f: F,
    ) -> Result<(), ShapeError>
        requires { (array_of self.old).view.shape ≡ other.now.view.shape →
            (array_of self.old).view.shape ≡ third.now.view.shape →
            CallableOnEachTriple F.FnMut
            (row_major_triples (array_of self.old) other.now third.now) f }
        ensures fits { IsOk result ↔ (((array_of self.old).view.shape ≡ other.now.view.shape)
            × ((array_of self.old).view.shape ≡ third.now.view.shape)) }
        ensures fault { OnErr result (result_err result ≡ Some IncompatibleShape) }
        ensures unchanged { OnErr result (array_of self.new ≡ array_of self.old) }
        ensures ran { OnOk result (CallsMake (CalledAtTriple F.FnMut) f
            (row_major_triples (array_of self.old) other.now third.now)
            (row_major_items (array_of self.new))) }
        ensures zipped { OnOk result ((h : T → U → V → T) → ActsAsAtTriple F.FnMut f h → HasItemsOf
            (zipped_two_at h (array_of self.old) other.now third.now)
            (array_of self.old) (array_of self.new)) }
        ensures view { (array_of self.new).view ≡ (array_of self.old).view }
        ensures spare { KeepsSpare (array_of self.old) (array_of self.new) }
        ensures keeps_access { access_of self.new ≡ access_of self.old }
    {
        let others = (other.beside(), third.beside());
        if !others.have_shape(self.view.dim().slice()) {
            return Err(from_kind(ErrorKind::IncompatibleShape));
        }
        zip_two_view(&mut self.cells, &self.view, others, f);
        Ok(())
    }
}
