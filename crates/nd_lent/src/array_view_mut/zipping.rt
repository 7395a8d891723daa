//! Writes to the items of a part by those of other arrays, side by side.
ghost use Rattle.std.specs.Prelude.{◌≡◌, ◌≤◌, ◌↔◌, IsOk, OnErr, OnOk, Some, length};
ghost use Rattle.std.specs.Result.{result_err};
ghost use Rattle.ndarray_layout.specs.declared.ErrorKind.TheVariants.{IncompatibleShape};
ghost use Rattle.nd_access.specs.HasItems.{HasItemsOf, KeepsSpare};
ghost use Rattle.nd_access.specs.Mapped.{CallsMake, row_major_items};
ghost use Rattle.nd_access.specs.Zipped.{ActsBeside, CallableBesideEach, CalledBeside};
ghost use Rattle.nd_lent.specs.Zip.{row_major_beside, zipped_beside};
ghost use Rattle.nd_loops.specs.Beside.{shown_beside};
ghost use Rattle.nd_loops.specs.LentLayout.{array_of_lent};

use crate::array_view::ArrayView;
use crate::array_view_mut::ArrayViewMut;
use nd_loops::{Beside, LentView, lent_view, zip_views};
use ndarray_layout::{ErrorKind, Lengths, ShapeError, from_kind};

impl<U, D: Lengths> ArrayView<'_, U, D> {
    /// The array, to be read beside another one.
    #[inline(always)]
    pub(crate) fn beside(&self) -> LentView<'_, U>
        ensures lens { result.lens ≡ self.now.view.shape }
        ensures array { array_of_lent result ≡ self.now }
    {
        lent_view(self.reader(), self.strided())
    }
}

impl<'a, T: Drop, D: Lengths> ArrayViewMut<'a, T, D> {
    ghost use Rattle.nd_lent.specs.Lent.{access_of, array_of};

    /// Calls a closure at each item and at what stands beside it in other arrays of the same shape, in row-major order, to change the
    /// first in place. Other items are unchanged.
    ///
    /// Takes no memory. Goes over the longest rows that the axes of all allow: arrays whose items follow one another are a loop over
    /// slices; in others each index takes the time of its place in each array.
    ///
    /// # Errors
    ///
    /// `IncompatibleShape` where another array has another shape; the items are unchanged, and the closure isn't called.
    #[inline(always)]
    pub(crate) fn zip_mut_with_all<C: Beside, F: FnMut(&mut T, C::Item)>(
        &mut self,
        others: C,
        f: F,
    ) -> Result<(), ShapeError>
        requires few { length (C.layouts others) ≤ 5 }
        requires callable { C.have_shape others (array_of self.old).view.shape →
            CallableBesideEach (shown_beside C.value) F.FnMut
            (row_major_beside (array_of self.old) (C.at others)) f }
        ensures fits { IsOk result ↔ C.have_shape others (array_of self.old).view.shape }
        ensures fault { OnErr result (result_err result ≡ Some IncompatibleShape) }
        ensures unchanged { OnErr result (array_of self.new ≡ array_of self.old) }
        ensures ran { OnOk result (CallsMake (CalledBeside (shown_beside C.value) F.FnMut) f
            (row_major_beside (array_of self.old) (C.at others)) (row_major_items (array_of self.new))) }
        ensures zipped { OnOk result ((h : T × C.Value → T) → ActsBeside (shown_beside C.value) F.FnMut f h → HasItemsOf
            (zipped_beside h (array_of self.old) (C.at others)) (array_of self.old) (array_of self.new)) }
        ensures view { (array_of self.new).view ≡ (array_of self.old).view }
        ensures spare { KeepsSpare (array_of self.old) (array_of self.new) }
        ensures keeps_access { access_of self.new ≡ access_of self.old }
    {
        if !others.have_shape(self.view.dim().slice()) {
            return Err(from_kind(ErrorKind::IncompatibleShape));
        }
        zip_views(&mut self.cells, &self.view, others, f);
        Ok(())
    }
}
