//! Arrays of one shape, gone over side by side.
ghost use Rattle.std.specs.Prelude.{◌≡◌, ◌≤◌, ◌↔◌, IsOk, OnErr, OnOk, Some, length};
ghost use Rattle.std.specs.Result.{result_err};
ghost use Rattle.ndarray_layout.specs.declared.ErrorKind.TheVariants.{IncompatibleShape};
ghost use Rattle.nd_access.specs.HasItems.{HasItemsOf, KeepsSpare};
ghost use Rattle.nd_access.specs.Mapped.{CallsMake, row_major_items};
ghost use Rattle.nd_access.specs.Zipped.{ActsBeside, CallableBesideEach, CalledBeside};
ghost use Rattle.nd_lent.specs.Zip.{row_major_beside, zipped_beside};
ghost use Rattle.nd_loops.specs.Beside.{shown_beside};
ghost use Rattle.nd_loops.specs.LentLayout.{array_of_lent};

use crate::array_view::ArrayView;
use crate::array_view_mut::ArrayViewMut;
use nd_loops::{Beside, LentView};
use ndarray_layout::{Lengths, ShapeError};

/// A part of an array, and other arrays of its shape that are read beside it. ndarray's `Zip`, of which the first array is written, and
/// the others are read.
#[derive(Drop)]
pub struct Zip<P, C> {
    part: P,
    beside: C,
}

impl<'z, 'a, T: Drop, D: Lengths> Zip<&'z mut ArrayViewMut<'a, T, D>, ()> {
    /// The part alone, which is to be written. ndarray's `from`.
    pub fn from(part: &'z mut ArrayViewMut<'a, T, D>) -> Self
        ensures same_reference { result.part.ghost_name ≡ part.entry.ghost_name }
        ensures part { result.part.now ≡ part.old }
    {
        Zip { part, beside: () }
    }
}

impl<'z, 'a, T: Drop, D: Lengths, C: Beside> Zip<&'z mut ArrayViewMut<'a, T, D>, C> {
    ghost use Rattle.nd_lent.specs.Lent.{access_of, array_of};

    /// The same with another array beside it, to be read. `for_each` looks whether it has the shape. ndarray's `and`.
    pub fn and<U>(
        self,
        other: &'z ArrayView<'_, U, D>,
    ) -> Zip<&'z mut ArrayViewMut<'a, T, D>, (C, LentView<'z, U>)>
        ensures same_reference { result.part.ghost_name ≡ self.entry.part.ghost_name }
        ensures part { result.part.now ≡ self.entry.part.now }
        ensures beside { result.beside.0 ≡ self.entry.beside }
        ensures shape { result.beside.1.lens ≡ other.now.view.shape }
        ensures array { array_of_lent result.beside.1 ≡ other.now }
    {
        let Zip { part, beside } = self;
        Zip {
            part,
            beside: (beside, other.beside()),
        }
    }

    /// Calls a closure at each item of the part and at those of the same index of the others, in row-major order, to change the first
    /// in place. Other items are unchanged. The closure is shown the others' items as nested pairs: `|a, ((((), b), c), d)|`.
    ///
    /// Takes no memory. Goes over the longest rows that the axes of all allow: arrays whose items follow one another are a loop over
    /// slices; in others each index takes the time of its place in each array.
    ///
    /// The caller ensures that at most five arrays are beside the part.
    ///
    /// # Errors
    ///
    /// `IncompatibleShape` where another array has another shape; the items are unchanged, and the closure isn't called. (A shape that
    /// can be broadcast is an error too: `ArrayView::broadcast` comes first.)
    ///
    /// `|a, (((), b), c)| *a += b * c` at `[2]` with 5 6 and 3 4 beside 7 8: 22 32. ndarray's `for_each`.
    #[inline(always)]
    pub fn for_each_nested<F: FnMut(&mut T, C::Item)>(self, f: F) -> Result<(), ShapeError>
        requires few { length (C.layouts self.beside) ≤ 5 }
        requires callable { C.have_shape self.beside (array_of self.part.now).view.shape →
            CallableBesideEach (shown_beside C.value) F.FnMut
            (row_major_beside (array_of self.part.now) (C.at self.beside)) f }
        ensures fits { IsOk result ↔ C.have_shape self.entry.beside (array_of self.entry.part.now).view.shape }
        ensures fault { OnErr result (result_err result ≡ Some IncompatibleShape) }
        ensures unchanged { OnErr result (array_of self.exit.0.now ≡ array_of self.entry.part.now) }
        ensures ran { OnOk result (CallsMake (CalledBeside (shown_beside C.value) F.FnMut) f
            (row_major_beside (array_of self.entry.part.now) (C.at self.entry.beside))
            (row_major_items (array_of self.exit.0.now))) }
        ensures zipped { OnOk result ((h : T × C.Value → T) → ActsBeside (shown_beside C.value) F.FnMut f h → HasItemsOf
            (zipped_beside h (array_of self.entry.part.now) (C.at self.entry.beside))
            (array_of self.entry.part.now) (array_of self.exit.0.now)) }
        ensures view { (array_of self.exit.0.now).view ≡ (array_of self.entry.part.now).view }
        ensures spare { KeepsSpare (array_of self.entry.part.now) (array_of self.exit.0.now) }
        ensures keeps_access { access_of self.exit.0.now ≡ access_of self.entry.part.now }
    {
        let Zip { part, beside } = self;
        part.zip_mut_with_all(beside, f)
    }
}
