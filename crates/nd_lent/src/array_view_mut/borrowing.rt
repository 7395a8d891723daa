//! A part that is lent on: one item of it, or all of them by another view.
ghost use Rattle.std.specs.Prelude.{◌≡◌, IsTrue, false, Some, get_or, slice_get};
ghost use Rattle.std.specs.Borrow.{sem};
ghost use Rattle.nd_access.specs.Part.{IsPart};

use crate::array_view_mut::ArrayViewMut;
use nd_access::Cells;
use ndarray_layout::{Lengths, Strided};
use std::marker::PhantomData;

impl<'a, T, D: Lengths> ArrayViewMut<'a, T, D> {
    ghost use Rattle.nd_lent.specs.LendsItem.{LendsItem, LendsItems};

    /// The element at a place, counted in elements from the first of the slice. The caller ensures that it has a mark.
    ///
    /// Of 7 8 9, place 1 is 8. The project's own.
    pub(crate) fn item_mut(&mut self, place: usize) -> &mut T
        requires { IsTrue (get_or self.old.cells.marks place false) }
        ensures* writes_back { sem 𝓛 (LendsItem T.row D.row self.entry place result) }
        ensures value { slice_get self.old.cells.items place ≡ Some result.now }
    {
        unsafe { &mut *self.cells.first.add(place) }
    }

    /// Another view of the same items, for a shorter time. The caller ensures that each of its indices has a place to itself, which has a
    /// mark.
    ///
    /// `[2]` from 1 of 7 8 9: 8 and 9. The project's own.
    pub(crate) fn borrowed<E: Lengths>(&mut self, view: Strided<E>) -> ArrayViewMut<'_, T, E>
        requires { IsPart self.old.cells.marks view }
        ensures* writes_back { sem 𝓛 (LendsItems T.row D.row self.entry result.cells.name) }
        ensures all { (result.cells.items ≡ self.old.cells.items) × (result.cells.marks ≡ self.old.cells.marks) × (result.view ≡ view) }
    {
        ArrayViewMut {
            cells: Cells {
                first: self.cells.first,
                mark: PhantomData,
            },
            view,
        }
    }
}
