//! The right to the elements at the places of a view, taken of that to more.
ghost use Rattle.std.specs.Prelude.{◌≡◌, length};
ghost use Rattle.nd_access.specs.Cells.{without};
ghost use Rattle.nd_access.specs.Part.{IsPart, marks_of};

use crate::cells::Cells;
use ndarray_layout::{Lengths, Strided};

impl<'a, T> Cells<'a, T> {
    /// The right to the elements at the places of a view, for as long as the whole is lent; that to the others stays. The caller ensures
    /// that each index has a place to itself, which has a mark.
    ///
    /// Of 7 8 9 by `[2]`, `[2]` from 0: one may write 7 and 9, the other 8. The project's own.
    #[inline]
    pub fn take_view<D: Lengths>(&mut self, view: &Strided<D>) -> Self
        requires { IsPart self.old.marks view.now }
        ensures items { result.items ≡ self.old.items }
        ensures part { IsPart result.marks view.now }
        ensures kept { self.new.items ≡ self.old.items }
        ensures left { self.new.marks ≡ without (marks_of (length self.old.marks) view.now) self.old.marks }
    {
        self.take_part(view)
    }
}
