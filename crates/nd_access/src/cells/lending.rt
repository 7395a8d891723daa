//! The right to the elements at the places of a view, taken of that to more, which a proof knows once it is put back.
ghost use Rattle.std.specs.Prelude.{◌≡◌, length};
ghost use Rattle.nd_access.specs.Cells.{without};
ghost use Rattle.nd_access.specs.Part.{IsPart, marks_of};

use crate::cells::{Cells, Taken};
use ndarray_layout::{Lengths, Strided};

impl<'a, T> Cells<'a, T> {
    ghost use Rattle.nd_access.specs.Rights.{right_of};

    /// `take_view`, and what `put_back` needs to put the part and the rest together again.
    ///
    /// Of 7 8 9 by `[2]`, `[2]` from 0: one may write 7 and 9, the other 8. The project's own.
    #[inline]
    pub fn lend_view<D: Lengths>(&mut self, view: &Strided<D>) -> (Self, Taken<'a, T>)
        requires { IsPart self.old.marks view.now }
        ensures items { result.0.items ≡ self.old.items }
        ensures part { IsPart result.0.marks view.now }
        ensures marks { result.0.marks ≡ marks_of (length self.old.marks) view.now }
        ensures kept { self.new.items ≡ self.old.items }
        ensures left { self.new.marks ≡ without (marks_of (length self.old.marks) view.now) self.old.marks }
        ensures counted { length self.new.marks ≡ length self.old.marks }
        ensures home { result.1.home ≡ right_of self.old }
        ensures rest { result.1.rest ≡ right_of self.new }
        ensures taken { result.1.part ≡ right_of result.0 }
    {
        self.lend_part(view)
    }
}
