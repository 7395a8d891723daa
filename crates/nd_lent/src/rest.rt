//! Parts that are taken of the items of a slice, used at once, and put back.
ghost use Rattle.std.specs.Prelude.{◌≡◌, length};
ghost use Rattle.nd_access.specs.Cells.{chosen_of, without};
ghost use Rattle.nd_access.specs.Part.{IsPart, marks_of};

use crate::array_view_mut::ArrayViewMut;
use nd_access::{Cells, Taken};
use ndarray_layout::{Lengths, Strided};
use std::marker::Model;

/// The items of a slice that no part has: `Whole::rest` has them all, `take` lends some as a part, and `put_back` brings them again.
///
/// Of 7 8 9 by `[2]`, `[2]` from 0: the part has 7 and 9, the rest 8. The project's own.
#[derive(Drop)]
pub struct Rest<'a, T> {
    pub(crate) cells: Cells<'a, T>,
}

impl<'a, T> Model for Rest<'a, T> {
    ghost use Rattle.nd_access.specs.Rights.{right_of};
    ghost use Rattle.nd_lent.specs.RestValue.{RestValue};

    ghost Value = { RestValue T };

    ghost view = { λ rest. record { items = rest.cells.items; access = right_of rest.cells } };
}

impl<'a, T> Rest<'a, T> {
    ghost use Rattle.nd_lent.specs.Lent.{access_of, array_of};

    /// The part of all indices of a view, and what is needed to put it back. It may be used beside those that were taken before, and
    /// in a thread. The caller ensures that each index has an item to itself, which no other part has. Takes no memory.
    ///
    /// `[2]`, `[2]` from 0 of 7 8 9: (0) of the part is 7, (1) is 9. The project's own.
    pub fn take<D: Lengths>(&mut self, view: Strided<D>) -> (ArrayViewMut<'a, T, D>, Taken<'a, T>)
        requires { IsPart self.old.access.marks view }
        ensures items { (array_of result.0).items ≡ self.old.items }
        ensures view { (array_of result.0).view ≡ view }
        ensures rest_items { self.new.items ≡ self.old.items }
        ensures marks { (access_of result.0).marks ≡ marks_of (length self.old.access.marks) view }
        ensures rest_marks { self.new.access.marks ≡
            without (marks_of (length self.old.access.marks) view) self.old.access.marks }
        ensures counted { length self.new.access.marks ≡ length self.old.access.marks }
        ensures home { result.1.home ≡ self.old.access }
        ensures rest { result.1.rest ≡ self.new.access }
        ensures part { result.1.part ≡ access_of result.0 }
    {
        let (cells, taken) = self.cells.lend_view(&view);
        (ArrayViewMut { cells, view }, taken)
    }

    /// The part is put back: the rest holds its items as it left them, and the others as they were. The caller ensures that each part
    /// that was taken since was put back before. Takes no memory.
    ///
    /// `[2]`, `[2]` from 0 of 7 8 9 with 5 set at (1): 7 8 5. The project's own.
    pub fn put_back<D: Lengths>(&mut self, part: ArrayViewMut<'a, T, D>, taken: Taken<'a, T>)
        requires rest { self.old.access ≡ taken.rest }
        requires part { access_of part ≡ taken.part }
        ensures items { self.new.items ≡
            chosen_of (access_of part.entry).marks (array_of part.entry).items self.old.items }
        ensures home { self.new.access ≡ taken.entry.home }
    {
        self.cells.put_back(part.into_cells(), taken);
    }
}
