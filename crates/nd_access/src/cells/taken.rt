//! The right to some elements, taken of that to all and put back, under the name that it had.
ghost use Rattle.std.specs.Prelude.{◌≡◌, Bool, IsTrue, List};
ghost use Rattle.nd_access.specs.Cells.{are_within, chosen_of, without};
ghost use Rattle.nd_access.specs.Right.{Right};
ghost use Rattle.nd_access.specs.Slot.{holds_slot};

use crate::cells::Cells;
use std::marker::{Model, PhantomData};

/// What is kept for a part that is out: by it the rest has the part's items again, under the name that it had. It has no size.
///
/// Of 7 8 9 and a part with 8: that the rest has 7 and 9, and had all three. The project's own.
#[derive(Drop)]
pub struct Taken<'a, T> {
    mark: PhantomData<&'a mut T>,
    ghost home: { Right },
    ghost rest: { Right },
    ghost part: { Right },
}

impl<'a, T> Model for Taken<'a, T> {
    ghost also_owns = { λ t. holds_slot 'a T.row t.home t.rest t.part };
}

impl<'a, T> Cells<'a, T> {
    ghost use Rattle.nd_access.specs.Rights.{right_of};

    /// `take_part`, and what `put_back` needs to put the part and the rest together again.
    ///
    /// Of 7 8 9 with the first and third chosen: one may write 7 and 9, the other 8. The project's own.
    pub fn lend_part<V>(&mut self, _by: &V) -> (Self, Taken<'a, T>)
        ghost chosen: { List Bool }
        requires { IsTrue (are_within chosen self.old.marks) }
        ensures all { (result.1.home ≡ right_of self.old) × (result.1.rest ≡ right_of self.new) × (result.1.part ≡ right_of result.0)
            × (result.0.marks ≡ chosen) × (self.new.marks ≡ without chosen self.old.marks)
            × (result.0.items ≡ self.old.items) × (self.new.items ≡ self.old.items) }
    {
        (
            Cells {
                first: self.first,
                mark: PhantomData,
            },
            Taken { mark: PhantomData },
        )
    }

    /// A part is put back. The caller ensures that it and the rest are those that `lend_part` left.
    ///
    /// Of 7 8 9, 8 stays, and 7 and 9 come back as 1 and 2: 1 8 2. The project's own.
    pub fn put_back(&mut self, part: Self, taken: Taken<'a, T>)
        requires { (right_of self.old ≡ taken.rest) × (right_of part ≡ taken.part) }
        ensures all { (right_of self.new ≡ taken.entry.home)
            × (self.new.items ≡ chosen_of part.entry.marks part.entry.items self.old.items) }
    {
        let Taken { mark: _ } = taken;
        let Cells { first: _, mark: _ } = part;
    }
}
