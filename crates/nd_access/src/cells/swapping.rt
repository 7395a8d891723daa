//! Two elements of a slice that are swapped, whatever lies between them.
ghost use Rattle.std.specs.List.{swap};
ghost use Rattle.std.specs.Prelude.{◌≡◌, IsTrue, false, get_or};

use crate::cells::Cells;
use std::mem::swap;

impl<'a, T> Cells<'a, T> {
    ghost use Rattle.nd_access.specs.Rights.{right_of};

    /// Swaps the elements at two places. The caller ensures that each has a mark.
    ///
    /// Of 7 8 9, the first and the third: 9 8 7. The project's own.
    pub fn swap(&mut self, one: usize, other: usize)
        requires one { IsTrue (get_or self.old.marks one false) }
        requires other { IsTrue (get_or self.old.marks other false) }
        ensures swapped { self.new.items ≡ swap self.old.items one other }
        ensures keeps_access { right_of self.new ≡ right_of self.old }
    {
        if one == other {
            return;
        }
        let (mut part, taken) = self.lend_part(&other);
        swap(self.item_mut(one), part.item_mut(other));
        self.put_back(part, taken);
    }
}
