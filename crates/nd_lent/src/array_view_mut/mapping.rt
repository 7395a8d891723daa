//! Calls of a closure at all items of a part.
ghost use Rattle.std.specs.Fn.{CalledAtMut};
ghost use Rattle.std.specs.Option.{option_map};
ghost use Rattle.std.specs.Prelude.{◌≡◌};
ghost use Rattle.nd_loops.specs.AnyOrder.{CallsMakeArrayInSomeOrder, InAnyOrder};
ghost use Rattle.nd_access.specs.HasItems.{HasItemsOf, KeepsSpare};
ghost use Rattle.nd_access.specs.Items.{item_at};
ghost use Rattle.nd_access.specs.Mapped.{ActsAsAtMut, CallableOnEachMut, CallsMake, row_major_items};

use crate::array_view_mut::ArrayViewMut;
use nd_loops::{map_nearest, map_view};
use ndarray_layout::Lengths;

impl<'a, T: Drop, D: Lengths> ArrayViewMut<'a, T, D> {
    ghost use Rattle.nd_lent.specs.Lent.{access_of, array_of};

    /// Calls a closure at the item of each index, in row-major order, to change it in place. Other items are unchanged.
    ///
    /// Takes no memory. Goes over the longest rows that the axes allow (`Strided::joined_rows`).
    ///
    /// `|item| *item *= 2` at `[2]`, `[-1]` from 1 over 7 8 9: 14 16 9. ndarray's `map_inplace`.
    pub fn map_in_place<F: FnMut(&mut T)>(&mut self, f: F)
        requires { CallableOnEachMut F.FnMut (row_major_items (array_of self.old)) f }
        ensures ran { CallsMake (λ p x y q. CalledAtMut F.FnMut p x tt q y) f
            (row_major_items (array_of self.old)) (row_major_items (array_of self.new)) }
        ensures mapped { (h : T → T) → ActsAsAtMut F.FnMut f h → HasItemsOf
            (λ index. option_map h (item_at (array_of self.old) index))
            (array_of self.old) (array_of self.new) }
        ensures view { (array_of self.new).view ≡ (array_of self.old).view }
        ensures spare { KeepsSpare (array_of self.old) (array_of self.new) }
        ensures keeps_access { access_of self.new ≡ access_of self.old }
    {
        map_view(&mut self.cells, &self.view, f);
    }

    /// Calls a closure at the item of each index, each once, to change it in place, in the order in which they lie: that in which
    /// ndarray goes. Other items are unchanged.
    ///
    /// It is `map_in_place` for a closure that needs no order. Takes no memory. With at most 6 axes it goes over the longest rows that
    /// the axes allow once they are turned and sorted (`Strided::nearest`), so that a part that is transposed, mirrored or column-major
    /// is one row as well, where its items lie side by side; with more axes as `map_in_place` does.
    ///
    /// `|item| *item *= 2` at `[2]`, `[-1]` from 1 over 7 8 9: at 7, then at 8, 14 16 9. ndarray's `map_inplace`.
    pub fn map_in_place_nearest<F: FnMut(&mut T)>(&mut self, f: F)
        requires { InAnyOrder (λ items. CallableOnEachMut F.FnMut items f)
            (row_major_items (array_of self.old)) }
        ensures ran { CallsMakeArrayInSomeOrder (λ p x y q. CalledAtMut F.FnMut p x tt q y) f
            (array_of self.old) (array_of self.new) }
        ensures mapped { (h : T → T) → ActsAsAtMut F.FnMut f h → HasItemsOf
            (λ index. option_map h (item_at (array_of self.old) index))
            (array_of self.old) (array_of self.new) }
        ensures view { (array_of self.new).view ≡ (array_of self.old).view }
        ensures spare { KeepsSpare (array_of self.old) (array_of self.new) }
        ensures keeps_access { access_of self.new ≡ access_of self.old }
    {
        map_nearest(&mut self.cells, &self.view, 0, f);
    }
}
