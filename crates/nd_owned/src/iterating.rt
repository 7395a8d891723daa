//! The items of an array one after another, without a list of them.
ghost use Rattle.std.specs.Iterator.{UpTo, YieldsFirstBy, YieldsLastBy, item_count};
ghost use Rattle.std.specs.Iterator.Runs.{EveryRun, ItemsMapTo};
ghost use Rattle.std.specs.Iterator.SizeHint.{IsWithinCount};
ghost use Rattle.std.specs.Prelude.{◌≡◌, IfSome, List, Option, Some, length, map};
ghost use Rattle.ndarray_layout.specs.declared.Order.TheVariants.{RowMajor};
ghost use Rattle.ndarray_layout.specs.Size.{size};
ghost use Rattle.ndarray_layout.specs.View.{view_places};
ghost use Rattle.nd_lent.specs.Items.{IsOwned, item_at_place};

use crate::owned::OwnedArray;
use nd_lent::Iter;
use ndarray_layout::Lengths;
use std::iter::FusedIterator;
use std::marker::Model;

/// Copies of the items of an array that are still to come, in row-major order of their indices. A contract sees the
/// list of them.
#[derive(Drop)]
pub struct Items<'a, T: Copy> {
    lent: Iter<'a, T>,
}

impl<'a, T: Copy> Model for Items<'a, T> {
    ghost use Rattle.std.specs.Prelude.{List, Option};

    ghost Value = { List (Option T) };

    ghost view = { λ items. items.lent };
}

impl<'a, T: Copy> Items<'a, T> {
    /// An iterator over copies of the items that another one lends.
    ///
    /// Of one over 7 8 9 it gives 7 8 9. std's `copied`, as a type with a name.
    #[inline]
    pub fn new(lent: Iter<'a, T>) -> Self
        ensures { result ≡ lent.entry }
    {
        Items { lent }
    }
}

impl<T: Copy> Iterator for Items<'_, T> {
    type Item = T;

    ghost next_gives = { YieldsFirstBy Some (λ left. left) };

    ghost remaining = { item_count (λ left. left) };

    #[inline]
    fn next(&mut self) -> Option<T> {
        self.lent.next().copied()
    }

    fn size_hint(&self) -> (usize, Option<usize>)
        ensures lower { IsWithinCount result.0 (item_count (λ left. left) self.now) }
        ensures upper { IfSome result.1 (UpTo (item_count (λ left. left) self.now)) }
        ensures exact { (result.0 ≡ length self.now) × (result.1 ≡ Some (length self.now)) }
    {
        self.lent.size_hint()
    }
}

impl<T: Copy> DoubleEndedIterator for Items<'_, T> {
    ghost next_back_gives = { YieldsLastBy Some (λ left. left) };

    #[inline]
    fn next_back(&mut self) -> Option<T> {
        self.lent.next_back().copied()
    }
}

impl<T: Copy> ExactSizeIterator for Items<'_, T> {
    fn len(&self) -> usize {
        self.lent.len()
    }
}

impl<T: Copy> FusedIterator for Items<'_, T> {}

impl<T: Copy, D: Lengths> OwnedArray<T, D> {
    /// An iterator over copies of the items of all indices, in row-major order (the last axis moves fastest), which
    /// knows how many are left. Spare items aren't among them.
    ///
    /// Takes no memory, and lists nothing. An item takes the time of its place (`Strided::iter_places`) and of a copy.
    ///
    /// `a.iter()` gives 8 7. ndarray's `iter`, which lends each item.
    pub fn iter(&self) -> Items<'_, T>
        ensures items { result ≡ map (item_at_place self.now.items)
            (view_places RowMajor self.now.view) }
        ensures count { length result ≡ size self.now.view.shape }
        ensures in_order { EveryRun (YieldsFirstBy Some (λ (left : List (Option T)). left))
            (λ turns. ItemsMapTo turns Some turns.from) }
        ensures owned { IsOwned (length self.now.items) self.now.view }
    {
        Items::new(Iter::new(self.strided(), self.stored()))
    }
}
