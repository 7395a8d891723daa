//! The items of an array with their indices one after another, lent to be read or to be written.
ghost use Rattle.std.specs.List.{All};
ghost use Rattle.std.specs.Prelude.{◌≡◌, IfErr, IfOk, IsOk, List, MatchOption, Option, Some, [], ◌∷◌, length, zip};
ghost use Rattle.ndarray_layout.specs.Memory.{NeedsNoMemory};
ghost use Rattle.std.proofs.Props.{props};
ghost use Rattle.nd_items.specs.ItemsLeft.{items_left};

use crate::items::IterMut;
use crate::iterating::{IterOf, ViewIter};
use crate::next_index::NextIndex;
use ndarray_layout::{Dimension, Lengths, SlowerAxes};
use std::alloc::{AllocError, Global};

/// Items that are lent one after another.
pub trait LentItems: Sized + Drop {
    /// What they are.
    type Of;

    /// One of them, lent.
    type Lent;

    // Those that are left.
    ghost left: { Self → List (Option Self.Of) };

    // What a contract sees of one that is lent.
    ghost value: { Self.Lent → Self.Of };

    /// The next item; `None` where none is left.
    fn lend(&mut self) -> Option<Self::Lent>
        ensures { MatchOption result ((left self.old ≡ []) × (left self.new ≡ []))
            (λ item. left self.old ≡ Some (value item) ∷ left self.new) };

    /// How many are left.
    fn count_left(&self) -> usize
        ensures { result ≡ length (left self.now) };
}

impl<'a, T, A: SlowerAxes> LentItems for IterOf<'a, T, A> {
    type Of = T;

    type Lent = &'a T;

    ghost left = { λ left. left };

    ghost value = { λ item. item.now };

    #[inline(always)]
    fn lend(&mut self) -> Option<&'a T> {
        self.next()
    }

    #[inline(always)]
    fn count_left(&self) -> usize {
        self.len()
    }
}

impl<'a, T, D: Lengths> LentItems for IterMut<'a, T, D> {
    type Of = T;

    type Lent = &'a mut T;

    ghost left = { items_left };

    ghost value = { λ item. item.now };

    #[inline(always)]
    fn lend(&mut self) -> Option<&'a mut T> {
        Iterator::next(self)
    }

    #[inline(always)]
    fn count_left(&self) -> usize {
        self.len()
    }
}

/// The items of an array that are still to come, each with its index, in row-major order, lent: `IndexedIter` to be read,
/// `IndexedIterMut` to be written.
#[derive(Drop)]
pub struct IndexedOf<I: LentItems, D: Lengths> {
    items: I,
    index: NextIndex<D>,
    ghost alike: { length index ≡ length (I.left items) } by { Prim.hlevel props },
}

/// The items of an array that are still to come, each with its index, in row-major order, lent for as long as the data is. ndarray's
/// `IndexedIter`.
pub type IndexedIter<'a, T, D> = IndexedOf<ViewIter<'a, T, D>, D>;

/// The items of a part that are still to come, each with its index, in row-major order, lent to be written. ndarray's
/// `IndexedIterMut`.
pub type IndexedIterMut<'a, T, D> = IndexedOf<IterMut<'a, T, D>, D>;

impl<I: LentItems, D: Lengths> IndexedOf<I, D> {
    ghost use Rattle.nd_items.specs.IndexedLeft.{indexed_left};

    /// These items, with these indices. The caller ensures that they are as many.
    #[doc(hidden)]
    #[inline]
    pub fn of_items(items: I, index: NextIndex<D>) -> Self
        requires { length index ≡ length (I.left items) }
        ensures items { indexed_left result ≡ zip index (I.left items) }
        ensures kept { result.items ≡ items }
    {
        IndexedOf { items, index }
    }

    /// How many items are left.
    ///
    /// Of `[2,3]`: 6. ndarray's `len`.
    #[inline]
    pub fn len(&self) -> usize
        ensures { result ≡ length (indexed_left self.now) }
    {
        self.items.count_left()
    }

    /// The items that are left, and their indices. For a `fold` row by row.
    #[inline]
    #[doc(hidden)]
    pub fn into_items_at(self) -> (I, NextIndex<D>)
        ensures items { zip result.1 (I.left result.0) ≡ indexed_left self }
        ensures count { length result.1 ≡ length (I.left result.0) }
    {
        let IndexedOf { items, index } = self;
        (items, index)
    }
}

impl<I: LentItems, D: Dimension> IndexedOf<I, D> {
    ghost use Rattle.nd_items.specs.IndexedLeft.{indexed_left};

    /// The next item, after its index; `None` where none is left. That items to be written keep what is written is tested, and in no
    /// clause.
    ///
    /// # Errors
    ///
    /// Out of memory; never where the type fixes the count of axes, there are at most 4, or none is left. The iterator is unchanged
    /// after it.
    ///
    /// Takes the time of a place (`Strided::into_places`), and in all as much again for the indices.
    ///
    /// Of `[2,2]` over 5 6 7 8: 5 at (0, 0), then 6 at (0, 1), 7 at (1, 0), 8 at (1, 1), and then `None`. ndarray's `next`.
    #[inline(always)]
    pub fn try_next(&mut self, alloc: Global) -> Result<Option<(D::Pattern, I::Lent)>, AllocError>
        ensures memory { All (λ pair. NeedsNoMemory D.FixedCount.NDIM (length pair.0)) (indexed_left self.old) →
            IsOk result }
        ensures unchanged { IfErr result (λ _. indexed_left self.new ≡ indexed_left self.old) }
        ensures first { IfOk result (λ next. MatchOption next
            ((indexed_left self.old ≡ []) × (indexed_left self.new ≡ []))
            (λ pair. indexed_left self.old ≡
            (D.Pattern.lens pair.0, Some (I.value pair.1)) ∷ indexed_left self.new)) }
    {
        let Some(index) = self.index.take(alloc)? else {
            return Ok(None);
        };
        match self.items.lend() {
            Some(item) => Ok(Some((index.into_pattern(), item))),
            None => Ok(None),
        }
    }
}
