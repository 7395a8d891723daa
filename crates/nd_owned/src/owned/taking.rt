//! The items of an array that owns them, moved out of it.
ghost use Rattle.std.specs.List.{All, AllPairs};
ghost use Rattle.std.specs.Option.{IsSome};
ghost use Rattle.std.specs.Prelude.{◌≡◌, ◌≢◌, ◌+◌, ◌-◌, ◌<◌, ◌≤◌, ◌∷◌, ◌++◌, [], pos, Some, None, IfOk, IsOk, length, map};
ghost use Rattle.std.specs.Prelude.{set, take, drop, vec_capacity, vec_len};
ghost use Rattle.ndarray_layout.specs.declared.Order.TheVariants.{RowMajor};
ghost use Rattle.ndarray_layout.specs.Stretch.{IsStretch};
ghost use Rattle.ndarray_layout.specs.View.{view_places};
ghost use Rattle.nd_lent.specs.Items.{IsOwned, item_at_place};
ghost use Rattle.nd_owned.specs.private.Left.{left_at};

use crate::owned::OwnedArray;
use ndarray_layout::{Lengths, Order, Places, Strided};
use std::alloc::{AllocError, Global};
use std::ops::Range;

impl<T: Drop, D: Lengths> OwnedArray<T, D> {
    /// The list of the items of all indices, in row-major order. Spare items are dropped, and it ends the array.
    ///
    /// Where the items lie in this order one after another they stay in their list. Else each is moved to a new one.
    ///
    /// # Errors
    ///
    /// Out of memory; never where the items lie in row-major order one after another.
    ///
    /// Of `a`: 8 7. ndarray's `into_iter`.
    pub fn into_list(self, alloc: Global) -> Result<Vec<T>, AllocError>
        ensures items { IfOk result (λ list. map Some list.items ≡
            map (item_at_place self.items) (view_places RowMajor self.view)) }
        ensures memory { IsStretch RowMajor self.view → IsOk result }
    {
        let OwnedArray { items, view } = self;
        match view.stretch(Order::RowMajor) {
            Some(places) => Ok(items_between(items, places)),
            None => items_in_order(alloc, items, &view),
        }
    }
}

/// The items of a range; all others are dropped.
fn items_between<T: Drop>(mut items: Vec<T>, places: Range<usize>) -> Vec<T>
    requires from { places.start ≤ places.end }
    requires to { places.end ≤ vec_len items }
    ensures { result.items ≡ take (places.end - places.start) (drop places.start items.items) }
{
    items.truncate(places.end);
    drop(items.drain(..places.start));
    items
}

/// The items at the places of a view, in row-major order; all others are dropped.
fn items_in_order<T: Drop, D: Lengths>(
    alloc: Global,
    items: Vec<T>,
    view: &Strided<D>,
) -> Result<Vec<T>, AllocError>
    requires { IsOwned (length items.items) view.now }
    ensures { IfOk result (λ list. map Some list.items ≡
        map (item_at_place items.items) (view_places RowMajor view.now)) }
{
    let taken = Vec::with_capacity(alloc, view.len())?;
    let mut left = all_left(alloc, items)?;
    let places = view.iter_places(Order::RowMajor);
    let list = take_items(taken, left.as_mut_slice(), places);
    // Before the result is made: if a spare item panics as it is dropped, the list is dropped too.
    drop(left);
    Ok(list)
}

/// The items of a list, of which each may be taken.
fn all_left<T: Drop>(alloc: Global, items: Vec<T>) -> Result<Vec<Option<T>>, AllocError>
    ensures { IfOk result (λ left. left.items ≡ map Some items.items) }
{
    let mut left = Vec::with_capacity(alloc, items.len())?;
    for item in items {
        left.push_reserved(Some(item));
    }
    Ok(left)
}

/// Moves the items at places, of which none comes twice, to the end of a list with room for them.
fn take_items<T: Drop>(mut taken: Vec<T>, left: &mut [Option<T>], places: Places<'_>) -> Vec<T>
    requires left { All (λ place. IsSome (left_at left.old place)) places }
    requires distinct { AllPairs (λ one other. one ≢ other) places }
    requires room { vec_len taken + length places ≤ vec_capacity taken }
    ensures { map Some result.items ≡ map Some taken.items ++ map (left_at left.old) places.entry }
{
    for place in places {
        taken = take_item(taken, left, place);
    }
    taken
}

/// Moves the item at a place to the end of a list with room for it. The list is passed by value: through a reference its length would be
/// written at each item.
#[inline(always)]
fn take_item<T: Drop>(mut taken: Vec<T>, left: &mut [Option<T>], place: usize) -> Vec<T>
    requires left { IsSome (left_at left.old (pos place)) }
    requires room { vec_len taken < vec_capacity taken }
    ensures items { map Some result.items ≡ map Some taken.items ++ left_at left.old (pos place) ∷ [] }
    ensures left { left.new ≡ set left.old place None }
    ensures len { vec_len result ≡ vec_len taken + 1 }
    ensures capacity { vec_capacity taken ≤ vec_capacity result }
{
    if let Some(item) = left[place].take() {
        taken.push_reserved(item);
    }
    taken
}
