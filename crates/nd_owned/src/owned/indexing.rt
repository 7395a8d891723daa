//! The items of an array that owns them by their indices, each lent, and swaps of two.
ghost use Rattle.std.specs.Borrow.{LendsIf, sem};
ghost use Rattle.std.specs.Option.{IsSome};
ghost use Rattle.std.specs.Prelude.{◌≡◌, ◌&&◌, ◌↔◌, IfOk, IfSome, IsTrue, None, Some, if◌then◌else◌};
ghost use Rattle.std.specs.Result.{result_err};
ghost use Rattle.ndarray_layout.specs.declared.ErrorKind.TheVariants.{OutOfBounds};
ghost use Rattle.ndarray_layout.specs.Indices.{is_index};
ghost use Rattle.nd_lent.specs.HasItems.{with_swapped};
ghost use Rattle.nd_lent.specs.Items.{item_at, with_item};

use crate::owned::OwnedArray;
use nd_access::{Cells, Reader};
use ndarray_layout::{ErrorKind, Lengths, NdIndex, ShapeError, from_kind};

impl<T: Drop, D: Lengths> OwnedArray<T, D> {
    ghost use Rattle.nd_owned.specs.contracts.owned.OwnedArray.{the_row};

    /// The item of an index, for brackets, which go on by the error: of an `Option` a loop over them would test for null.
    ///
    /// # Errors
    ///
    /// `OutOfBounds` where it is no index of the shape.
    ///
    /// Of `a`: (0) is 8, (1) is 7, and (2) an error. ndarray's `index`.
    #[doc(hidden)]
    #[inline]
    pub fn try_item<I: NdIndex<D>>(&self, index: &I) -> Result<&T, ShapeError>
        ensures fault { result_err result ≡
            (if is_index self.now.view.shape (I.index_list index.now) then None else Some OutOfBounds) }
        ensures item { IfOk result (λ item. item_at self.now (I.index_list index.now) ≡ Some item.now) }
    {
        match self.view.place(index) {
            Some(place) => Ok(Reader::of_slice(self.items.as_slice()).get(place)),
            None => Err(from_kind(ErrorKind::OutOfBounds)),
        }
    }

    /// The item of an index, to be written, as `try_item`. That the array has what is written there is tested, and in no clause; `get_mut` has one.
    ///
    /// # Errors
    ///
    /// `OutOfBounds` where it is no index of the shape.
    ///
    /// Of `a`: (0) is 8; 5 written there makes it 7 5 9. ndarray's `index_mut`.
    #[doc(hidden)]
    #[inline]
    pub fn try_item_mut<I: NdIndex<D>>(&mut self, index: &I) -> Result<&mut T, ShapeError>
        ensures fault { result_err result ≡
            (if is_index self.old.view.shape (I.index_list index.now) then None else Some OutOfBounds) }
        ensures item { IfOk result (λ item. item_at self.old (I.index_list index.now) ≡ Some item.now) }
    {
        match self.view.place(index) {
            Some(place) => {
                let alone = Cells::all_of(self.items.as_mut_slice()).take_slice(place, 1);
                Ok(&mut alone[0])
            }
            None => Err(from_kind(ErrorKind::OutOfBounds)),
        }
    }

    /// The item of an index, to be written; `None` where it is no index of the shape.
    ///
    /// Of `a`: (0) is 8; 5 written there makes it 7 5 9. ndarray's `get_mut`.
    #[inline]
    pub fn get_mut<I: NdIndex<D>>(&mut self, index: &I) -> Option<&mut T>
        ensures* writes_back { sem 𝓛 (LendsIf
            (the_row T.row D.row D.Lengths.own D.FixedCount D.PartialEq D.Debug D.Index)
            T.row self.entry result (with_item self.old (I.index_list index.now)) self.old) }
        ensures found { IsSome result ↔ IsTrue (is_index self.old.view.shape (I.index_list index.now)) }
        ensures item { IfSome result (λ item. item_at self.old (I.index_list index.now) ≡ Some item.now) }
    {
        match self.view.place(index) {
            Some(place) => Some(&mut self.items[place]),
            None => None,
        }
    }

    /// Swaps the items of two indices, and returns whether both are indices of the shape; else the array is unchanged.
    ///
    /// (0) and (1) of `a` make it 8 7 9. ndarray's `swap`, which panics where one is no index.
    #[inline]
    pub fn swap<I: NdIndex<D>, J: NdIndex<D>>(&mut self, index: &I, other: &J) -> bool
        ensures are_indices { result ≡ (is_index self.old.view.shape (I.index_list index.now)
            && is_index self.old.view.shape (J.index_list other.now)) }
        ensures swapped { self.new ≡ with_swapped self.old (I.index_list index.now) (J.index_list other.now) }
    {
        match (self.view.place(index), self.view.place(other)) {
            (Some(one), Some(other)) => {
                self.items.as_mut_slice().swap(one, other);
                true
            }
            _ => false,
        }
    }
}
