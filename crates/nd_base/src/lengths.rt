//! What all dimension types share: a value stands for its list of lengths and for nothing else.
ghost use Rattle.std.specs.Prelude.{◌≡◌, ℕ, ◌<◌, ◌↔◌, List, length, replicate, IsTrue, IsOk, IfOk, IfSome, Option, Some, slice_get};
ghost use Rattle.std.specs.Bool.{Decides};
ghost use Rattle.std.specs.Borrow.{Lends, sem, Array, u64 as word};
ghost use Rattle.nd_base.specs.Lengths.{IsCount};
ghost use Rattle.nd_base.specs.Memory.{NeedsNoMemory};

use std::alloc::{AllocError, Global};
use std::fmt::Debug;
use std::ops::IndexMut;

/// The number of lengths that an `IxDyn` keeps in the value itself, without memory. The project's
/// own.
pub const INLINE_AXES: usize = 4;

/// The number of axes of every value of a type, where the type fixes that.
pub trait FixedCount {
    ghost NDIM: { Option ℕ };

    /// The count of axes, or `None` where values of the type may differ in it. ndarray's `NDIM`.
    const NDIM: Option<usize>;
}

/// A list of lengths, or of the coordinates of an index: one number for each axis, in order. What
/// the values of a type do depends on this list alone. The part of ndarray's `Dimension` that needs
/// no other trait.
pub trait Lengths: FixedCount + Eq + Debug + IndexMut<usize, Output = usize> + Drop {
    // The list that a value stands for.
    ghost list: { Self → List ℕ };

    // The value that stands for another list of as many lengths.
    ghost with_list: { Self → List ℕ → Self };

    /// The number of axes. ndarray's `ndim`.
    fn ndim(&self) -> usize
        ensures count { result ≡ length (list self.now) }
        ensures fixed { IsCount Self.NDIM (length (list self.now)) };

    /// The lengths, in order. ndarray's `slice`.
    fn slice(&self) -> &[usize]
        ensures list { result.now ≡ list self.now }
        ensures fixed { IsCount Self.NDIM (length (list self.now)) };

    /// The lengths, to be written; their count is fixed. ndarray's `slice_mut`.
    fn slice_mut(&mut self) -> &mut [usize]
        ensures* writes_back { sem 𝓛
            (Lends Self.row (Array word 0) self.entry result (with_list self.old)) }
        ensures list { result.now ≡ list self.old };

    /// Whether both stand for one list.
    ///
    /// Takes time in proportion to the count of axes. ndarray's `equal`.
    fn equal(&self, other: &Self) -> bool
        ensures { IsTrue result ↔ (list self.now ≡ list other.now) };

    /// `n` zeros.
    ///
    /// The caller ensures that the type allows `n` axes.
    ///
    /// # Errors
    ///
    /// Out of memory; never where the type fixes the count or `n` is at most 4 (`INLINE_AXES`).
    ///
    /// Takes time in proportion to the count of axes. ndarray's `zeros`.
    fn zeros(alloc: Global, n: usize) -> Result<Self, AllocError>
    where
        Self: Sized,
        requires { IsCount Self.NDIM n }
        ensures list { IfOk result (λ d. list d ≡ replicate n 0) }
        ensures memory { NeedsNoMemory Self.NDIM n → IsOk result };

    /// The same list in a value of its own.
    ///
    /// # Errors
    ///
    /// Out of memory; never where the type fixes the count or there are at most 4 axes.
    ///
    /// Takes time in proportion to the count of axes. In place of ndarray's `Clone`.
    fn duplicate(&self, alloc: Global) -> Result<Self, AllocError>
    where
        Self: Sized,
        ensures list { IfOk result (λ d. list d ≡ list self.now) }
        ensures memory { NeedsNoMemory Self.NDIM (length (list self.now)) → IsOk result };

    /// A copy of the list where the type fixes its count, which takes no memory; else `None`.
    ///
    /// Takes time in proportion to the count of axes. In place of ndarray's `Copy`.
    fn copied(&self) -> Option<Self>
    where
        Self: Sized,
        ensures list { IfSome result (λ d. list d ≡ list self.now) };

    // `==` says whether both lists are equal.
    ghost eq_of_lists: { (d e : Self) → Decides (Self.PartialEq.eq d e) (list d ≡ list e) };

    // Lists of one count replace one another.
    ghost list_of_with_list: { (d : Self) (xs : List ℕ) → length xs ≡ length (list d)
        → list (with_list d xs) ≡ xs };

    // Each axis can be indexed,
    ghost can_index_below: { (d : Self) (i : ℕ) → i < length (list d) → Self.can_index d i };

    // and shows its length.
    ghost index_is: { (d : Self) (i v : ℕ) → Self.index_gives d i v
        → slice_get (list d) i ≡ Some v };
}
