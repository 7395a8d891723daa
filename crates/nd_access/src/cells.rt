//! The right to read and write some elements of a slice, whatever lies between them.
ghost use Rattle.std.specs.Prelude.{◌≡◌, ◌+◌, ◌≤◌, Bool, IsTrue, true, false, Some, List, length, get_or, slice_get, take, drop, replicate};
ghost use Rattle.std.specs.Borrow.{sem};
ghost use base.Fml.{GName};
ghost use denote.Array.{Array};
ghost use denote.Follow.{follows_both};
ghost use Rattle.nd_access.specs.Cells.{are_within, chosen_of, holds_cells, shows_cells, span_of, without, written_at};
ghost use Rattle.nd_access.specs.Reader.{reads_cells};

mod finishing;
mod lending;
mod parts;
mod readers;
mod swapping;
mod taken;

use std::marker::{Model, PhantomData, Send, Sync};
use std::slice::{from_raw_parts, from_raw_parts_mut};
pub use taken::Taken;

/// The right to read and write some elements of a slice, at the price of a pointer: those that have a mark. A proof knows all elements
/// of the slice; those without a mark are as they were when the right was made, and no call reads them.
///
/// The project's own.
#[derive(Drop)]
pub struct Cells<'a, T> {
    #[doc(hidden)]
    pub first: *mut T,
    #[doc(hidden)]
    pub mark: PhantomData<&'a mut T>,
    ghost name: { GName },
    ghost marks: { List Bool },
    ghost items: { List T },
}

impl<'a, T> Model for Cells<'a, T> {
    ghost also_owns = { λ c. holds_cells 'a T.row c.name c.first c.marks c.items };

    ghost also_shares = { λ c _ κ. shows_cells 'a T.row c.first c.marks c.items κ };
}

unsafe impl<T: Send> Send for Cells<'_, T> {}

unsafe impl<T: Sync> Sync for Cells<'_, T> {}

impl<'a, T> Cells<'a, T> {
    ghost use Rattle.nd_access.specs.LendingCells.{LendsCell, LendsStretch};

    /// The right to all elements of a slice, under the name of its reference.
    ///
    /// Of 7 8 9: each of them. The project's own.
    pub fn all_of(items: &'a mut [T]) -> Self
        ensures all { (result.name ≡ items.entry.ghost_name) × (result.items ≡ items.old)
            × (result.marks ≡ replicate (length items.old) true) }
    {
        Cells {
            first: items.as_mut_ptr(),
            mark: PhantomData,
        }
    }

    /// The element at a place, counted in elements from the first of the slice, to be read. The caller ensures that it has a mark.
    ///
    /// Of 7 8 9, place 1 is 8. The project's own.
    pub fn get(&self, place: usize) -> &T
        requires { IsTrue (get_or self.now.marks place false) }
        ensures { slice_get self.now.items place ≡ Some result.now }
    {
        unsafe { &*self.first.add(place) }
    }

    /// Those that have a mark, to be read by as many as like while the right is borrowed. Takes no memory.
    ///
    /// Of 7 8 9 with the first and third marked: 7 and 9. The project's own.
    pub fn shared(&self) -> Reader<'_, T>
        ensures all { (result.items ≡ self.now.items) × (result.marks ≡ self.now.marks)
            × (length self.now.items ≡ length self.now.marks) }
    {
        Reader {
            first: self.first,
            mark: PhantomData,
        }
    }

    /// The element at a place, counted in elements from the first of the slice, to be written. The caller ensures that it has a mark.
    ///
    /// Of 7 8 9, place 1 is 8. The project's own.
    pub fn item_mut(&mut self, place: usize) -> &mut T
        requires { IsTrue (get_or self.old.marks place false) }
        ensures* writes_back { sem 𝓛 (LendsCell T.row self.entry place result) }
        ensures value { (slice_get self.old.items place ≡ Some result.now) × (length self.old.items ≡ length self.old.marks) }
    {
        unsafe { &mut *self.first.add(place) }
    }

    /// So many elements from a place on, as a slice to be written. The caller ensures that each of them has a mark.
    ///
    /// Of 7 8 9, two from place 1 on: 8 and 9. The project's own.
    pub fn slice_mut(&mut self, start: usize, len: usize) -> &mut [T]
        requires { IsTrue (are_within (span_of start len self.old.marks) self.old.marks) × (start + len ≤ length self.old.marks) }
        ensures* writes_back { sem 𝓛 (LendsStretch T.row self.entry start result) }
        ensures value { (result.now ≡ take len (drop start self.old.items)) × (start + len ≤ length self.old.items) }
    {
        unsafe { from_raw_parts_mut(self.first.add(start), len) }
    }

    /// The right to some of the elements, for as long as the whole is lent; the right to the others stays. The caller ensures that the
    /// chosen ones have a mark; a proof says which they are, by the value that is given, and no code reads that. Both may be used at
    /// once, and in threads.
    ///
    /// Of 7 8 9 with the first and third chosen: one may write 7 and 9, the other 8. The project's own.
    pub fn take_part<V>(&mut self, _by: &V) -> Self
        ghost chosen: { List Bool }
        requires { IsTrue (are_within chosen self.old.marks) }
        ensures* writes_back { sem 𝓛 (follows_both (Array T.row 0) (Array T.row 0) (Array T.row 0)
            self.old.name result.name self.new.name (chosen_of chosen)) }
        ensures all { (result.items ≡ self.old.items) × (self.new.items ≡ self.old.items)
            × (result.marks ≡ chosen) × (self.new.marks ≡ without chosen self.old.marks) }
    {
        Cells {
            first: self.first,
            mark: PhantomData,
        }
    }

    /// So many elements from a place on, as a slice for as long as the whole is lent; the right to the others stays. The caller ensures
    /// that each of them has a mark.
    ///
    /// Of 7 8 9, two from place 1 on: 8 and 9; 7 stays. The project's own.
    pub fn take_slice(&mut self, start: usize, len: usize) -> &'a mut [T]
        requires { IsTrue (are_within (span_of start len self.old.marks) self.old.marks) × (start + len ≤ length self.old.marks) }
        ensures* writes_back { sem 𝓛 (follows_both (Array T.row 0) (Array T.row 0) (Array T.row 0)
            self.old.name result.ghost_name self.new.name (written_at start)) }
        ensures all { (result.now ≡ take len (drop start self.old.items)) × (self.new.items ≡ self.old.items)
            × (self.new.marks ≡ without (span_of start len self.old.marks) self.old.marks)
            × (start + len ≤ length self.old.items) }
    {
        unsafe { from_raw_parts_mut(self.first.add(start), len) }
    }
}

/// Some elements of a slice, lent to be read, at the price of a pointer: those that have a mark. A proof knows all elements of the
/// slice; no call reads those without a mark, so others may write them meanwhile.
///
/// The project's own.
#[derive(Drop)]
pub struct Reader<'s, T> {
    first: *const T,
    mark: PhantomData<&'s T>,
    ghost marks: { List Bool },
    ghost items: { List T },
}

impl<'s, T> Model for Reader<'s, T> {
    ghost also_owns = { λ r. reads_cells T.row r.first r.marks r.items 's };

    ghost also_shares = { λ r _ _. reads_cells T.row r.first r.marks r.items 's };
}

// SAFETY: it only reads (`get`, `slice`), so it is sent as a `&[T]` of its elements would be.
unsafe impl<T: Sync> Send for Reader<'_, T> {}

// SAFETY: what is shared only reads (`get`, `slice`), as a `&[T]` of its elements would.
unsafe impl<T: Sync> Sync for Reader<'_, T> {}

impl<'s, T> Reader<'s, T> {
    /// The element at a place, counted in elements from the first of the slice. The caller ensures that it has a mark.
    ///
    /// Of 7 8 9, place 1 is 8. The project's own.
    pub fn get(&self, place: usize) -> &'s T
        requires { IsTrue (get_or self.now.marks place false) }
        ensures { slice_get self.now.items place ≡ Some result.now }
    {
        // SAFETY: the place has a mark, which the caller ensures; so it is one of the slice that was lent, and the
        // `Cells` that has its mark is borrowed for as long as the result is in use (`shared`). So nothing writes the
        // element.
        unsafe { &*self.first.add(place) }
    }

    /// So many elements from a place on, as a slice. The caller ensures that each of them has a mark.
    ///
    /// Of 7 8 9, two from place 1 on: 8 and 9. The project's own.
    pub fn slice(&self, start: usize, len: usize) -> &'s [T]
        requires { IsTrue (are_within (span_of start len self.now.marks) self.now.marks) × (start + len ≤ length self.now.marks) }
        ensures all { (result.now ≡ take len (drop start self.now.items)) × (start + len ≤ length self.now.items) }
    {
        // SAFETY: each of these places has a mark, which the caller ensures; so they are those of the slice that was
        // lent, and the `Cells` that has their marks is borrowed for as long as the result is in use (`shared`). So
        // nothing writes the elements.
        unsafe { from_raw_parts(self.first.add(start), len) }
    }
}
