//! A slice whose items are lent as a part, and which a proof knows once the part has come back.
ghost use Rattle.std.specs.Prelude.{◌≡◌, length, replicate, true};
ghost use Rattle.nd_access.specs.Items.{IsOwned};

use crate::array_view_mut::ArrayViewMut;
use crate::rest::Rest;
use nd_access::Cells;
use ndarray_layout::{Lengths, Strided};
use std::mem::replace;

/// A slice whose items are lent as a part. A proof knows what the slice holds once the part has come back, as `end` says. It knows
/// this of each part of all items, made by `lend`, or of `lend_items` by `ArrayViewMut::new`, `over` or `from_shape`; of one that is
/// made of the slice itself, or that is dropped, it doesn't.
///
/// `[2]`, `[-1]` from 1 over 7 8 9: 5 written at (0) of the part that it lends makes the slice 7 5 9. The project's own.
pub struct Whole<'a, T> {
    items: &'a mut [T],
    len: usize,
}

impl<T> Drop for Whole<'_, T> {
    fn drop(self)
        ensures { self.exit.0.now ≡ self.entry.items.now }
    {
        let Whole { items: _, len: _ } = self;
    }
}

impl<'a, T> Whole<'a, T> {
    ghost use Rattle.nd_lent.specs.Lent.{access_of, array_of};

    /// The whole of a slice. Takes no memory.
    ///
    /// Of 7 8 9: it has these three. The project's own.
    pub fn new(items: &'a mut [T]) -> Self
        ensures items { result.items.now ≡ items.old }
        ensures len { result.len ≡ length items.old }
        ensures same_right { result.items.ghost_name ≡ items.entry.ghost_name }
    {
        let len = items.len();
        Whole { items, len }
    }

    /// All its items, of which `ArrayViewMut::new`, `over` or `from_shape` makes a part. It has none then, until `end` takes the part
    /// back; an error of `over` or `from_shape` takes the items with it. Takes no memory.
    ///
    /// Of 7 8 9: these three, and none is left. The project's own.
    pub fn lend_items(&mut self) -> &'a mut [T]
        ensures items { result.now ≡ self.old.items.now }
        ensures len { self.new.len ≡ self.old.len }
        ensures same_right { result.ghost_name ≡ self.old.items.ghost_name }
    {
        replace(&mut self.items, &mut [])
    }

    /// The part of all its items, by a view of them: `ArrayViewMut::new` over `lend_items`. The caller ensures that each index of the
    /// view has an item to itself, as `Strided::from_shape`, `new` and `from_parts` check it in owned mode. Takes no memory.
    ///
    /// `[2]`, `[-1]` from 1 over 7 8 9: (0) of the part is 8, (1) is 7. The project's own.
    pub fn lend<D: Lengths>(&mut self, view: Strided<D>) -> ArrayViewMut<'a, T, D>
        requires { IsOwned (length self.old.items.now) view }
        ensures items { (array_of result).items ≡ self.old.items.now }
        ensures view { (array_of result).view ≡ view }
        ensures len { self.new.len ≡ self.old.len }
        ensures marks { (access_of result).marks ≡ replicate (length self.old.items.now) true }
        ensures same_right { (access_of result).name ≡ self.old.items.ghost_name }
    {
        ArrayViewMut::new(view, self.lend_items())
    }

    /// The part comes back: the slice holds what the part and all that was made of it left. The caller ensures that it is the part of
    /// all items, as it was made of what `lend` or `lend_items` lent, or as `set`, `fill` and the like left it. Takes no memory.
    ///
    /// `[2]`, `[-1]` from 1 over 7 8 9 with 5 set at (0): 7 5 9. The project's own.
    pub fn end<D: Lengths>(&mut self, part: ArrayViewMut<'a, T, D>)
        requires marks { (access_of part).marks ≡ replicate self.old.len true }
        ensures items { self.new.items.now ≡ (array_of part.entry).items }
        ensures len { self.new.len ≡ self.old.len }
        ensures same_right { self.new.items.ghost_name ≡ (access_of part.entry).name }
    {
        self.items = part.into_cells().finish(self.len);
    }

    /// All its items, of which parts are taken. It has no items then, until `close` gives them back. Takes no memory.
    ///
    /// Of 7 8 9: these three, and none is left. The project's own.
    pub fn rest(&mut self) -> Rest<'a, T>
        ensures items { result.items ≡ self.old.items.now }
        ensures len { self.new.len ≡ self.old.len }
        ensures counted { length result.access.marks ≡ length self.old.items.now }
        ensures marks { result.access.marks ≡ replicate (length self.old.items.now) true }
        ensures same_right { result.access.name ≡ self.old.items.ghost_name }
    {
        Rest {
            cells: Cells::all_of(self.lend_items()),
        }
    }

    /// All items come back: the slice holds what the parts left. The caller ensures that each part was put back. Takes no memory.
    ///
    /// Of 7 8 9 with 5 set at the last item: 7 8 5. The project's own.
    pub fn close(&mut self, rest: Rest<'a, T>)
        requires marks { rest.access.marks ≡ replicate self.old.len true }
        ensures items { self.new.items.now ≡ rest.entry.items }
        ensures len { self.new.len ≡ self.old.len }
        ensures same_right { self.new.items.ghost_name ≡ rest.entry.access.name }
    {
        let Rest { cells } = rest;
        self.items = cells.finish(self.len);
    }
}

impl<'a, T, D: Lengths> ArrayViewMut<'a, T, D> {
    /// The right that a part has, without its view.
    pub(crate) fn into_cells(self) -> Cells<'a, T>
        ensures { result ≡ self.entry.cells }
    {
        let ArrayViewMut { cells, view: _ } = self;
        cells
    }
}
