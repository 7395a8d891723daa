//! The items of a part as they are stored, whatever the order of its axes, to be read or written.
ghost use Rattle.std.specs.Option.{IsSome};
ghost use Rattle.std.specs.Prelude.{◌≡◌, ◌↔◌, IfErr, IfOk, IfSome, IsOk};
ghost use Rattle.ndarray_layout.specs.OneInterval.{FillsInterval};
ghost use Rattle.nd_lent.specs.MemoryOrder.{items_in_memory_order};

use crate::array_view_mut::ArrayViewMut;
use crate::memory_range::memory_range;
use ndarray_layout::Dimension;

impl<'a, T: Drop, D: Dimension> ArrayViewMut<'a, T, D> {
    ghost use Rattle.nd_lent.specs.Lent.{access_of, array_of};

    /// The items as they are stored, from the lowest place on, to be read, where their places are consecutive numbers; else `None`.
    /// Without an index it is an empty slice.
    ///
    /// Takes no memory, and time in proportion to the square of the count of axes at most.
    ///
    /// `[2]`, `[-1]` from 1 over 7 8 9: 7 8. ndarray's `as_slice_memory_order`.
    pub fn as_slice_memory_order(&self) -> Option<&[T]>
        ensures found { IsSome result
            ↔ FillsInterval (array_of self.now).view.shape (array_of self.now).view.strides }
        ensures items { IfSome result (λ items. items.now ≡ items_in_memory_order (array_of self.now)) }
    {
        let (start, len) = memory_range(&self.view)?;
        Some(self.cells.shared().slice(start, len))
    }

    /// The items as they are stored, from the lowest place on, for as long as the whole is lent, where their places are consecutive
    /// numbers; else the part. Without an index it is an empty slice. That the items keep what is written is tested, and in no clause.
    ///
    /// Takes no memory, and time in proportion to the square of the count of axes at most.
    ///
    /// `[2]`, `[-1]` from 1 over 7 8 9: 7 8. ndarray's `into_slice_memory_order`.
    pub fn into_slice_memory_order(self) -> Result<&'a mut [T], Self>
        ensures found { IsOk result
            ↔ FillsInterval (array_of self.entry).view.shape (array_of self.entry).view.strides }
        ensures items { IfOk result (λ items. items.now ≡ items_in_memory_order (array_of self.entry)) }
        ensures kept { IfErr result (λ part. array_of part ≡ array_of self.entry) }
        ensures keeps_access { IfErr result (λ part. access_of part ≡ access_of self.entry) }
    {
        let ArrayViewMut { cells, view } = self;
        match memory_range(&view) {
            Some((start, len)) => {
                let mut cells = cells;
                Ok(cells.take_slice(start, len))
            },
            None => Err(ArrayViewMut { cells, view }),
        }
    }
}
