//! The items of an array as they are stored, whatever the order of its axes.
ghost use Rattle.std.specs.Option.{IsSome};
ghost use Rattle.std.specs.Prelude.{◌≡◌, ◌↔◌, IfSome};
ghost use Rattle.ndarray_layout.specs.OneInterval.{FillsInterval};
ghost use Rattle.nd_lent.specs.MemoryOrder.{items_in_memory_order};

use crate::array_view::ArrayView;
use crate::memory_range::memory_range;
use ndarray_layout::Dimension;

impl<'a, T, D: Dimension> ArrayView<'a, T, D> {
    /// The items as they are stored, from the lowest place on, where no two indices alias and their places are consecutive numbers;
    /// else `None`. Without an index it is an empty slice.
    ///
    /// Takes no memory, and time in proportion to the square of the count of axes at most.
    ///
    /// `a.as_slice_memory_order()` is 7 8; with the stride `[2]` from 0 it is `None`. ndarray's `as_slice_memory_order`.
    pub fn as_slice_memory_order(&self) -> Option<&'a [T]>
        ensures found { IsSome result ↔ FillsInterval self.now.view.shape self.now.view.strides }
        ensures items { IfSome result (λ slice. slice.now ≡ items_in_memory_order self.now) }
    {
        let (start, len) = memory_range(&self.view)?;
        Some(self.reader.slice(start, len))
    }
}
