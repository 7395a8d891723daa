//! Calls of a closure at items of an array that owns them.
ghost use Rattle.std.specs.Fn.{CalledAtMut};
ghost use Rattle.std.specs.Option.{option_map};
ghost use Rattle.std.specs.Prelude.{◌≡◌, IsOk, None, OnErr, OnOk, length};
ghost use Rattle.ndarray_layout.specs.declared.Fit.TheVariants.{Strict};
ghost use Rattle.ndarray_layout.specs.Memory.{NeedsNoMemory};
ghost use Rattle.ndarray_layout.specs.ShapeFault.{shape_fault};
ghost use Rattle.ndarray_layout.specs.SliceFault.{argument_fault, out_count};
ghost use Rattle.nd_lent.specs.HasItems.{HasItemsOf, KeepsSpare};
ghost use Rattle.nd_lent.specs.Mapped.{ActsAsAtMut, CallableOnEachMut, CallsMake, part_of, row_major_items};
ghost use Rattle.nd_lent.specs.Items.{IsOwned, item_at};

use crate::owned::OwnedArray;
use nd_lent::Whole;
use ndarray_layout::{Fit, IxDyn, LayoutError, Lengths, SliceElems, Strided};
use std::alloc::Global;

/// Calls a closure at the item of each index of a view, in row-major order.
fn map_view<T: Drop, D: Lengths, F: FnMut(&mut T)>(stored: &mut [T], view: Strided<D>, f: F)
    requires owned { IsOwned (length stored.old) view }
    requires callable { CallableOnEachMut F.FnMut
        (row_major_items (record { items = stored.old; view = view })) f }
    ensures ran { CallsMake (λ p x y q. CalledAtMut F.FnMut p x tt q y) f
        (row_major_items (record { items = stored.old; view = view }))
        (row_major_items (record { items = stored.new; view = view })) }
    ensures mapped { (h : T → T) → ActsAsAtMut F.FnMut f h → HasItemsOf
        (λ index. option_map h (item_at (record { items = stored.old; view = view }) index))
        (record { items = stored.old; view = view }) (record { items = stored.new; view = view }) }
    ensures spare { KeepsSpare
        (record { items = stored.old; view = view }) (record { items = stored.new; view = view }) }
{
    let mut whole = Whole::new(stored);
    let mut part = whole.lend(view);
    part.map_in_place(f);
    whole.end(part);
}

impl<T: Drop, D: Lengths> OwnedArray<T, D> {
    /// Calls a closure at each item that a slice picks, in row-major order, to change it in place. All other items are
    /// unchanged, spare ones too.
    ///
    /// Takes for each index of the part the time of its place (`Strided::iter_places`) and of the call.
    ///
    /// # Errors
    ///
    /// Those of `check_slice` on the shape, then out of memory, never where the slice leaves at most 4 axes. The array is
    /// unchanged after an error, and the closure isn't called.
    ///
    /// `|item| *item = 9` at `1..` of `[3]` over 5 6 7: 5 9 9. ndarray's `slice_mut`, with `map_inplace`.
    pub fn map_in_place<S: SliceElems, F: FnMut(&mut T)>(
        &mut self,
        alloc: Global,
        slices: &S,
        f: F,
    ) -> Result<(), LayoutError>
        requires { argument_fault Strict self.old.view.shape (S.list slices.now) ≡ None →
            CallableOnEachMut F.FnMut (row_major_items (part_of (S.list slices.now) self.old)) f }
        ensures fault { shape_fault result ≡
            argument_fault Strict self.old.view.shape (S.list slices.now) }
        ensures memory { shape_fault result ≡ None →
            NeedsNoMemory None (out_count (S.list slices.now)) → IsOk result }
        ensures unchanged { OnErr result (self.new ≡ self.old) }
        ensures view { self.new.view ≡ self.old.view }
        ensures count { length self.new.items ≡ length self.old.items }
        ensures ran { OnOk result (CallsMake (λ p x y q. CalledAtMut F.FnMut p x tt q y) f
            (row_major_items (part_of (S.list slices.now) self.old))
            (row_major_items (part_of (S.list slices.now) self.new))) }
        ensures mapped { OnOk result ((h : T → T) → ActsAsAtMut F.FnMut f h → HasItemsOf
            (λ index. option_map h (item_at (part_of (S.list slices.now) self.old) index))
            (part_of (S.list slices.now) self.old) (part_of (S.list slices.now) self.new)) }
        ensures spare { OnOk result (KeepsSpare
            (part_of (S.list slices.now) self.old) (part_of (S.list slices.now) self.new)) }
    {
        let part: Strided<IxDyn> = self.view.slice(alloc, slices, Fit::Strict)?;
        map_view(self.items.as_mut_slice(), part, f);
        Ok(())
    }
}
