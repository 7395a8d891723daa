//! The checked ways to make a part.
ghost use Rattle.std.specs.Option.{IsSome};
ghost use Rattle.std.specs.Prelude.{◌≡◌, None, IfOk, IsOk, length, replicate, true};
ghost use Rattle.std.specs.Result.{result_err};
ghost use Rattle.ndarray_layout.specs.declared.CanIndexCheckMode.TheVariants.{OwnedMutable};
ghost use Rattle.ndarray_layout.specs.AcceptanceByStrides.{acceptance_by_strides};
ghost use Rattle.ndarray_layout.specs.AcceptanceFrom.{acceptance_from};
ghost use Rattle.ndarray_layout.specs.Memory.{NeedsNoMemory};
ghost use Rattle.ndarray_layout.specs.ShapeBuilder.{custom_strides, strides_list};
ghost use Rattle.ndarray_layout.specs.ShapeFault.{shape_fault};
ghost use Rattle.nd_access.specs.Items.{IsOwned, view_from_0};

use crate::array_view_mut::ArrayViewMut;
use nd_access::Cells;
use ndarray_layout::{CanIndexCheckMode, LayoutError, Lengths, ShapeError, StrideShape, Strided};
use std::alloc::Global;

impl<'a, T, D: Lengths> ArrayViewMut<'a, T, D> {
    ghost use Rattle.nd_lent.specs.Lent.{access_of, array_of};

    /// `new`, where the proof of the caller shows that each index has an item to itself: the package doesn't look again.
    #[inline(always)]
    fn of_own_items(view: Strided<D>, items: &'a mut [T]) -> Self
        requires { IsOwned (length items.old) view }
        ensures items { (array_of result).items ≡ items.old }
        ensures view { (array_of result).view ≡ view }
        ensures marks { (access_of result).marks ≡ replicate (length items.old) true }
        ensures same_right { (access_of result).name ≡ items.entry.ghost_name }
    {
        ArrayViewMut {
            cells: Cells::all_of(items),
            view,
        }
    }

    /// The part of all indices of a view. The caller ensures that each index has an item to itself, as `Strided::from_shape`, `new` and
    /// `from_parts` check it in owned mode; `over` checks it. That the items keep what is written is tested, and in no clause. A proof
    /// knows it where a `Whole` lends them (`lend_items`) and takes the part back (`end`).
    ///
    /// `[2]`, `[-1]` from 1 over 7 8 9: (0) is 8, (1) is 7, and 9 is no part of it. The project's own.
    pub fn new(view: Strided<D>, items: &'a mut [T]) -> Self
        requires { IsOwned (length items.old) view }
        ensures items { (array_of result).items ≡ items.old }
        ensures view { (array_of result).view ≡ view }
        ensures marks { (access_of result).marks ≡ replicate (length items.old) true }
        ensures same_right { (access_of result).name ≡ items.entry.ghost_name }
    {
        ArrayViewMut::of_own_items(view, items)
    }
}

impl<'a, T: Drop, D: Lengths> ArrayViewMut<'a, T, D> {
    ghost use Rattle.nd_lent.specs.Lent.{access_of, array_of};

    /// The part of all indices of a view over items, where each index has one of them to itself. The items may be fewer than
    /// those that the view was made for. That the items keep what is written is tested, and in no clause. A proof knows it where a
    /// `Whole` lends them (`lend_items`) and takes the part back (`end`).
    ///
    /// # Errors
    ///
    /// Those of `Strided::from_parts` in owned mode, over as many elements of one byte as there are items: `OutOfBounds` where
    /// an index of the view lies past the items; a view without an index is out of bounds where it reaches, by its span, past
    /// all of them; then `Unsupported` where two indices may alias.
    ///
    /// Takes no memory, and time by the square of the count of axes at most.
    ///
    /// `[2]`, `[-1]` from 1 over 7 8 9: (0) is 8, (1) is 7; over 7 alone `OutOfBounds`. `[2,2]`, `[1,1]` from 0 over 7 8 9:
    /// `Unsupported`. The project's own.
    pub fn over(view: Strided<D>, items: &'a mut [T]) -> Result<Self, ShapeError>
        ensures fault { result_err result ≡
            acceptance_from view.start 1 (length items.old) OwnedMutable view.shape view.strides }
        ensures items { IfOk result (λ part. (array_of part).items ≡ items.old) }
        ensures view { IfOk result (λ part. (array_of part).view ≡ view) }
        ensures owned { IfOk result (λ part.
            IsOwned (length (array_of part).items) (array_of part).view) }
        ensures marks { IfOk result (λ part. (access_of part).marks ≡ replicate (length items.old) true) }
        ensures same_right { IfOk result (λ part. (access_of part).name ≡ items.entry.ghost_name) }
    {
        let start = view.start();
        let view = view.moved_to(start, 1, items.len(), CanIndexCheckMode::OwnedMutable)?;
        Ok(ArrayViewMut::new(view, items))
    }

    /// The part of a shape, by its own strides or by given ones, over items.
    ///
    /// The lowest place of the layout is 0, the first item. Items past the layout, or between its places, are no part of it. That the
    /// items keep what is written is tested, and in no clause. A proof knows it where a `Whole` lends them (`lend_items`) and takes the
    /// part back (`end`).
    ///
    /// # Errors
    ///
    /// Those of `Strided::from_shape` in owned mode, over as many elements of one byte as there are items.
    ///
    /// `[2]` with the stride `[-1]` over 7 8 9: (0) is 8, (1) is 7. ndarray's `from_shape`.
    pub fn from_shape(
        alloc: Global,
        shape: StrideShape<D>,
        items: &'a mut [T],
    ) -> Result<Self, LayoutError>
        ensures fault { shape_fault result ≡
            acceptance_by_strides D.list 1 (length items.old) OwnedMutable
            (D.list shape.dim) shape.strides }
        ensures given { shape_fault result ≡ None → IsSome (custom_strides shape.strides) →
            IsOk result }
        ensures memory { shape_fault result ≡ None →
            NeedsNoMemory D.NDIM (length (D.list shape.dim)) → IsOk result }
        ensures items { IfOk result (λ part. (array_of part).items ≡ items.old) }
        ensures view { IfOk result (λ part. (array_of part).view ≡
            view_from_0 (D.list shape.dim)
            (strides_list D.list (D.list shape.dim) shape.strides)) }
        ensures owned { IfOk result (λ part.
            IsOwned (length (array_of part).items) (array_of part).view) }
        ensures marks { IfOk result (λ part. (access_of part).marks ≡ replicate (length items.old) true) }
        ensures same_right { IfOk result (λ part. (access_of part).name ≡ items.entry.ghost_name) }
    {
        let len = items.len();
        let view = Strided::from_shape(alloc, shape, 1, len, CanIndexCheckMode::OwnedMutable)?;
        Ok(ArrayViewMut::of_own_items(view, items))
    }
}
