//! The ways to lend items as an array.
ghost use Rattle.std.specs.Option.{IsSome};
ghost use Rattle.std.specs.Prelude.{◌≡◌, None, IfOk, IsOk, length};
ghost use Rattle.std.specs.Result.{result_err};
ghost use Rattle.ndarray_layout.specs.declared.CanIndexCheckMode.TheVariants.{ReadOnly};
ghost use Rattle.ndarray_layout.specs.AcceptanceByStrides.{acceptance_by_strides};
ghost use Rattle.ndarray_layout.specs.AcceptanceFrom.{acceptance_from};
ghost use Rattle.ndarray_layout.specs.Memory.{NeedsNoMemory};
ghost use Rattle.ndarray_layout.specs.ShapeBuilder.{custom_strides, strides_list};
ghost use Rattle.ndarray_layout.specs.ShapeFault.{shape_fault};
ghost use Rattle.nd_access.specs.ArrayView.{HasItems};
ghost use Rattle.nd_access.specs.Items.{view_from_0};
ghost use Rattle.nd_access.specs.Read.{IsRead};

use crate::array_view::ArrayView;
use nd_access::Reader;
use ndarray_layout::{CanIndexCheckMode, LayoutError, Lengths, ShapeError, StrideShape, Strided};
use std::alloc::Global;

impl<'a, T, D: Lengths> ArrayView<'a, T, D> {
    /// The array of a view over items. The caller ensures that each place of it has an item; `over` checks it.
    ///
    /// `[2]`, `[-1]` from 1 over 7 8 9 is `a`. The project's own.
    pub fn new(view: Strided<D>, items: &'a [T]) -> Self
        requires { HasItems (length items.now) view }
        ensures items { result.items ≡ items.now }
        ensures view { result.view ≡ view }
    {
        ArrayView::laid(view, items)
    }

    /// The array of a view over items. The caller ensures that each place of it has one.
    #[inline]
    fn laid(view: Strided<D>, items: &'a [T]) -> Self
        requires { HasItems (length items.now) view }
        ensures items { result.items ≡ items.now }
        ensures view { result.view ≡ view }
    {
        ArrayView {
            reader: Reader::of_slice(items),
            view,
        }
    }

    /// The array of a view over items that are read by their places. The caller ensures that each place of it has one.
    #[inline]
    pub(crate) fn of_reader(reader: Reader<'a, T>, view: Strided<D>) -> Self
        requires { IsRead reader.marks (length reader.items) view }
        ensures items { result.items ≡ reader.entry.items }
        ensures view { result.view ≡ view }
    {
        ArrayView { reader, view }
    }

    /// The array of a shape, by its own strides or by given ones, over items.
    ///
    /// The lowest place of the layout is 0, the first item. Items past the layout, or between its places, are spare ones.
    ///
    /// # Errors
    ///
    /// Those of `Strided::from_shape` in read-only mode, over as many elements of one byte as there are items.
    ///
    /// `[2]` with the stride `[-1]` over 7 8 9 is `a`. ndarray's `from_shape`.
    pub fn from_shape(
        alloc: Global,
        shape: StrideShape<D>,
        items: &'a [T],
    ) -> Result<Self, LayoutError>
        ensures fault { shape_fault result ≡
            acceptance_by_strides D.list 1 (length items.now) ReadOnly
            (D.list shape.dim) shape.strides }
        ensures given { shape_fault result ≡ None → IsSome (custom_strides shape.strides) →
            IsOk result }
        ensures memory { shape_fault result ≡ None →
            NeedsNoMemory D.NDIM (length (D.list shape.dim)) → IsOk result }
        ensures stored { IfOk result (λ a. a.items ≡ items.now) }
        ensures view { IfOk result (λ a. a.view ≡
            view_from_0 (D.list shape.dim)
            (strides_list D.list (D.list shape.dim) shape.strides)) }
        ensures has_items { IfOk result (λ a. HasItems (length a.items) a.view) }
    {
        let len = items.len();
        let view = Strided::from_shape(alloc, shape, 1, len, CanIndexCheckMode::ReadOnly)?;
        Ok(ArrayView::laid(view, items))
    }

    /// The array of a view over items, which may be fewer than those that the view was made for.
    ///
    /// # Errors
    ///
    /// `OutOfBounds` where an index of the view lies past the items; a view without an index is out of bounds where it
    /// reaches, by its span, past all of them. Those of `Strided::from_parts` in read-only mode, over elements of one byte.
    ///
    /// Takes no memory, and time in proportion to the count of axes.
    ///
    /// `[2]`, `[-1]` from 1 over 7 8 9 is `a`; over 7 alone `OutOfBounds`. The project's own.
    pub fn over(view: Strided<D>, items: &'a [T]) -> Result<Self, ShapeError>
        ensures fault { result_err result ≡
            acceptance_from view.start 1 (length items.now) ReadOnly view.shape view.strides }
        ensures stored { IfOk result (λ a. a.items ≡ items.now) }
        ensures view { IfOk result (λ a. a.view ≡ view) }
        ensures has_items { IfOk result (λ a. HasItems (length a.items) a.view) }
    {
        let start = view.start();
        let view = view.moved_to(start, 1, items.len(), CanIndexCheckMode::ReadOnly)?;
        Ok(ArrayView::laid(view, items))
    }
}
