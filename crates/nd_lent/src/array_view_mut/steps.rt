//! Other views of the items of a part: each is made as that of its layout is, and ends the part. No item is read or written.
ghost use Rattle.std.specs.Prelude.{◌≡◌, ◌+◌, ◌-◌, ◌↔◌, IfErr, IfOk, IsOk, None, OnOk, length, reverse};
ghost use Rattle.ndarray_layout.specs.AxesInOrder.{axis_numbers};
ghost use Rattle.ndarray_layout.specs.ChunksView.{chunk_source, chunks_fault, chunks_of};
ghost use Rattle.ndarray_layout.specs.CollapsedView.{collapse_fault};
ghost use Rattle.ndarray_layout.specs.IndexedView.{indexed_of, index_source};
ghost use Rattle.ndarray_layout.specs.Memory.{NeedsNoMemory};
ghost use Rattle.ndarray_layout.specs.PermutedView.{permute_fault, permuted_of, permute_source, reversed_of};
ghost use Rattle.ndarray_layout.specs.ReshapedView.{IsReshapeError, ReshapeFits, reshape_of, view_reshape_fault, reshape_source};
ghost use Rattle.ndarray_layout.specs.Selected.{selected};
ghost use Rattle.ndarray_layout.specs.ShapeFault.{shape_fault};
ghost use Rattle.ndarray_layout.specs.SliceFault.{out_count};
ghost use Rattle.ndarray_layout.specs.SlicedView.{slice_of, view_slice_fault};
ghost use Rattle.ndarray_layout.specs.Descends.{Descends};
ghost use Rattle.ndarray_layout.specs.TypedView.{count_fault};
ghost use Rattle.nd_lent.specs.ArrayOfStep.{IsArrayOfStep};

use crate::array_view_mut::ArrayViewMut;
use ndarray_layout::{Axis, Fit, LayoutError, Lengths, Order, RemoveAxis, SliceElems};
use std::alloc::{AllocError, Global};

impl<'a, T: Drop, D: Lengths> ArrayViewMut<'a, T, D> {
    ghost use Rattle.nd_lent.specs.Lent.{access_of, array_of};

    /// The part of the items that a slice argument leaves: `Strided::slice`, with its errors.
    ///
    /// `1..` of `[3]` over 7 8 9: 8 9. ndarray's `slice_move`.
    #[tactic(auto, using(crate::proofs::Steps::part_descendant))]
    pub fn slice_move_with<E: Lengths, S: SliceElems>(
        self,
        alloc: Global,
        slices: &S,
        fit: Fit,
    ) -> Result<ArrayViewMut<'a, T, E>, LayoutError>
        ensures fault { shape_fault result ≡
            view_slice_fault fit E.NDIM (array_of self.entry).view.shape (S.list slices.now) }
        ensures memory { shape_fault result ≡ None →
            NeedsNoMemory E.NDIM (out_count (S.list slices.now)) → IsOk result }
        ensures array { IfOk result (λ a. IsArrayOfStep Descends
            (selected fit (S.list slices.now) (array_of self.entry).view.shape)
            (slice_of fit (S.list slices.now)) (array_of self.entry) (array_of a)) }
        ensures keeps_access { IfOk result (λ a. access_of a ≡ access_of self.entry) }
    {
        let ArrayViewMut { cells, view } = self;
        let view = view.slice(alloc, slices, fit)?;
        Ok(ArrayViewMut::of_cells(cells, view))
    }

    /// The part of the items that a slice argument leaves, for as long as this one is borrowed: `Strided::slice`, with its errors.
    /// Once it is gone, this part has what was written: that is tested, and in no clause.
    ///
    /// `1..` of `[3]` over 7 8 9: 8 9. ndarray's `slice_mut`.
    #[tactic(auto, using(crate::proofs::Steps::part_descendant))]
    pub fn slice_mut_with<E: Lengths, S: SliceElems>(
        &mut self,
        alloc: Global,
        slices: &S,
        fit: Fit,
    ) -> Result<ArrayViewMut<'_, T, E>, LayoutError>
        ensures fault { shape_fault result ≡
            view_slice_fault fit E.NDIM (array_of self.old).view.shape (S.list slices.now) }
        ensures memory { shape_fault result ≡ None →
            NeedsNoMemory E.NDIM (out_count (S.list slices.now)) → IsOk result }
        ensures array { IfOk result (λ a. IsArrayOfStep Descends
            (selected fit (S.list slices.now) (array_of self.old).view.shape)
            (slice_of fit (S.list slices.now)) (array_of self.old) (array_of a)) }
    {
        let view = self.view.slice(alloc, slices, fit)?;
        Ok(self.borrowed(view))
    }

    /// The part once more, for as long as this one is borrowed. Once it is gone, this part has what was written: that is tested, and in
    /// no clause.
    ///
    /// # Errors
    ///
    /// Out of memory; never where the type fixes the count of axes or there are at most 4.
    ///
    /// ndarray's `view_mut`.
    pub fn reborrow(&mut self, alloc: Global) -> Result<ArrayViewMut<'_, T, D>, AllocError>
        ensures memory { NeedsNoMemory D.NDIM (length (array_of self.old).view.shape) → IsOk result }
        ensures array { IfOk result (λ a. array_of a ≡ array_of self.old) }
    {
        let view = self.view.duplicate(alloc)?;
        Ok(self.borrowed(view))
    }

    /// The array with a dimension of another type: `Strided::into_dimensionality`, with its errors.
    ///
    /// `[2,3]` at `IxDyn` becomes the same at `Ix2`. ndarray's `into_dimensionality`.
    pub fn into_dimensionality<E: Lengths>(
        self,
        alloc: Global,
    ) -> Result<ArrayViewMut<'a, T, E>, LayoutError>
        ensures fault { shape_fault result ≡
            count_fault E.NDIM (length (array_of self.entry).view.shape) }
        ensures memory { shape_fault result ≡ None →
            NeedsNoMemory E.NDIM (length (array_of self.entry).view.shape) → IsOk result }
        ensures array { IfOk result (λ a. array_of a ≡ array_of self.entry) }
        ensures keeps_access { IfOk result (λ a. access_of a ≡ access_of self.entry) }
    {
        let ArrayViewMut { cells, view } = self;
        let view = view.into_dimensionality(alloc)?;
        Ok(ArrayViewMut::of_cells(cells, view))
    }

    /// The transpose: `Strided::reversed_axes`.
    ///
    /// (2,1) of the result is (1,2) of the part. ndarray's `reversed_axes`.
    #[tactic(auto, using(crate::proofs::Steps::part_descendant))]
    pub fn reversed_axes(self) -> Self
        ensures array { IsArrayOfStep Descends reverse reversed_of
            (array_of self.entry) (array_of result) }
        ensures keeps_access { access_of result ≡ access_of self.entry }
    {
        let ArrayViewMut { cells, view } = self;
        let view = view.reversed_axes();
        ArrayViewMut::of_cells(cells, view)
    }

    /// The axes in another order: `Strided::permuted_axes`, with its errors.
    ///
    /// ndarray's `permuted_axes`.
    #[tactic(auto, using(crate::proofs::Steps::part_descendant))]
    pub fn permuted_axes(self, alloc: Global, axes: &[Axis]) -> Result<Self, LayoutError>
        ensures fault { shape_fault result ≡
            permute_fault (array_of self.entry).view.shape (axis_numbers axes.now) }
        ensures memory { shape_fault result ≡ None →
            NeedsNoMemory D.NDIM (length (array_of self.entry).view.shape) → IsOk result }
        ensures array { IfOk result (λ a. IsArrayOfStep Descends
            (permute_source (axis_numbers axes.now)) (permuted_of (axis_numbers axes.now))
            (array_of self.entry) (array_of a)) }
        ensures keeps_access { IfOk result (λ a. access_of a ≡ access_of self.entry) }
    {
        let ArrayViewMut { cells, view } = self;
        let view = view.permuted_axes(alloc, axes)?;
        Ok(ArrayViewMut::of_cells(cells, view))
    }

    /// The same items along another shape, in an order: `Strided::reshape`, with its errors.
    ///
    /// ndarray's `into_shape_with_order`.
    #[tactic(auto, using(crate::proofs::Steps::part_descendant))]
    pub fn reshape<E: Lengths>(
        self,
        alloc: Global,
        shape: &E,
        order: Order,
    ) -> Result<ArrayViewMut<'a, T, E>, LayoutError>
        ensures fits { OnOk result (view_reshape_fault order
            (E.list shape.now) (array_of self.entry).view ≡ None) }
        ensures fault { IfErr result (λ e.
            IsReshapeError E.NDIM order (E.list shape.now) (array_of self.entry).view e) }
        ensures memory { view_reshape_fault order
            (E.list shape.now) (array_of self.entry).view ≡ None →
            NeedsNoMemory E.NDIM (length (E.list shape.now)) → IsOk result }
        ensures complete { (view_reshape_fault order
            (E.list shape.now) (array_of self.entry).view ≡ None)
            ↔ ReshapeFits order (E.list shape.now) (array_of self.entry).view }
        ensures array { IfOk result (λ a. IsArrayOfStep Descends
            (reshape_source order (array_of self.entry).view.shape (E.list shape.now))
            (reshape_of order (E.list shape.now)) (array_of self.entry) (array_of a)) }
        ensures keeps_access { IfOk result (λ a. access_of a ≡ access_of self.entry) }
    {
        let ArrayViewMut { cells, view } = self;
        let view = view.reshape(alloc, shape, order)?;
        Ok(ArrayViewMut::of_cells(cells, view))
    }

    /// All chunks of a shape that lie side by side, as one part: `Strided::exact_chunks`, with its errors.
    ///
    /// Chunks of `[2]` of `[5]` over 5 6 7 8 9: 5 6 and 7 8. ndarray's `exact_chunks_mut`.
    #[tactic(auto, using(crate::proofs::Steps::part_descendant))]
    pub fn exact_chunks<E: Lengths>(
        self,
        alloc: Global,
        chunk: &D,
    ) -> Result<ArrayViewMut<'a, T, E>, LayoutError>
        ensures fault { shape_fault result ≡
            chunks_fault E.NDIM (array_of self.entry).view.shape (D.list chunk.now) }
        ensures memory { shape_fault result ≡ None → NeedsNoMemory E.NDIM
            (length (array_of self.entry).view.shape + length (array_of self.entry).view.shape)
            → IsOk result }
        ensures array { IfOk result (λ a. IsArrayOfStep Descends
            (chunk_source (D.list chunk.now)) (chunks_of (D.list chunk.now))
            (array_of self.entry) (array_of a)) }
        ensures keeps_access { IfOk result (λ a. access_of a ≡ access_of self.entry) }
    {
        let ArrayViewMut { cells, view } = self;
        let view = view.exact_chunks(alloc, chunk)?;
        Ok(ArrayViewMut::of_cells(cells, view))
    }
}

impl<'a, T: Drop, D: RemoveAxis> ArrayViewMut<'a, T, D> {
    ghost use Rattle.nd_lent.specs.Lent.{access_of, array_of};

    /// The items at one coordinate of an axis, without the axis: `Strided::index_axis`, with its errors.
    ///
    /// Coordinate 1 of axis 0 of `[2,3]`: the second row. ndarray's `index_axis_move`.
    #[tactic(auto, using(crate::proofs::Steps::part_descendant))]
    pub fn index_axis(
        self,
        alloc: Global,
        axis: Axis,
        index: usize,
    ) -> Result<ArrayViewMut<'a, T, D::Smaller>, LayoutError>
        ensures fault { shape_fault result ≡
            collapse_fault (array_of self.entry).view.shape axis.0 index }
        ensures memory { shape_fault result ≡ None →
            NeedsNoMemory D.Smaller.NDIM (length (array_of self.entry).view.shape - 1) →
            IsOk result }
        ensures array { IfOk result (λ a. IsArrayOfStep Descends
            (index_source axis.0 index) (indexed_of axis.0 index)
            (array_of self.entry) (array_of a)) }
        ensures keeps_access { IfOk result (λ a. access_of a ≡ access_of self.entry) }
    {
        let ArrayViewMut { cells, view } = self;
        let view = view.index_axis(alloc, axis, index)?;
        Ok(ArrayViewMut::of_cells(cells, view))
    }
}
