//! Other views of the items of an array: each is made as that of its layout is.
ghost use Rattle.std.specs.List.{swap};
ghost use Rattle.std.specs.Prelude.{◌≡◌, ◌+◌, ◌-◌, ◌↔◌, IsSome, IfErr, IfOk, IfSome, false, IsOk, IsTrue, None, OnErr, OnOk, length, reverse};
ghost use Rattle.std.specs.Result.{result_err};
ghost use Rattle.ndarray_layout.specs.AxesInOrder.{axis_numbers};
ghost use Rattle.ndarray_layout.specs.BroadcastView.{broadcast_fault, broadcast_of, broadcast_source};
ghost use Rattle.ndarray_layout.specs.ChunksView.{chunk_source, chunks_fault, chunks_of};
ghost use Rattle.ndarray_layout.specs.CollapsedView.{collapse_fault, collapse_of, collapse_source};
ghost use Rattle.ndarray_layout.specs.CroppedView.{RangesFit, cropped_of, crop_source};
ghost use Rattle.ndarray_layout.specs.DiagonalView.{diagonal_of, diagonal_source};
ghost use Rattle.ndarray_layout.specs.Descends.{Descends, IsViewOf};
ghost use Rattle.ndarray_layout.specs.IndexedView.{indexed_of, index_source};
ghost use Rattle.ndarray_layout.specs.InsertedView.{insert_fault, inserted_of, insert_source};
ghost use Rattle.ndarray_layout.specs.InvertedView.{invert_fault, inverted_of, invert_source};
ghost use Rattle.ndarray_layout.specs.Memory.{NeedsNoMemory};
ghost use Rattle.ndarray_layout.specs.MergedView.{axes_fault, HasMergedStride, merge_of, merge_source};
ghost use Rattle.ndarray_layout.specs.PermutedView.{permute_fault, permuted_of, permute_source, reversed_of, swap_fault, swapped_of};
ghost use Rattle.ndarray_layout.specs.ReshapedView.{IsReshapeError, ReshapeFits, reshape_of, view_reshape_fault, reshape_source};
ghost use Rattle.ndarray_layout.specs.Selected.{selected};
ghost use Rattle.ndarray_layout.specs.ShapeFault.{shape_fault};
ghost use Rattle.ndarray_layout.specs.SliceFault.{out_count};
ghost use Rattle.ndarray_layout.specs.SlicedView.{slice_of, view_slice_fault};
ghost use Rattle.ndarray_layout.specs.SplitView.{split_fault, first_part_of, second_part_of, second_source};
ghost use Rattle.ndarray_layout.specs.WindowsView.{window_source, windows_fault, windows_of};
ghost use Rattle.ndarray_layout.specs.TypedView.{count_fault};
ghost use Rattle.nd_lent.specs.ArrayOfStep.{IsArrayOfStep};

use crate::array_view::ArrayView;
use ndarray_layout::{
    Axis, Dimension, Fit, Ix1, LayoutError, Lengths, Order, RemoveAxis, ShapeError, SliceElems,
};
use std::alloc::Global;

impl<'a, T, D: Lengths> ArrayView<'a, T, D> {
    /// The array of the items that a slice argument leaves: `Strided::slice`, with its errors.
    ///
    /// `1..` of `[3]` over 7 8 9: 8 9. ndarray's `slice`.
    #[tactic(auto, using(crate::proofs::Steps::read_step))]
    #[inline]
    pub fn slice_with<E: Lengths, S: SliceElems>(
        &self,
        alloc: Global,
        slices: &S,
        fit: Fit,
    ) -> Result<ArrayView<'a, T, E>, LayoutError>
        ensures fault { shape_fault result ≡
            view_slice_fault fit E.NDIM self.now.view.shape (S.list slices.now) }
        ensures memory { shape_fault result ≡ None →
            NeedsNoMemory E.NDIM (out_count (S.list slices.now)) → IsOk result }
        ensures array { IfOk result (IsArrayOfStep Descends
            (selected fit (S.list slices.now) self.now.view.shape)
            (slice_of fit (S.list slices.now)) self.now) }
    {
        let view = self.view.slice(alloc, slices, fit)?;
        Ok(ArrayView::of_reader(self.reader.copied(), view))
    }

    /// Reduces an axis to one of its coordinates: `Strided::collapse`, with its errors; the array is unchanged after one.
    ///
    /// Coordinate 1 of `[3]` over 7 8 9: 8 alone. ndarray's `collapse_axis`.
    pub fn collapse(&mut self, axis: Axis, index: usize) -> Result<(), ShapeError>
        ensures fault { result_err result ≡ collapse_fault self.old.view.shape axis.0 index }
        ensures unchanged { OnErr result (self.new ≡ self.old) }
        ensures array { OnOk result (IsArrayOfStep Descends
            (collapse_source axis.0 index) (collapse_of axis.0 index) self.old self.new) }
    {
        self.view.collapse(axis, index)
    }

    /// Swaps two axes: `Strided::swap_axes`, with its errors; the array is unchanged after one.
    ///
    /// ndarray's `swap_axes`.
    pub fn swap_axes(&mut self, axis: Axis, other: Axis) -> Result<(), ShapeError>
        ensures fault { result_err result ≡ swap_fault self.old.view.shape axis.0 other.0 }
        ensures unchanged { OnErr result (self.new ≡ self.old) }
        ensures array { OnOk result (IsArrayOfStep Descends
            (λ index. swap index axis.0 other.0) (swapped_of axis.0 other.0) self.old self.new) }
    {
        self.view.swap_axes(axis, other)
    }

    /// The transpose: `Strided::reversed_axes`.
    ///
    /// (2,1) of the result is (1,2) of the array. ndarray's `reversed_axes`.
    #[tactic(auto, using(crate::proofs::Steps::read_step))]
    pub fn reversed_axes(self) -> Self
        ensures { IsArrayOfStep Descends reverse reversed_of self.entry result }
    {
        let ArrayView { reader, view } = self;
        ArrayView::of_reader(reader, view.reversed_axes())
    }

    /// The axes in another order: `Strided::permuted_axes`, with its errors.
    ///
    /// ndarray's `permuted_axes`.
    #[tactic(auto, using(crate::proofs::Steps::read_step))]
    pub fn permuted_axes(&self, alloc: Global, axes: &[Axis]) -> Result<Self, LayoutError>
        ensures fault { shape_fault result ≡
            permute_fault self.now.view.shape (axis_numbers axes.now) }
        ensures memory { shape_fault result ≡ None →
            NeedsNoMemory D.NDIM (length self.now.view.shape) → IsOk result }
        ensures array { IfOk result (IsArrayOfStep Descends
            (permute_source (axis_numbers axes.now)) (permuted_of (axis_numbers axes.now)) self.now) }
    {
        let view = self.view.permuted_axes(alloc, axes)?;
        Ok(ArrayView::of_reader(self.reader.copied(), view))
    }

    /// Reverses an axis: `Strided::invert_axis`, with its errors; the array is unchanged after one.
    ///
    /// Axis 0 of `[3]` over 7 8 9: 9 8 7. ndarray's `invert_axis`.
    pub fn invert_axis(&mut self, axis: Axis) -> Result<(), ShapeError>
        ensures fault { result_err result ≡ invert_fault self.old.view.shape axis.0 }
        ensures unchanged { OnErr result (self.new ≡ self.old) }
        ensures array { OnOk result (IsArrayOfStep Descends
            (invert_source axis.0 self.old.view.shape) (inverted_of axis.0) self.old self.new) }
    {
        self.view.invert_axis(axis)
    }

    /// Merges one axis into another: `Strided::merge`, with its errors; the array is unchanged after one, and after
    /// `Ok(false)`.
    ///
    /// ndarray's `merge_axes`.
    pub fn merge(&mut self, take: Axis, into: Axis) -> Result<bool, ShapeError>
        ensures fault { result_err result ≡ axes_fault self.old.view.shape take.0 into.0 }
        ensures unchanged { OnErr result (self.new ≡ self.old) }
        ensures fits { IfOk result (λ merged.
            IsTrue merged ↔ HasMergedStride take.0 into.0 self.old.view) }
        ensures merged { IfOk result (λ merged. IsTrue merged → IsArrayOfStep Descends
            (merge_source take.0 into.0 self.old.view.shape) (merge_of take.0 into.0)
            self.old self.new) }
        ensures unmerged { IfOk result (λ merged. merged ≡ false → self.new ≡ self.old) }
    {
        self.view.merge(take, into)
    }

    /// The same items along another shape, in an order: `Strided::reshape`, with its errors.
    ///
    /// ndarray's `to_shape` where it copies nothing.
    #[tactic(auto, using(crate::proofs::Steps::read_step))]
    pub fn reshape<E: Lengths>(
        &self,
        alloc: Global,
        shape: &E,
        order: Order,
    ) -> Result<ArrayView<'a, T, E>, LayoutError>
        ensures fits { OnOk result
            (view_reshape_fault order (E.list shape.now) self.now.view ≡ None) }
        ensures fault { IfErr result (λ e.
            IsReshapeError E.NDIM order (E.list shape.now) self.now.view e) }
        ensures memory { view_reshape_fault order (E.list shape.now) self.now.view ≡ None →
            NeedsNoMemory E.NDIM (length (E.list shape.now)) → IsOk result }
        ensures complete { (view_reshape_fault order (E.list shape.now) self.now.view ≡ None)
            ↔ ReshapeFits order (E.list shape.now) self.now.view }
        ensures array { IfOk result (IsArrayOfStep Descends
            (reshape_source order self.now.view.shape (E.list shape.now))
            (reshape_of order (E.list shape.now)) self.now) }
    {
        let view = self.view.reshape(alloc, shape, order)?;
        Ok(ArrayView::of_reader(self.reader.copied(), view))
    }

    /// The array of a shape that this one can be broadcast to: `Strided::broadcast`, with its errors.
    ///
    /// `[1]` over 7 to `[3]`: 7 7 7. ndarray's `broadcast`.
    #[tactic(auto, using(crate::proofs::Steps::read_view))]
    pub fn broadcast<E: Lengths>(
        &self,
        alloc: Global,
        shape: &E,
    ) -> Result<ArrayView<'a, T, E>, LayoutError>
        ensures fault { shape_fault result ≡
            broadcast_fault (E.list shape.now) self.now.view.shape }
        ensures memory { shape_fault result ≡ None →
            NeedsNoMemory E.NDIM (length (E.list shape.now)) → IsOk result }
        ensures array { IfOk result (IsArrayOfStep IsViewOf
            (broadcast_source self.now.view.shape) (broadcast_of (E.list shape.now)) self.now) }
    {
        let view = self.view.broadcast(alloc, shape)?;
        Ok(ArrayView::of_reader(self.reader.copied(), view))
    }

    /// All windows of a shape, as one array: `Strided::windows`, with its errors.
    ///
    /// Windows of `[2]` of `[3]` over 7 8 9: 7 8 and 8 9. ndarray's `windows`.
    #[tactic(auto, using(crate::proofs::Steps::read_view))]
    pub fn windows<E: Lengths>(
        &self,
        alloc: Global,
        window: &D,
    ) -> Result<ArrayView<'a, T, E>, LayoutError>
        ensures fault { shape_fault result ≡
            windows_fault E.NDIM self.now.view.shape (D.list window.now) }
        ensures memory { shape_fault result ≡ None → NeedsNoMemory E.NDIM
            (length self.now.view.shape + length self.now.view.shape) → IsOk result }
        ensures array { IfOk result (IsArrayOfStep IsViewOf
            (window_source (length self.now.view.shape)) (windows_of (D.list window.now)) self.now) }
    {
        let view = self.view.windows(alloc, window)?;
        Ok(ArrayView::of_reader(self.reader.copied(), view))
    }

    /// All chunks of a shape that lie side by side, as one array: `Strided::exact_chunks`, with its errors.
    ///
    /// Chunks of `[2]` of `[5]` over 5 6 7 8 9: 5 6 and 7 8. ndarray's `exact_chunks`.
    #[tactic(auto, using(crate::proofs::Steps::read_step))]
    pub fn exact_chunks<E: Lengths>(
        &self,
        alloc: Global,
        chunk: &D,
    ) -> Result<ArrayView<'a, T, E>, LayoutError>
        ensures fault { shape_fault result ≡
            chunks_fault E.NDIM self.now.view.shape (D.list chunk.now) }
        ensures memory { shape_fault result ≡ None → NeedsNoMemory E.NDIM
            (length self.now.view.shape + length self.now.view.shape) → IsOk result }
        ensures array { IfOk result (IsArrayOfStep Descends
            (chunk_source (D.list chunk.now)) (chunks_of (D.list chunk.now)) self.now) }
    {
        let view = self.view.exact_chunks(alloc, chunk)?;
        Ok(ArrayView::of_reader(self.reader.copied(), view))
    }

    /// The items of the indices with the same coordinate on each axis: `Strided::diag`.
    ///
    /// ndarray's `diag`.
    #[tactic(auto, using(crate::proofs::Steps::read_step))]
    pub fn diag(&self) -> ArrayView<'a, T, Ix1>
        ensures { IsArrayOfStep Descends
            (diagonal_source (length self.now.view.shape)) diagonal_of self.now result }
    {
        ArrayView::of_reader(self.reader.copied(), self.view.diag())
    }

    /// The array with a dimension of another type: `Strided::into_dimensionality`, with its errors.
    ///
    /// `[2,3]` at `IxDyn` becomes the same at `Ix2`. ndarray's `into_dimensionality`.
    pub fn into_dimensionality<E: Lengths>(
        self,
        alloc: Global,
    ) -> Result<ArrayView<'a, T, E>, LayoutError>
        ensures fault { shape_fault result ≡ count_fault E.NDIM (length self.entry.view.shape) }
        ensures memory { shape_fault result ≡ None →
            NeedsNoMemory E.NDIM (length self.entry.view.shape) → IsOk result }
        ensures array { IfOk result (λ a. a ≡ self.entry) }
    {
        let ArrayView { reader, view } = self;
        let view = view.into_dimensionality(alloc)?;
        Ok(ArrayView::of_reader(reader, view))
    }

    /// The two parts along an axis: `Strided::split_at`, with its errors.
    ///
    /// Axis 0 of `[3]` over 7 8 9 at 1: 7, and 8 9. ndarray's `split_at`.
    #[tactic(auto, using(crate::proofs::Steps::read_step))]
    pub fn split_at(
        self,
        alloc: Global,
        axis: Axis,
        index: usize,
    ) -> Result<(Self, Self), LayoutError>
        ensures fault { shape_fault result ≡ split_fault self.entry.view.shape axis.0 index }
        ensures memory { shape_fault result ≡ None →
            NeedsNoMemory D.NDIM (length self.entry.view.shape) → IsOk result }
        ensures first { IfOk result (λ (first, second). IsArrayOfStep Descends
            (λ coordinates. coordinates) (first_part_of axis.0 index) self.entry first) }
        ensures second { IfOk result (λ (first, second). IsArrayOfStep Descends
            (second_source axis.0 index) (second_part_of axis.0 index) self.entry second) }
    {
        let ArrayView { reader, view } = self;
        let (first, second) = view.split_at(alloc, axis, index)?;
        Ok((
            ArrayView::of_reader(reader.copied(), first),
            ArrayView::of_reader(reader, second),
        ))
    }
}

impl<'a, T, D: Lengths + Copy> ArrayView<'a, T, D> {
    /// The items of the coordinates from `starts` to `ends`, one of each for each axis: `Strided::crop`.
    ///
    /// From (1) to (3) of `[3]` over 7 8 9: 8 9; to (4) `None`. In place of ndarray's `slice` by ranges.
    #[tactic(auto, using(crate::proofs::Steps::read_step))]
    #[inline]
    pub fn crop(&self, starts: &D, ends: &D) -> Option<Self>
        ensures found { IsSome result
            ↔ RangesFit self.now.view.shape (D.list starts.now) (D.list ends.now) }
        ensures array { IfSome result (IsArrayOfStep Descends
            (crop_source (D.list starts.now))
            (cropped_of (D.list starts.now) (D.list ends.now)) self.now) }
    {
        let view = self.view.crop(starts, ends)?;
        Some(ArrayView::of_reader(self.reader.copied(), view))
    }
}

impl<'a, T, D: RemoveAxis> ArrayView<'a, T, D> {
    /// The items at one coordinate of an axis, without the axis: `Strided::index_axis`, with its errors.
    ///
    /// Coordinate 1 of axis 0 of `[2,3]`: the second row. ndarray's `index_axis`.
    #[tactic(auto, using(crate::proofs::Steps::read_step))]
    pub fn index_axis(
        &self,
        alloc: Global,
        axis: Axis,
        index: usize,
    ) -> Result<ArrayView<'a, T, D::Smaller>, LayoutError>
        ensures fault { shape_fault result ≡ collapse_fault self.now.view.shape axis.0 index }
        ensures memory { shape_fault result ≡ None →
            NeedsNoMemory D.Smaller.NDIM (length self.now.view.shape - 1) → IsOk result }
        ensures array { IfOk result (IsArrayOfStep Descends
            (index_source axis.0 index) (indexed_of axis.0 index) self.now) }
    {
        let view = self.view.index_axis(alloc, axis, index)?;
        Ok(ArrayView::of_reader(self.reader.copied(), view))
    }
}

impl<'a, T, D: Dimension> ArrayView<'a, T, D> {
    /// The array with a new axis of length 1: `Strided::insert_axis`, with its errors.
    ///
    /// ndarray's `insert_axis`.
    #[tactic(auto, using(crate::proofs::Steps::read_step))]
    pub fn insert_axis(
        &self,
        alloc: Global,
        axis: Axis,
    ) -> Result<ArrayView<'a, T, D::Larger>, LayoutError>
        ensures fault { shape_fault result ≡ insert_fault self.now.view.shape axis.0 }
        ensures memory { shape_fault result ≡ None →
            NeedsNoMemory D.Larger.NDIM (length self.now.view.shape + 1) → IsOk result }
        ensures array { IfOk result (IsArrayOfStep Descends
            (insert_source axis.0) (inserted_of axis.0) self.now) }
    {
        let view = self.view.insert_axis(alloc, axis)?;
        Ok(ArrayView::of_reader(self.reader.copied(), view))
    }
}
