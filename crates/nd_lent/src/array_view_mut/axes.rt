//! Axes of a part: reversed and swapped in place, or other views with one more, fewer or shorter
//! ones, each made as that of its layout is.
ghost use Rattle.std.specs.List.{swap};
ghost use Rattle.std.specs.Prelude.{◌≡◌, ◌+◌, ◌↔◌, IsSome, IfOk, IfSome, IsOk, None, OnErr, OnOk, length};
ghost use Rattle.std.specs.Result.{result_err};
ghost use Rattle.ndarray_layout.specs.CroppedView.{RangesFit, cropped_of, crop_source};
ghost use Rattle.ndarray_layout.specs.DiagonalView.{diagonal_of, diagonal_source};
ghost use Rattle.ndarray_layout.specs.InsertedView.{insert_fault, inserted_of, insert_source};
ghost use Rattle.ndarray_layout.specs.InvertedView.{invert_fault, inverted_of, invert_source};
ghost use Rattle.ndarray_layout.specs.Memory.{NeedsNoMemory};
ghost use Rattle.ndarray_layout.specs.PermutedView.{swap_fault, swapped_of};
ghost use Rattle.ndarray_layout.specs.ShapeFault.{shape_fault};
ghost use Rattle.ndarray_layout.specs.Descends.{Descends};
ghost use Rattle.nd_lent.specs.ArrayOfStep.{IsArrayOfStep};

use crate::array_view_mut::ArrayViewMut;
use ndarray_layout::{Axis, Dimension, Ix1, LayoutError, Lengths, ShapeError};
use std::alloc::Global;

impl<'a, T: Drop, D: Lengths> ArrayViewMut<'a, T, D> {
    ghost use Rattle.nd_lent.specs.Lent.{access_of, array_of};

    /// Reverses an axis: `Strided::invert_axis`, with its errors; the part is unchanged after one. No item is written.
    ///
    /// Axis 0 of `[3]` over 7 8 9: 9 8 7. ndarray's `invert_axis`.
    pub fn invert_axis(&mut self, axis: Axis) -> Result<(), ShapeError>
        ensures fault { result_err result ≡ invert_fault (array_of self.old).view.shape axis.0 }
        ensures unchanged { OnErr result (array_of self.new ≡ array_of self.old) }
        ensures array { OnOk result (IsArrayOfStep Descends
            (invert_source axis.0 (array_of self.old).view.shape) (inverted_of axis.0)
            (array_of self.old) (array_of self.new)) }
        ensures keeps_access { access_of self.new ≡ access_of self.old }
    {
        self.view.invert_axis(axis)
    }

    /// Swaps two axes: `Strided::swap_axes`, with its errors; the part is unchanged after one. No item is written.
    ///
    /// ndarray's `swap_axes`.
    pub fn swap_axes(&mut self, axis: Axis, other: Axis) -> Result<(), ShapeError>
        ensures fault { result_err result ≡
            swap_fault (array_of self.old).view.shape axis.0 other.0 }
        ensures unchanged { OnErr result (array_of self.new ≡ array_of self.old) }
        ensures array { OnOk result (IsArrayOfStep Descends
            (λ index. swap index axis.0 other.0) (swapped_of axis.0 other.0)
            (array_of self.old) (array_of self.new)) }
        ensures keeps_access { access_of self.new ≡ access_of self.old }
    {
        self.view.swap_axes(axis, other)
    }

    /// The items of the indices with the same coordinate on each axis: `Strided::diag`.
    ///
    /// `[2,2]` over 5 6 7 8: 5 8. ndarray's `diag_mut`.
    #[tactic(auto, using(crate::proofs::Steps::part_descendant))]
    pub fn diag(self) -> ArrayViewMut<'a, T, Ix1>
        ensures array { IsArrayOfStep Descends
            (diagonal_source (length (array_of self.entry).view.shape)) diagonal_of
            (array_of self.entry) (array_of result) }
        ensures keeps_access { access_of result ≡ access_of self.entry }
    {
        let ArrayViewMut { cells, view } = self;
        let view = view.diag();
        ArrayViewMut::of_cells(cells, view)
    }
}

impl<'a, T: Drop, D: Lengths + Copy> ArrayViewMut<'a, T, D> {
    ghost use Rattle.nd_lent.specs.Lent.{access_of, array_of};

    /// The items of the coordinates from `starts` to `ends`, one of each for each axis: `Strided::crop`.
    ///
    /// From (1) to (3) of `[3]` over 7 8 9: 8 9; to (4) `None`. In place of ndarray's `slice_move` by ranges.
    #[tactic(auto, using(crate::proofs::Steps::part_descendant))]
    pub fn crop(self, starts: &D, ends: &D) -> Option<Self>
        ensures found { IsSome result
            ↔ RangesFit (array_of self.entry).view.shape (D.list starts.now) (D.list ends.now) }
        ensures array { IfSome result (λ a. IsArrayOfStep Descends
            (crop_source (D.list starts.now)) (cropped_of (D.list starts.now) (D.list ends.now))
            (array_of self.entry) (array_of a)) }
        ensures keeps_access { IfSome result (λ a. access_of a ≡ access_of self.entry) }
    {
        let ArrayViewMut { cells, view } = self;
        let view = view.crop(starts, ends)?;
        Some(ArrayViewMut::of_cells(cells, view))
    }
}

impl<'a, T: Drop, D: Dimension> ArrayViewMut<'a, T, D> {
    ghost use Rattle.nd_lent.specs.Lent.{access_of, array_of};

    /// The part with a new axis of length 1: `Strided::insert_axis`, with its errors.
    ///
    /// ndarray's `insert_axis`.
    #[tactic(auto, using(crate::proofs::Steps::part_descendant))]
    pub fn insert_axis(
        self,
        alloc: Global,
        axis: Axis,
    ) -> Result<ArrayViewMut<'a, T, D::Larger>, LayoutError>
        ensures fault { shape_fault result ≡
            insert_fault (array_of self.entry).view.shape axis.0 }
        ensures memory { shape_fault result ≡ None →
            NeedsNoMemory D.Larger.NDIM (length (array_of self.entry).view.shape + 1) →
            IsOk result }
        ensures array { IfOk result (λ a. IsArrayOfStep Descends
            (insert_source axis.0) (inserted_of axis.0) (array_of self.entry) (array_of a)) }
        ensures keeps_access { IfOk result (λ a. access_of a ≡ access_of self.entry) }
    {
        let ArrayViewMut { cells, view } = self;
        let view = view.insert_axis(alloc, axis)?;
        Ok(ArrayViewMut::of_cells(cells, view))
    }
}
