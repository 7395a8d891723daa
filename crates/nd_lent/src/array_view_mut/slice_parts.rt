//! The parts that slices pick, lent one after another, each of a type of its own.
ghost use Rattle.std.specs.List.{All};
ghost use Rattle.std.specs.Prelude.{◌≡◌, ◌∷◌, IfErr, IfOk, IsOk, MatchOption, None, [], drop, map};
ghost use Rattle.std.specs.Result.{result_err};
ghost use Rattle.ndarray_layout.specs.Memory.{NeedsNoMemory};
ghost use Rattle.ndarray_layout.specs.ShapeFault.{shape_fault};
ghost use Rattle.ndarray_layout.specs.SliceFault.{out_count};
ghost use Rattle.nd_lent.specs.Lent.{array_of};
ghost use Rattle.nd_lent.specs.Slices.{IsFaultOfSlices, slice_array};
ghost use Rattle.nd_lent.specs.private.SlicesLeft.{HasSlices, HasSlices-prop};

use crate::array_view_mut::ArrayViewMut;
use crate::array_view_mut::slices::check_apart;
use nd_access::Cells;
use ndarray_layout::{Fit, LayoutError, Lengths, ShapeError, SliceInfoElem, Strided};
use std::alloc::Global;

/// The parts that slices pick and that are still to come, each of a type of its own: several may be used at once, and in threads,
/// whatever the strides are. The project's own.
#[derive(Drop)]
pub struct SliceParts<'a, 's, T, D: Lengths> {
    pub(crate) cells: Cells<'a, T>,
    pub(crate) view: Strided<D>,
    pub(crate) slices: &'s [&'s [SliceInfoElem]],
    // The position of the slice whose part comes next.
    pub(crate) begun: usize,
    ghost left: { HasSlices cells.marks view (drop begun (map (λ slice. slice.now) slices.now)) } by { HasSlices-prop cells.marks view (drop begun (map (λ slice. slice.now) slices.now)) },
}

impl<'a, T: Drop, D: Lengths> ArrayViewMut<'a, T, D> {
    ghost use Rattle.nd_lent.specs.SlicePartsLeft.{parts_left, slices_left};

    /// The parts that slices pick, to be lent one after another, without a list of them: `multi_slice_move`, for parts of several
    /// types. The items that no slice picks are in none. That the items keep what is written is tested, and in no clause.
    ///
    /// # Errors
    ///
    /// That of `check_slice` on the shape for the first slice that doesn't fit; then `Unsupported` where two slices share an index.
    /// The part is gone then. If an allocation fails, the slices are compared without memory.
    ///
    /// Takes the time and the memory of the comparisons of `first_intersection_sorted`: for up to 4 slices no memory.
    ///
    /// `0,..` and `1,1` of `[2,3]` over 0 1 2 3 4 5: a part of `[3]` with 0 1 2, and one without axes with 4. ndarray's
    /// `multi_slice_move` of a tuple, which panics where two slices share an index.
    pub fn slice_parts<'s>(
        self,
        alloc: Global,
        slices: &'s [&'s [SliceInfoElem]],
    ) -> Result<SliceParts<'a, 's, T, D>, ShapeError>
        ensures fault { IsFaultOfSlices None (array_of self.entry).view.shape
            (map (λ slice. slice.now) slices.now) (result_err result) }
        ensures parts { IfOk result (λ parts. parts_left parts ≡
            map (slice_array (array_of self.entry).items (array_of self.entry).view)
            (map (λ slice. slice.now) slices.now)) }
        ensures slices { IfOk result (λ parts.
            slices_left parts ≡ map (λ slice. slice.now) slices.now) }
    {
        let ArrayViewMut { cells, view } = self;
        check_apart(alloc, None, &view, slices)?;
        Ok(SliceParts {
            cells,
            view,
            slices,
            begun: 0,
        })
    }
}

impl<'a, 's, T: Drop, D: Lengths> SliceParts<'a, 's, T, D> {
    ghost use Rattle.nd_lent.specs.SlicePartsLeft.{next_slice_fault, parts_left, slices_left};

    /// The next part; `None` where none is left. That the parts keep what is written is tested, and in no clause.
    ///
    /// # Errors
    ///
    /// `IncompatibleShape` where the slice leaves more axes or fewer than the type `E` fixes; then out of memory, never where `E`
    /// fixes the count of axes or at most 4 are left. What is still to come is unchanged after an error.
    ///
    /// Takes the time of `Strided::slice`.
    ///
    /// Of `0,..` and `1,1` of `[2,3]`: a part of `[3]`, then one without axes, then `None`. The project's own.
    pub fn try_next<E: Lengths>(
        &mut self,
        alloc: Global,
    ) -> Result<Option<ArrayViewMut<'a, T, E>>, LayoutError>
        ensures fault { shape_fault result ≡ next_slice_fault E.NDIM (slices_left self.old) }
        ensures memory { shape_fault result ≡ None → All (λ slice. NeedsNoMemory E.NDIM (out_count slice))
            (slices_left self.old) → IsOk result }
        ensures unchanged { IfErr result (λ _. (parts_left self.new ≡ parts_left self.old)
            × (slices_left self.new ≡ slices_left self.old)) }
        ensures first { IfOk result (λ next. MatchOption next
            ((parts_left self.old ≡ []) × (parts_left self.new ≡ []))
            (λ part. parts_left self.old ≡ array_of part ∷ parts_left self.new)) }
        ensures others { IfOk result (λ _. slices_left self.new ≡ drop 1 (slices_left self.old)) }
    {
        let Some(slice) = self.slices.get(self.begun) else {
            return Ok(None);
        };
        let view = self.view.slice(alloc, slice, Fit::Strict)?;
        self.begun += 1;
        Ok(Some(ArrayViewMut::take_from(&mut self.cells, view)))
    }
}
