//! The parts that slices pick, lent at once.
ghost use Rattle.std.specs.Prelude.{◌≡◌, ◌<◌, ◌^◌, IfOk, IsOk, None, OnOk, [], map};
ghost use Rattle.std.specs.List.{All};
ghost use Rattle.std.specs.Result.{result_err};
ghost use Rattle.ndarray_layout.specs.declared.Fit.TheVariants.{Strict};
ghost use Rattle.ndarray_layout.specs.DistinctPlaces.{HasDistinctPlaces};
ghost use Rattle.ndarray_layout.specs.IntersectingPair.{IsIntersection, slices_fault};
ghost use Rattle.ndarray_layout.specs.ShapeFault.{shape_fault};
ghost use Rattle.ndarray_layout.specs.SlicedView.{view_slice_fault};
ghost use Rattle.nd_access.specs.Part.{IsPart};
ghost use Rattle.nd_lent.specs.Slices.{AreApartInPlace, IsFaultOfSlices, slice_array, view_slices_fault};
ghost use Rattle.nd_lent.specs.Lent.{array_of};

use crate::array_view_mut::ArrayViewMut;
use nd_access::Cells;
use ndarray_layout::{
    ErrorKind, Fit, LayoutError, Lengths, ShapeError, SliceElems, Strided, any_elems_intersection,
    check_elems, from_kind, out_ndim_of,
};
use std::alloc::Global;

/// Checks that a slice fits a shape, and leaves as many axes as a type fixes, if it fixes a count. Errors: those of
/// `Strided::slice`, but for memory.
#[inline(always)]
fn check_slice_into<S: SliceElems>(
    fixed: Option<usize>,
    shape: &[usize],
    slice: &S,
) -> Result<(), ShapeError>
    ensures { result_err result ≡ view_slice_fault Strict fixed shape.now (S.list slice.now) }
{
    let elems = slice.elems();
    if let Some(count) = fixed
        && out_ndim_of(elems) != count
    {
        return Err(from_kind(ErrorKind::IncompatibleShape));
    }
    check_elems(shape, elems, Fit::Strict)
}

/// Checks that each slice fits a shape, and leaves as many axes as a type fixes. Errors: that of the first slice with one.
fn check_slices_into<S: SliceElems>(
    fixed: Option<usize>,
    shape: &[usize],
    slices: &[S],
) -> Result<(), ShapeError>
    ensures { result_err result ≡ view_slices_fault Strict fixed shape.now (map S.list slices.now) }
{
    for slice in slices {
        check_slice_into(fixed, shape, slice)?;
    }
    Ok(())
}

/// Checks that each slice of a view fits it and leaves as many axes as a type fixes, and then that no two share an index. The caller
/// ensures that no two indices of the view alias. Errors: that of the first slice with one, then `Unsupported`.
pub(crate) fn check_apart<D: Lengths, S: SliceElems>(
    alloc: Global,
    fixed: Option<usize>,
    view: &Strided<D>,
    slices: &[S],
) -> Result<(), ShapeError>
    requires { HasDistinctPlaces view.now }
    ensures fault { IsFaultOfSlices fixed view.now.shape (map S.list slices.now) (result_err result) }
    ensures fit { OnOk result (view_slices_fault Strict fixed view.now.shape (map S.list slices.now) ≡ None) }
    ensures apart { OnOk result (AreApartInPlace view.now (map S.list slices.now)) }
{
    let shape = view.dim().slice();
    check_slices_into(fixed, shape, slices)?;
    match any_elems_intersection(alloc, shape, slices, Fit::Strict) {
        Some(_) => Err(from_kind(ErrorKind::Unsupported)),
        None => Ok(()),
    }
}

/// For each slice of a view the part that it picks. The caller ensures that each index of the view has a marked place to itself,
/// that each slice fits it and leaves as many axes as the type fixes, and that no two slices share a place. Errors: out of memory,
/// never where there is no slice.
fn parts_of_slices<'a, T: Drop, D: Lengths, S: SliceElems, E: Lengths>(
    alloc: Global,
    cells: Cells<'a, T>,
    view: &Strided<D>,
    slices: &[S],
) -> Result<Vec<ArrayViewMut<'a, T, E>>, LayoutError>
    requires part { IsPart cells.marks view.now }
    requires fits { view_slices_fault Strict E.NDIM view.now.shape (map S.list slices.now) ≡ None }
    requires apart { AreApartInPlace view.now (map S.list slices.now) }
    ensures fault { shape_fault result ≡ None }
    ensures memory { slices.now ≡ [] → IsOk result }
    ensures parts { IfOk result (λ parts. map array_of parts.items ≡
        map (slice_array cells.entry.items view.now) (map S.list slices.now)) }
{
    let mut parts = Vec::with_capacity(alloc, slices.len())?;
    let mut left = cells;
    for slice in slices {
        let picked: Strided<E> = view.slice(alloc, slice, Fit::Strict)?;
        let one = left.take_view(&picked);
        parts.push(ArrayViewMut::of_cells(one, picked))?;
    }
    Ok(parts)
}

impl<'a, T: Drop, D: Lengths> ArrayViewMut<'a, T, D> {
    /// The parts that slices pick, all lent at once, each to be sliced again: a thread of its own may write each, whatever the
    /// strides are. The items that no slice picks are in none. The type `E` of their shapes may fix a count of axes. That the items
    /// keep what is written is tested, and in no clause.
    ///
    /// # Errors
    ///
    /// That of `Strided::slice` for the first slice that doesn't fit the shape: `IncompatibleShape` where it is for more axes or
    /// fewer, or leaves more or fewer than `E` fixes, then that of its first element with one; then `Unsupported` where two slices
    /// share an index; then out of memory, never where there is no slice. The part is gone then.
    ///
    /// Takes memory for the list, and nothing else for up to 4 slices where `E` fixes the count of axes or each leaves at most 4.
    /// Takes time for each slice, and for the comparisons of `first_intersection_sorted`, which takes memory too: if that fails,
    /// the slices are compared without it.
    ///
    /// `..,..;2` and `..,1` of `[2,3]` over 0 1 2 3 4 5: a part of `[2,2]` with 0 2 3 5, and one of `[2]` with 1 4. ndarray's
    /// `multi_slice_move`, which panics where two slices share an index.
    pub fn multi_slice_move<S: SliceElems, E: Lengths>(
        self,
        alloc: Global,
        slices: &[S],
    ) -> Result<Vec<ArrayViewMut<'a, T, E>>, LayoutError>
        ensures fault { IsFaultOfSlices E.NDIM (array_of self.entry).view.shape
            (map S.list slices.now) (shape_fault result) }
        ensures memory { slices.now ≡ [] → IsOk result }
        ensures parts { IfOk result (λ parts. map array_of parts.items ≡
            map (slice_array (array_of self.entry).items (array_of self.entry).view)
            (map S.list slices.now)) }
    {
        let ArrayViewMut { cells, view } = self;
        check_apart(alloc, E::NDIM, &view, slices)?;
        parts_of_slices(alloc, cells, &view, slices)
    }
}
