//! Whether slices of a view intersect: where it is asked before they are written at once.
ghost use Rattle.std.specs.Option.{option_or};
ghost use Rattle.std.specs.Prelude.{◌≡◌, ◌<◌, ◌↔◌, IsTrue, IfOk, map};
ghost use Rattle.std.specs.Result.{result_err};
ghost use Rattle.nd_slice.specs.SliceFault.{argument_fault};
ghost use Rattle.nd_slice.specs.Intersect.{Intersect};
ghost use Rattle.nd_slice.specs.IntersectingPair.{IsIntersection, slices_fault};
ghost use Rattle.ndarray_layout.specs.DistinctPlaces.{HasDistinctPlaces};
ghost use Rattle.ndarray_layout.specs.SharePlace.{SharePlace};
ghost use Rattle.ndarray_layout.specs.SlicedView.{slice_of};
ghost use Rattle.ndarray_layout.specs.SlicesSharePlace.{IsSharedPlace};

use crate::strided::Strided;
use nd_base::{Lengths, ShapeError};
use nd_slice::{Fit, SliceElems, first_intersection, first_intersection_sorted, slices_intersect};
use std::alloc::Global;

impl<D: Lengths> Strided<D> {
    /// Whether two slices of the view intersect: some index has each of its coordinates among the
    /// picks of both arguments.
    ///
    /// Before two parts of an array are written at once, this says whether they share an element:
    /// where no two indices of the view alias, the result is true if and only if the two slices
    /// have a place in common. On any other view, as one that is broadcast, slices that share no
    /// index may still share a place. Without axes the result is true; where an argument picks
    /// nothing of an axis it is false.
    ///
    /// # Errors
    ///
    /// Those of `check_slice` on the shape for the first argument, then for the second.
    ///
    /// Takes no memory, and time in proportion to the count of axes.
    ///
    /// The first row and the last column of `[2,3]`: true; the first row and the last row: false.
    /// ndarray asks `slices_intersect` before `multi_slice_mut` lends several parts.
    pub fn meets<A: SliceElems, B: SliceElems>(
        &self,
        first: &A,
        second: &B,
        fit: Fit,
    ) -> Result<bool, ShapeError>
        ensures fault { result_err result ≡ option_or
            (argument_fault fit self.now.shape (A.list first.now))
            (argument_fault fit self.now.shape (B.list second.now)) }
        ensures intersect { IfOk result (λ intersect. IsTrue intersect ↔
            Intersect fit self.now.shape (A.list first.now) (B.list second.now)) }
        ensures places { IfOk result (λ intersect. HasDistinctPlaces self.now → (IsTrue intersect ↔
            SharePlace
            (slice_of fit (A.list first.now) self.now)
            (slice_of fit (B.list second.now) self.now))) }
    {
        slices_intersect(&self.dim, first, second, fit)
    }
    /// Two of many slices of the view that intersect: their positions in the list, the less first.
    /// Where several pairs do, it is any of them. `None` if and only if no two do.
    ///
    /// Where no two indices of the view alias, `None` is returned if and only if no two of the
    /// slices have a place in common. On any other view, as one that is broadcast, slices that share
    /// no index may still share a place.
    ///
    /// # Errors
    ///
    /// Those of `check_slice` on the shape for the first argument with one. All are checked before
    /// any two are compared.
    ///
    /// Takes no memory, and the time of `first_intersection`: in proportion to the count of slices
    /// where these are the rows of an array or its tiles, from the first to the last or from the
    /// last to the first; where they are in no order along an axis, each is compared with each.
    /// `first_intersection_sorted` takes memory, and less time for those.
    ///
    /// `0,..`, `1,..2` and `..,-1` of `[2,3]`: `Some((0, 2))`, by (0,2). In place of the panic of
    /// ndarray's `multi_slice_mut`.
    pub fn first_intersection<S: SliceElems>(
        &self,
        slices: &[S],
        fit: Fit,
    ) -> Result<Option<(usize, usize)>, ShapeError>
        ensures fault { result_err result ≡
            slices_fault fit self.now.shape (map S.list slices.now) }
        ensures intersection { IfOk result (λ found.
            IsIntersection fit self.now.shape (map S.list slices.now) found) }
        ensures places { IfOk result (λ found. HasDistinctPlaces self.now →
            IsSharedPlace fit self.now (map S.list slices.now) found) }
    {
        first_intersection(&self.dim, slices, fit)
    }
    /// Two of many slices of the view that intersect, as `first_intersection` returns them: their
    /// positions in the list, the less first. Where several pairs do, it is any of them. `None` if and
    /// only if no two do.
    ///
    /// Where no two indices of the view alias, `None` is returned if and only if no two of the slices
    /// have a place in common.
    ///
    /// # Errors
    ///
    /// Those of `check_slice` on the shape for the first argument with one. All are checked before any
    /// two are compared. If an allocation fails, the result is found without memory, as by
    /// `first_intersection`.
    ///
    /// Takes memory and time as the function `first_intersection_sorted` says: `k` tiles of an array, in
    /// any order, take time in proportion to `k * log(k)`.
    ///
    /// `2..,2..`, `..2,..2`, `2..,..2`, `..2,2..` and `..2,1..2` of `[4,4]`: `Some((1, 4))`, by (0,1). The
    /// project's own.
    pub fn first_intersection_sorted<S: SliceElems>(
        &self,
        alloc: Global,
        slices: &[S],
        fit: Fit,
    ) -> Result<Option<(usize, usize)>, ShapeError>
        ensures fault { result_err result ≡
            slices_fault fit self.now.shape (map S.list slices.now) }
        ensures intersection { IfOk result (λ found.
            IsIntersection fit self.now.shape (map S.list slices.now) found) }
        ensures places { IfOk result (λ found. HasDistinctPlaces self.now →
            IsSharedPlace fit self.now (map S.list slices.now) found) }
    {
        first_intersection_sorted(alloc, &self.dim, slices, fit)
    }
}
