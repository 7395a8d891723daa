//! What a slice picks of a view, and the items there, read and written.
ghost use Rattle.std.specs.List.{AllPairs};
ghost use Rattle.std.specs.Prelude.{◌≡◌, ◌≢◌, ℕ, Some, IfOk, IsOk, length, map};
ghost use Rattle.ndarray_layout.specs.declared.Fit.TheVariants.{Strict};
ghost use Rattle.ndarray_layout.specs.SliceFault.{argument_fault};
ghost use Rattle.ndarray_layout.specs.ShapeFault.{shape_fault};
ghost use Rattle.ndarray_layout.specs.Size.{size};
ghost use Rattle.ndarray_layout.specs.SlicedView.{slice_of};
ghost use Rattle.ndarray_layout.specs.View.{LiesWithin};
ghost use Rattle.nd_owned.specs.Owned.{IsOfNone};
ghost use Rattle.nd_lent.specs.Items.{item_at_place};
ghost use Rattle.nd_owned.specs.private.PickedView.{picked_places, view_of_picked};
ghost use Rattle.nd_owned.specs.private.Written.{HasWritten};

use crate::rows::{read_view, write_view};
use ndarray_layout::{
    Fit, Ix1, Ix2, IxDyn, LayoutError, Lengths, SliceElems, Strided, out_ndim_of,
};
use std::alloc::{AllocError, Global};

/// The view of what a slice picks. One or two axes that are left are axes of a type that fixes their count, where slicing takes less time.
#[derive(Drop)]
pub(crate) enum PickedView {
    Line(Strided<Ix1>),
    Plane(Strided<Ix2>),
    Any(Strided<IxDyn>),
}

impl PickedView {
    /// The part of a view that a slice picks. Errors: those of `check_slice` on the shape, then out of memory, never where at
    /// most 4 axes are left.
    #[inline]
    pub(crate) fn new<D: Lengths, S: SliceElems>(
        alloc: Global,
        view: &Strided<D>,
        slice: &S,
    ) -> Result<Self, LayoutError>
        ensures fault { shape_fault result ≡
            argument_fault Strict view.now.shape (S.list slice.now) }
        ensures part { IfOk result (λ part.
            view_of_picked part ≡ slice_of Strict (S.list slice.now) view.now) }
        ensures in_bounds { IfOk result (λ part. (len : ℕ) → LiesWithin len view.now →
            LiesWithin len (view_of_picked part)) }
        ensures memory { IsOfNone view.now.shape (S.list slice.now) → IsOk result }
    {
        let ndim = out_ndim_of(slice.elems());
        if ndim == 1 {
            return Ok(PickedView::Line(view.slice(alloc, slice, Fit::Strict)?));
        }
        if ndim == 2 {
            return Ok(PickedView::Plane(view.slice(alloc, slice, Fit::Strict)?));
        }
        Ok(PickedView::Any(view.slice(alloc, slice, Fit::Strict)?))
    }

    /// How many places it has.
    #[inline]
    pub(crate) fn size(&self) -> usize
        ensures { result ≡ size (view_of_picked self.now).shape }
    {
        match self {
            PickedView::Line(view) => view.len(),
            PickedView::Plane(view) => view.len(),
            PickedView::Any(view) => view.len(),
        }
    }

    /// Copies of the items at its places.
    #[inline]
    pub(crate) fn read<T: Copy>(&self, alloc: Global, stored: &[T]) -> Result<Vec<T>, AllocError>
        requires { LiesWithin (length stored.now) (view_of_picked self.now) }
        ensures items { IfOk result (λ v.
            map Some v.items ≡ map (item_at_place stored.now) (picked_places self.now)) }
        ensures memory { size (view_of_picked self.now).shape ≡ 0 → IsOk result }
    {
        match self {
            PickedView::Line(view) => read_view(alloc, view, stored),
            PickedView::Plane(view) => read_view(alloc, view, stored),
            PickedView::Any(view) => read_view(alloc, view, stored),
        }
    }

    /// Writes an item at each of its places.
    #[inline]
    pub(crate) fn write<T: Copy>(&self, stored: &mut [T], items: &[T])
        requires within { LiesWithin (length stored.old) (view_of_picked self.now) }
        requires count { size (view_of_picked self.now).shape ≡ length items.now }
        ensures { AllPairs (λ one other. one ≢ other) (picked_places self.now) →
            HasWritten (picked_places self.now) items.now stored.old stored.new }
    {
        match self {
            PickedView::Line(view) => write_view(stored, view, items),
            PickedView::Plane(view) => write_view(stored, view, items),
            PickedView::Any(view) => write_view(stored, view, items),
        }
    }
}
