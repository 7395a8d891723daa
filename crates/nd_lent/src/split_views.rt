//! The two parts of a view along an axis, where the places of one are all below those of the other.
ghost use Rattle.std.specs.Prelude.{◌≡◌, ◌⊎◌, ◌+◌, ◌-◌, ◌≤◌, false, None, IfOk, IsOk, if◌then◌else◌, length};
ghost use Rattle.ndarray_layout.specs.Memory.{NeedsNoMemory};
ghost use Rattle.ndarray_layout.specs.ShapeFault.{shape_fault};
ghost use Rattle.ndarray_layout.specs.Size.{is_empty};
ghost use Rattle.ndarray_layout.specs.Span.{low_span};
ghost use Rattle.ndarray_layout.specs.SplitView.{first_part_of, second_part_of, split_fault};
ghost use Rattle.ndarray_layout.specs.View.{IsView, LiesWithin};
ghost use Rattle.nd_access.specs.Items.{IsOwned};
ghost use Rattle.nd_lent.specs.SplitItems.{IsMemory, IsMoved, highest, lowest, split_items_fault};

use ndarray_layout::{
    Axis, CanIndexCheckMode, ErrorKind, LayoutError, Lengths, ShapeError, Strided, from_kind,
    max_abs_offset_check_overflow, offset_from_low_addr_ptr_to_logical_ptr,
};
use std::alloc::Global;

/// The two parts of a view along an axis, each over items of its own: `cut` of the items are below it, and the part whose
/// places are lower has those.
#[derive(Drop)]
pub struct SplitViews<D: Lengths> {
    pub first: Strided<D>,
    pub second: Strided<D>,
    pub cut: usize,
    pub first_is_lower: bool,
}

/// The lowest place and the highest one of a view with an index. Errors: none, since a view has a span.
fn reach<D: Lengths>(view: &Strided<D>) -> Result<(usize, usize), ShapeError>
    ensures none { IsOk result }
    ensures lowest { IfOk result (λ (low, high). low ≡ lowest view.now) }
    ensures highest { IfOk result (λ (low, high). high ≡ highest view.now) }
    ensures is_view { IsView view.now }
{
    let (dim, strides) = (view.dim(), view.strides());
    let span = max_abs_offset_check_overflow(1, dim, strides)?;
    let low = offset_from_low_addr_ptr_to_logical_ptr(dim, strides);
    Ok((view.start() - low, view.start() + (span - low)))
}

/// A view over the `len` items that are left where so many before them are left out. Errors: none.
fn without_first_items<D: Lengths>(
    view: Strided<D>,
    by: usize,
    len: usize,
) -> Result<Strided<D>, ShapeError>
    requires some { is_empty view.shape ≡ false }
    requires low { by + low_span view.shape view.strides ≤ view.start }
    requires within { LiesWithin (by + len) view }
    ensures none { IsOk result }
    ensures moved { IfOk result (IsMoved by view) }
    ensures within { IfOk result (LiesWithin len) }
    ensures is_view { IfOk result IsView }
{
    let start = view.start() - by;
    view.moved_to(start, 1, len, CanIndexCheckMode::ReadOnly)
}

impl<D: Lengths> SplitViews<D> {
    /// The two parts of a view over `count` items along an axis, where the places of one are all below those of the other.
    ///
    /// Its `first` and `second` are those of `Strided::split_at`, each over items of its own: the part whose places are lower
    /// has the `cut` items below, the other one has the items from there on, and its start is `cut` less. So `split_at_mut` of
    /// the items at `cut` and two times `ArrayViewMut::new` lend both. By this call a proof knows what the items are in the end.
    ///
    /// # Errors
    ///
    /// `OutOfBounds` where there is no such axis or the index is greater than its length; then out of memory, never where the
    /// type fixes the count of axes or there are at most 4; then `IncompatibleLayout` where the places of the parts interleave.
    ///
    /// Axis 0 of `[2,3]`, `[3,1]` from 1 at 1: `[1,3]` from 1 over 4 items, and `[1,3]` from 0 over the others. The project's
    /// own.
    pub fn new(
        alloc: Global,
        view: Strided<D>,
        count: usize,
        axis: Axis,
        index: usize,
    ) -> Result<Self, LayoutError>
        requires { IsOwned count view }
        ensures fault { (shape_fault result ≡ split_items_fault axis.0 index view)
            ⊎ IsMemory result }
        ensures in_bounds { IsMemory result → split_fault view.shape axis.0 index ≡ None }
        ensures memory { NeedsNoMemory D.NDIM (length view.shape) → IsMemory result → ⊥ }
        ensures cut { IfOk result (λ parts. parts.cut ≤ count) }
        ensures first { IfOk result (λ parts.
            IsMoved (if parts.first_is_lower then 0 else parts.cut)
            (first_part_of axis.0 index view) parts.first) }
        ensures second { IfOk result (λ parts.
            IsMoved (if parts.first_is_lower then parts.cut else 0)
            (second_part_of axis.0 index view) parts.second) }
        ensures first_owned { IfOk result (λ parts.
            IsOwned (if parts.first_is_lower then parts.cut else count - parts.cut)
            parts.first) }
        ensures second_owned { IfOk result (λ parts.
            IsOwned (if parts.first_is_lower then count - parts.cut else parts.cut)
            parts.second) }
    {
        let (first, second) = view.split_at(alloc, axis, index)?;
        if first.is_empty() {
            return Ok(SplitViews {
                first,
                second,
                cut: 0,
                first_is_lower: true,
            });
        }
        if second.is_empty() {
            return Ok(SplitViews {
                first,
                second,
                cut: 0,
                first_is_lower: false,
            });
        }
        let (first_low, first_high) = reach(&first)?;
        let (second_low, second_high) = reach(&second)?;
        if first_high < second_low {
            let second = without_first_items(second, second_low, count - second_low)?;
            return Ok(SplitViews {
                first,
                second,
                cut: second_low,
                first_is_lower: true,
            });
        }
        if second_high < first_low {
            let first = without_first_items(first, first_low, count - first_low)?;
            return Ok(SplitViews {
                first,
                second,
                cut: first_low,
                first_is_lower: false,
            });
        }
        Err(LayoutError::Shape(from_kind(ErrorKind::IncompatibleLayout)))
    }
}
