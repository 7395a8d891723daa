//! The interval of memory that the items of a view fill, whatever the order of its axes.
ghost use Rattle.std.specs.Option.{IsSome};
ghost use Rattle.std.specs.Prelude.{◌≡◌, ◌↔◌, ◌+◌, ◌<◌, ◌≤◌, Bool, IfSome, IsTrue, List, length};
ghost use Rattle.ndarray_layout.specs.OneInterval.{FillsInterval};
ghost use Rattle.ndarray_layout.specs.Size.{size};
ghost use Rattle.nd_access.specs.Cells.{are_within, span_of};
ghost use Rattle.nd_access.specs.Part.{AreMarked};
ghost use Rattle.nd_lent.specs.SplitItems.{lowest};

use nd_access::is_contiguous;
use ndarray_layout::{Dimension, Strided, offset_from_low_addr_ptr_to_logical_ptr};

/// The lowest place of a view, and how many places it has, where no two indices alias and the places are consecutive numbers; else
/// `None`. Without an index both are 0.
///
/// `[2,3]`, `[-1,2]` from 4: 3 and 6.
pub(crate) fn memory_range<D: Dimension>(view: &Strided<D>) -> Option<(usize, usize)>
    ensures found { IsSome result ↔ FillsInterval view.now.shape view.now.strides }
    ensures start { IfSome result (λ (start, len). 0 < len → start ≡ lowest view.now) }
    ensures len { IfSome result (λ (start, len). len ≡ size view.now.shape) }
    ensures marked { IfSome result (λ (start, len). (marks : List Bool) → AreMarked marks view.now →
        IsTrue (are_within (span_of start len marks) marks) × (start + len ≤ length marks)) }
{
    if view.is_empty() {
        return Some((0, 0));
    }
    let (dim, strides) = (view.dim(), view.strides());
    if !D::is_contiguous(dim, strides) {
        return None;
    }
    let low = offset_from_low_addr_ptr_to_logical_ptr(dim, strides);
    Some((view.start() - low, view.len()))
}
