//! Places that follow one another.
ghost use Rattle.std.specs.Prelude.{◌≡◌, ◌+◌, ◌≤◌, ◌↔◌, ℕ, IsTrue, IsSome, IfSome, length};
ghost use Rattle.nd_base.specs.Signed.{all_signed};
ghost use Rattle.nd_base.specs.Size.{limit, nonzero_size, size};
ghost use Rattle.nd_shape.specs.MajorOrder.{LiesInOrder};
ghost use Rattle.ndarray_layout.specs.Stretch.{IsStretch, stretch_start};
ghost use Rattle.ndarray_layout.specs.View.{LiesWithin};

use crate::strided::Strided;
use nd_base::{Lengths, Order};
use nd_dim::product;
use nd_shape::{is_layout_c, is_layout_f};
use std::ops::Range;

/// Whether the places of all indices follow one another in an order, or there is no index. The caller ensures what
/// `is_layout_c` and `is_layout_f` ask for.
#[inline(always)]
fn lies_in_order<D: Lengths>(order: Order, dim: &D, strides: &D) -> bool
    requires same_count { length (D.list dim.now) ≡ length (D.list strides.now) }
    requires size_fits { nonzero_size (D.list dim.now) ≤ limit }
    ensures { IsTrue result
        ↔ LiesInOrder order (D.list dim.now) (all_signed (D.list strides.now)) }
{
    match order {
        Order::RowMajor => is_layout_c(dim, strides),
        Order::ColumnMajor => is_layout_f(dim, strides),
    }
}

impl<D: Lengths> Strided<D> {
    /// The range of the view's places, where they follow one another without a gap in an order; `None` where
    /// they don't. Without an index it is `0..0`.
    ///
    /// Takes no memory, and time in proportion to the count of axes.
    ///
    /// `[2,3]`, `[3,1]` from 4: `4..10` in row-major order, `None` in column-major order. For ndarray's
    /// `as_slice` and `is_standard_layout`.
    #[inline]
    pub fn stretch(&self, order: Order) -> Option<Range<usize>>
        ensures found { IsSome result ↔ IsStretch order self.now }
        ensures start { IfSome result (λ places. places.start ≡ stretch_start self.now) }
        ensures end { IfSome result (λ places.
            places.end ≡ stretch_start self.now + size self.now.shape) }
        ensures in_bounds { IfSome result (λ places. (len : ℕ) → LiesWithin len self.now →
            places.end ≤ len) }
    {
        if !lies_in_order(order, &self.dim, &self.strides) {
            return None;
        }
        let size = product(self.dim.slice());
        let start = if size == 0 { 0 } else { self.start };
        Some(start..start + size)
    }
}
