//! The least and the greatest item of an array.
ghost use Rattle.std.specs.Ordering.{is_gt, is_lt, ord_max, ord_min};
ghost use Rattle.std.specs.Prelude.{◌≡◌, ◌<◌, ◌↔◌, IfSome, IsSome, map};
ghost use Rattle.ndarray_layout.specs.declared.Order.TheVariants.{RowMajor};
ghost use Rattle.ndarray_layout.specs.Size.{size};
ghost use Rattle.ndarray_layout.specs.View.{view_places};
ghost use Rattle.nd_lent.specs.Extremes.{HasNoEqualAfter, HasNoEqualBefore, IsFirstOf};
ghost use Rattle.nd_access.specs.Items.{item_at_place};
ghost use Rattle.nd_lent.specs.private.Picked.{better_of};

use crate::array_view::ArrayView;
use ndarray_layout::Lengths;

impl<T: Copy + Ord, D: Lengths> ArrayView<'_, T, D> {
    /// The greatest item, of equal ones the last in row-major order; `None` where the array has no index.
    ///
    /// Time in proportion to the indices, by `fold`.
    ///
    /// `[2]` with the stride `[-1]` over 7 8 9: 8. std's `max` of `iter()`.
    pub fn max(&self) -> Option<T>
        ensures found { IsSome result ↔ (0 < size self.now.view.shape) }
        ensures greatest { IfSome result (IsFirstOf (λ one other. is_gt (T.cmp one other))
            (map (item_at_place self.now.items) (view_places RowMajor self.now.view))) }
        ensures last { IfSome result (HasNoEqualAfter T.cmp
            (map (item_at_place self.now.items) (view_places RowMajor self.now.view))) }
    {
        let greater = |greatest: Option<T>, item: &T|
            ensures { result ≡ better_of (ord_max T.cmp) greatest item.now }
        {
            match greatest {
                Some(greatest) => Some(greatest.max(*item)),
                None => Some(*item),
            }
        };
        self.fold(None, greater)
    }

    /// The least item, of equal ones the first in row-major order; `None` where the array has no index.
    ///
    /// Time in proportion to the indices, by `fold`.
    ///
    /// `[2]` with the stride `[-1]` over 7 8 9: 7. std's `min` of `iter()`.
    pub fn min(&self) -> Option<T>
        ensures found { IsSome result ↔ (0 < size self.now.view.shape) }
        ensures least { IfSome result (IsFirstOf (λ one other. is_lt (T.cmp one other))
            (map (item_at_place self.now.items) (view_places RowMajor self.now.view))) }
        ensures first { IfSome result (HasNoEqualBefore T.cmp
            (map (item_at_place self.now.items) (view_places RowMajor self.now.view))) }
    {
        let less = |least: Option<T>, item: &T|
            ensures { result ≡ better_of (ord_min T.cmp) least item.now }
        {
            match least {
                Some(least) => Some(least.min(*item)),
                None => Some(*item),
            }
        };
        self.fold(None, less)
    }
}
