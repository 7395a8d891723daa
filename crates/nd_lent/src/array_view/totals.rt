//! What is known of all items of an array at once: their sum and product, and whether some or all of them pass a test.
ghost use Rattle.std.specs.Iterator.{CallableWhile, ChecksAll, ChecksAny};
ghost use Rattle.std.specs.List.{sum_by};
ghost use Rattle.std.specs.Option.{option_map_or};
ghost use Rattle.std.specs.Prelude.{◌≡◌, ◌^◌, ◌<◌, ◌↔◌, IfSome, IsSome, List, Option, true, false, map};
ghost use Rattle.ndarray_layout.specs.declared.Order.TheVariants.{RowMajor};
ghost use Rattle.ndarray_layout.specs.Size.{size};
ghost use Rattle.ndarray_layout.specs.View.{view_places};
ghost use Rattle.nd_access.specs.Items.{item_at_place};
ghost use Rattle.nd_access.specs.Lending.{lends};
ghost use Rattle.nd_lent.specs.private.Times.{times};

use crate::array_view::ArrayView;
use nd_loops::{Unsigned, nearest_view, sum_rows};
use ndarray_layout::Lengths;

impl<T: Unsigned, D: Lengths> ArrayView<'_, T, D> {
    /// The sum of the items, an item as often as the array has indices for it; `None` where it passes the greatest `u64`.
    ///
    /// Time in proportion to the indices. Takes no memory. Goes over the items in the order in which they lie, as `fold_nearest`
    /// does: in a row whose items follow one another the sum is tested once for many items.
    ///
    /// `[2]` with the stride `[-1]` over 7 8 9: 15; of `u8` items too, since they are added as `u64`. ndarray's `sum`.
    pub fn sum(&self) -> Option<u64>
        ensures fits { IsSome result ↔ (sum_by (λ item. option_map_or T.number item 0)
            (map (item_at_place self.now.items) (view_places RowMajor self.now.view)) < 2 ^ 64) }
        ensures sum { IfSome result (λ total. total ≡ sum_by (λ item. option_map_or T.number item 0)
            (map (item_at_place self.now.items) (view_places RowMajor self.now.view))) }
    {
        let nearest = nearest_view(self.strided());
        sum_rows(self.rows_in(&nearest))
    }

    /// The product of the items, an item as often as the array has indices for it; `None` where it passes the greatest `u64`. Without
    /// items 1.
    ///
    /// Time in proportion to the indices. Takes no memory. Goes over the longest rows that the axes allow, as `fold` does.
    ///
    /// `[2]` with the stride `[-1]` over 7 8 9: 56; of `u8` items too. Of three items of 2^32 `None`, and 0 if a fourth one is 0.
    /// ndarray's `product`.
    pub fn product(&self) -> Option<u64>
        ensures fits { IsSome result ↔ (size (map (λ item. option_map_or T.number item 1)
            (map (item_at_place self.now.items) (view_places RowMajor self.now.view))) < 2 ^ 64) }
        ensures product { IfSome result (λ product. product ≡ size (map (λ item. option_map_or T.number item 1)
            (map (item_at_place self.now.items) (view_places RowMajor self.now.view)))) }
    {
        let times = |product: Option<u64>, item: &T|
            ensures { result ≡ times product (T.number item.now) }
        {
            match (product, item.to_u64()) {
                (_, 0) => Some(0),
                (Some(product), number) => product.checked_mul(number),
                (None, _) => None,
            }
        };
        self.fold(Some(1), times)
    }
}

impl<T, D: Lengths> ArrayView<'_, T, D> {
    /// Whether a function returns `true` at some item. It is called at one item after another, in row-major order, and at none
    /// after the first one that passes. Without items `false`.
    ///
    /// Goes over the longest rows that the axes allow, as `fold` does.
    ///
    /// `[2]` with the stride `[-1]` over 7 8 9, by `any(|item| *item > 8)`: `false`. std's `any` of `iter()`.
    pub fn any<F: FnMut(&T) -> bool>(&self, f: F) -> bool
        requires callable { CallableWhile lends F.FnMut false
            (map (item_at_place self.now.items) (view_places RowMajor self.now.view)) f }
        ensures ran { (left : List (Option T)) × ChecksAny lends F.FnMut
            (map (item_at_place self.now.items) (view_places RowMajor self.now.view)) f result left }
    {
        self.search(true, f)
    }

    /// Whether a function returns `true` at each item. It is called at one item after another, in row-major order, and at none
    /// after the first one that fails. Without items `true`.
    ///
    /// Goes over the longest rows that the axes allow, as `fold` does.
    ///
    /// `[2]` with the stride `[-1]` over 7 8 9, by `all(|item| *item > 6)`: `true`. std's `all` of `iter()`.
    pub fn all<F: FnMut(&T) -> bool>(&self, f: F) -> bool
        requires callable { CallableWhile lends F.FnMut true
            (map (item_at_place self.now.items) (view_places RowMajor self.now.view)) f }
        ensures ran { (left : List (Option T)) × ChecksAll lends F.FnMut
            (map (item_at_place self.now.items) (view_places RowMajor self.now.view)) f result left }
    {
        !self.search(false, f)
    }
}
