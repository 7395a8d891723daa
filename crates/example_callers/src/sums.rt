//! The sum of the pixels of a picture, by its transpose.
ghost use Rattle.std.specs.List.{sum_by};
ghost use Rattle.std.specs.Option.{option_map_or};
ghost use Rattle.std.specs.Prelude.{◌≡◌, ◌<◌, ◌^◌, ◌↔◌, IfSome, IsSome, map};
ghost use Rattle.ndarray_layout.specs.declared.Order.TheVariants.{RowMajor};
ghost use Rattle.ndarray_layout.specs.View.{view_places};
ghost use Rattle.nd_owned.specs.Owned.{item_at_place};

use nd_owned::ArrayView;
use ndarray_layout::Lengths;

/// The sum of the pixels of a picture of any number of axes, by its transpose, which is that of the picture; `None` where it passes
/// `u64`. Takes no memory.
pub fn transpose_sum<D: Lengths>(picture: ArrayView<'_, u8, D>) -> Option<u64>
    ensures fits { IsSome result ↔ (sum_by (λ pixel. option_map_or (λ n. n) pixel 0)
        (map (item_at_place picture.entry.items) (view_places RowMajor picture.entry.view)) < 2 ^ 64) }
    ensures sum { IfSome result (λ total. total ≡ sum_by (λ pixel. option_map_or (λ n. n) pixel 0)
        (map (item_at_place picture.entry.items) (view_places RowMajor picture.entry.view))) }
{
    picture.reversed_axes().sum()
}
