//! A loop over the items of an array, for each of which something is counted.
ghost use Rattle.std.specs.Prelude.{◌≡◌, false, map, nat_lt};
ghost use Rattle.std.specs.List.{count_by};
ghost use Rattle.std.specs.Option.{option_map_or};
ghost use Rattle.ndarray_layout.specs.declared.Order.TheVariants.{RowMajor};
ghost use Rattle.ndarray_layout.specs.View.{view_places};
ghost use Rattle.nd_owned.specs.Owned.{item_at_place};

use nd_owned::OwnedArray;
use ndarray_layout::Lengths;

/// How many pixels of a picture are darker than a bound, by their copies. No memory is taken for any.
pub fn count_dark_pixels<D: Lengths>(picture: &OwnedArray<u8, D>, bound: u8) -> usize
    ensures { result ≡ count_by
        (λ pixel. option_map_or (λ value. nat_lt value bound) pixel false)
        (map (item_at_place picture.now.items) (view_places RowMajor picture.now.view)) }
{
    picture.iter().filter(|pixel| *pixel < bound).count()
}
