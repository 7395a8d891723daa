//! How often a picture has each value of a pixel.
ghost use Rattle.std.specs.List.{count_by};
ghost use Rattle.std.specs.Option.{option_map_or};
ghost use Rattle.std.specs.Prelude.{◌≡◌, ◌<◌, ℕ, false, map, nat_eq, slice_index};
ghost use Rattle.ndarray_layout.specs.declared.Order.TheVariants.{RowMajor};
ghost use Rattle.ndarray_layout.specs.View.{view_places};
ghost use Rattle.nd_owned.specs.Owned.{item_at_place};

use nd_owned::ArrayView;
use ndarray_layout::Lengths;

/// How many pixels of a picture have each value: item 7 is the count of those that are 7. Takes no memory.
pub fn histogram<D: Lengths>(picture: &ArrayView<'_, u8, D>) -> [usize; 256]
    ensures { (value : ℕ) → value < 256 → slice_index result value ≡ count_by
        (λ pixel. option_map_or (nat_eq value) pixel false)
        (map (item_at_place picture.now.items) (view_places RowMajor picture.now.view)) }
{
    let mut counts = [0; 256];
    for pixel in picture.iter() {
        counts[usize::from(*pixel)] += 1;
    }
    counts
}
