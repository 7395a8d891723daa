//! A loop over the indices of a picture, for each of which something is counted.
ghost use Rattle.std.specs.List.{count_by};
ghost use Rattle.std.specs.Option.{option_map_or};
ghost use Rattle.std.specs.Prelude.{◌≡◌, IfOk, IsOk, false, nat_le};
ghost use Rattle.ndarray_layout.specs.declared.Order.TheVariants.{RowMajor};
ghost use Rattle.ndarray_layout.specs.Indices.{indices_in};
ghost use Rattle.nd_owned.specs.Owned.{item_at};

use nd_owned::ArrayView;
use ndarray_layout::{Dimension, Ix2, all_indices};
use std::alloc::{AllocError, Global};

/// How many indices of a picture have a pixel of at least this brightness, by a loop over the indices. Two axes need no memory.
#[tactic(auto, using(crate::proofs::Laws::size_le_nonzero_size))]
pub fn count_bright(
    alloc: Global,
    picture: &ArrayView<'_, u8, Ix2>,
    least: u8,
) -> Result<usize, AllocError>
    ensures count { IfOk result (λ count. count ≡ count_by
        (λ index. option_map_or (λ pixel. nat_le least pixel) (item_at picture.now index) false)
        (indices_in RowMajor picture.now.view.shape)) }
    ensures memory { IsOk result }
{
    let mut count = 0;
    for index in all_indices(alloc, picture.strided().dim().into_pattern())? {
        if picture.get(&index).is_some_and(|pixel| *pixel >= least) {
            count += 1;
        }
    }
    Ok(count)
}
