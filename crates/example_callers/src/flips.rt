//! A picture that is turned upside down in place.
ghost use Rattle.std.specs.Prelude.{◌≡◌, IsOk, OnOk, length};
ghost use Rattle.ndarray_layout.specs.InvertedView.{invert_source};
ghost use Rattle.nd_owned.specs.HasItems.{HasItemsOf};
ghost use Rattle.nd_owned.specs.Lent.{access_of, array_of};
ghost use Rattle.nd_owned.specs.Owned.{IsOwned, item_at};

use nd_owned::{ArrayViewMut, Whole};
use ndarray_layout::{Dimension, Ix2, Strided, all_indices};
use std::alloc::{AllocError, Global};

/// Swaps each pixel of the upper half with the one as far from the lower end of its column.
fn swap_rows(alloc: Global, picture: &mut ArrayViewMut<'_, u8, Ix2>) -> Result<(), AllocError>
    ensures memory { IsOk result }
    ensures flipped { OnOk result (HasItemsOf
        (λ index. item_at (array_of picture.old) (invert_source 0 (array_of picture.old).view.shape index))
        (array_of picture.old) (array_of picture.new)) }
    ensures same_right { access_of picture.new ≡ access_of picture.old }
{
    let (rows, columns) = picture.strided().dim().into_pattern();
    for (row, column) in all_indices(alloc, (rows / 2, columns))? {
        let _ = picture.swap(&(row, column), &(rows - 1 - row, column));
    }
    Ok(())
}

/// Turns a picture upside down, whose pixels lie in a list by a view: each index has the pixel that its mirrored index had. The list's
/// other pixels are unchanged. The caller ensures that each index has a pixel to itself. Two axes need no memory.
pub fn flip(alloc: Global, view: Strided<Ix2>, pixels: &mut [u8]) -> Result<(), AllocError>
    requires { IsOwned (length pixels.old) view }
    ensures memory { IsOk result }
    ensures flipped { OnOk result (HasItemsOf
        (λ index. item_at (record { items = pixels.old; view = view }) (invert_source 0 view.shape index))
        (record { items = pixels.old; view = view })
        (record { items = pixels.new; view = view })) }
{
    let mut whole = Whole::new(pixels);
    let mut picture = whole.lend(view);
    swap_rows(alloc, &mut picture)?;
    whole.end(picture);
    Ok(())
}
