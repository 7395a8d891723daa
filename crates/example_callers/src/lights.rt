//! A part of a picture that is lit by another picture.
ghost use Rattle.std.specs.Prelude.{◌≡◌, ◌+◌, ◌↔◌, false, IsTrue, min};
ghost use Rattle.nd_owned.specs.HasItems.{HasItemsOf};
ghost use Rattle.nd_owned.specs.Lent.{array_of};
ghost use Rattle.nd_owned.specs.Zipped.{zipped_at};

use nd_owned::{ArrayView, ArrayViewMut};
use ndarray_layout::Ix2;

/// Adds to each pixel of a part the one of the same index of another picture, up to the brightest one, 255. Returns whether the shapes are
/// the same; else the part is unchanged. Pixels beside the part are unchanged.
pub fn lighten(part: &mut ArrayViewMut<'_, u8, Ix2>, light: &ArrayView<'_, u8, Ix2>) -> bool
    ensures fits { IsTrue result ↔ ((array_of part.old).view.shape ≡ light.now.view.shape) }
    ensures lit { IsTrue result → HasItemsOf
        (zipped_at (λ pixel more. min (pixel + more) 255) (array_of part.old) light.now)
        (array_of part.old) (array_of part.new) }
    ensures unchanged { result ≡ false → array_of part.new ≡ array_of part.old }
{
    part.zip_mut_with(
        light,
        |pixel: &mut u8, more: &u8|
            ensures { pixel.new ≡ min (pixel.old + more.now) 255 }
        {
            *pixel = pixel.saturating_add(*more);
        },
    )
    .is_ok()
}
