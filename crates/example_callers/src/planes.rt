//! The planes of a picture, each painted by a part of its own.
ghost use Rattle.std.specs.Prelude.{◌≡◌, ℕ, List, OnOk, IsOk, Some, length, slice_index};
ghost use Rattle.ndarray_layout.specs.SharePlace.{SharePlace};
ghost use Rattle.nd_lent.specs.HasItems.{HasItemsOf};
ghost use Rattle.nd_lent.specs.Items.{IsOwned};
ghost use Rattle.nd_lent.specs.Lent.{access_of, array_of};

use nd_lent::{ArrayViewMut, Whole};
use ndarray_layout::{Axis, Ix2, Ix3, LayoutError, Strided};
use std::alloc::Global;

/// The axis of a picture's planes, after its rows and columns.
const PLANES: Axis = Axis(2);

/// Paints each pixel of a part; the picture's other pixels are unchanged. Takes no memory.
pub fn paint_plane(part: &mut ArrayViewMut<'_, u8, Ix2>, pixel: u8)
    ensures painted { HasItemsOf (λ index. Some pixel) (array_of part.old) (array_of part.new) }
    ensures count { length (array_of part.new).items ≡ length (array_of part.old).items }
    ensures same_right { access_of part.new ≡ access_of part.old }
{
    part.fill(pixel);
}

/// Paints three parts of a picture, each in a colour of its own, where no two share a pixel.
fn paint_three(
    red: (Strided<Ix2>, u8),
    green: (Strided<Ix2>, u8),
    blue: (Strided<Ix2>, u8),
    pixels: &mut [u8],
)
    requires red { IsOwned (length pixels.old) red.0 }
    requires green { IsOwned (length pixels.old) green.0 }
    requires blue { IsOwned (length pixels.old) blue.0 }
    requires red_and_green { SharePlace red.0 green.0 → ⊥ }
    requires red_and_blue { SharePlace red.0 blue.0 → ⊥ }
    requires green_and_blue { SharePlace green.0 blue.0 → ⊥ }
    ensures { (one : List ℕ) × (other : List ℕ)
        × HasItemsOf (λ index. Some blue.1)
        (record { items = pixels.old; view = blue.0 }) (record { items = one; view = blue.0 })
        × HasItemsOf (λ index. Some green.1)
        (record { items = one; view = green.0 }) (record { items = other; view = green.0 })
        × HasItemsOf (λ index. Some red.1)
        (record { items = other; view = red.0 }) (record { items = pixels.new; view = red.0 }) }
{
    let mut whole = Whole::new(pixels);
    let mut rest = whole.rest();
    let (mut red_part, red_taken) = rest.take(red.0);
    let (mut green_part, green_taken) = rest.take(green.0);
    let (mut blue_part, blue_taken) = rest.take(blue.0);
    paint_plane(&mut red_part, red.1);
    paint_plane(&mut green_part, green.1);
    paint_plane(&mut blue_part, blue.1);
    rest.put_back(blue_part, blue_taken);
    rest.put_back(green_part, green_taken);
    rest.put_back(red_part, red_taken);
    whole.close(rest);
}

/// Paints each pixel of a picture of rows, columns and three planes in a colour, each plane by a part of its own, whatever the strides
/// are: the planes may interleave, or lie one after another. The list's other items are unchanged. The caller ensures that each
/// index has an item to itself. No memory is needed.
pub fn paint_planes(
    alloc: Global,
    view: &Strided<Ix3>,
    pixels: &mut [u8],
    colour: [u8; 3],
) -> Result<(), LayoutError>
    requires owned { IsOwned (length pixels.old) view.now }
    requires planes { slice_index view.now.shape 2 ≡ 3 }
    ensures memory { IsOk result }
    ensures painted { OnOk result (HasItemsOf (λ index. Some (slice_index colour (slice_index index 2)))
        (record { items = pixels.old; view = view.now })
        (record { items = pixels.new; view = view.now })) }
{
    let red = view.index_axis(alloc, PLANES, 0)?;
    let green = view.index_axis(alloc, PLANES, 1)?;
    let blue = view.index_axis(alloc, PLANES, 2)?;
    paint_three(
        (red, colour[0]),
        (green, colour[1]),
        (blue, colour[2]),
        pixels,
    );
    Ok(())
}
