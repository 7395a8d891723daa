//! Pixels that are written by parts, and what they are then.
ghost use Rattle.std.specs.Prelude.{◌≡◌, ◌&&◌, [], ◌∷◌, OnOk, Some, length};
ghost use Rattle.ndarray_layout.specs.Indices.{is_index};
ghost use Rattle.ndarray_layout.specs.SplitView.{first_part_of, second_part_of};
ghost use Rattle.ndarray_layout.specs.SharePlace.{SharePlace};
ghost use Rattle.nd_lent.specs.HasItems.{HasItemsOf, with_swapped};
ghost use Rattle.nd_lent.specs.Items.{IsOwned, with_item};

use nd_lent::Whole;
use ndarray_layout::{Axis, Ix2, LayoutError, Strided};
use std::alloc::Global;

/// Writes the first pixel of a picture, whose pixels lie in a list by a view, by a part of it. The list's other pixels are
/// unchanged. The caller ensures that each index has a pixel to itself.
pub fn set_first(view: Strided<Ix2>, pixels: &mut [u8], pixel: u8)
    requires { IsOwned (length pixels.old) view }
    ensures { pixels.new ≡
        (with_item (record { items = pixels.old; view = view }) (0 ∷ 0 ∷ []) pixel).items }
{
    let mut whole = Whole::new(pixels);
    let mut part = whole.lend(view);
    part.set(&(0, 0), pixel);
    whole.end(part);
}

/// Writes a pixel at each index of a picture, whose pixels lie in a list by a view, by a part of it. The list's other pixels are
/// unchanged. The caller ensures that each index has a pixel to itself.
pub fn fill_all(view: Strided<Ix2>, pixels: &mut [u8], pixel: u8)
    requires { IsOwned (length pixels.old) view }
    ensures { HasItemsOf (λ index. Some pixel)
        (record { items = pixels.old; view = view }) (record { items = pixels.new; view = view }) }
{
    let mut whole = Whole::new(pixels);
    let mut part = whole.lend(view);
    part.fill(pixel);
    whole.end(part);
}

/// Swaps the first pixel of a picture with another one of its first row, by a part of it, and returns whether both are there; else no
/// pixel is changed. The list's other pixels are unchanged. The caller ensures that each index has a pixel to itself.
pub fn swap_in_row(view: Strided<Ix2>, pixels: &mut [u8], at: usize) -> bool
    requires { IsOwned (length pixels.old) view }
    ensures are_there { result ≡ (is_index view.shape (0 ∷ 0 ∷ []) && is_index view.shape (0 ∷ at ∷ [])) }
    ensures swapped { pixels.new ≡
        (with_swapped (record { items = pixels.old; view = view }) (0 ∷ 0 ∷ []) (0 ∷ at ∷ [])).items }
{
    let mut whole = Whole::new(pixels);
    let mut part = whole.lend(view);
    let is_swapped = part.swap(&(0, 0), &(0, at));
    whole.end(part);
    is_swapped
}

/// Writes the first pixel of each of two parts of a picture, which share no pixel. The list's other pixels are unchanged. The caller
/// ensures that each index of a part has a pixel to itself.
pub fn set_two(first: Strided<Ix2>, second: Strided<Ix2>, pixels: &mut [u8], one: u8, other: u8)
    requires first { IsOwned (length pixels.old) first }
    requires second { IsOwned (length pixels.old) second }
    requires apart { SharePlace first second → ⊥ }
    ensures { let written = with_item (record { items = pixels.old; view = second }) (0 ∷ 0 ∷ []) other in
        pixels.new ≡ (with_item (record { items = written.items; view = first }) (0 ∷ 0 ∷ []) one).items }
{
    let mut whole = Whole::new(pixels);
    let mut rest = whole.rest();
    let (mut left, left_taken) = rest.take(first);
    let (mut right, right_taken) = rest.take(second);
    left.set(&(0, 0), one);
    right.set(&(0, 0), other);
    rest.put_back(right, right_taken);
    rest.put_back(left, left_taken);
    whole.close(rest);
}

/// Writes the first pixel of the columns below `at`, and that of the others, each by a part of its own. The list's other pixels are
/// unchanged. The caller ensures that each index has a pixel to itself. Errors: those of `Strided::split_at`.
pub fn set_halves(
    alloc: Global,
    view: Strided<Ix2>,
    pixels: &mut [u8],
    at: usize,
    one: u8,
    other: u8,
) -> Result<(), LayoutError>
    requires { IsOwned (length pixels.old) view }
    ensures { OnOk result (
        let written = with_item (record { items = pixels.old; view = second_part_of 1 at view }) (0 ∷ 0 ∷ []) other in
        pixels.new ≡ (with_item (record { items = written.items; view = first_part_of 1 at view }) (0 ∷ 0 ∷ []) one).items) }
{
    let (first, second) = view.split_at(alloc, Axis(1), at)?;
    set_two(first, second, pixels, one, other);
    Ok(())
}
