//! Tiles of a picture, painted one after another, each by a part of its own.
ghost use Rattle.std.specs.List.{All, Contains};
ghost use Rattle.std.specs.Prelude.{◌≡◌, ◌++◌, ◌∷◌, ℕ, pos, IsOk, IsTrue, List, OnOk, Some, length, slice_get};
ghost use Rattle.ndarray_layout.specs.declared.Order.TheVariants.{RowMajor};
ghost use Rattle.ndarray_layout.specs.Indices.{is_index};
ghost use Rattle.ndarray_layout.specs.View.{View, place_at, view_places};
ghost use Rattle.nd_lent.specs.Items.{IsOwned, item_at};

use nd_lent::Whole;
use ndarray_layout::{Ix2, Strided};
use std::alloc::{AllocError, Global};

/// Paints tiles of a picture, whose pixels lie in a list, one tile after another, each in a colour of its own. Tiles may share
/// pixels: a pixel then has the colour of the last tile that it is in. The list's other pixels are unchanged. The caller ensures that
/// each index of a tile has a pixel to itself. Two axes need no memory.
pub fn paint_tiles(
    alloc: Global,
    tiles: &[(Strided<Ix2>, u8)],
    pixels: &mut [u8],
) -> Result<(), AllocError>
    requires owned { All (λ tile. IsOwned (length pixels.old) tile.0) tiles.now }
    ensures memory { IsOk result }
    ensures painted { OnOk result ((earlier later : List (View × ℕ)) (tile : View × ℕ) →
        tiles.now ≡ earlier ++ (tile ∷ later) → (index : List ℕ) → IsTrue (is_index tile.0.shape index) →
        All (λ other. Contains (view_places RowMajor other.0) (place_at tile.0 index) → ⊥) later →
        item_at (record { items = pixels.new; view = tile.0 }) index ≡ Some tile.1) }
    ensures others { OnOk result ((place : ℕ) →
        All (λ tile. Contains (view_places RowMajor tile.0) (pos place) → ⊥) tiles.now →
        slice_get pixels.new place ≡ slice_get pixels.old place) }
{
    let mut whole = Whole::new(pixels);
    let mut rest = whole.rest();
    for tile in tiles {
        let (mut part, taken) = rest.take(tile.0.duplicate(alloc)?);
        part.fill(tile.1);
        rest.put_back(part, taken);
    }
    whole.close(rest);
    Ok(())
}

#[cfg(test)]
mod tests {
    use super::*;
    use ndarray_layout::CanIndexCheckMode::OwnedMutable;
    use ndarray_layout::new_ix2;
    use std::process::Abort;

    /// Two tiles of two rows of three, by their first pixels, of a picture with rows of four. They have the colours 91 and 92.
    fn two_tiles(rt: &impl Abort, one: usize, other: usize) -> [(Strided<Ix2>, u8); 2]
        ensures { All (λ tile. IsOwned 13 tile.0) result }
    {
        let (lens, strides) = (new_ix2(2, 3), new_ix2(4, 1));
        let one = Strided::from_parts(one, lens, strides, 1, 13, OwnedMutable);
        let other = Strided::from_parts(other, lens, strides, 1, 13, OwnedMutable);
        [
            (one.expect(rt, "a tile"), 91),
            (other.expect(rt, "a tile"), 92),
        ]
    }

    #[test]
    fn tiles_are_painted_one_after_another(rt: HostRuntime) {
        let mut pixels = [0, 1, 2, 3, 4, 5, 6, 7, 8, 9, 10, 11, 12];
        assert!(rt; paint_tiles(rt.alloc(), &[], &mut pixels).is_ok());
        assert_eq!(rt; pixels, [0, 1, 2, 3, 4, 5, 6, 7, 8, 9, 10, 11, 12]);
        assert!(rt; paint_tiles(rt.alloc(), &two_tiles(&rt, 0, 5), &mut pixels).is_ok());
        assert_eq!(rt; pixels, [91, 91, 91, 3, 91, 92, 92, 92, 8, 92, 92, 92, 12]);
        assert!(rt; paint_tiles(rt.alloc(), &two_tiles(&rt, 5, 0), &mut pixels).is_ok());
        assert_eq!(rt; pixels, [92, 92, 92, 3, 92, 92, 92, 91, 8, 91, 91, 91, 12]);
    }
}
