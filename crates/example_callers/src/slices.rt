//! Slices a picture, and copies the pixels that are left.
ghost use Rattle.std.specs.Prelude.{◌≡◌, ℕ, ◌-◌, ◌*◌, pos, negsuc, [], ◌∷◌, IfOk, IsOk, IsTrue, None, Some, map, slice_index};
ghost use Rattle.ndarray_layout.specs.declared.Fit.TheVariants.{Strict};
ghost use Rattle.ndarray_layout.specs.declared.Order.TheVariants.{RowMajor};
ghost use Rattle.ndarray_layout.specs.Indices.{is_index};
ghost use Rattle.ndarray_layout.specs.ShapeFault.{shape_fault};
ghost use Rattle.ndarray_layout.specs.Size.{size};
ghost use Rattle.ndarray_layout.specs.SliceFault.{argument_fault};
ghost use Rattle.ndarray_layout.specs.View.{view_places};
ghost use Rattle.nd_owned.specs.Owned.{item_at, item_at_place};

use nd_owned::ArrayView;
use ndarray_layout::{Fit, Ix2, LayoutError, Lengths, Slice, SliceInfoElem};
use std::alloc::{AllocError, Global};

/// Every other row of a picture, from the last one up.
///
/// Errors: those of `check_slice`, of which a shape of two axes has none. Two axes need no memory.
pub fn alternate_rows<'a>(
    alloc: Global,
    picture: &ArrayView<'a, u8, Ix2>,
) -> Result<ArrayView<'a, u8, Ix2>, LayoutError>
    ensures fault { shape_fault result ≡ argument_fault Strict picture.now.view.shape
        (SliceInfoElem.Slice (pos 0) None (negsuc 1)
        ∷ SliceInfoElem.Slice (pos 0) None (pos 1) ∷ []) }
    ensures memory { shape_fault result ≡ None → IsOk result }
    ensures pixels { IfOk result (λ rows. (i j : ℕ) →
        IsTrue (is_index rows.view.shape (i ∷ j ∷ [])) → item_at rows (i ∷ j ∷ []) ≡
        item_at picture.now ((slice_index picture.now.view.shape 0 - 1 - 2 * i) ∷ j ∷ [])) }
{
    let part: [SliceInfoElem; 2] = [Slice::new(0, None, -2).into(), (..).into()];
    let rows = picture.slice_with(alloc, &part, Fit::Strict)?;
    Ok(rows)
}

/// Copies of the pixels of a picture, in row-major order.
///
/// Errors: out of memory; none where the picture has no index.
pub fn pixels_of<D: Lengths>(
    alloc: Global,
    picture: &ArrayView<'_, u8, D>,
) -> Result<Vec<u8>, AllocError>
    ensures copies { IfOk result (λ copies. map Some copies.items ≡
        map (item_at_place picture.now.items) (view_places RowMajor picture.now.view)) }
    ensures memory { size picture.now.view.shape ≡ 0 → IsOk result }
{
    let mut copies = Vec::with_capacity(alloc, picture.len())?;
    for pixel in picture.iter() {
        copies.push_reserved(*pixel);
    }
    Ok(copies)
}
