//! Lays out data, and reads a place of it.
ghost use Rattle.std.specs.Prelude.{◌≡◌, ◌↔◌, ℕ, ◌+◌, ◌*◌, pos, [], ◌∷◌, IfOk, IfSome, IsSome, IsTrue, Some, length, slice_get};
ghost use Rattle.std.specs.Result.{result_err};
ghost use Rattle.ndarray_layout.specs.declared.CanIndexCheckMode.TheVariants.{OwnedMutable};
ghost use Rattle.ndarray_layout.specs.Acceptance.{acceptance};
ghost use Rattle.ndarray_layout.specs.DistinctPlaces.{HasDistinctPlaces};
ghost use Rattle.ndarray_layout.specs.Indices.{is_index};
ghost use Rattle.ndarray_layout.specs.Signed.{all_signed, magnitude};
ghost use Rattle.ndarray_layout.specs.View.{LiesWithin, place_at};

use ndarray_layout::{CanIndexCheckMode, Ix2, Lengths, NdIndex, ShapeError, Strided, new_ix2};

/// A picture whose pixels lie row after row in a list.
///
/// Errors: those of `can_index_slice`: `Overflow` where the layout is too large, then `OutOfBounds` where it spans more than
/// the list, as 0 rows of 5 columns do over an empty one.
pub fn picture(pixels: &[u8], rows: usize, columns: usize) -> Result<Strided<Ix2>, ShapeError>
    ensures fault { result_err result ≡ acceptance 1 (length pixels.now) OwnedMutable
        (rows ∷ columns ∷ []) (all_signed (columns ∷ 1 ∷ [])) }
    ensures shape { IfOk result (λ picture. picture.shape ≡ rows ∷ columns ∷ []) }
    ensures place { IfOk result (λ picture. (row column : ℕ) →
        place_at picture (row ∷ column ∷ []) ≡ pos (row * columns + column)) }
    ensures distinct { IfOk result (λ picture. HasDistinctPlaces picture) }
    ensures in_bounds { IfOk result (λ picture. LiesWithin (length pixels.now) picture) }
{
    let (shape, strides) = (new_ix2(rows, columns), new_ix2(columns, 1));
    let mode = CanIndexCheckMode::OwnedMutable;
    let view = Strided::new(shape, strides, 1, pixels.len(), mode)?;
    Ok(view)
}

/// The pixel at an index of a view, or `None` where it is no index of the shape.
pub fn pixel<D: Lengths, I: NdIndex<D>>(pixels: &[u8], view: &Strided<D>, index: &I) -> Option<u8>
    requires { LiesWithin (length pixels.now) view.now }
    ensures found { IsSome result ↔ IsTrue (is_index view.now.shape (I.index_list index.now)) }
    ensures pixel { IfSome result (λ pixel. Some pixel ≡
        slice_get pixels.now (magnitude (place_at view.now (I.index_list index.now)))) }
{
    let place = view.place(index)?;
    Some(pixels[place])
}
