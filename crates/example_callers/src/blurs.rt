//! Blurs a picture: the mean of each window of it.
ghost use Rattle.std.specs.List.{sum_by};
ghost use Rattle.std.specs.Option.{option_map_or};
ghost use Rattle.std.specs.Prelude.{◌≡◌, ◌+◌, ◌-◌, ◌*◌, ◌/◌, ◌<◌, [], ◌∷◌, IfOk, IsOk, map, slice_index};
ghost use Rattle.ndarray_layout.specs.declared.Order.TheVariants.{RowMajor};
ghost use Rattle.ndarray_layout.specs.CroppedView.{crop_source};
ghost use Rattle.ndarray_layout.specs.Indices.{indices_in};
ghost use Rattle.nd_owned.specs.Owned.{item_at};

use nd_owned::ArrayView;
use ndarray_layout::{Dimension, Ix2, all_indices, new_ix2};
use std::alloc::{AllocError, Global};

/// The mean of the pixels of a window of three rows and three columns, rounded down. Their sum is at most 9 * 255.
fn mean_of(window: &ArrayView<'_, u8, Ix2>) -> u8
    requires { window.now.view.shape ≡ 3 ∷ 3 ∷ [] }
    ensures { result ≡ sum_by (λ inner. option_map_or (λ pixel. pixel) (item_at window.now inner) 0)
        (indices_in RowMajor (3 ∷ 3 ∷ [])) / 9 }
{
    let mut sum = 0u32;
    for pixel in window.iter() {
        sum += u32::from(*pixel);
    }
    (sum / 9) as u8
}

/// The mean of the window whose first pixel is in a row and a column.
fn mean_at(picture: &ArrayView<'_, u8, Ix2>, row: usize, column: usize) -> u8
    requires row { row + 2 < slice_index picture.now.view.shape 0 }
    requires column { column + 2 < slice_index picture.now.view.shape 1 }
    ensures { result ≡ sum_by (λ inner. option_map_or (λ pixel. pixel)
        (item_at picture.now (crop_source (row ∷ column ∷ []) inner)) 0)
        (indices_in RowMajor (3 ∷ 3 ∷ [])) / 9 }
{
    let _lens = picture.dim().into_pattern();
    let (starts, ends) = (new_ix2(row, column), new_ix2(row + 3, column + 3));
    mean_of(&picture.crop(&starts, &ends).unwrap())
}

/// A picture whose pixels are the means, rounded down, of the windows of three rows and three columns of another one, row after
/// row. It has two rows and two columns less, or no pixel.
///
/// Errors: out of memory; none where there is no window.
pub fn blur(alloc: Global, picture: &ArrayView<'_, u8, Ix2>) -> Result<Vec<u8>, AllocError>
    ensures means { IfOk result (λ means. means.items ≡ map
        (λ at. sum_by (λ inner. option_map_or (λ pixel. pixel)
        (item_at picture.now (crop_source at inner)) 0) (indices_in RowMajor (3 ∷ 3 ∷ [])) / 9)
        (indices_in RowMajor ((slice_index picture.now.view.shape 0 - 2)
        ∷ (slice_index picture.now.view.shape 1 - 2) ∷ []))) }
    ensures memory { (slice_index picture.now.view.shape 0 - 2)
        * (slice_index picture.now.view.shape 1 - 2) ≡ 0 → IsOk result }
{
    let (rows, columns) = picture.strided().dim().into_pattern();
    let (rows, columns) = (rows.saturating_sub(2), columns.saturating_sub(2));
    let mut means = Vec::with_capacity(alloc, rows * columns)?;
    for (row, column) in all_indices(alloc, (rows, columns))? {
        means.push_reserved(mean_at(picture, row, column));
    }
    Ok(means)
}
