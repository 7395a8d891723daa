//! Tasks over a picture as a whole: its brightest and its darkest pixel, a sum, and its mirror.
ghost use Rattle.std.specs.List.{sum_by};
ghost use Rattle.std.specs.Option.{option_map_or};
ghost use Rattle.std.specs.Prelude.{◌≡◌, ◌≤◌, ◌<◌, ◌↔◌, IfOk, IfSome, IsSome, IsSomeAnd, IsTrue, List, Some, map, nat_eq, ℕ};
ghost use Rattle.ndarray_layout.specs.declared.Order.TheVariants.{RowMajor};
ghost use Rattle.ndarray_layout.specs.CroppedView.{cropped_of};
ghost use Rattle.ndarray_layout.specs.Dim.{lengths};
ghost use Rattle.ndarray_layout.specs.Indices.{indices_in, is_index};
ghost use Rattle.ndarray_layout.specs.InvertedView.{invert_source};
ghost use Rattle.ndarray_layout.specs.Size.{size};
ghost use Rattle.ndarray_layout.specs.View.{view_places};
ghost use Rattle.nd_lent.specs.Equal.{are_equal};
ghost use Rattle.nd_owned.specs.Owned.{item_at, item_at_place};

use crate::slices::pixels_of;
use nd_owned::ArrayView;
use ndarray_layout::{Axis, Ix2, LayoutError, Lengths};
use std::alloc::Global;

/// The brightest pixel of a picture; `None` where it has none.
pub fn brightest<D: Lengths>(picture: &ArrayView<'_, u8, D>) -> Option<u8>
    ensures found { IsSome result ↔ (0 < size picture.now.view.shape) }
    ensures is_one { IfSome result (λ brightest. (index : List ℕ) ×
        IsTrue (is_index picture.now.view.shape index) ×
        (item_at picture.now index ≡ Some brightest)) }
    ensures none_brighter { IfSome result (λ brightest. (index : List ℕ) →
        IsTrue (is_index picture.now.view.shape index) →
        option_map_or (λ pixel. pixel) (item_at picture.now index) 0 ≤ brightest) }
{
    picture.max()
}

/// The darkest pixel of a picture; `None` where it has none.
pub fn darkest<D: Lengths>(picture: &ArrayView<'_, u8, D>) -> Option<u8>
    ensures found { IsSome result ↔ (0 < size picture.now.view.shape) }
    ensures is_one { IfSome result (λ darkest. (index : List ℕ) ×
        IsTrue (is_index picture.now.view.shape index) ×
        (item_at picture.now index ≡ Some darkest)) }
    ensures none_darker { IfSome result (λ darkest. (index : List ℕ) →
        IsTrue (is_index picture.now.view.shape index) →
        IfSome (item_at picture.now index) (λ pixel. darkest ≤ pixel)) }
{
    picture.min()
}

/// The sum of the pixels of a part of a picture; `None` where the part isn't one of it, or the sum passes `u64`.
pub fn sum_of_crop(picture: &ArrayView<'_, u8, Ix2>, starts: &Ix2, ends: &Ix2) -> Option<u64>
    ensures { IfSome result (λ total. total ≡
        sum_by (λ pixel. option_map_or (λ n. n) pixel 0) (map (item_at_place picture.now.items)
        (view_places RowMajor (cropped_of (lengths starts.now) (lengths ends.now) picture.now.view)))) }
{
    picture.crop(starts, ends)?.sum()
}

/// Copies of the pixels of a picture as its mirror shows them: each row backwards.
///
/// Errors: `OutOfBounds` where the picture has no axis 1, then out of memory.
pub fn mirror<D: Lengths>(
    alloc: Global,
    picture: ArrayView<'_, u8, D>,
) -> Result<Vec<u8>, LayoutError>
    ensures { IfOk result (λ copies. map Some copies.items ≡
        map (λ index. item_at picture.entry (invert_source 1 picture.entry.view.shape index))
        (indices_in RowMajor picture.entry.view.shape)) }
{
    let mut picture = picture;
    picture.invert_axis(Axis(1))?;
    Ok(pixels_of(alloc, &picture)?)
}

/// Whether each pixel of a picture is darker than a bound.
pub fn is_darker<D: Lengths>(picture: &ArrayView<'_, u8, D>, bound: u8) -> bool
    ensures darker { IsTrue result → (index : List ℕ) →
        IsTrue (is_index picture.now.view.shape index) →
        IfSome (item_at picture.now index) (λ pixel. pixel < bound) }
{
    picture.all(
        |pixel: &u8|
            ensures { IsTrue result ↔ (pixel.now < bound) }
        { *pixel < bound },
    )
}

/// Whether some pixel of a picture is brighter than a bound.
pub fn is_brighter<D: Lengths>(picture: &ArrayView<'_, u8, D>, bound: u8) -> bool
    ensures { IsTrue result ↔ ((index : List ℕ) ×
        IsTrue (is_index picture.now.view.shape index) ×
        IsSomeAnd (item_at picture.now index) (λ pixel. bound < pixel)) }
{
    picture.any(
        |pixel: &u8|
            ensures { IsTrue result ↔ (bound < pixel.now) }
        { *pixel > bound },
    )
}

/// Whether two pictures show the same: they have the same shape, and at each index the same pixel.
pub fn show_the_same<D: Lengths>(one: &ArrayView<'_, u8, D>, other: &ArrayView<'_, u8, D>) -> bool
    ensures { result ≡ are_equal nat_eq one.now other.now }
{
    one.eq(other)
}
