//! Pixels that are kept elsewhere, read and written as a picture.
ghost use Rattle.std.specs.List.{All};
ghost use Rattle.std.specs.Option.{option_map};
ghost use Rattle.std.specs.Prelude.{◌≡◌, ◌+◌, ◌<◌, ◌↔◌, false, IfOk, IfSome, IsTrue, OnErr, OnOk, Some, length};
ghost use Rattle.ndarray_layout.specs.CroppedView.{RangesFit, crop_source, cropped_of};
ghost use Rattle.ndarray_layout.specs.Dim.{lengths};
ghost use Rattle.ndarray_layout.specs.ShapeBuilder.{strides_list};
ghost use Rattle.ndarray_layout.specs.Signed.{all_signed};
ghost use Rattle.ndarray_layout.specs.Span.{low_span};
ghost use Rattle.ndarray_layout.specs.View.{view_of};
ghost use Rattle.nd_lent.specs.Items.{view_from_0};
ghost use Rattle.nd_owned.specs.HasItems.{HasItemsOf};
ghost use Rattle.nd_owned.specs.Lent.{array_of};
ghost use Rattle.nd_owned.specs.Mapped.{row_major_items};
ghost use Rattle.nd_owned.specs.Owned.{IsOwned, item_at};
ghost use Rattle.nd_owned.specs.WrittenPart.{HasWrittenPart};

use nd_owned::{ArrayViewMut, OwnedArray, Whole};
use ndarray_layout::{
    CanIndexCheckMode, Ix2, LayoutError, Lengths, ShapeError, StrideShape, Strided,
};
use std::alloc::{AllocError, Global};

/// Paints each pixel of a picture, whose pixels lie in a list by the strides of its shape. The list's other pixels are
/// unchanged. Errors: those of `Strided::from_shape`; then all pixels are unchanged.
pub fn paint<D: Lengths>(
    alloc: Global,
    pixels: &mut [u8],
    shape: StrideShape<D>,
    pixel: u8,
) -> Result<(), LayoutError>
    ensures painted { OnOk result (
        let lens = D.list shape.dim in
        let strides = strides_list D.list lens shape.strides in
        let view = view_of (low_span lens (all_signed strides)) lens strides in
        HasItemsOf (λ index. Some pixel)
        (record { items = pixels.old; view = view })
        (record { items = pixels.new; view = view })) }
    ensures unchanged { OnErr result (pixels.new ≡ pixels.old) }
{
    let mode = CanIndexCheckMode::OwnedMutable;
    let view = Strided::from_shape(alloc, shape, 1, pixels.len(), mode)?;
    paint_view(view, pixels, pixel);
    Ok(())
}

/// Paints each pixel of a view over pixels.
fn paint_view<D: Lengths>(view: Strided<D>, pixels: &mut [u8], pixel: u8)
    requires { IsOwned (length pixels.old) view }
    ensures { HasItemsOf (λ index. Some pixel)
        (record { items = pixels.old; view = view })
        (record { items = pixels.new; view = view }) }
{
    let mut whole = Whole::new(pixels);
    let mut picture = ArrayViewMut::new(view, whole.lend_items());
    picture.fill(pixel);
    whole.end(picture);
}

/// Paints each pixel of any view over pixels, in which no two indices may have one pixel. The list's other pixels are unchanged.
/// Errors: those of `ArrayViewMut::over`.
pub fn paint_over<D: Lengths>(
    view: Strided<D>,
    pixels: &mut [u8],
    pixel: u8,
) -> Result<(), ShapeError>
    ensures { OnOk result (HasItemsOf (λ index. Some pixel)
        (record { items = pixels.old; view = view })
        (record { items = pixels.new; view = view })) }
{
    let mut whole = Whole::new(pixels);
    let mut picture = ArrayViewMut::over(view, whole.lend_items())?;
    picture.fill(pixel);
    whole.end(picture);
    Ok(())
}

/// Paints each pixel of a picture, as `paint` does, by one call that checks the shape and lends the pixels. Errors: those of
/// `ArrayViewMut::from_shape`.
pub fn paint_shape<D: Lengths>(
    alloc: Global,
    pixels: &mut [u8],
    shape: StrideShape<D>,
    pixel: u8,
) -> Result<(), LayoutError>
    ensures { OnOk result (
        let lens = D.list shape.dim in
        let view = view_from_0 lens (strides_list D.list lens shape.strides) in
        HasItemsOf (λ index. Some pixel)
        (record { items = pixels.old; view = view })
        (record { items = pixels.new; view = view })) }
{
    let mut whole = Whole::new(pixels);
    let mut picture = ArrayViewMut::from_shape(alloc, shape, whole.lend_items())?;
    picture.fill(pixel);
    whole.end(picture);
    Ok(())
}

/// Paints a part of a picture, whose pixels lie in a list by a view, and returns whether it did: it doesn't where the part isn't one
/// of the picture. The list's other pixels are unchanged. The caller ensures that each index has a pixel to itself.
pub fn paint_part(
    view: Strided<Ix2>,
    pixels: &mut [u8],
    starts: &Ix2,
    ends: &Ix2,
    pixel: u8,
) -> bool
    requires { IsOwned (length pixels.old) view }
    ensures fits { IsTrue result ↔ RangesFit view.shape (lengths starts.now) (lengths ends.now) }
    ensures painted { IsTrue result → HasWrittenPart (crop_source (lengths starts.now))
        (cropped_of (lengths starts.now) (lengths ends.now) view).shape (λ index. Some pixel)
        (record { items = pixels.old; view = view })
        (record { items = pixels.new; view = view }) }
    ensures unchanged { result ≡ false → pixels.new ≡ pixels.old }
{
    match view.crop(starts, ends) {
        Some(part) => {
            paint_view(part, pixels, pixel);
            true
        },
        None => false,
    }
}

/// Paints each pixel of a picture that owns its pixels; spare ones are unchanged. Errors: out of memory, for a copy of its view.
pub fn paint_owned(
    alloc: Global,
    picture: &mut OwnedArray<u8, Ix2>,
    pixel: u8,
) -> Result<(), AllocError>
    ensures { OnOk result (HasItemsOf (λ index. Some pixel) picture.old picture.new) }
{
    let view = picture.strided().duplicate(alloc)?;
    paint_view(view, picture.stored_mut(), pixel);
    Ok(())
}

/// Makes each pixel of a picture brighter by 1. The caller ensures that none is the brightest one. The picture's other pixels
/// are unchanged.
pub fn brighten<D: Lengths>(picture: &mut ArrayViewMut<'_, u8, D>)
    requires { All (λ item. IfSome item (λ pixel. pixel < 255))
        (row_major_items (array_of picture.old)) }
    ensures { HasItemsOf
        (λ index. option_map (λ pixel. pixel + 1) (item_at (array_of picture.old) index))
        (array_of picture.old) (array_of picture.new) }
{
    picture.map_in_place(
        |pixel: &mut u8|
            requires { pixel.old < 255 }
            ensures { pixel.new ≡ pixel.old + 1 }
        {
            *pixel += 1;
        },
    );
}
