//! Edits of pictures: one view after another, and then each pixel once.
ghost use Rattle.std.specs.Prelude.{◌≡◌, ◌<◌, ◌^◌, ℕ, IfOk, MatchResult, None, Some, length, map, slice_get};
ghost use Rattle.std.specs.List.{All};
ghost use Rattle.ndarray_layout.specs.View.{LiesWithin};
ghost use Rattle.example_tiles_edits.specs.EditError.{misfit_of};
ghost use Rattle.example_tiles_edits.specs.Edits.{IsEdited, first_misfit};
ghost use Rattle.example_tiles_edits.specs.Picture.{pixel_count};
ghost use Rattle.example_tiles_edits.specs.Views.{Leave, shape_of, whole_view};

use crate::edit::{Edit, Misfit};
use crate::picture::{Extent, Picture};
use ndarray_layout::{CanIndexCheckMode, Ix2, Order, StrideShape, Strided, Strides, new_ix2};
use std::alloc::{AllocError, Global};
use thiserror::Error;

/// Why a picture was not edited.
#[derive(Clone, Copy, Debug, PartialEq, Eq, Error)]
pub enum EditError {
    /// An edit doesn't fit.
    #[error(transparent)]
    Misfit(Misfit),
    /// An allocation failed.
    #[error("out of memory")]
    Memory,
}

impl From<Misfit> for EditError {
    ghost use Rattle.example_tiles_edits.specs.declared.editing.EditError.TheVariants.{Misfit};

    ghost from_gives = { λ misfit error. error ≡ Misfit misfit };

    fn from(misfit: Misfit) -> Self {
        EditError::Misfit(misfit)
    }
}

impl From<AllocError> for EditError {
    ghost use Rattle.example_tiles_edits.specs.declared.editing.EditError.TheVariants.{Memory};

    ghost from_gives = { λ _ error. error ≡ Memory };

    fn from(_error: AllocError) -> Self {
        EditError::Memory
    }
}

/// The view of all pixels of an extent, row by row.
fn whole_view(alloc: Global, extent: Extent) -> Strided<Ix2>
    requires { pixel_count extent < 2 ^ 63 }
    ensures view { result ≡ whole_view extent }
    ensures in_bounds { LiesWithin (pixel_count extent) result }
{
    let shape = StrideShape {
        dim: new_ix2(extent.rows as usize, extent.columns as usize),
        strides: Strides::C,
    };
    let (len, mode) = (extent.pixel_count(), CanIndexCheckMode::ReadOnly);
    let Ok(view) = Strided::from_shape(alloc, shape, 1, len, mode) else {
        unreachable!();
    };
    view
}

/// The extent that edits leave of another, and the view of its pixels; or else the first edit that doesn't fit.
fn view_after(
    alloc: Global,
    extent: Extent,
    view: Strided<Ix2>,
    edits: &[Edit],
) -> Result<(Extent, Strided<Ix2>), Misfit>
    requires { view.shape ≡ shape_of extent }
    ensures left { MatchResult result
        (λ left. (first_misfit edits.now extent ≡ None) × Leave edits.now extent view left.0 left.1)
        (λ misfit. first_misfit edits.now extent ≡ Some misfit) }
    ensures in_bounds { IfOk result (λ left. (len : ℕ) → LiesWithin len view →
        LiesWithin len left.1) }
{
    let (mut extent, mut view) = (extent, view);
    for (at, edit) in edits.iter().enumerate() {
        let misfit = Misfit {
            number: at + 1,
            edit: *edit,
            extent,
        };
        (extent, view) = edit.slice(alloc, extent, &view).ok_or(misfit)?;
    }
    Ok((extent, view))
}

/// The pixels at places of a list, in the order of the places.
fn pixels_at(alloc: Global, pixels: &[u8], places: &[usize]) -> Result<Vec<u8>, AllocError>
    requires { All (λ place. place < length pixels.now) places.now }
    ensures { IfOk result (λ found. map Some found.items ≡
        map (slice_get pixels.now) places.now) }
{
    let mut found = Vec::with_capacity(alloc, places.len())?;
    for place in places {
        found.push_reserved(pixels[*place]);
    }
    Ok(found)
}

/// The picture that edits make of another, one after another: each pixel is the one of the source that they name.
///
/// Errors: the first edit that doesn't fit; out of memory.
pub fn edited(alloc: Global, picture: &Picture, edits: &[Edit]) -> Result<Picture, EditError>
    ensures misfit { misfit_of result ≡ first_misfit edits.now picture.now.extent }
    ensures edited { IfOk result (λ made. IsEdited edits.now picture.now made) }
{
    let whole = whole_view(alloc, picture.extent);
    let (extent, view) = view_after(alloc, picture.extent, whole, edits)?;
    let places = view.places(alloc, Order::RowMajor)?;
    let pixels = pixels_at(alloc, picture.pixels.as_slice(), places.as_slice())?;
    Ok(Picture {
        extent,
        white: picture.white,
        pixels,
    })
}
