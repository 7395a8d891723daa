//! Prints a picture.
use crate::picture::{Extent, Picture};
use std::alloc::{AllocError, Global};

/// The text of a picture, which is read as the same picture.
///
/// Errors: out of memory.
pub fn print_picture(alloc: Global, picture: &Picture) -> Result<Vec<u8>, AllocError> {
    let Extent { rows, columns } = picture.extent;
    let white = picture.white;
    let mut text = format!(in alloc; "P5\n{columns} {rows}\n{white}\n")?.into_bytes();
    text.extend_from_slice(picture.pixels.as_slice())?;
    Ok(text)
}
