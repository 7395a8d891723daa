//! The line of a script that makes a layout.
ghost use Rattle.std.specs.Prelude.{◌≡◌, map, IfOk};
ghost use Rattle.std.specs.Option.{option_map};
ghost use Rattle.ndarray_layout.specs.Dim.{lengths};
ghost use Rattle.ndarray_layout.specs.Signed.{all_signed};
ghost use Rattle.ndl_session.specs.script.DataLine.{layout_value, layout_of, mode_of};
ghost use Rattle.ndl_session.specs.script.Lists.{strides_of};

use crate::script::lists::dimension;
use crate::text::numbers::number;
use ndarray_layout::{CanIndexCheckMode, IxDyn};
use std::alloc::{AllocError, Global};

/// A layout over some data, as a script gives it.
#[derive(Drop)]
pub struct DataLayout {
    /// How many elements the data has.
    pub len: usize,
    /// Whether two indices may share an element.
    pub mode: CanIndexCheckMode,
    /// The lengths of the axes.
    pub shape: IxDyn,
    /// The strides of the axes, in elements, each as the `usize` of the same bits.
    pub strides: IxDyn,
}

/// The mode of a name; `None` where it is neither `owned` nor `read`.
fn mode(name: &[u8]) -> Option<CanIndexCheckMode>
    ensures { result ≡ mode_of name.now }
{
    if name == b"owned".as_slice() {
        Some(CanIndexCheckMode::OwnedMutable)
    } else if name == b"read".as_slice() {
        Some(CanIndexCheckMode::ReadOnly)
    } else {
        None
    }
}

/// The strides that a word lists, each as the `usize` of the same bits; `None` where one can't be read.
///
/// Errors: out of memory.
fn kept_strides(alloc: Global, word: &[u8]) -> Result<Option<IxDyn>, AllocError>
    ensures { IfOk result (λ found. option_map (λ kept. all_signed (lengths kept)) found
        ≡ strides_of word.now) }
{
    dimension::<isize>(alloc, word)
}

/// The layout that the words of a line make; `None` where they aren't of the grammar.
///
/// Errors: out of memory.
pub(super) fn read_layout(alloc: Global, words: &[&[u8]]) -> Result<Option<DataLayout>, AllocError>
    ensures { IfOk result (λ found. option_map layout_value found
        ≡ layout_of (map (λ word. word.now) words.now)) }
{
    let [keyword, len, mode_name, shape, strides] = words else {
        return Ok(None);
    };
    if *keyword != b"data".as_slice() {
        return Ok(None);
    }
    let (Some(len), Some(mode)) = (number(len), mode(mode_name)) else {
        return Ok(None);
    };
    let Some(shape) = dimension::<usize>(alloc, shape)? else {
        return Ok(None);
    };
    let Some(strides) = kept_strides(alloc, strides)? else {
        return Ok(None);
    };
    Ok(Some(DataLayout {
        len,
        mode,
        shape,
        strides,
    }))
}
