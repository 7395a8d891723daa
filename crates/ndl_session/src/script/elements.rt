//! Elements of a slice argument as words spell them.
ghost use Rattle.std.specs.Prelude.{◌≡◌};
ghost use Rattle.ndl_session.specs.text.Bytes.{dot};
ghost use Rattle.ndl_session.specs.text.Lines.{cut_at};
ghost use Rattle.ndl_session.specs.script.Elements.{element_of, end_of, range_of, slice_of_bounds, start_of};

use crate::script::lists::Item;
use crate::text::numbers::signed_number;
use crate::text::words::split_once;
use ndarray_layout::SliceInfoElem;

/// The start of a range: the first coordinate where it is missing; `None` where it is no number.
fn start(text: &[u8]) -> Option<isize>
    ensures { result ≡ start_of text.now }
{
    if text.is_empty() {
        return Some(0);
    }
    signed_number(text)
}

/// The end of a range: no end where it is missing; `None` where it is no number.
fn end(text: &[u8]) -> Option<Option<isize>>
    ensures { result ≡ end_of text.now }
{
    if text.is_empty() {
        return Some(None);
    }
    signed_number(text).map(Some)
}

/// The slice by a range and a step; `None` where the text is no range.
fn slice(range: &[u8], step: isize) -> Option<SliceInfoElem>
    ensures { result ≡ slice_of_bounds step (cut_at dot range.now) }
{
    let (start_text, rest) = split_once(range, b'.')?;
    let end_text = rest.strip_prefix(b".")?;
    Some(SliceInfoElem::Slice {
        start: start(start_text)?,
        end: end(end_text)?,
        step,
    })
}

/// The slice by a range, with an optional step after a semicolon; `None` where the text is neither.
fn range(text: &[u8]) -> Option<SliceInfoElem>
    ensures { result ≡ range_of text.now }
{
    match split_once(text, b';') {
        Some((bounds, step)) => slice(bounds, signed_number(step)?),
        None => slice(text, 1),
    }
}

impl Item for SliceInfoElem {
    type Kept = SliceInfoElem;

    ghost item_of = { element_of };

    /// A new axis by its name, an index by its number, or a range.
    fn read(text: &[u8]) -> Option<SliceInfoElem> {
        if text == b"NewAxis".as_slice() {
            return Some(SliceInfoElem::NewAxis);
        }
        match signed_number(text) {
            Some(index) => Some(SliceInfoElem::Index(index)),
            None => range(text),
        }
    }
}
