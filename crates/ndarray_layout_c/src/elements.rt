//! The elements of a slice, as C gives them.
ghost use Rattle.std.specs.Prelude.{◌≡◌, ◌≤◌, length, take, IfOk};
ghost use Rattle.ndarray_layout_c.specs.Elements.{are_elems, elem_named, elems_named, is_elem};

use ndarray_layout::SliceInfoElem;
use std::alloc::{AllocError, Global};

/// How many elements are kept without memory.
pub(crate) const FEW: usize = 4;

/// An element of a slice: a range with a step for the kind 0, to the end of the axis where `has_end` is 0; the index `start` for
/// 1; a new axis for 2.
#[repr(C)]
pub struct RawElem {
    pub kind: i32,
    pub has_end: i32,
    pub start: isize,
    pub end: isize,
    pub step: isize,
}

/// Whether the kind of an element has a meaning.
fn is_elem(raw: &RawElem) -> bool
    ensures { result ≡ is_elem raw.now }
{
    raw.kind == 0 || raw.kind == 1 || raw.kind == 2
}

/// Whether each element has a meaning.
pub(crate) fn are_elems(raws: &[RawElem]) -> bool
    ensures { result ≡ are_elems raws.now }
{
    raws.iter().all(|raw| is_elem(raw))
}

/// The meaning of an element.
fn elem_named(raw: &RawElem) -> SliceInfoElem
    ensures { result ≡ elem_named raw.now }
{
    if raw.kind == 0 {
        let end = if raw.has_end == 0 {
            None
        } else {
            Some(raw.end)
        };
        return SliceInfoElem::Slice {
            start: raw.start,
            end,
            step: raw.step,
        };
    }
    if raw.kind == 1 {
        return SliceInfoElem::Index(raw.start);
    }
    SliceInfoElem::NewAxis
}

/// The meanings of a few elements, with new axes after them.
pub(crate) fn few_elems(raws: &[RawElem]) -> [SliceInfoElem; FEW]
    requires { length raws.now ≤ 4 }
    ensures { take (length raws.now) result ≡ elems_named raws.now }
{
    let mut elems = [SliceInfoElem::NewAxis; FEW];
    for place in 0..raws.len() {
        elems[place] = elem_named(&raws[place]);
    }
    elems
}

/// The meanings of any number of elements.
pub(crate) fn many_elems(alloc: Global, raws: &[RawElem]) -> Result<Vec<SliceInfoElem>, AllocError>
    ensures { IfOk result (λ elems. elems.items ≡ elems_named raws.now) }
{
    let mut elems = Vec::with_capacity(alloc, raws.len())?;
    for raw in raws {
        elems.push(elem_named(raw))?;
    }
    Ok(elems)
}
