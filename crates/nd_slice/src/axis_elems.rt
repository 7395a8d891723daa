//! The elements of a slice argument that are for the axes of a shape.
ghost use Rattle.std.specs.Prelude.{◌≡◌};
ghost use Rattle.std.specs.Iterator.{YieldsFirst, item_count};
ghost use Rattle.nd_slice.specs.AxisElems.{axis_elems};

use crate::elem::SliceInfoElem;
use std::iter::FusedIterator;
use std::marker::Model;
use std::slice::Iter;

/// Iterator over the elements that are for an axis of a shape, each with the length of its axis: all but the new axes, as long
/// as there is an axis. A contract sees the list of those that are left. The project's own.
#[derive(Drop)]
pub struct AxisElems<'a> {
    // The lengths of the axes that are left, and the elements that are.
    shape: Iter<'a, usize>,
    elems: Iter<'a, SliceInfoElem>,
}

impl<'a> Model for AxisElems<'a> {
    ghost use Rattle.std.specs.Prelude.{List, ℕ};
    ghost use Rattle.std.specs.Slice.Iter.{iter_rest};
    ghost use Rattle.nd_slice.specs.AxisElems.{axis_elems};
    ghost use Rattle.nd_slice.specs.declared.elem.SliceInfoElem.{SliceInfoElem};

    ghost Value = { List (ℕ × SliceInfoElem) };

    ghost view = { λ left. axis_elems (iter_rest left.shape) (iter_rest left.elems) };
}

impl<'a> AxisElems<'a> {
    /// The elements for the axes of a shape. Each element but a new axis is for the next axis.
    ///
    /// `2..,NewAxis,5` on `[4,7]`: 4 with `2..`, 7 with 5. The project's own.
    #[inline(always)]
    pub fn new(shape: &'a [usize], elems: &'a [SliceInfoElem]) -> Self
        ensures { result ≡ axis_elems shape.now elems.now }
    {
        AxisElems {
            shape: shape.iter(),
            elems: elems.iter(),
        }
    }
}

impl Iterator for AxisElems<'_> {
    type Item = (usize, SliceInfoElem);

    ghost next_gives = { YieldsFirst (λ left. left) };

    ghost remaining = { item_count (λ left. left) };

    #[inline(always)]
    fn next(&mut self) -> Option<(usize, SliceInfoElem)> {
        while let Some(elem) = self.elems.next() {
            if !elem.is_new_axis() {
                return Some((*self.shape.next()?, *elem));
            }
        }
        None
    }
}

impl FusedIterator for AxisElems<'_> {}
