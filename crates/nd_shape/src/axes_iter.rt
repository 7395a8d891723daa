//! Iterators over the axes of a layout.
ghost use Rattle.std.specs.Prelude.{◌≡◌, ◌+◌, ◌<◌, ◌^◌, length, Some, IfSome};
ghost use Rattle.std.specs.Iterator.{UpTo, YieldsFirst, YieldsLast, item_count};
ghost use Rattle.std.specs.Iterator.SizeHint.{IsWithinCount};

use nd_base::{Axis, signed};
use std::iter::FusedIterator;

/// An axis, its length, and its stride in elements. ndarray's `AxisDescription`.
#[derive(Clone, Copy, Debug)]
pub struct AxisDescription {
    /// The axis.
    pub axis: Axis,
    /// The length.
    pub len: usize,
    /// The stride in elements, with its sign.
    pub stride: isize,
}

/// Iterator over the axes of a layout, from either end. A contract sees the list of those that are
/// left. ndarray's `Axes`.
#[derive(Clone, Copy, Debug)]
pub struct Axes<'a> {
    // The number of the first axis that is left, and the lengths and strides from it on.
    first: usize,
    lens: &'a [usize],
    strides: &'a [usize],
    ghost same_count: { length lens.now ≡ length strides.now },
    ghost numbers_fit: { first + length lens.now < 2 ^ 64 },
}

impl<'a> Axes<'a> {
    ghost use Rattle.nd_base.specs.Signed.{all_signed};
    ghost use Rattle.nd_shape.specs.Axes.{axes, axes_left};

    /// The axes of these lengths and strides.
    pub(crate) fn new(lens: &'a [usize], strides: &'a [usize]) -> Self
        requires { length lens.now ≡ length strides.now }
        ensures { axes_left result ≡ axes lens.now (all_signed strides.now) }
    {
        Axes {
            first: 0,
            lens,
            strides,
        }
    }
}

impl Iterator for Axes<'_> {
    ghost use Rattle.nd_shape.specs.Axes.{axes_left};

    type Item = AxisDescription;

    ghost next_gives = { YieldsFirst axes_left };

    ghost remaining = { item_count axes_left };

    fn next(&mut self) -> Option<AxisDescription> {
        let (len, lens) = self.lens.split_first()?;
        let (stride, strides) = self.strides.split_first()?;
        let axis = Axis(self.first);
        *self = Axes {
            first: self.first + 1,
            lens,
            strides,
        };
        Some(AxisDescription {
            axis,
            len: *len,
            stride: signed(*stride),
        })
    }

    fn size_hint(&self) -> (usize, Option<usize>)
        ensures lower { IsWithinCount result.0 (item_count axes_left self.now) }
        ensures upper { IfSome result.1 (UpTo (item_count axes_left self.now)) }
        ensures exact { (result.0 ≡ length (axes_left self.now))
            × (result.1 ≡ Some (length (axes_left self.now))) }
    {
        let len = self.lens.len();
        (len, Some(len))
    }
}

impl DoubleEndedIterator for Axes<'_> {
    ghost use Rattle.nd_shape.specs.Axes.{axes_left};

    ghost next_back_gives = { YieldsLast axes_left };

    fn next_back(&mut self) -> Option<AxisDescription> {
        let (len, lens) = self.lens.split_last()?;
        let (stride, strides) = self.strides.split_last()?;
        *self = Axes {
            first: self.first,
            lens,
            strides,
        };
        Some(AxisDescription {
            axis: Axis(self.first + lens.len()),
            len: *len,
            stride: signed(*stride),
        })
    }
}

impl ExactSizeIterator for Axes<'_> {
    fn len(&self) -> usize {
        self.lens.len()
    }
}

impl FusedIterator for Axes<'_> {}
