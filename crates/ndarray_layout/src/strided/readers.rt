//! What a view has: its start, shape and strides.
ghost use Rattle.std.specs.Iterator.{YieldsFirst, YieldsLast};
ghost use Rattle.std.specs.Iterator.Runs.{YieldsInOrder, YieldsInReverse};
ghost use Rattle.std.specs.Prelude.{◌≡◌, ◌↔◌, IsTrue};
ghost use Rattle.nd_base.specs.Signed.{all_signed};
ghost use Rattle.nd_base.specs.Size.{is_empty, size};
ghost use Rattle.nd_shape.specs.Axes.{axes, axes_left};
ghost use Rattle.ndarray_layout.specs.View.{IsView};

use crate::strided::Strided;
use nd_base::Lengths;
use nd_dim::product;
use nd_shape::{Axes, axes_of};

impl<D: Lengths> Strided<D> {
    /// The place of the first index, in elements from the start of the data. The project's own.
    #[inline]
    pub fn start(&self) -> usize
        ensures place { result ≡ self.now.start }
        ensures is_view { IsView self.now }
    {
        self.start
    }

    /// The shape. ndarray's `raw_dim`, borrowed.
    #[inline]
    pub fn dim(&self) -> &D
        ensures list { D.list result.now ≡ self.now.shape }
        ensures is_view { IsView self.now }
    {
        &self.dim
    }

    /// The strides, in elements, each kept as the `usize` of the same bits (`signed`). For
    /// ndarray's `strides`.
    #[inline]
    pub fn strides(&self) -> &D
        ensures list { all_signed (D.list result.now) ≡ self.now.strides }
        ensures is_view { IsView self.now }
    {
        &self.strides
    }

    /// How many indices the shape has.
    ///
    /// `[2,3]`: 6. ndarray's `len`.
    #[inline]
    pub fn len(&self) -> usize
        ensures size { result ≡ size self.now.shape }
        ensures is_view { IsView self.now }
    {
        product(self.dim.slice())
    }

    /// Whether the shape has no index, as one of its lengths is 0.
    ///
    /// `[2,0]`: `true`. ndarray's `is_empty`.
    #[inline]
    pub fn is_empty(&self) -> bool
        ensures empty { result ≡ is_empty self.now.shape }
        ensures none { IsTrue result ↔ (size self.now.shape ≡ 0) }
    {
        self.dim.slice().contains(&0)
    }

    /// Iterator over the axes with their lengths and strides, from the first axis or from the last.
    ///
    /// `[2,3]` with strides `[3,1]`: 2 and 3 of axis 0, 3 and 1 of axis 1. ndarray's `axes`.
    pub fn axes(&self) -> Axes<'_>
        ensures list { axes_left result ≡ axes self.now.shape self.now.strides }
        ensures in_order { YieldsInOrder (YieldsFirst axes_left) axes_left }
        ensures in_reverse { YieldsInReverse (YieldsLast axes_left) axes_left }
        ensures is_view { IsView self.now }
    {
        axes_of(&self.dim, &self.strides)
    }
}
