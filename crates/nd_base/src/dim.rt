//! The dimension types.
ghost use Rattle.std.specs.Prelude.{◌≡◌, ◌↔◌, ◌<◌, IsTrue, [], ◌∷◌, Some, length, replicate, slice_get, refl};
ghost use Rattle.std.specs.Cmp.{unsigned_Decides};
ghost use Rattle.std.proofs.lemmas.Slice.Eq.{slice_eq-Decides};
ghost use Rattle.nd_base.specs.Dim.{lengths, with_lengths};

use crate::dynindeximpl::IxDynImpl;
use crate::lengths::{FixedCount, Lengths};
use std::alloc::{AllocError, Global};
use std::ops::{Index, IndexMut};

/// A dimension: the lengths of the axes, in order; or one number for each axis, as of an index or
/// of strides. ndarray's `Dim`.
#[derive(Clone, Copy, Drop, PartialEq, Eq, Hash, Debug)]
pub struct Dim<I> {
    pub(crate) index: I,
}

/// No axes. ndarray's `Ix0`.
pub type Ix0 = Dim<[usize; 0]>;

/// One axis. ndarray's `Ix1`.
pub type Ix1 = Dim<[usize; 1]>;

/// Two axes. ndarray's `Ix2`.
pub type Ix2 = Dim<[usize; 2]>;

/// Three axes. ndarray's `Ix3`.
pub type Ix3 = Dim<[usize; 3]>;

/// Four axes. ndarray's `Ix4`.
pub type Ix4 = Dim<[usize; 4]>;

/// Five axes. ndarray's `Ix5`.
pub type Ix5 = Dim<[usize; 5]>;

/// Six axes. ndarray's `Ix6`.
pub type Ix6 = Dim<[usize; 6]>;

/// Any number of axes. ndarray's `IxDyn`.
pub type IxDyn = Dim<IxDynImpl>;

/// The shape or the index of no axes. ndarray's `Ix0()`.
pub const fn new_ix0() -> Ix0
    ensures { lengths result ≡ [] }
{
    Dim { index: [] }
}

/// A shape or an index of one axis. ndarray's `Ix1(..)`.
pub const fn new_ix1(i0: usize) -> Ix1
    ensures { lengths result ≡ i0 ∷ [] }
{
    Dim { index: [i0] }
}

/// A shape or an index of two axes. ndarray's `Ix2(..)`.
pub const fn new_ix2(i0: usize, i1: usize) -> Ix2
    ensures { lengths result ≡ i0 ∷ i1 ∷ [] }
{
    Dim { index: [i0, i1] }
}

/// A shape or an index of three axes. ndarray's `Ix3(..)`.
pub const fn new_ix3(i0: usize, i1: usize, i2: usize) -> Ix3
    ensures { lengths result ≡ i0 ∷ i1 ∷ i2 ∷ [] }
{
    Dim {
        index: [i0, i1, i2],
    }
}

/// A shape or an index of four axes. ndarray's `Ix4(..)`.
pub const fn new_ix4(i0: usize, i1: usize, i2: usize, i3: usize) -> Ix4
    ensures { lengths result ≡ i0 ∷ i1 ∷ i2 ∷ i3 ∷ [] }
{
    Dim {
        index: [i0, i1, i2, i3],
    }
}

/// A shape or an index of five axes. ndarray's `Ix5(..)`.
pub const fn new_ix5(i0: usize, i1: usize, i2: usize, i3: usize, i4: usize) -> Ix5
    ensures { lengths result ≡ i0 ∷ i1 ∷ i2 ∷ i3 ∷ i4 ∷ [] }
{
    Dim {
        index: [i0, i1, i2, i3, i4],
    }
}

/// A shape or an index of six axes. ndarray's `Ix6(..)`.
pub const fn new_ix6(i0: usize, i1: usize, i2: usize, i3: usize, i4: usize, i5: usize) -> Ix6
    ensures { lengths result ≡ i0 ∷ i1 ∷ i2 ∷ i3 ∷ i4 ∷ i5 ∷ [] }
{
    Dim {
        index: [i0, i1, i2, i3, i4, i5],
    }
}

impl<const N: usize> Dim<[usize; N]> {
    /// The dimension of these lengths. ndarray's `Dim::new`.
    #[inline]
    pub const fn new(index: [usize; N]) -> Self
        ensures { lengths result ≡ index.entry }
    {
        Dim { index }
    }
}

impl<const N: usize> Default for Dim<[usize; N]> {
    ghost is_default = { λ d. lengths d ≡ replicate N 0 };

    fn default() -> Self {
        Dim { index: [0; N] }
    }
}

impl<const N: usize> Index<usize> for Dim<[usize; N]> {
    type Output = usize;

    ghost can_index = { λ d axis. axis < length (lengths d) };

    ghost index_gives = { λ d axis len. slice_get (lengths d) axis ≡ Some len };

    fn index(&self, axis: usize) -> &usize {
        &self.index[axis]
    }
}

impl<const N: usize> IndexMut<usize> for Dim<[usize; N]> {
    fn index_mut(&mut self, axis: usize) -> &mut usize
        requires { axis < length (lengths self.old) }
        ensures { slice_get (lengths self.old) axis ≡ Some result.now }
    {
        &mut self.index[axis]
    }
}

impl<const N: usize> FixedCount for Dim<[usize; N]> {
    ghost NDIM = { Some N };

    const NDIM: Option<usize> = Some(N);
}

impl<const N: usize> Lengths for Dim<[usize; N]> {
    ghost list = { lengths };

    ghost with_list = { with_lengths };

    fn ndim(&self) -> usize {
        N
    }

    fn slice(&self) -> &[usize] {
        &self.index[..]
    }

    fn slice_mut(&mut self) -> &mut [usize] {
        &mut self.index
    }

    fn equal(&self, other: &Self) -> bool {
        self.index == other.index
    }

    fn zeros(_alloc: Global, _n: usize) -> Result<Self, AllocError> {
        Ok(Dim { index: [0; N] })
    }

    fn duplicate(&self, _alloc: Global) -> Result<Self, AllocError> {
        Ok(*self)
    }

    fn copied(&self) -> Option<Self> {
        Some(*self)
    }

    ghost eq_of_lists = { λ d e. slice_eq-Decides unsigned_Decides (lengths d) (lengths e) _ refl };

    ghost list_of_with_list = { λ d xs h. refl };

    ghost can_index_below = { λ d i h. h };

    ghost index_is = { λ d i v h. h };
}
