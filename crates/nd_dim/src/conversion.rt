//! What makes a dimension.
ghost use Rattle.std.specs.Prelude.{◌≡◌, ℕ, Bool, false, nat_lt, List, [], ◌∷◌, length, IsOk, IfOk};
ghost use Rattle.nd_base.specs.Dim.{lengths};
ghost use Rattle.nd_base.specs.Memory.{NeedsNoMemory};
ghost use Rattle.nd_base.specs.declared.lengths.TheConstants.{INLINE_AXES};

use nd_base::{
    Dim, Ix0, Ix1, Ix2, Ix3, Ix4, Ix5, Ix6, IxDyn, IxDynImpl, Lengths, new_ix0, new_ix1, new_ix2,
    new_ix3, new_ix4, new_ix5, new_ix6, new_ixdyn,
};
use std::alloc::{AllocError, Global};

/// What stands for a list of lengths and converts to a dimension. ndarray's `IntoDimension`.
pub trait IntoDimension {
    /// The dimension type that it makes.
    type Dim: Lengths;

    // The list that a value stands for,
    ghost lens: { Self → List ℕ };

    // and whether memory is needed to make a dimension of it.
    ghost needs_memory: { Self → Bool };

    /// The dimension of the same list.
    ///
    /// # Errors
    ///
    /// Out of memory; never where the type fixes the count or there are at most 4 axes, nor from a
    /// dimension, an `IxDynImpl` or a vector.
    ///
    /// ndarray's `into_dimension`.
    fn into_dimension(self, alloc: Global) -> Result<Self::Dim, AllocError>
        ensures list { IfOk result (λ dim. Self.Dim.list dim ≡ lens self) }
        ensures memory { NeedsNoMemory Self.Dim.NDIM (length (lens self)) → IsOk result }
        ensures no_memory { needs_memory self ≡ false → IsOk result };
}

/// The dimension of a list of lengths, however it is written.
///
/// # Errors
///
/// Out of memory; never where the type fixes the count or there are at most 4 axes, nor from a
/// dimension, an `IxDynImpl` or a vector.
///
/// `[2,3]`, an array: the `Ix2` of 2 and 3. ndarray's `Dim(..)`.
pub fn new_dim<T: IntoDimension>(alloc: Global, lens: T) -> Result<T::Dim, AllocError>
    ensures list { IfOk result (λ dim. T.Dim.list dim ≡ T.lens lens) }
    ensures memory { NeedsNoMemory T.Dim.NDIM (length (T.lens lens)) → IsOk result }
    ensures no_memory { T.needs_memory lens ≡ false → IsOk result }
{
    lens.into_dimension(alloc)
}

impl<const N: usize> IntoDimension for Dim<[usize; N]> {
    type Dim = Self;

    ghost lens = { lengths };

    ghost needs_memory = { λ _. false };

    fn into_dimension(self, _alloc: Global) -> Result<Self, AllocError> {
        Ok(self)
    }
}

impl IntoDimension for Dim<IxDynImpl> {
    type Dim = Self;

    ghost lens = { lengths };

    ghost needs_memory = { λ _. false };

    /// This value itself.
    ///
    /// # Errors
    ///
    /// None, whatever the count of axes.
    fn into_dimension(self, _alloc: Global) -> Result<Self, AllocError>
        ensures list { IfOk result (λ dim. lengths dim ≡ lengths self) }
        ensures memory { IsOk result }
    {
        Ok(self)
    }
}

impl IntoDimension for IxDynImpl {
    type Dim = IxDyn;

    ghost lens = { λ dim. dim };

    ghost needs_memory = { λ _. false };

    /// The dimension that keeps this list.
    ///
    /// # Errors
    ///
    /// None, whatever the count of axes.
    fn into_dimension(self, _alloc: Global) -> Result<IxDyn, AllocError>
        ensures list { IfOk result (λ dim. lengths dim ≡ self) }
        ensures memory { IsOk result }
    {
        Ok(IxDyn::new(self))
    }
}

impl IntoDimension for &[usize] {
    type Dim = IxDyn;

    ghost lens = { λ lens. lens.now };

    ghost needs_memory = { λ lens. nat_lt INLINE_AXES (length lens.now) };

    fn into_dimension(self, alloc: Global) -> Result<IxDyn, AllocError> {
        new_ixdyn(alloc, self)
    }
}

impl IntoDimension for Vec<usize> {
    type Dim = IxDyn;

    ghost lens = { λ lens. lens.items };

    ghost needs_memory = { λ _. false };

    /// The dimension of the vector's items, which keeps its memory where there is room for more than
    /// 4.
    ///
    /// # Errors
    ///
    /// None, whatever the count of axes.
    fn into_dimension(self, alloc: Global) -> Result<IxDyn, AllocError>
        ensures list { IfOk result (λ dim. lengths dim ≡ self.items) }
        ensures memory { IsOk result }
    {
        Ok(IxDyn::new(IxDynImpl::from_vec(alloc, self)?))
    }
}

impl<const N: usize> IntoDimension for [usize; N] {
    type Dim = Dim<[usize; N]>;

    ghost lens = { λ lens. lens };

    ghost needs_memory = { λ _. false };

    fn into_dimension(self, _alloc: Global) -> Result<Dim<[usize; N]>, AllocError> {
        Ok(Dim::<[usize; N]>::new(self))
    }
}

impl IntoDimension for usize {
    type Dim = Ix1;

    ghost lens = { λ len. len ∷ [] };

    ghost needs_memory = { λ _. false };

    fn into_dimension(self, _alloc: Global) -> Result<Ix1, AllocError> {
        Ok(new_ix1(self))
    }
}

impl IntoDimension for () {
    type Dim = Ix0;

    ghost lens = { λ _. [] };

    ghost needs_memory = { λ _. false };

    fn into_dimension(self, _alloc: Global) -> Result<Ix0, AllocError> {
        Ok(new_ix0())
    }
}

impl IntoDimension for (usize,) {
    type Dim = Ix1;

    ghost lens = { λ lens. lens.0 ∷ [] };

    ghost needs_memory = { λ _. false };

    fn into_dimension(self, _alloc: Global) -> Result<Ix1, AllocError> {
        Ok(new_ix1(self.0))
    }
}

impl IntoDimension for (usize, usize) {
    type Dim = Ix2;

    ghost lens = { λ lens. lens.0 ∷ lens.1 ∷ [] };

    ghost needs_memory = { λ _. false };

    fn into_dimension(self, _alloc: Global) -> Result<Ix2, AllocError> {
        Ok(new_ix2(self.0, self.1))
    }
}

impl IntoDimension for (usize, usize, usize) {
    type Dim = Ix3;

    ghost lens = { λ lens. lens.0 ∷ lens.1 ∷ lens.2 ∷ [] };

    ghost needs_memory = { λ _. false };

    fn into_dimension(self, _alloc: Global) -> Result<Ix3, AllocError> {
        Ok(new_ix3(self.0, self.1, self.2))
    }
}

impl IntoDimension for (usize, usize, usize, usize) {
    type Dim = Ix4;

    ghost lens = { λ lens. lens.0 ∷ lens.1 ∷ lens.2 ∷ lens.3 ∷ [] };

    ghost needs_memory = { λ _. false };

    fn into_dimension(self, _alloc: Global) -> Result<Ix4, AllocError> {
        Ok(new_ix4(self.0, self.1, self.2, self.3))
    }
}

impl IntoDimension for (usize, usize, usize, usize, usize) {
    type Dim = Ix5;

    ghost lens = { λ lens. lens.0 ∷ lens.1 ∷ lens.2 ∷ lens.3 ∷ lens.4 ∷ [] };

    ghost needs_memory = { λ _. false };

    fn into_dimension(self, _alloc: Global) -> Result<Ix5, AllocError> {
        Ok(new_ix5(self.0, self.1, self.2, self.3, self.4))
    }
}

impl IntoDimension for (usize, usize, usize, usize, usize, usize) {
    type Dim = Ix6;

    ghost lens = { λ lens. lens.0 ∷ lens.1 ∷ lens.2 ∷ lens.3 ∷ lens.4 ∷ lens.5 ∷ [] };

    ghost needs_memory = { λ _. false };

    fn into_dimension(self, _alloc: Global) -> Result<Ix6, AllocError> {
        Ok(new_ix6(self.0, self.1, self.2, self.3, self.4, self.5))
    }
}
