//! The dimension of any number of axes.
ghost use Rattle.std.specs.Prelude.{◌≡◌, ◌<◌, ◌≤◌, ◌++◌, take, drop, length, replicate, Some, None, IsOk, IfOk, slice_get, slice_set, refl};
ghost use Rattle.std.specs.Borrow.{Lends, sem, u64 as word};
ghost use Rattle.std.specs.Cmp.{unsigned_Decides};
ghost use Rattle.std.proofs.Common.{ap, sym, ◌∙◌};
ghost use Rattle.std.proofs.Math.Seq.{take-append_seam};
ghost use Rattle.std.proofs.lemmas.Slice.Eq.{slice_eq-Decides};
ghost use Rattle.nd_base.specs.Dim.{lengths, with_lengths, rewritten};

use crate::dim::{Dim, IxDyn};
use crate::dynindeximpl::IxDynImpl;
use crate::lengths::{FixedCount, INLINE_AXES, Lengths};
use std::alloc::{AllocError, Global};
use std::ops::{Index, IndexMut};

/// A shape or an index of as many axes as the slice has items.
///
/// # Errors
///
/// Out of memory; never where there are at most 4.
///
/// Takes time in proportion to the count of axes. ndarray's `IxDyn(..)`.
pub fn new_ixdyn(alloc: Global, lens: &[usize]) -> Result<IxDyn, AllocError>
    ensures list { IfOk result (λ dim. lengths dim ≡ lens.now) }
    ensures memory { length lens.now ≤ INLINE_AXES → IsOk result }
{
    Ok(IxDyn::new(IxDynImpl::copy_from(alloc, lens)?))
}

impl Dim<IxDynImpl> {
    /// The dimension of these lengths. ndarray's `Dim::new`.
    #[inline]
    pub fn new(index: IxDynImpl) -> Self
        ensures { lengths result ≡ index }
    {
        Dim { index }
    }

    /// `n` axes of length 0.
    ///
    /// # Errors
    ///
    /// Out of memory; never where there are at most 4.
    ///
    /// Takes time in proportion to the count of axes. ndarray's `IxDyn::zeros`.
    pub fn zeros(alloc: Global, n: usize) -> Result<Self, AllocError>
        ensures list { IfOk result (λ dim. lengths dim ≡ replicate n 0) }
        ensures memory { n ≤ INLINE_AXES → IsOk result }
    {
        Ok(IxDyn::new(IxDynImpl::zeros(alloc, n)?))
    }
}

impl Index<usize> for Dim<IxDynImpl> {
    type Output = usize;

    ghost can_index = { λ dim axis. axis < length (lengths dim) };

    ghost index_gives = { λ dim axis len. slice_get (lengths dim) axis ≡ Some len };

    fn index(&self, axis: usize) -> &usize {
        &self.index[axis]
    }
}

impl IndexMut<usize> for Dim<IxDynImpl> {
    ghost use Rattle.nd_base.specs.contracts.dim.Dim.{the_row};
    ghost use Rattle.nd_base.specs.contracts.dynindeximpl.IxDynImpl.{the_row as lengths_row};

    fn index_mut(&mut self, axis: usize) -> &mut usize
        requires { axis < length (lengths self.old) }
        ensures* writes_back { sem 𝓛 (Lends (the_row lengths_row) word self.entry result
            (λ len. with_lengths self.old (slice_set (lengths self.old) axis len))) }
        ensures value { slice_get (lengths self.old) axis ≡ Some result.now }
    {
        &mut self.index[axis]
    }
}

impl FixedCount for Dim<IxDynImpl> {
    ghost NDIM = { None };

    const NDIM: Option<usize> = None;
}

impl Lengths for Dim<IxDynImpl> {
    ghost list = { lengths };

    ghost with_list = { rewritten };

    fn ndim(&self) -> usize {
        self.slice().len()
    }

    fn slice(&self) -> &[usize] {
        self.index.as_slice()
    }

    fn slice_mut(&mut self) -> &mut [usize] {
        self.index.as_mut_slice()
    }

    fn equal(&self, other: &Self) -> bool {
        self.index == other.index
    }

    fn zeros(alloc: Global, n: usize) -> Result<Self, AllocError> {
        IxDyn::zeros(alloc, n)
    }

    fn duplicate(&self, alloc: Global) -> Result<Self, AllocError> {
        new_ixdyn(alloc, self.slice())
    }

    fn copied(&self) -> Option<Self> {
        None
    }

    ghost eq_of_lists = { λ d e. slice_eq-Decides unsigned_Decides (lengths d) (lengths e) _ refl };

    ghost list_of_with_list = { λ d xs h.
        ap (λ n. take n (xs ++ drop (length xs) (lengths d))) (sym h)
        ∙ take-append_seam xs (drop (length xs) (lengths d)) };

    ghost can_index_below = { λ d i h. h };

    ghost index_is = { λ d i v h. h };
}
