//! A list of any number of lengths: up to four lie in the value itself, more of them in memory.
ghost use Rattle.std.specs.Prelude.{◌≡◌, ℕ, ◌+◌, ◌<◌, ◌≤◌, ◌^◌, ◌⊎◌, List, length, insert, remove, replicate, Some, IsOk, IfOk, slice_get, slice_set, nat_eq};
ghost use Rattle.std.specs.Borrow.{Lends, sem, Array, u64 as word};
ghost use Rattle.std.specs.List.{refill};
ghost use Rattle.std.specs.Iterator.Runs.{EveryRun, ItemsMapTo};
ghost use Rattle.std.specs.Slice.Iter.{iter_rest, iter_steps};
ghost use Rattle.std.specs.Hash as fed;
ghost use Rattle.std.specs.Cmp.Rules.{comparing, hashing};
ghost use Rattle.std.specs.Cmp.Lexicographic.{pointwise};
ghost use Rattle.std.proofs.Common.{rules};

use crate::lengths::INLINE_AXES;
use smallvec::SmallVec;
use std::alloc::{AllocError, Global};
use std::hash::{Hash, Hasher};
use std::marker::Model;
use std::ops::{Index, IndexMut};
use std::{fmt, slice};

/// The lengths of any number of axes, in order. ndarray's `IxDynImpl`.
///
/// Equality and hash are those of the list, however it is kept.
#[derive(Drop)]
pub struct IxDynImpl {
    lens: SmallVec<usize, INLINE_AXES>,
}

impl Model for IxDynImpl {
    ghost use Rattle.std.specs.Prelude.{List, ℕ};

    ghost Value = { List ℕ };

    ghost view = { λ dim. dim.lens.items };
}

impl IxDynImpl {
    ghost use Rattle.nd_base.specs.contracts.dynindeximpl.IxDynImpl.{the_row};

    /// The lengths of a slice.
    ///
    /// # Errors
    ///
    /// Out of memory; never where there are at most 4 lengths.
    ///
    /// Takes time in proportion to the count of lengths. In place of ndarray's `From<&[Ix]>`.
    pub fn copy_from(alloc: Global, lens: &[usize]) -> Result<Self, AllocError>
        ensures list { IfOk result (λ dim. dim ≡ lens.now) }
        ensures memory { length lens.now ≤ INLINE_AXES → IsOk result }
    {
        // (up to four one by one, where `from_slice` calls a copy of any length)
        let lens = match lens {
            [] => SmallVec::new(alloc),
            [a] => SmallVec::from_buf_and_len(alloc, [*a, 0, 0, 0], 1),
            [a, b] => SmallVec::from_buf_and_len(alloc, [*a, *b, 0, 0], 2),
            [a, b, c] => SmallVec::from_buf_and_len(alloc, [*a, *b, *c, 0], 3),
            [a, b, c, d] => SmallVec::from_buf(alloc, [*a, *b, *c, *d]),
            _ => SmallVec::from_slice(alloc, lens)?,
        };
        Ok(IxDynImpl { lens })
    }

    /// The lengths of a vector, whose memory is kept where it has room for more than 4.
    ///
    /// `alloc` is there as in every call of this kind.
    ///
    /// # Errors
    ///
    /// None: it asks for no memory.
    ///
    /// ndarray's `From<Vec<Ix>>`.
    pub fn from_vec(_alloc: Global, lens: Vec<usize>) -> Result<Self, AllocError>
        ensures list { IfOk result (λ dim. dim ≡ lens.items) }
        ensures memory { IsOk result }
    {
        Ok(IxDynImpl {
            lens: SmallVec::from_vec(lens),
        })
    }

    /// `n` zeros. Up to four are made at once, where `from_elem` would push one by one.
    pub(crate) fn zeros(alloc: Global, n: usize) -> Result<Self, AllocError>
        ensures list { IfOk result (λ dim. dim ≡ replicate n 0) }
        ensures memory { n ≤ INLINE_AXES → IsOk result }
    {
        let lens = if n <= INLINE_AXES {
            SmallVec::from_buf_and_len(alloc, [0; INLINE_AXES], n)
        } else {
            SmallVec::from_elem(alloc, 0, n)?
        };
        Ok(IxDynImpl { lens })
    }

    /// The lengths with a new axis of length 1, which gets the number `i`.
    ///
    /// The caller ensures that `i` is at most their count.
    ///
    /// # Errors
    ///
    /// Out of memory; never where the result has at most 4 lengths.
    ///
    /// Takes time in proportion to the count of lengths.
    ///
    /// `[2,3]` at 1: `[2,1,3]`. ndarray's `insert`.
    pub fn insert(&self, alloc: Global, i: usize) -> Result<Self, AllocError>
        requires { i ≤ length self.now }
        ensures list { IfOk result (λ dim. dim ≡ insert self.now i 1) }
        ensures memory { length self.now + 1 ≤ INLINE_AXES → IsOk result }
    {
        let lens = self.as_slice();
        let mut wider = SmallVec::with_capacity(alloc, lens.len() + 1)?;
        wider.extend_from_slice(&lens[..i])?;
        wider.push(1)?;
        wider.extend_from_slice(&lens[i..])?;
        Ok(IxDynImpl { lens: wider })
    }

    /// The lengths without the axis `i`; of no axes, no axes.
    ///
    /// The caller ensures that there is that axis, or none at all.
    ///
    /// # Errors
    ///
    /// Out of memory; never where the result has at most 4 lengths.
    ///
    /// Takes time in proportion to the count of lengths.
    ///
    /// `[2,3]` without 0: `[3]`. ndarray's `remove`.
    pub fn remove(&self, alloc: Global, i: usize) -> Result<Self, AllocError>
        requires { (i < length self.now) ⊎ (length self.now ≡ 0) }
        ensures list { IfOk result (λ dim. dim ≡ remove self.now i) }
        ensures memory { length self.now ≤ 5 → IsOk result }
    {
        let lens = self.as_slice();
        if lens.is_empty() {
            return Self::copy_from(alloc, lens);
        }
        let mut narrower = SmallVec::with_capacity(alloc, lens.len() - 1)?;
        narrower.extend_from_slice(&lens[..i])?;
        narrower.extend_from_slice(&lens[i + 1..])?;
        Ok(IxDynImpl { lens: narrower })
    }

    /// The lengths, in order. For ndarray's `Deref`.
    #[inline]
    pub fn as_slice(&self) -> &[usize]
        ensures { result.now ≡ self.now }
    {
        self.lens.as_slice()
    }

    /// The lengths, to be written; their count is fixed. For ndarray's `DerefMut`.
    #[inline]
    pub fn as_mut_slice(&mut self) -> &mut [usize]
        ensures* writes_back { sem 𝓛 (Lends the_row (Array word 0) self.entry result
            (refill (length self.old) self.old)) }
        ensures list { result.now ≡ self.old }
    {
        self.lens.as_mut_slice()
    }
}

impl Index<usize> for IxDynImpl {
    type Output = usize;

    ghost can_index = { λ dim axis. axis < length dim };

    ghost index_gives = { λ dim axis len. slice_get dim axis ≡ Some len };

    fn index(&self, axis: usize) -> &usize {
        &self.as_slice()[axis]
    }
}

impl IndexMut<usize> for IxDynImpl {
    ghost use Rattle.nd_base.specs.contracts.dynindeximpl.IxDynImpl.{the_row};

    fn index_mut(&mut self, axis: usize) -> &mut usize
        requires { axis < length self.old }
        ensures* writes_back { sem 𝓛 (Lends the_row word self.entry result
            (slice_set self.old axis)) }
        ensures value { slice_get self.old axis ≡ Some result.now }
    {
        self.lens.get_mut(axis).unwrap()
    }
}

impl<'a> IntoIterator for &'a IxDynImpl {
    type Item = &'a usize;

    type IntoIter = slice::Iter<'a, usize>;

    ghost into_iter_gives = { λ dim it. (iter_rest it ≡ dim.now) × (length (iter_rest it) < 2 ^ 64)
        × EveryRun (iter_steps {A = ℕ}) (λ p. ItemsMapTo p (λ x. x.now) (iter_rest p.from)) };

    fn into_iter(self) -> slice::Iter<'a, usize> {
        self.as_slice().iter()
    }
}

impl PartialEq for IxDynImpl {
    ghost eq = { pointwise nat_eq };

    ghost laws = { Prim.search (comparing, rules) };

    fn eq(&self, other: &Self) -> bool {
        self.as_slice() == other.as_slice()
    }
}

impl Eq for IxDynImpl {
    ghost laws = { Prim.search (comparing, rules) };
}

impl Hash for IxDynImpl {
    ghost hash_input = { fed.slice fed.usize };

    ghost respects_eq = { Prim.search (hashing, rules) };

    fn hash<H: Hasher>(&self, state: &mut H) {
        self.as_slice().hash(state);
    }
}

impl fmt::Debug for IxDynImpl {
    fn fmt<W: fmt::Write>(&self, f: &mut fmt::Formatter<W>) -> fmt::Result {
        f.debug_list().entries(self.as_slice()).finish()
    }
}
