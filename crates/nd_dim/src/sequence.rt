//! The numbers of a dimension or a slice, one for each axis, counted from the first axis on or from the last one back.
ghost use Rattle.std.specs.Prelude.{◌≡◌, ℕ, ◌<◌, List, length, reverse, Some, slice_get, slice_index, slice_set};

use nd_base::Lengths;
use std::ops::{Index, IndexMut};

/// The numbers of a dimension or a slice, that of the first axis first. ndarray's `Forward`.
#[derive(Drop)]
pub struct Forward<D>(pub D);

/// The numbers of a dimension or a slice, that of the last axis first. ndarray's `Reverse`.
#[derive(Drop)]
pub struct Reverse<D>(pub D);

/// A list of numbers that are read by their position. ndarray's `Sequence`.
pub trait Sequence: Index<usize, Output = usize> {
    // The numbers, in order.
    ghost items: { Self → List ℕ };

    /// The count of numbers. ndarray's `len`.
    fn len(&self) -> usize
        ensures { result ≡ length (items self.now) };

    // Each position can be indexed,
    ghost can_index_below: { (s : Self) (k : ℕ) → k < length (items s) → Self.can_index s k };

    // and shows its number.
    ghost index_is: { (s : Self) (k item : ℕ) → Self.index_gives s k item →
        slice_get (items s) k ≡ Some item };
}

/// The number at a position of a sequence.
///
/// The caller ensures that there is one.
///
/// The project's own.
#[inline(always)]
pub fn item<S: Sequence>(items: &S, k: usize) -> usize
    requires { k < length (S.items items.now) }
    ensures { result ≡ slice_index (S.items items.now) k }
{
    items[k]
}

/// A list of numbers that are read and written by their position. ndarray's `SequenceMut`.
pub trait SequenceMut: Sequence + IndexMut<usize> {
    // The later value writes to what the earlier one does.
    ghost same_target: { Self → Self → Type 0 };

    /// Writes the number at a position.
    ///
    /// The caller ensures that there is one. A write by index does so as well. No clause says what
    /// that write leaves.
    ///
    /// The project's own.
    fn set(&mut self, k: usize, item: usize)
        requires { k < length (Self.items self.old) }
        ensures items { Self.items self.new ≡ slice_set (Self.items self.old) k item }
        ensures target { same_target self.old self.new };

    // A value writes to what it does itself,
    ghost same_target_now: { (s : Self) → same_target s s };

    // and after several writes as after each.
    ghost same_target_on: { (s t u : Self) → same_target s t → same_target t u → same_target s u };
}

impl Index<usize> for Forward<&[usize]> {
    type Output = usize;

    ghost can_index = { λ s k. k < length s.0.now };

    ghost index_gives = { λ s k item. slice_get s.0.now k ≡ Some item };

    #[inline(always)]
    fn index(&self, k: usize) -> &usize {
        &self.0[k]
    }
}

impl Sequence for Forward<&[usize]> {
    ghost items = { λ s. s.0.now };

    #[inline(always)]
    fn len(&self) -> usize {
        self.0.len()
    }

    ghost can_index_below = { λ s k h. h };

    ghost index_is = { λ s k item h. h };
}

impl Index<usize> for Reverse<&[usize]> {
    type Output = usize;

    ghost can_index = { λ s k. k < length s.0.now };

    ghost index_gives = { λ s k item. slice_get (reverse s.0.now) k ≡ Some item };

    #[inline(always)]
    fn index(&self, k: usize) -> &usize {
        &self.0[self.0.len() - 1 - k]
    }
}

impl Sequence for Reverse<&[usize]> {
    ghost use Rattle.std.proofs.Common.{subst};
    ghost use Rattle.std.proofs.lemmas.List.{length-reverse};

    ghost items = { λ s. reverse s.0.now };

    #[inline(always)]
    fn len(&self) -> usize {
        self.0.len()
    }

    ghost can_index_below = { λ s k h. subst (λ n. k < n) (length-reverse s.0.now) h };

    ghost index_is = { λ s k item h. h };
}

impl Index<usize> for Forward<&mut [usize]> {
    type Output = usize;

    ghost can_index = { λ s k. k < length s.0.now };

    ghost index_gives = { λ s k item. slice_get s.0.now k ≡ Some item };

    #[inline(always)]
    fn index(&self, k: usize) -> &usize {
        let items = &*self.0;
        &items[k]
    }
}

impl IndexMut<usize> for Forward<&mut [usize]> {
    #[inline(always)]
    fn index_mut(&mut self, k: usize) -> &mut usize
        requires { k < length self.old.0.now }
        ensures { slice_get self.old.0.now k ≡ Some result.now }
    {
        let items = &mut *self.0;
        &mut items[k]
    }
}

impl Sequence for Forward<&mut [usize]> {
    ghost items = { λ s. s.0.now };

    #[inline(always)]
    fn len(&self) -> usize {
        self.0.len()
    }

    ghost can_index_below = { λ s k h. h };

    ghost index_is = { λ s k item h. h };
}

impl SequenceMut for Forward<&mut [usize]> {
    ghost use Rattle.std.proofs.Common.{refl, ◌∙◌};

    ghost same_target = { λ s t. s.0.ghost_name ≡ t.0.ghost_name };

    ghost same_target_now = { λ s. refl };

    ghost same_target_on = { λ s t u first next. first ∙ next };

    #[inline(always)]
    fn set(&mut self, k: usize, item: usize) {
        self.0[k] = item;
    }
}

impl Index<usize> for Reverse<&mut [usize]> {
    type Output = usize;

    ghost can_index = { λ s k. k < length s.0.now };

    ghost index_gives = { λ s k item. slice_get (reverse s.0.now) k ≡ Some item };

    #[inline(always)]
    fn index(&self, k: usize) -> &usize {
        let items = &*self.0;
        &items[items.len() - 1 - k]
    }
}

impl IndexMut<usize> for Reverse<&mut [usize]> {
    #[inline(always)]
    fn index_mut(&mut self, k: usize) -> &mut usize
        requires { k < length self.old.0.now }
        ensures { slice_get (reverse self.old.0.now) k ≡ Some result.now }
    {
        let items = &mut *self.0;
        &mut items[items.len() - 1 - k]
    }
}

impl Sequence for Reverse<&mut [usize]> {
    ghost use Rattle.std.proofs.Common.{subst};
    ghost use Rattle.std.proofs.lemmas.List.{length-reverse};

    ghost items = { λ s. reverse s.0.now };

    #[inline(always)]
    fn len(&self) -> usize {
        self.0.len()
    }

    ghost can_index_below = { λ s k h. subst (λ n. k < n) (length-reverse s.0.now) h };

    ghost index_is = { λ s k item h. h };
}

impl SequenceMut for Reverse<&mut [usize]> {
    ghost use Rattle.std.proofs.Common.{refl, ◌∙◌};

    ghost same_target = { λ s t. s.0.ghost_name ≡ t.0.ghost_name };

    ghost same_target_now = { λ s. refl };

    ghost same_target_on = { λ s t u first next. first ∙ next };

    #[inline(always)]
    fn set(&mut self, k: usize, item: usize) {
        let items = &mut *self.0;
        items[items.len() - 1 - k] = item;
    }
}

impl<D: Lengths> Index<usize> for Forward<&D> {
    type Output = usize;

    ghost can_index = { λ s k. k < length (D.list s.0.now) };

    ghost index_gives = { λ s k item. slice_get (D.list s.0.now) k ≡ Some item };

    #[inline(always)]
    fn index(&self, k: usize) -> &usize {
        &self.0.slice()[k]
    }
}

impl<D: Lengths> Sequence for Forward<&D> {
    ghost items = { λ s. D.list s.0.now };

    #[inline(always)]
    fn len(&self) -> usize {
        self.0.ndim()
    }

    ghost can_index_below = { λ s k h. h };

    ghost index_is = { λ s k item h. h };
}

impl<D: Lengths> Index<usize> for Forward<&mut D> {
    type Output = usize;

    ghost can_index = { λ s k. k < length (D.list s.0.now) };

    ghost index_gives = { λ s k item. slice_get (D.list s.0.now) k ≡ Some item };

    #[inline(always)]
    fn index(&self, k: usize) -> &usize {
        &self.0.slice()[k]
    }
}

impl<D: Lengths> IndexMut<usize> for Forward<&mut D> {
    #[inline(always)]
    fn index_mut(&mut self, k: usize) -> &mut usize
        requires { k < length (D.list self.old.0.now) }
        ensures { slice_get (D.list self.old.0.now) k ≡ Some result.now }
    {
        &mut self.0.slice_mut()[k]
    }
}

impl<D: Lengths> Sequence for Forward<&mut D> {
    ghost items = { λ s. D.list s.0.now };

    #[inline(always)]
    fn len(&self) -> usize {
        self.0.ndim()
    }

    ghost can_index_below = { λ s k h. h };

    ghost index_is = { λ s k item h. h };
}

impl<D: Lengths> SequenceMut for Forward<&mut D> {
    ghost use Rattle.std.proofs.Common.{refl, ◌∙◌};

    ghost same_target = { λ s t. s.0.ghost_name ≡ t.0.ghost_name };

    ghost same_target_now = { λ s. refl };

    ghost same_target_on = { λ s t u first next. first ∙ next };

    #[inline(always)]
    fn set(&mut self, k: usize, item: usize) {
        self.0.slice_mut()[k] = item;
    }
}

impl<D: Lengths> Index<usize> for Reverse<&D> {
    type Output = usize;

    ghost can_index = { λ s k. k < length (D.list s.0.now) };

    ghost index_gives = { λ s k item. slice_get (reverse (D.list s.0.now)) k ≡ Some item };

    #[inline(always)]
    fn index(&self, k: usize) -> &usize {
        let items = self.0.slice();
        &items[items.len() - 1 - k]
    }
}

impl<D: Lengths> Sequence for Reverse<&D> {
    ghost use Rattle.std.proofs.Common.{◌∙◌, subst, sym};
    ghost use Rattle.std.proofs.lemmas.List.{length-reverse};

    ghost items = { λ s. reverse (D.list s.0.now) };

    #[inline(always)]
    fn len(&self) -> usize {
        self.0.ndim()
    }

    ghost can_index_below = { λ s k h. subst (λ n. k < n) (length-reverse (D.list s.0.now)) h };

    ghost index_is = { λ s k item h. h };
}

impl<D: Lengths> Index<usize> for Reverse<&mut D> {
    type Output = usize;

    ghost can_index = { λ s k. k < length (D.list s.0.now) };

    ghost index_gives = { λ s k item. slice_get (reverse (D.list s.0.now)) k ≡ Some item };

    #[inline(always)]
    fn index(&self, k: usize) -> &usize {
        let items = self.0.slice();
        &items[items.len() - 1 - k]
    }
}

impl<D: Lengths> IndexMut<usize> for Reverse<&mut D> {
    #[inline(always)]
    fn index_mut(&mut self, k: usize) -> &mut usize
        requires { k < length (D.list self.old.0.now) }
        ensures { slice_get (reverse (D.list self.old.0.now)) k ≡ Some result.now }
    {
        let items = self.0.slice_mut();
        &mut items[items.len() - 1 - k]
    }
}

impl<D: Lengths> Sequence for Reverse<&mut D> {
    ghost use Rattle.std.proofs.Common.{subst};
    ghost use Rattle.std.proofs.lemmas.List.{length-reverse};

    ghost items = { λ s. reverse (D.list s.0.now) };

    #[inline(always)]
    fn len(&self) -> usize {
        self.0.ndim()
    }

    ghost can_index_below = { λ s k h. subst (λ n. k < n) (length-reverse (D.list s.0.now)) h };

    ghost index_is = { λ s k item h. h };
}

impl<D: Lengths> SequenceMut for Reverse<&mut D> {
    ghost use Rattle.std.proofs.Common.{refl, ◌∙◌};

    ghost same_target = { λ s t. s.0.ghost_name ≡ t.0.ghost_name };

    ghost same_target_now = { λ s. refl };

    ghost same_target_on = { λ s t u first next. first ∙ next };

    #[inline(always)]
    fn set(&mut self, k: usize, item: usize) {
        let items = self.0.slice_mut();
        items[items.len() - 1 - k] = item;
    }
}
