//! What dimensions keep: one number for each axis.
ghost use Rattle.std.specs.Prelude.{◌≡◌, ℕ, List, ◌++◌, take, drop, length, refl};
ghost use Rattle.std.specs.Borrow.{Lends, sem, Array, u64 as word};
ghost use Rattle.std.specs.List.{refill};
ghost use Rattle.std.proofs.Common.{ap, sym, ◌∙◌};
ghost use Rattle.std.proofs.Math.Seq.{take-append_seam};
ghost use Rattle.nd_base.specs.Dim.{numbers_of};

use crate::dim::Dim;
use crate::dynindeximpl::IxDynImpl;
use crate::lengths::Lengths;

/// One number for each axis, in order, however they are kept. The operators ask for no more than
/// this, so that they stand once for arrays and for `IxDynImpl`.
pub trait Numbers: Drop {
    // The list that a value stands for.
    ghost list: { Self → List ℕ };

    // The value that stands for another list of as many numbers.
    ghost with_list: { Self → List ℕ → Self };

    /// The numbers, in order.
    fn slice(&self) -> &[usize]
        ensures { result.now ≡ list self.now };

    /// The numbers, to be written; their count is fixed.
    fn slice_mut(&mut self) -> &mut [usize]
        ensures* writes_back { sem 𝓛 (Lends Self.row (Array word 0) self.entry result
            (with_list self.old)) }
        ensures list { result.now ≡ list self.old };

    // Lists of one count replace one another.
    ghost list_of_with_list: { (numbers : Self) (xs : List ℕ) → length xs ≡ length (list numbers)
        → list (with_list numbers xs) ≡ xs };
}

/// Numbers that are the lengths of the dimension that keeps them. The operators' laws ask for this.
pub trait AreLengths: Numbers
where
    Dim<Self>: Lengths,
{
    // What the dimension stands for is what it keeps.
    ghost list_is_kept: { ⟦<Dim<Self> as Lengths>⟧.list ≡ (λ dim. Self.list (numbers_of dim)) };
}

impl<const N: usize> Numbers for [usize; N] {
    ghost list = { λ numbers. numbers };

    ghost with_list = { λ numbers others. others };

    fn slice(&self) -> &[usize] {
        &self[..]
    }

    fn slice_mut(&mut self) -> &mut [usize] {
        self
    }

    ghost list_of_with_list = { λ numbers xs h. refl };
}

impl Numbers for IxDynImpl {
    ghost list = { λ numbers. numbers };

    ghost with_list = { λ numbers others. refill (length numbers) numbers others };

    fn slice(&self) -> &[usize] {
        self.as_slice()
    }

    fn slice_mut(&mut self) -> &mut [usize] {
        self.as_mut_slice()
    }

    ghost list_of_with_list = { λ numbers xs h.
        ap (λ n. take n (xs ++ drop (length xs) numbers)) (sym h)
        ∙ take-append_seam xs (drop (length xs) numbers) };
}

impl<const N: usize> AreLengths for [usize; N] {
    ghost list_is_kept = { refl };
}

// The clause on `[usize; 4]` always holds. Without it this kit stops at `impl Dimension for IxDyn`, and
// wherever a trait above is given to `IxDyn`, by a fault of its own.
impl AreLengths for IxDynImpl
where
    [usize; 4]: Eq,
{
    ghost list_is_kept = { refl };
}
