//! Views of the same items one after another: those of the arrays or parts that are still to come.
ghost use Rattle.std.specs.List.{All};
ghost use Rattle.std.specs.Prelude.{◌≡◌, ◌-◌, IfErr, IfOk, IsOk, MatchOption, [], ◌∷◌, ◌++◌, drop, length, take};
ghost use Rattle.ndarray_layout.specs.Memory.{NeedsNoMemory};

pub(crate) mod along_axis;
pub(crate) mod axis_chunks;
pub(crate) mod numbered;

use ndarray_layout::{BlockViews, Lengths, Strided};
use std::alloc::{AllocError, Global};

/// Views one after another, from both ends.
pub trait Views: Drop {
    ghost use Rattle.std.specs.Prelude.{List};
    ghost use Rattle.ndarray_layout.specs.View.{View};

    /// The type of the shape of each.
    type Dim: Lengths;

    // Those that are left, in order.
    ghost left: { Self → List View };

    /// How many are left.
    fn len(&self) -> usize
        ensures { result ≡ length (left self.now) };

    /// Skips the next `count`, or all that remain.
    fn advance(&mut self, count: usize)
        ensures { left self.new ≡ drop count (left self.old) };

    /// Skips the last `count`, or all that remain.
    fn advance_back(&mut self, count: usize)
        ensures { left self.new ≡ take (length (left self.old) - count) (left self.old) };

    /// The next view; `None` where none is left. Nothing changes where an allocation fails.
    fn try_next(&mut self, alloc: Global) -> Result<Option<Strided<Self::Dim>>, AllocError>
        ensures memory { All (λ view. NeedsNoMemory Self.Dim.NDIM (length view.shape)) (left self.old) → IsOk result }
        ensures unchanged { IfErr result (λ _. left self.new ≡ left self.old) }
        ensures first { IfOk result (λ next. MatchOption next
            ((left self.old ≡ []) × (left self.new ≡ [])) (λ view. left self.old ≡ view ∷ left self.new)) };

    /// The last view; `None` where none is left. Nothing changes where an allocation fails.
    fn try_next_back(&mut self, alloc: Global) -> Result<Option<Strided<Self::Dim>>, AllocError>
        ensures memory { All (λ view. NeedsNoMemory Self.Dim.NDIM (length view.shape)) (left self.old) → IsOk result }
        ensures unchanged { IfErr result (λ _. left self.new ≡ left self.old) }
        ensures last { IfOk result (λ next. MatchOption next
            ((left self.old ≡ []) × (left self.new ≡ [])) (λ view. left self.old ≡ left self.new ++ view ∷ [])) };
}

impl<D: Lengths> Views for BlockViews<D> {
    type Dim = D;

    ghost left = { λ views. views };

    #[inline(always)]
    fn len(&self) -> usize {
        BlockViews::len(self)
    }

    #[inline(always)]
    fn advance(&mut self, count: usize) {
        BlockViews::advance(self, count);
    }

    #[inline(always)]
    fn advance_back(&mut self, count: usize) {
        BlockViews::advance_back(self, count);
    }

    #[inline(always)]
    fn try_next(&mut self, alloc: Global) -> Result<Option<Strided<D>>, AllocError> {
        BlockViews::try_next(self, alloc)
    }

    #[inline(always)]
    fn try_next_back(&mut self, alloc: Global) -> Result<Option<Strided<D>>, AllocError> {
        BlockViews::try_next_back(self, alloc)
    }
}
