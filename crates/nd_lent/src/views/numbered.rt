//! Views that are made by their numbers.
ghost use Rattle.std.specs.List.{range_with_len};
ghost use Rattle.std.specs.Prelude.{◌≡◌, ◌<◌, IfOk, IsOk, length, map};
ghost use Rattle.ndarray_layout.specs.Memory.{NeedsNoMemory};

use crate::views::Views;
use ndarray_layout::{Lengths, Strided};
use std::alloc::{AllocError, Global};
use std::marker::Model;

/// A view of each number below a count.
pub trait ByNumber: Drop {
    ghost use Rattle.std.specs.Prelude.{ℕ};
    ghost use Rattle.ndarray_layout.specs.View.{View};

    /// The type of the shape of each.
    type Dim: Lengths;

    // How many there are.
    ghost count: { Self → ℕ };

    // The one of a number.
    ghost at: { Self → ℕ → View };

    /// The view of a number. The caller ensures that there is one.
    /// Errors: out of memory.
    fn view_at(&self, alloc: Global, number: usize) -> Result<Strided<Self::Dim>, AllocError>
        requires { number < count self.now }
        ensures memory { NeedsNoMemory Self.Dim.NDIM (length (at self.now number).shape) → IsOk result }
        ensures view { IfOk result (λ view. view ≡ at self.now number) };
}

/// The views of the numbers that are left.
#[derive(Drop)]
pub struct Numbered<V: ByNumber> {
    views: V,
    // The number that comes next, and the one after the last that is left.
    begun: usize,
    end: usize,
}

impl<V: ByNumber> Model for Numbered<V> {
    ghost use Rattle.std.specs.List.{range_with_len};
    ghost use Rattle.std.specs.Prelude.{List, ◌≤◌, drop, map, take};
    ghost use Rattle.ndarray_layout.specs.View.{View};

    ghost Value = { List View };

    ghost view = { λ left. drop left.begun (take left.end (map (V.at left.views) (range_with_len 0 (V.count left.views)))) };

    ghost invariant = { λ left. (left.begun ≤ left.end) × (left.end ≤ V.count left.views) };
}

impl<V: ByNumber> Numbered<V> {
    /// All views. The caller ensures that `count` is how many they are.
    #[inline]
    pub(crate) fn new(views: V, count: usize) -> Self
        requires { count ≡ V.count views }
        ensures { result ≡ map (V.at views) (range_with_len 0 (V.count views)) }
    {
        Numbered {
            views,
            begun: 0,
            end: count,
        }
    }
}

impl<V: ByNumber> Views for Numbered<V> {
    type Dim = V::Dim;

    ghost left = { λ left. left };

    #[inline]
    fn len(&self) -> usize {
        self.end - self.begun
    }

    #[inline]
    fn advance(&mut self, count: usize) {
        self.begun += count.min(self.end - self.begun);
    }

    #[inline]
    fn advance_back(&mut self, count: usize) {
        self.end -= count.min(self.end - self.begun);
    }

    #[inline]
    fn try_next(&mut self, alloc: Global) -> Result<Option<Strided<V::Dim>>, AllocError> {
        if self.begun == self.end {
            return Ok(None);
        }
        let view = self.views.view_at(alloc, self.begun)?;
        self.begun += 1;
        Ok(Some(view))
    }

    #[inline]
    fn try_next_back(&mut self, alloc: Global) -> Result<Option<Strided<V::Dim>>, AllocError> {
        if self.begun == self.end {
            return Ok(None);
        }
        let view = self.views.view_at(alloc, self.end - 1)?;
        self.end -= 1;
        Ok(Some(view))
    }
}
