//! New lists of what is made of the items of an array.
ghost use Rattle.std.specs.Fn.{CalledAt};
ghost use Rattle.std.specs.Iterator.{ActsAsAt, CallableOnAllAt};
ghost use Rattle.std.specs.Option.{option_map};
ghost use Rattle.std.specs.Prelude.{◌≡◌, ◌+◌, ◌≤◌, IfOk, IsOk, Some, length, map, vec_capacity, vec_len};
ghost use Rattle.ndarray_layout.specs.Size.{size};
ghost use Rattle.nd_access.specs.Mapped.{CallsMake, gives, row_major_items};
ghost use Rattle.nd_access.specs.Pushed.{HasPushed};

use crate::array_view::ArrayView;
use nd_items::Iter;
use nd_loops::push_rows;
use ndarray_layout::Lengths;
use std::alloc::{AllocError, Global};

/// How many items rows have at least for which a loop of their own takes less time than one over all items.
const LONG: usize = 16;

/// How many items rows have at most that need no loop of their own: a loop over rows knows their number.
const FEW: usize = 4;

/// Appends what a closure makes of each item to a list with room for it.
#[inline(always)]
fn push_items<T, U: Drop, F: FnMut(&T) -> U>(
    mut made: Vec<U>,
    items: Iter<'_, T>,
    mut f: F,
) -> Vec<U>
    requires callable { CallableOnAllAt gives F.FnMut items f }
    requires room { vec_len made + length items ≤ vec_capacity made }
    ensures { (last : F) × HasPushed (λ p x y q. CalledAt F.FnMut p x y q) f
        items.entry made.items result.items last }
{
    for item in items {
        made.push_reserved(f(item));
    }
    made
}

impl<T, D: Lengths> ArrayView<'_, T, D> {
    /// What a closure makes of each item, in row-major order, as a list.
    ///
    /// The list is allocated first, at once, and the closure isn't called where this fails. Goes over the longest rows that the
    /// axes allow (`Strided::joined_rows`): one whose items follow one another is a loop over a slice. Where most rows have more
    /// than 4 items and fewer than 16, each index takes the time of its place (`Strided::iter_places`).
    ///
    /// # Errors
    ///
    /// Out of memory; never where the shape has no index.
    ///
    /// `|item| item + 1` at `a`: 9 8. ndarray's `map`, and `iter().map(f).collect()`.
    pub fn map_to_vec<U: Drop, F: FnMut(&T) -> U>(
        &self,
        alloc: Global,
        f: F,
    ) -> Result<Vec<U>, AllocError>
        requires { CallableOnAllAt gives F.FnMut (row_major_items self.now) f }
        ensures ran { IfOk result (λ made. CallsMake (λ p x y q. CalledAt F.FnMut p x y q) f
            (row_major_items self.now) (map Some made.items)) }
        ensures count { IfOk result (λ made. vec_len made ≡ size self.now.view.shape) }
        ensures mapped { IfOk result (λ made. (h : T → U) → ActsAsAt F.FnMut f h →
            map Some made.items ≡ map (option_map h) (row_major_items self.now)) }
        ensures memory { size self.now.view.shape ≡ 0 → IsOk result }
    {
        let made = Vec::with_capacity(alloc, self.len())?;
        let rows = self.joined_rows();
        if rows.len() > self.len() / LONG && rows.row_len() > FEW {
            return Ok(push_items(made, self.iter(), f));
        }
        Ok(push_rows(made, rows, f))
    }
}
