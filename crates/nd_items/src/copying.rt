//! New lists of the items of an array.
ghost use Rattle.std.specs.Prelude.{◌≡◌, ◌+◌, ◌++◌, ◌≤◌, [], IfOk, IsOk, Some, map, vec_capacity, vec_len};
ghost use Rattle.nd_access.specs.LentRow.{row_items};

use crate::iterating::Iter;
use nd_access::{LentRow, RowByRow};
use std::alloc::{AllocError, Global};

/// Appends copies of the items of a row to a list with room for them, item by item.
#[inline(never)]
fn copy_apart<T: Copy>(list: Vec<T>, row: &LentRow<'_, T>) -> Vec<T>
    requires room { vec_len list + row.now.row.len ≤ vec_capacity list }
    ensures items { map Some result.items ≡ map Some list.items ++ row_items row.now }
    ensures len { vec_len result ≡ vec_len list + row.now.row.len }
    ensures capacity { vec_capacity result ≡ vec_capacity list }
{
    let mut made = list;
    // (the room is enough: so rustc sees that no item needs a check of it)
    let end = made.capacity().min(made.len() + row.len());
    let mut coordinate = 0;
    while made.len() < end {
        made.push_reserved(*row.item(coordinate));
        coordinate += 1;
    }
    made
}

impl<T: Copy> Iter<'_, T> {
    /// Copies of the items that are left, in their order, as a list. It is allocated first, at once, and filled row by row.
    ///
    /// Errors: out of memory; never where none is left.
    #[doc(hidden)]
    pub fn into_list(self, alloc: Global) -> Result<Vec<T>, AllocError>
        ensures items { IfOk result (λ list. map Some list.items ≡ self.entry) }
        ensures memory { self.entry ≡ [] → IsOk result }
    {
        let mut items = self;
        let mut list = Vec::with_capacity(alloc, items.len())?;
        while let Some(row) = items.next_row() {
            match row.as_slice() {
                Some(slice) => list.extend_from_slice(slice)?,
                None => list = copy_apart(list, &row),
            }
        }
        Ok(list)
    }
}
