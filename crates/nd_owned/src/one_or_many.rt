//! A list of which a single item lies in the value itself.
ghost use Rattle.std.specs.Mem.{FitsInMemory};
ghost use Rattle.std.specs.Prelude.{◌≡◌, ◌↔◌, ◌≤◌, IfOk, IsOk, IsTrue, length};
ghost use Rattle.nd_owned.specs.private.OneOrMany.{items_of};

use std::alloc::{AllocError, Global};
use std::slice;

/// A list: a single item lies in the value itself, and takes no memory.
#[derive(Drop)]
pub(crate) enum OneOrMany<T> {
    One(T),
    Many(Vec<T>),
}

impl<T> OneOrMany<T> {
    /// The items, in order.
    #[inline(always)]
    pub(crate) fn as_slice(&self) -> &[T]
        requires { FitsInMemory T.row }
        ensures { result.now ≡ items_of self.now }
    {
        match self {
            OneOrMany::One(item) => slice::from_ref(item),
            OneOrMany::Many(items) => items.as_slice(),
        }
    }

    /// Whether there is no item.
    #[inline(always)]
    pub(crate) fn is_empty(&self) -> bool
        ensures { IsTrue result ↔ (length (items_of self.now) ≡ 0) }
    {
        match self {
            OneOrMany::One(_) => false,
            OneOrMany::Many(items) => items.is_empty(),
        }
    }
}

impl<T: Copy> OneOrMany<T> {
    /// The items of a slice. Errors: out of memory, never where there is at most one.
    pub(crate) fn copy_of(alloc: Global, items: &[T]) -> Result<Self, AllocError>
        ensures items { IfOk result (λ list. items_of list ≡ items.now) }
        ensures memory { length items.now ≤ 1 → IsOk result }
    {
        match items {
            [] => Ok(OneOrMany::Many(Vec::new(alloc))),
            [item] => Ok(OneOrMany::One(*item)),
            _ => Ok(OneOrMany::Many(Vec::from_slice(alloc, items)?)),
        }
    }
}
