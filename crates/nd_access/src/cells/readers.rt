//! Elements of a slice that are lent to be read, all of them or once more.
ghost use Rattle.std.specs.Prelude.{◌≡◌, length, replicate, true};

use crate::cells::Reader;
use std::marker::PhantomData;

impl<'s, T> Reader<'s, T> {
    /// All elements of a slice. Takes no memory.
    ///
    /// Of 7 8 9, place 1 is 8. The project's own.
    #[inline]
    pub fn of_slice(items: &'s [T]) -> Self
        ensures all { (result.items ≡ items.now) × (result.marks ≡ replicate (length items.now) true) }
    {
        Reader {
            first: items.as_ptr(),
            mark: PhantomData,
        }
    }

    /// The same elements, for a shorter time. Takes no memory.
    ///
    /// Of 7 8 9, place 1 of both is 8. The project's own.
    #[inline]
    pub fn lent(&self) -> Reader<'_, T>
        ensures same { result ≡ self.now }
    {
        Reader {
            first: self.first,
            mark: PhantomData,
        }
    }

    /// The same elements once more, for as long. Takes no memory.
    ///
    /// Of 7 8 9, place 1 of both is 8. The project's own.
    #[inline]
    pub fn copied(&self) -> Self
        ensures same { result ≡ self.now }
    {
        Reader {
            first: self.first,
            mark: PhantomData,
        }
    }
}
