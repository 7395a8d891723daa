//! The right to all elements of a slice, given back as the slice.
ghost use Rattle.std.specs.Prelude.{◌≡◌, length, replicate, true};

use crate::cells::Cells;
use std::slice::from_raw_parts_mut;

impl<'a, T> Cells<'a, T> {
    /// The elements as a slice again, under the name that it had. The caller ensures that each has a mark, and that `len` is their count.
    ///
    /// All 3 of 7 8 9: that slice. The project's own.
    pub fn finish(self, len: usize) -> &'a mut [T]
        requires { (len ≡ length self.marks) × (self.marks ≡ replicate (length self.marks) true) }
        ensures all { (result.ghost_name ≡ self.entry.name) × (result.now ≡ self.entry.items) }
    {
        unsafe { from_raw_parts_mut(self.first, len) }
    }
}
