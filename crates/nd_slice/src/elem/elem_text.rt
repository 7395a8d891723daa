//! How the elements of a slice argument print.
ghost use Rattle.std.specs.Prelude.{Some};
ghost use Rattle.nd_slice.specs.ElementText.{elem_text};

use super::SliceInfoElem;
use crate::slice::Slice;
use std::fmt;

/// Prints a range as its `Slice`, an index as its number, and a new axis as `NewAxis`.
impl fmt::Display for SliceInfoElem {
    ghost output = { λ elem. Some (elem_text elem) };

    fn fmt<W: fmt::Write>(&self, f: &mut fmt::Formatter<W>) -> fmt::Result {
        match *self {
            SliceInfoElem::Slice { start, end, step } => {
                fmt::Display::fmt(&Slice { start, end, step }, f)
            }
            SliceInfoElem::Index(index) => write!(f, "{index}"),
            SliceInfoElem::NewAxis => f.write_str("NewAxis"),
        }
    }
}
