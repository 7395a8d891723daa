//! A function that is called at each place of an iterator in turn, row by row.
ghost use Rattle.std.specs.Iterator.{CallableInFold, FoldsItems};
ghost use Rattle.std.specs.List.{All};
ghost use Rattle.std.specs.Prelude.{◌<◌, ◌^◌, pos};
ghost use Rattle.nd_base.specs.Bounds.{IsInBounds};
ghost use Rattle.ndarray_layout.specs.Folded.{HasFolded, gives};
ghost use Rattle.ndarray_layout.specs.Rows.{row_places};

use crate::strided::places::place_along_axis;
use crate::strided::places_of_rows::PlacesOf;
use crate::strided::rows::Row;
use crate::strided::slower_axes::SlowerAxes;
use nd_base::unsigned;

/// Folds the places of a row, and hands back the function.
#[inline(always)]
fn fold_row<B, F: FnMut(B, usize) -> B>(row: Row, init: B, mut f: F) -> (B, F)
    requires in_bounds { All (IsInBounds (2 ^ 63)) (row_places row.start row.stride row.len) }
    requires few { row.len < 2 ^ 63 }
    requires callable { CallableInFold (gives pos) F.FnMut (row_places row.start row.stride row.len) f init }
    ensures { HasFolded pos F.FnMut (f, init) (row_places row.start row.stride row.len)
        (result.1, result.0) }
{
    let stride = unsigned(row.stride);
    let mut total = init;
    for coordinate in 0..row.len {
        total = f(total, place_along_axis(row.start, coordinate, stride));
    }
    (total, f)
}

impl<A: SlowerAxes> PlacesOf<A> {
    /// The last result of a function that is called at each place that is left, in order, with the result before, first with
    /// `init`.
    ///
    /// It is what `fold` of std's iterators returns. Takes no memory. Each row is a loop over its places.
    ///
    /// Of the places 3 4 5 0 1 2, after 3 of them: `fold_rest(0, |sum, place| sum + place)` is 3. The project's own.
    pub fn fold_rest<B, F: FnMut(B, usize) -> B>(self, init: B, f: F) -> B
        requires callable { CallableInFold (gives pos) F.FnMut self f init }
        ensures ran { FoldsItems (gives pos) F.FnMut self f init result }
    {
        let (mut places, mut total, mut f) = (self, init, f);
        while let Some(row) = places.next_row() {
            (total, f) = fold_row(row, total, f);
        }
        total
    }
}
