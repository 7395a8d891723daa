//! Slices that lie as the tiles of a picture do, row of tiles after row of tiles.
ghost use Rattle.std.specs.Prelude.{◌≡◌, None, IsTrue, map};
ghost use Rattle.std.specs.List.{AllPairs};
ghost use Rattle.nd_slice.specs.IntersectingPair.{AreApart, slices_fault};

use crate::elems::SliceElems;
use crate::fit::Fit;
use crate::ranges_apart::range_on;
use crate::slices_in_order::{Direction, elems_at};

/// Whether each slice begins past all that are read before it: on the first axis past all of them, or else on the second one
/// past those of its row, and on the first one past the rows before. Then no two share an index, and one pass has shown it.
pub(crate) fn lie_in_rows<S: SliceElems, R: Direction>(
    shape: &[usize],
    slices: &[S],
    fit: Fit,
) -> bool
    requires fit { slices_fault fit shape.now (map S.list slices.now) ≡ None }
    ensures { IsTrue result → AllPairs (AreApart fit shape.now) (map S.list slices.now) }
{
    // Where the rows before end on the first axis, where all slices so far do, and where those of the row end on the second.
    let (mut above, mut below, mut left) = (0, 0, 0);
    for turn in 0..slices.len() {
        let slice = elems_at::<S, R>(slices, turn);
        let Some((top, bottom)) = range_on(shape, 0, slice, fit) else {
            return false;
        };
        let Some((start, end)) = range_on(shape, 1, slice, fit) else {
            return false;
        };
        if below <= top {
            above = below;
            left = end;
        } else if above <= top && left <= start {
            left = left.max(end);
        } else {
            return false;
        }
        below = below.max(bottom);
    }
    true
}
