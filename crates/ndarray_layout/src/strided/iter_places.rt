//! The places of a view one after another, without a list of them.
ghost use Rattle.std.specs.Iterator.{YieldsFirstBy};
ghost use Rattle.std.specs.Iterator.Runs.{EveryRun, ItemsMapTo};
ghost use Rattle.std.specs.Prelude.{◌≡◌, pos};
ghost use Rattle.ndarray_layout.specs.View.{IsView, view_places};

use crate::strided::Strided;
use crate::strided::places_of_rows::PlacesOf;
use crate::strided::rows::Rows;
use crate::strided::slower_axes::LentAxes;
use nd_base::{Lengths, Order};

/// The places of a view that are still to come, in an order, from both ends: what `iter_places` returns. A contract sees the list
/// of them.
pub type Places<'a> = PlacesOf<LentAxes<'a>>;

impl<D: Lengths> Strided<D> {
    /// An iterator over the places of all indices, in row-major order (the last axis moves fastest) or in
    /// column-major order (the first one does), which knows how many are left and gives the last ones as well.
    ///
    /// Takes no memory. A place costs an addition, from either end, and each row what it costs in `joined_rows`. Places
    /// that follow one another are a loop over a range.
    ///
    /// `[2,3]` with strides `[-3,1]` from 3: 3 4 5 0 1 2 in row-major order, 3 0 4 1 5 2 in column-major
    /// order. The project's own, in place of a loop of ndarray's `next_for` and `stride_offset`.
    pub fn iter_places(&self, order: Order) -> Places<'_>
        ensures items { result ≡ view_places order self.now }
        ensures in_order { EveryRun (YieldsFirstBy pos (λ left. left))
            (λ turns. ItemsMapTo turns pos turns.from) }
        ensures is_view { IsView self.now }
    {
        let rows = Rows::of_places(order, self.start, self.dim.slice(), self.strides.slice());
        PlacesOf::new(rows)
    }
}
