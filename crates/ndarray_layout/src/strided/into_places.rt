//! The places of a view one after another, where the iterator has the view.
ghost use Rattle.std.specs.Iterator.{YieldsFirstBy};
ghost use Rattle.std.specs.Iterator.Runs.{EveryRun, ItemsMapTo};
ghost use Rattle.std.specs.Prelude.{◌≡◌, pos};
ghost use Rattle.ndarray_layout.specs.View.{view_places};

use crate::strided::Strided;
use crate::strided::places_of_rows::PlacesOf;
use crate::strided::slower_axes::KeptAxes;
use nd_base::{Lengths, Order};

/// The places of a view that are still to come, in an order, with the view, from both ends: what `into_places` returns. A
/// contract sees the list of them.
pub type IntoPlaces<D> = PlacesOf<KeptAxes<D>>;

impl<D: Lengths> Strided<D> {
    /// The places of all indices, in an order: `iter_places`, where the iterator has the view.
    ///
    /// Takes no memory. A place costs an addition, from either end, and each row what it costs in `into_joined_rows`.
    ///
    /// `[2,3]` with strides `[-3,1]` from 3: 3 4 5 0 1 2 in row-major order, 3 0 4 1 5 2 in column-major order. The project's own.
    pub fn into_places(self, order: Order) -> IntoPlaces<D>
        ensures items { result ≡ view_places order self }
        ensures in_order { EveryRun (YieldsFirstBy pos (λ left. left))
            (λ turns. ItemsMapTo turns pos turns.from) }
    {
        PlacesOf::new(self.into_joined_rows(order))
    }
}
