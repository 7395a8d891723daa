//! The rows of a view one after another, from both ends, where the iterator has the view.
ghost use Rattle.std.specs.Iterator.{YieldsFirst};
ghost use Rattle.std.specs.Iterator.Runs.{YieldsInOrder};
ghost use Rattle.std.specs.List.{All};
ghost use Rattle.std.specs.Prelude.{◌≡◌, ◌<◌, ◌≤◌};
ghost use Rattle.ndarray_layout.specs.Rows.{BeginsAsRow, rows_places, view_rows};
ghost use Rattle.ndarray_layout.specs.View.{IsView, view_places};

use crate::strided::Strided;
use crate::strided::rows::{fastest_axis, joined_axis};
use crate::strided::rows_of::RowsOf;
use crate::strided::slower_axes::KeptAxes;
use nd_base::{Lengths, Order, signed};

/// The rows of a view that are still to come, in an order, with the view, from both ends: what `into_rows` returns. A contract sees
/// the list of them.
pub type StridedRows<D> = RowsOf<KeptAxes<D>>;

impl<D: Lengths> Strided<D> {
    ghost use Rattle.std.specs.Prelude.{List};
    ghost use Rattle.ndarray_layout.specs.declared.strided.rows.Row.{Row};

    /// The rows of the view, in an order: `rows`, where the iterator has the view.
    ///
    /// Takes no memory. A row costs an addition, from either end; past the end of the second axis it costs a division and two
    /// products for each axis but its own. Axes that lie evenly together count as one.
    ///
    /// `[2,3]` with strides `[-3,1]` from 3: in row-major order 3 places from 3 and 3 places from 0, by the stride 1; in
    /// column-major order 2 places from 3, from 4 and from 5, by -3. The project's own.
    pub fn into_rows(self, order: Order) -> StridedRows<D>
        ensures items { result ≡ view_rows order self }
        ensures in_order { YieldsInOrder (YieldsFirst (λ (left : List Row). left)) (λ left. left) }
    {
        let axis = fastest_axis(order, self.dim.slice(), self.strides.slice());
        let (slower, len, stride) = (axis.lens.len(), axis.len, signed(axis.stride));
        RowsOf::along(KeptAxes::new(order, self, slower), len, stride)
    }

    /// The places of the view as the longest rows that its axes allow: `joined_rows`, where the iterator has the view.
    ///
    /// Takes no memory. A row costs an addition, from either end; past the end of the next axis that isn't joined, a division and
    /// two products for each of those.
    ///
    /// `[2,2,3]` with strides `[20,3,1]` from 0, two rows of two pixels of 3 bytes: 6 places from 0 and 6 from 20, by the
    /// stride 1. The project's own.
    pub fn into_joined_rows(self, order: Order) -> StridedRows<D>
        ensures places { rows_places result ≡ view_places order self }
        ensures some { All (λ row. 0 < row.len) result }
        ensures longest { (other : Row) → BeginsAsRow (view_places order self) other
            → All (λ row. other.len ≤ row.len) result }
        ensures in_order { YieldsInOrder (YieldsFirst (λ (left : List Row). left)) (λ left. left) }
        ensures is_view { IsView self }
    {
        let axis = joined_axis(order, self.dim.slice(), self.strides.slice());
        let (slower, len, stride) = (axis.lens.len(), axis.len, signed(axis.stride));
        RowsOf::along(KeptAxes::new(order, self, slower), len, stride)
    }
}
