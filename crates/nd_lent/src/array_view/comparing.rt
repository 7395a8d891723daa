//! Whether two arrays have the same items.
ghost use Rattle.std.specs.Cmp.Lexicographic.{pointwise};
ghost use Rattle.std.specs.Prelude.{◌≡◌, map};
ghost use Rattle.ndarray_layout.specs.declared.Order.TheVariants.{RowMajor};
ghost use Rattle.ndarray_layout.specs.View.{view_places};
ghost use Rattle.nd_access.specs.Items.{item_at_place};
ghost use Rattle.nd_loops.specs.Equal.{are_equal, both_equal};

use crate::array_view::ArrayView;
use nd_access::LentRows;
use nd_loops::{EqualTo, have_equal_rows, nearest_rows_with, nearest_views};
use ndarray_layout::Lengths;

impl<T, D: Lengths> ArrayView<'_, T, D> {
    /// Whether each item is equal to that at the same index of an array of the same shape, compared in the order in which
    /// those of this array lie.
    fn has_equal_items<U>(&self, other: &ArrayView<'_, U, D>) -> bool
    where
        T: EqualTo<U>,
        requires { self.now.view.shape ≡ other.now.view.shape }
        ensures { result ≡ pointwise (both_equal T.equal_to)
            (map (item_at_place self.now.items) (view_places RowMajor self.now.view))
            (map (item_at_place other.now.items) (view_places RowMajor other.now.view)) }
    {
        let nearest = nearest_views(self.strided(), other.strided());
        let (rows, others) = nearest_rows_with(self.strided(), other.strided(), &nearest);
        have_equal_rows(
            LentRows::new(self.reader(), rows),
            LentRows::new(other.reader(), others),
        )
    }

    /// Whether another array has the same shape, and an equal item at each index. Spare items don't count.
    ///
    /// Time in proportion to the indices up to one where the items differ; none where the shapes do. Takes no memory. With at most 6
    /// axes it goes over the items in the order in which they lie here (`Strided::nearest_with`), but in row-major order where an
    /// axis has the stride 0, and so with more axes: rows whose items follow one another in both are compared as slices.
    ///
    /// `[2]` with the stride `[-1]` over 7 8 9, and `[2]` over 8 7: `true`. ndarray's `eq`.
    pub fn eq<U>(&self, other: &ArrayView<'_, U, D>) -> bool
    where
        T: EqualTo<U>,
        ensures { result ≡ are_equal T.equal_to self.now other.now }
    {
        self.dim().equal(other.dim()) && self.has_equal_items(other)
    }
}
