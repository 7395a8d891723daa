//! The first item at which a function returns what is looked for.
ghost use Rattle.std.specs.Iterator.{CallableWhile};
ghost use Rattle.std.specs.Prelude.{map, not};
ghost use Rattle.ndarray_layout.specs.declared.Order.TheVariants.{RowMajor};
ghost use Rattle.ndarray_layout.specs.View.{view_places};
ghost use Rattle.nd_access.specs.Items.{item_at_place};
ghost use Rattle.nd_access.specs.Lending.{lends};
ghost use Rattle.nd_loops.specs.Searched.{HasSearched};

use crate::array_view::ArrayView;
use nd_loops::search_row;
use ndarray_layout::Lengths;

impl<T, D: Lengths> ArrayView<'_, T, D> {
    /// Calls a function at one item after another, in row-major order, up to the first at which it returns what is looked for:
    /// whether there is one.
    #[inline(always)]
    pub(super) fn search<F: FnMut(&T) -> bool>(&self, wanted: bool, f: F) -> bool
        requires { CallableWhile lends F.FnMut (not wanted)
            (map (item_at_place self.now.items) (view_places RowMajor self.now.view)) f }
        ensures { (last : F) × HasSearched F.FnMut wanted f
            (map (item_at_place self.now.items) (view_places RowMajor self.now.view)) result last }
    {
        let mut f = f;
        for row in self.joined_rows() {
            let (found, searched) = search_row(&row, wanted, f);
            if found {
                return true;
            }
            f = searched;
        }
        false
    }
}
