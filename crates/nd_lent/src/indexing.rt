//! The item of an index that the caller shows to be one of the shape.
ghost use Rattle.std.specs.Prelude.{◌≡◌, Some, IsTrue};
ghost use Rattle.ndarray_layout.specs.Indices.{is_index};
ghost use Rattle.nd_lent.specs.Lent.{array_of};
ghost use Rattle.nd_access.specs.Items.{item_at};

use crate::array_view::ArrayView;
use crate::array_view_mut::ArrayViewMut;
use ndarray_layout::{Lengths, NdIndex};
use std::ops::Index;

/// The item of an index, which the caller ensures to be one of the shape; `get` is for any other.
///
/// `a[0]` is 8, and `a[1]` is 7. ndarray's `index`, which panics past the shape.
impl<T, D: Lengths, I: NdIndex<D> + Drop> Index<I> for ArrayView<'_, T, D> {
    type Output = T;

    ghost can_index = { λ array index. IsTrue (is_index array.view.shape (I.index_list index)) };

    ghost index_gives = { λ array index item.
        item_at array (I.index_list index) ≡ Some item };

    #[inline]
    fn index(&self, index: I) -> &T {
        self.get(&index).unwrap()
    }
}

/// The item of an index, which the caller ensures to be one of the shape; `get` is for any other.
///
/// `a[0]` is 8, and `a[1]` is 7. ndarray's `index`, which panics past the shape.
impl<T: Drop, D: Lengths, I: NdIndex<D> + Drop> Index<I> for ArrayViewMut<'_, T, D> {
    type Output = T;

    ghost can_index = { λ array index. IsTrue (is_index (array_of array).view.shape (I.index_list index)) };

    ghost index_gives = { λ array index item.
        item_at (array_of array) (I.index_list index) ≡ Some item };

    #[inline]
    fn index(&self, index: I) -> &T {
        self.get(&index).unwrap()
    }
}
