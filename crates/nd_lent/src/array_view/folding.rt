//! A function that is called at each item of an array in turn, row by row.
ghost use Rattle.std.specs.Iterator.{CallableInFold, CallableInForEach, CallsOnEach, FoldsItems};
ghost use Rattle.std.specs.Prelude.{◌<◌, map};
ghost use Rattle.ndarray_layout.specs.declared.Order.TheVariants.{RowMajor};
ghost use Rattle.ndarray_layout.specs.View.{view_places};
ghost use Rattle.nd_loops.specs.AnyOrder.{InAnyOrder, InSomeOrder};
ghost use Rattle.nd_access.specs.Lending.{lends};
ghost use Rattle.nd_access.specs.Items.{item_at_place};

use crate::array_view::ArrayView;
use nd_loops::{fold_rows, nearest_view};
use ndarray_layout::Lengths;

impl<T, D: Lengths> ArrayView<'_, T, D> {
    /// The last result of a function that is called at each item in turn, in row-major order, with the result before, first
    /// with `init`.
    ///
    /// It is what `iter().fold(init, f)` returns. Goes over the longest rows that the axes allow (`Strided::joined_rows`): one
    /// whose items follow one another is a loop over a slice.
    ///
    /// `a.fold(0, |sum, item| sum + item)` is 15. ndarray's `fold`.
    pub fn fold<B, F: FnMut(B, &T) -> B>(&self, init: B, mut f: F) -> B
        requires callable { CallableInFold lends F.FnMut
            (map (item_at_place self.now.items) (view_places RowMajor self.now.view)) f init }
        ensures ran { FoldsItems lends F.FnMut
            (map (item_at_place self.now.items) (view_places RowMajor self.now.view))
            f init result }
    {
        let rows = self.joined_rows();
        fold_rows(
            rows,
            init,
            move |total, item|
                requires { F.pre f total item }
                ensures { F.step f.entry total item.entry result f.exit }
            { f(total, item) },
        )
    }

    /// The last result of a function that is called at each item, each index once, with the result before, first with `init`, in
    /// the order in which the items lie: that in which ndarray goes.
    ///
    /// It is `fold` for a function that needs no order. Takes no memory. With at most 6 axes it goes over the longest rows that the
    /// axes allow once they are turned and sorted (`Strided::nearest`), so that one that is transposed, mirrored or column-major is
    /// one slice as well, where its items lie side by side. Where an axis has the stride 0, or there are more axes, it is `fold`.
    ///
    /// `a.fold_nearest(0, |sum, item| sum + item)` is 15, from 7 to 8. ndarray's `fold`.
    pub fn fold_nearest<B, F: FnMut(B, &T) -> B>(&self, init: B, mut f: F) -> B
        requires callable { InAnyOrder (λ items. CallableInFold lends F.FnMut items f init)
            (map (item_at_place self.now.items) (view_places RowMajor self.now.view)) }
        ensures ran { InSomeOrder (λ items. FoldsItems lends F.FnMut items f init result)
            (map (item_at_place self.now.items) (view_places RowMajor self.now.view)) }
    {
        let nearest = nearest_view(self.strided());
        let rows = self.rows_in(&nearest);
        fold_rows(
            rows,
            init,
            move |total, item|
                requires { F.pre f total item }
                ensures { F.step f.entry total item.entry result f.exit }
            { f(total, item) },
        )
    }

    /// Calls a function at each item in turn, in row-major order.
    ///
    /// It is what `iter().for_each(f)` does, in the time of `fold`.
    ///
    /// Of `a`: at 8, then at 7. ndarray's `for_each`.
    pub fn for_each<F: FnMut(&T)>(&self, mut f: F)
        requires callable { CallableInForEach lends F.FnMut
            (map (item_at_place self.now.items) (view_places RowMajor self.now.view)) f }
        ensures ran { CallsOnEach lends F.FnMut
            (map (item_at_place self.now.items) (view_places RowMajor self.now.view)) f }
    {
        let each = move |(), item: &T|
            requires { F.pre f item }
            ensures { F.step f.entry item.entry tt f.exit }
        {
            f(item);
        };
        self.fold((), each);
    }

    /// Calls a function at each item, each index once, in the order in which they lie: that in which ndarray goes.
    ///
    /// It is `for_each` for a function that needs no order, in the time of `fold_nearest`.
    ///
    /// Of `a`: at 7, then at 8. ndarray's `for_each`.
    pub fn for_each_nearest<F: FnMut(&T)>(&self, mut f: F)
        requires callable { InAnyOrder (λ items. CallableInForEach lends F.FnMut items f)
            (map (item_at_place self.now.items) (view_places RowMajor self.now.view)) }
        ensures ran { InSomeOrder (λ items. CallsOnEach lends F.FnMut items f)
            (map (item_at_place self.now.items) (view_places RowMajor self.now.view)) }
    {
        let each = move |(), item: &T|
            requires { F.pre f item }
            ensures { F.step f.entry item.entry tt f.exit }
        {
            f(item);
        };
        self.fold_nearest((), each);
    }
}
