//! A function that is called at the items of two arrays in step, row by row.
ghost use Rattle.std.specs.Prelude.{◌≡◌, ◌↔◌, IfOk, IsOk, OnErr, Some};
ghost use Rattle.std.specs.Result.{result_err};
ghost use Rattle.ndarray_layout.specs.declared.ErrorKind.TheVariants.{IncompatibleShape};
ghost use Rattle.nd_access.specs.Zipped.{row_major_pairs};
ghost use Rattle.nd_loops.specs.FoldedPairs.{CallableInFoldOfPairs, FoldsPairs};

use crate::array_view::ArrayView;
use nd_access::LentRows;
use nd_loops::fold_pair_rows;
use ndarray_layout::{ErrorKind, Lengths, Order, ShapeError, from_kind};

impl<T, D: Lengths> ArrayView<'_, T, D> {
    /// The last result of a function that is called at each item and at that of the same index of another array of the same shape, in
    /// row-major order, with the result before, first with `init`.
    ///
    /// Takes no memory. Goes over the longest rows that the axes of both allow (`Strided::joined_rows_with`): two whose items
    /// follow one another are a loop over two slices; in others each index takes the time of its place in both.
    ///
    /// # Errors
    ///
    /// `IncompatibleShape` where the shapes differ; the function isn't called. (A shape that can be broadcast is an error too:
    /// `ArrayView::broadcast` comes first.)
    ///
    /// `a.fold_with(&b, 0, |sum, x, y| sum + x * y)` is 8·5 + 7·6 = 82 with 5 6 as `b`. ndarray's `dot` of numbers, and `fold` of its
    /// `Zip`.
    pub fn fold_with<U, B: Drop, F: FnMut(B, &T, &U) -> B>(
        &self,
        other: &ArrayView<'_, U, D>,
        init: B,
        f: F,
    ) -> Result<B, ShapeError>
        requires callable { self.now.view.shape ≡ other.now.view.shape →
            CallableInFoldOfPairs F.FnMut (row_major_pairs self.now other.now) f init }
        ensures fits { IsOk result ↔ (self.now.view.shape ≡ other.now.view.shape) }
        ensures fault { OnErr result (result_err result ≡ Some IncompatibleShape) }
        ensures ran { IfOk result
            (FoldsPairs F.FnMut (row_major_pairs self.now other.now) f init) }
    {
        if !self.dim().equal(other.dim()) {
            return Err(from_kind(ErrorKind::IncompatibleShape));
        }
        let (rows, others) = self
            .strided()
            .joined_rows_with(other.strided(), Order::RowMajor);
        let rows = LentRows::new(self.reader(), rows);
        let others = LentRows::new(other.reader(), others);
        Ok(fold_pair_rows(rows, others, init, f))
    }
}
