//! The rows of a view one after another, without a list of them.
ghost use Rattle.std.specs.Iterator.{YieldsFirst};
ghost use Rattle.std.specs.Iterator.Runs.{YieldsInOrder};
ghost use Rattle.std.specs.List.{All};
ghost use Rattle.std.specs.Prelude.{◌≡◌, ◌<◌, ◌≤◌, [], length, MatchOption};
ghost use Rattle.nd_base.specs.Signed.{all_signed};
ghost use Rattle.nd_base.specs.ValidLayout.{IsValidLayout};
ghost use Rattle.ndarray_layout.specs.JoinedInAll.{slower_than};
ghost use Rattle.ndarray_layout.specs.Rows.{BeginsAsRow, rows_places, view_rows};
ghost use Rattle.ndarray_layout.specs.View.{IsView, view_of, view_places};
ghost use Rattle.ndarray_layout.specs.RowsLeft.{axis_view};
ghost use Rattle.ndarray_layout.specs.private.Fastest.{EndsIn, HasRows, HasPlaces, IsOneAxis, NoLongerRow};

use crate::strided::Strided;
use crate::strided::joined_layouts::{InLists, joined_in_each};
use crate::strided::rows_of::RowsOf;
use crate::strided::slower_axes::LentAxes;
use nd_base::{Lengths, Order, signed};

/// A row of a view: places that lie evenly. Its place `i` is `start + i * stride`, for each `i` below `len`.
#[derive(Clone, Copy, Debug)]
pub struct Row {
    /// The first place.
    pub start: usize,
    /// From one place to the next, in elements: an `isize`, as the strides of ndarray's `strides` and `axes` are.
    pub stride: isize,
    /// How many places it has.
    pub len: usize,
}

/// An axis of a layout, and the axes that move slower.
#[derive(Drop)]
pub(crate) struct Fastest<'a> {
    pub(crate) len: usize,
    pub(crate) stride: usize,
    pub(crate) lens: &'a [usize],
    pub(crate) strides: &'a [usize],
}

/// The axis that moves fastest; `None` without axes. The caller ensures that each axis has a stride.
pub(super) fn split_fastest<'a>(
    order: Order,
    lens: &'a [usize],
    strides: &'a [usize],
) -> Option<Fastest<'a>>
    requires { length lens.now ≡ length strides.now }
    ensures { MatchOption result (lens.now ≡ []) (λ axis.
        EndsIn order lens.now axis.lens.now axis.len
        × EndsIn order strides.now axis.strides.now axis.stride) }
{
    let ((len, lens), (stride, strides)) = match order {
        Order::RowMajor => (lens.split_last()?, strides.split_last()?),
        Order::ColumnMajor => (lens.split_first()?, strides.split_first()?),
    };
    Some(Fastest {
        len: *len,
        stride: *stride,
        lens,
        strides,
    })
}

/// The axis that moves fastest, or one of length 1 where there is no axis: the rows along it are those of the view.
pub(super) fn fastest_axis<'a>(order: Order, lens: &'a [usize], strides: &'a [usize]) -> Fastest<'a>
    requires { length lens.now ≡ length strides.now }
    ensures { HasRows order lens.now strides.now result }
{
    match split_fastest(order, lens, strides) {
        Some(axis) => axis,
        None => Fastest {
            len: 1,
            stride: 0,
            lens,
            strides,
        },
    }
}

/// The items of the axes that move slower than the `count` fastest ones.
// (by `get`: without a test that could panic, a caller of the length and the stride alone has none of this)
#[inline(always)]
fn without_fastest(order: Order, items: &[usize], count: usize) -> &[usize]
    requires { count ≤ length items.now }
    ensures { result.now ≡ slower_than order count items.now }
{
    match order {
        Order::RowMajor => items.get(..items.len() - count).unwrap_or(&[]),
        Order::ColumnMajor => items.get(count..).unwrap_or(&[]),
    }
}

/// The axes of a layout that move fastest as one, of which `joined` has the number, and the length as one; and those that move slower.
pub(super) fn as_one_axis<'a>(
    order: Order,
    lens: &'a [usize],
    strides: &'a [usize],
    joined: (usize, usize),
    stride: usize,
) -> Fastest<'a>
    requires few { joined.0 ≤ length lens.now }
    requires counts { length lens.now ≡ length strides.now }
    ensures { IsOneAxis order lens.now strides.now joined.0 joined.1 stride result }
{
    Fastest {
        len: joined.1,
        stride,
        lens: without_fastest(order, lens, joined.0),
        strides: without_fastest(order, strides, joined.0),
    }
}

/// The axis that moves fastest, joined with each slower one that goes on where it ends: the places of the layout are those
/// along it, from each place of the axes that are left. An axis of length 1 joins any.
#[inline(always)]
pub(super) fn joined_axis<'a>(order: Order, lens: &'a [usize], strides: &'a [usize]) -> Fastest<'a>
    requires { IsValidLayout lens.now (all_signed strides.now) }
    ensures places { HasPlaces order lens.now strides.now result }
    ensures longest { NoLongerRow order lens.now strides.now result.len }
{
    let mut stride = [0];
    let joined = joined_in_each(order, lens, &InLists { lists: &[strides] }, &mut stride);
    as_one_axis(order, lens, strides, joined, stride[0])
}

/// The rows of a view that are still to come, in an order, from both ends: what `rows` returns. A contract sees the list of them.
pub type Rows<'a> = RowsOf<LentAxes<'a>>;

impl<'a> Rows<'a> {
    ghost use Rattle.ndarray_layout.specs.declared.strided.rows.Row.{Row};

    /// The rows along the fastest axis of a view, from each place of its other axes.
    pub(super) fn along_axis(order: Order, start: usize, axis: Fastest<'a>) -> Self
        requires { IsView (axis_view order start axis) }
        ensures { result ≡ view_rows order (axis_view order start axis.entry) }
    {
        let axes = LentAxes {
            order,
            start,
            lens: axis.lens,
            strides: axis.strides,
        };
        RowsOf::along(axes, axis.len, signed(axis.stride))
    }

    /// The rows of a view.
    fn of_view(order: Order, start: usize, lens: &'a [usize], strides: &'a [usize]) -> Self
        requires { IsView (view_of start lens.now strides.now) }
        ensures { result ≡ view_rows order (view_of start lens.now strides.now) }
    {
        Rows::along_axis(order, start, fastest_axis(order, lens, strides))
    }

    /// The places of a view as the longest rows that its axes allow.
    pub(super) fn of_places(
        order: Order,
        start: usize,
        lens: &'a [usize],
        strides: &'a [usize],
    ) -> Self
        requires { IsView (view_of start lens.now strides.now) }
        ensures places { rows_places result ≡ view_places order (view_of start lens.now strides.now) }
        ensures some { All (λ row. 0 < row.len) result }
        ensures longest { (other : Row) → BeginsAsRow (view_places order (view_of start lens.now strides.now)) other
            → All (λ row. other.len ≤ row.len) result }
    {
        Rows::along_axis(order, start, joined_axis(order, lens, strides))
    }
}

impl<D: Lengths> Strided<D> {
    ghost use Rattle.std.specs.Prelude.{List};
    ghost use Rattle.ndarray_layout.specs.declared.strided.rows.Row.{Row};

    /// An iterator over the rows of the view, which knows how many are left: for each index of the other axes the
    /// places along the axis that moves fastest, the last one in row-major order, the first one in column-major order.
    ///
    /// The rows come in that order, so their places one after another are those of `iter_places`. A view without axes
    /// has one row, of one place; a view without indices has none.
    ///
    /// Takes no memory. A row costs an addition, from either end; past the end of the second axis it costs a division and two
    /// products for each axis but its own. Axes that lie evenly together count as one.
    ///
    /// `[2,3]` with strides `[-3,1]` from 3: in row-major order 3 places from 3 and 3 places from 0, by the stride 1;
    /// in column-major order 2 places from 3, from 4 and from 5, by -3. ndarray's `rows`, of places.
    pub fn rows(&self, order: Order) -> Rows<'_>
        ensures items { result ≡ view_rows order self.now }
        ensures in_order { YieldsInOrder (YieldsFirst (λ (left : List Row). left)) (λ left. left) }
        ensures is_view { IsView self.now }
    {
        Rows::of_view(order, self.start, self.dim.slice(), self.strides.slice())
    }

    /// An iterator over the places of the view as the longest rows that its axes allow, which knows how many are left.
    ///
    /// Axes are joined where one goes on where the next faster one ends: where its stride is that one's length times that
    /// one's stride. Axes of length 1 are left out. The places of the rows one after another are those of `iter_places`; each
    /// row has as many, and no longer row begins the view. A view that is contiguous in the order is one row; a view without
    /// indices has none.
    ///
    /// Takes no memory. A row costs an addition, from either end; past the end of the next axis that isn't joined, a division and
    /// two products for each of those.
    ///
    /// `[2,2,3]` with strides `[20,3,1]` from 0, two rows of two pixels of 3 bytes: 6 places from 0 and 6 from 20, by the
    /// stride 1. The project's own.
    pub fn joined_rows(&self, order: Order) -> Rows<'_>
        ensures places { rows_places result ≡ view_places order self.now }
        ensures some { All (λ row. 0 < row.len) result }
        ensures longest { (other : Row) → BeginsAsRow (view_places order self.now) other
            → All (λ row. other.len ≤ row.len) result }
        ensures in_order { YieldsInOrder (YieldsFirst (λ (left : List Row). left)) (λ left. left) }
        ensures is_view { IsView self.now }
    {
        Rows::of_places(order, self.start, self.dim.slice(), self.strides.slice())
    }
}
