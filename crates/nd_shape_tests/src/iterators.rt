//! Iterators over all indices of a shape, in either order.
//!
//! A row says how many indices a shape has, and the first ones: all, where there are no more words than that.
ghost use Rattle.std.specs.Prelude.{◌<◌, ◌^◌, IfOk};
ghost use Rattle.nd_base.specs.Dim.{lengths};
ghost use Rattle.nd_base.specs.Size.{size};

use nd_dim::{Dimension, IntoDimension, Ix0, Ix1, Ix2, Ix3, IxDyn, Lengths, Order, new_ixdyn};
use nd_shape::{IndexCursor, IndexCursorF, all_indices, indices_iter_f};
use std::alloc::{AllocError, Global};
use test_tables::{Lists, Words, made};

/// What is asked of an iteration in an order.
#[derive(Clone, Copy)]
pub(crate) enum Iteration {
    /// The items of an iterator.
    All(Order),
    /// The indices that a cursor lends.
    Lent(Order),
}

/// Whether a row says this of the iteration over a shape, at the type that fixes its count of axes, or of its cursor.
pub(crate) fn is_iterated(
    alloc: Global,
    iteration: Iteration,
    lists: &Lists,
    answer: &str,
) -> Option<bool> {
    let lens = lists.first.as_slice();
    let order = match iteration {
        Iteration::All(order) => order,
        Iteration::Lent(order) => {
            return Some(is_lent(alloc, order, new_ixdyn(alloc, lens).ok()?, answer));
        }
    };
    match lens.len() {
        0 => is_iterated_at::<Ix0>(alloc, order, lens, answer),
        1 => is_iterated_at::<Ix1>(alloc, order, lens, answer),
        2 => is_iterated_at::<Ix2>(alloc, order, lens, answer),
        3 => is_iterated_at::<Ix3>(alloc, order, lens, answer),
        _ => None,
    }
}

/// Whether a row says this of the iteration over a shape at a type.
fn is_iterated_at<D>(alloc: Global, order: Order, lens: &[usize], answer: &str) -> Option<bool>
where
    D: Dimension + Copy,
    D::Pattern: IntoDimension<Dim = D>,
{
    let dim = made::<D>(alloc, lens)?;
    if dim.size_checked().is_none() {
        return None;
    }
    Some(match order {
        Order::RowMajor => are_by_rows(alloc, dim.into_pattern(), answer),
        Order::ColumnMajor => are_by_columns(alloc, dim.into_pattern(), answer),
    })
}

/// Whether a row says this of the indices of a shape by rows.
fn are_by_rows<T: IntoDimension>(alloc: Global, shape: T, answer: &str) -> bool
where
    T::Dim: Dimension + Copy,
    requires { size (T.lens shape) < 2 ^ 64 }
{
    match all_indices(alloc, shape) {
        Ok(indices) => yields(alloc, indices.into_iter(), answer),
        Err(_) => false,
    }
}

/// Whether a row says this of the indices of a shape by columns.
fn are_by_columns<T: IntoDimension>(alloc: Global, shape: T, answer: &str) -> bool
where
    T::Dim: Dimension + Copy,
    requires { size (T.lens shape) < 2 ^ 64 }
{
    match indices_iter_f(alloc, shape) {
        Ok(indices) => yields(alloc, indices, answer),
        Err(_) => false,
    }
}

// ---- what iterators give

/// How many indices an answer says, and the first ones.
fn counted(answer: &str) -> (Option<usize>, &str) {
    let (count, indices) = answer.split_once(" ").unwrap_or((answer, ""));
    (Words::of(count).length(), indices)
}

/// Whether an item is this index.
fn is_item<T: IntoDimension>(alloc: Global, item: Option<T>, index: &str) -> bool {
    match item {
        Some(item) => match item.into_dimension(alloc) {
            Ok(coordinates) => Words::of(index).is_list(coordinates.slice()),
            Err(_) => false,
        },
        None => false,
    }
}

/// Whether there is no item.
fn is_end<T: IntoDimension>(alloc: Global, item: Option<T>) -> bool {
    match item {
        Some(item) => {
            let _let_go = item.into_dimension(alloc);
            false
        }
        None => true,
    }
}

/// Whether an iterator has so many items and the first ones are these, while its length falls by ones; and none follow
/// where these are all.
fn yields<T: IntoDimension, W: ExactSizeIterator<Item = T> + Drop>(
    alloc: Global,
    mut items: W,
    answer: &str,
) -> bool
    requires can { (state : W) → W.can_next state }
{
    let (Some(mut left), indices) = counted(answer) else {
        return false;
    };
    for index in indices.split_whitespace() {
        if items.len() != left || !is_item(alloc, items.next(), index) {
            return false;
        }
        left = left.wrapping_sub(1);
    }
    (items.len(), items.size_hint()) == (left, (left, Some(left)))
        && (left > 0 || is_end(alloc, items.next()) && is_end(alloc, items.next()))
}

// ---- cursors

/// What lends the indices of a shape, in either order.
trait LendingIteration {
    fn lend(&mut self) -> Option<&[usize]>;

    fn left(&self) -> usize;
}

impl LendingIteration for IndexCursor {
    fn lend(&mut self) -> Option<&[usize]> {
        self.next()
    }

    fn left(&self) -> usize {
        self.len()
    }
}

impl LendingIteration for IndexCursorF {
    fn lend(&mut self) -> Option<&[usize]> {
        self.next()
    }

    fn left(&self) -> usize {
        self.len()
    }
}

/// A shape, where its size fits.
fn sized(dim: IxDyn) -> Result<IxDyn, AllocError>
    ensures { IfOk result (λ dim. size (lengths dim) < 2 ^ 64) }
{
    match dim.size_checked() {
        Some(_) => Ok(dim),
        None => Err(AllocError),
    }
}

/// The cursor over a shape by rows. (It is made here alone, since what is ensured of it is dear.)
fn row_cursor(alloc: Global, dim: IxDyn) -> Result<IndexCursor, AllocError> {
    IndexCursor::new(alloc, sized(dim)?)
}

/// The cursor over a shape by columns.
fn column_cursor(alloc: Global, dim: IxDyn) -> Result<IndexCursorF, AllocError> {
    IndexCursorF::new(alloc, sized(dim)?)
}

/// Whether a cursor lends so many indices and the first ones are these; and none follow where these are all.
fn lends<C: LendingIteration + Drop>(cursor: Result<C, AllocError>, answer: &str) -> bool {
    let (Ok(mut cursor), (Some(mut left), indices)) = (cursor, counted(answer)) else {
        return false;
    };
    for index in indices.split_whitespace() {
        let is_next = match cursor.lend() {
            Some(coordinates) => Words::of(index).is_list(coordinates),
            None => false,
        };
        left = left.wrapping_sub(1);
        if !is_next || cursor.left() != left {
            return false;
        }
    }
    cursor.left() == left && (left > 0 || cursor.lend().is_none() && cursor.lend().is_none())
}

/// The same of the cursor over a shape in an order.
fn is_lent(alloc: Global, order: Order, dim: IxDyn, answer: &str) -> bool {
    match order {
        Order::RowMajor => lends(row_cursor(alloc, dim), answer),
        Order::ColumnMajor => lends(column_cursor(alloc, dim), answer),
    }
}
