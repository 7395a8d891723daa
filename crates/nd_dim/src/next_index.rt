//! From one index of a shape to the next.
ghost use Rattle.std.specs.Prelude.{◌≡◌, ◌+◌, ◌<◌, ◌↔◌, if◌then◌else◌, true, length, replicate, IsTrue};
ghost use Rattle.nd_base.specs.declared.order.Order.TheVariants.{ColumnMajor};
ghost use Rattle.nd_base.specs.Indices.{is_index};
ghost use Rattle.nd_base.specs.FlatIndex.{flat_index, index_of_flat, flat_index_in, index_of_flat_in};
ghost use Rattle.nd_base.specs.Size.{size};

use crate::sequence::{Forward, Reverse, Sequence, SequenceMut, item};

/// Moves an index to the next one, where both sequences begin with the axis that moves fastest.
/// Returns whether there is one; the last index becomes the first, all 0, with `false`.
#[inline(always)]
fn advance<S: Sequence, I: SequenceMut>(shape: &S, index: &mut I) -> bool
    requires { is_index (S.items shape.now) (I.items index.old) ≡ true }
    ensures more { IsTrue result ↔
        (flat_index_in ColumnMajor (S.items shape.now) (I.items index.old) + 1
        < size (S.items shape.now)) }
    ensures next { I.items index.new ≡ (if result
        then index_of_flat_in
        ColumnMajor
        (S.items shape.now)
        (flat_index_in ColumnMajor (S.items shape.now) (I.items index.old) + 1)
        else replicate (length (S.items shape.now)) 0) }
    ensures target { I.same_target index.old index.new }
{
    // (the coordinate is written before it is known to be the one: loops run in half the time so)
    for k in 0..shape.len() {
        let len = item(shape, k);
        let next = item(index, k) + 1;
        index.set(k, next);
        if next < len {
            return true;
        }
        index.set(k, 0);
    }
    false
}

/// Moves an index of a shape to the next one in row-major order, where the last axis moves fastest,
/// and returns whether there is one; the last index becomes the first, all 0, with `false`.
///
/// The caller ensures that `index` is an index of the shape (`is_index`).
///
/// Takes time in proportion to the count of axes.
///
/// After (0,2) of `[2,3]`: (1,0). The step of ndarray's `next_for`.
#[inline(always)]
pub fn advance_row_major(shape: &[usize], index: &mut [usize]) -> bool
    requires { is_index shape.now index.old ≡ true }
    ensures more { IsTrue result ↔ (flat_index shape.now index.old + 1 < size shape.now) }
    ensures next { index.new ≡ (if result
        then index_of_flat shape.now (flat_index shape.now index.old + 1)
        else replicate (length shape.now) 0) }
{
    advance(&Reverse(shape), &mut Reverse(index))
}

/// Moves an index of a shape to the next one in column-major order, where the first axis moves
/// fastest, and returns whether there is one; the last index becomes the first, all 0, with
/// `false`.
///
/// The caller ensures that `index` is an index of the shape (`is_index`).
///
/// Takes time in proportion to the count of axes.
///
/// After (1,0) of `[2,3]`: (0,1). The step of ndarray's `next_for_f`.
#[inline(always)]
pub fn advance_column_major(shape: &[usize], index: &mut [usize]) -> bool
    requires { is_index shape.now index.old ≡ true }
    ensures more { IsTrue result
        ↔ (flat_index_in ColumnMajor shape.now index.old + 1 < size shape.now) }
    ensures next { index.new ≡ (if result
        then index_of_flat_in
        ColumnMajor
        shape.now
        (flat_index_in ColumnMajor shape.now index.old + 1)
        else replicate (length shape.now) 0) }
{
    advance(&Forward(shape), &mut Forward(index))
}
