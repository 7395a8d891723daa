//! Slices that begin in their order along an axis, where they are read from the first one on or from the last one back.
ghost use Rattle.std.specs.Prelude.{◌≡◌, ℕ, ◌<◌, ◌≤◌, Bool, true, false, Some, None, IfSome, IsSomeAnd, IsTrue, List, length, map};
ghost use Rattle.nd_slice.specs.declared.fit.Fit.{Fit};
ghost use Rattle.nd_slice.specs.SliceFault.{argument_fault};
ghost use Rattle.nd_slice.specs.RangesApart.{end_on, start_on};
ghost use Rattle.nd_slice.specs.IntersectingPair.{slices_fault};
ghost use Rattle.nd_slice.specs.SlicesInOrder.{AreInOrder, position_of, slice_at};

use crate::elem::SliceInfoElem;
use crate::elems::SliceElems;
use crate::fit::Fit;
use crate::ranges_apart::range_on;

/// From which end a list of slices is read.
pub(crate) trait Direction {
    // Whether that is the last one.
    ghost backwards: { Bool };

    /// The position in a list of `count` slices of the one that is read at the `turn`, from 0 on.
    fn position(count: usize, turn: usize) -> usize
        requires { turn < count }
        ensures { result ≡ position_of backwards count turn };
}

/// From the first slice on.
#[derive(Drop)]
pub(crate) struct FromFirst;

/// From the last slice back.
#[derive(Drop)]
pub(crate) struct FromLast;

impl Direction for FromFirst {
    ghost backwards = { false };

    #[inline(always)]
    fn position(_count: usize, turn: usize) -> usize {
        turn
    }
}

impl Direction for FromLast {
    ghost backwards = { true };

    #[inline(always)]
    fn position(count: usize, turn: usize) -> usize {
        count - 1 - turn
    }
}

/// The elements of the slice that is read at the `turn`, from 0 on.
#[inline(always)]
pub(crate) fn elems_at<S: SliceElems, R: Direction>(slices: &[S], turn: usize) -> &[SliceInfoElem]
    requires { turn < length slices.now }
    ensures slice { result.now ≡ slice_at (map S.list slices.now) R.backwards turn }
    ensures fits { (fit : Fit) (shape : List ℕ) → slices_fault fit shape (map S.list slices.now)
        ≡ None → argument_fault fit shape result.now ≡ None }
{
    slices[R::position(slices.len(), turn)].elems()
}

/// The axis on which slices are in order, and where a slice stops there. `None` where one of them isn't known.
#[inline]
pub(crate) fn end_in_order(
    shape: &[usize],
    axis: Option<usize>,
    slice: &[SliceInfoElem],
    fit: Fit,
) -> Option<(usize, usize)>
    requires fits { argument_fault fit shape.now slice.now ≡ None }
    ensures { IfSome result (λ (number, end). (axis ≡ Some number)
        × (number < length shape.now) × (end ≡ end_on fit shape.now number slice.now)) }
{
    let axis = axis?;
    let (_, end) = range_on(shape, axis, slice, fit)?;
    Some((axis, end))
}

/// Whether a slice begins on an axis where another one stops, or later. False where that isn't known.
#[inline]
pub(crate) fn begins_past(
    shape: &[usize],
    end: Option<(usize, usize)>,
    slice: &[SliceInfoElem],
    fit: Fit,
) -> bool
    requires fits { argument_fault fit shape.now slice.now ≡ None }
    ensures { IsTrue result → IsSomeAnd end (λ (axis, end).
        (axis < length shape.now) × (end ≤ start_on fit shape.now axis slice.now)) }
{
    let Some((axis, end)) = end else {
        return false;
    };
    match range_on(shape, axis, slice, fit) {
        Some((start, _)) => end <= start,
        None => false,
    }
}

/// Whether no slice begins on an axis before one that is read earlier.
fn are_in_order<S: SliceElems, R: Direction>(
    shape: &[usize],
    axis: usize,
    slices: &[S],
    fit: Fit,
) -> bool
    requires fit { slices_fault fit shape.now (map S.list slices.now) ≡ None }
    ensures { IsTrue result → AreInOrder fit shape.now axis (map S.list slices.now) R.backwards }
{
    let mut last = 0;
    for turn in 0..slices.len() {
        let Some((start, _)) = range_on(shape, axis, elems_at::<S, R>(slices, turn), fit) else {
            return false;
        };
        if start < last {
            return false;
        }
        last = start;
    }
    true
}

/// The same, and the one that is read last begins where the first has ended or later: else each would be compared with each.
fn can_sweep<S: SliceElems, R: Direction>(
    shape: &[usize],
    axis: usize,
    slices: &[S],
    fit: Fit,
) -> bool
    requires fit { slices_fault fit shape.now (map S.list slices.now) ≡ None }
    requires some { 0 < length slices.now }
    ensures { IsTrue result → AreInOrder fit shape.now axis (map S.list slices.now) R.backwards }
{
    let end = end_in_order(shape, Some(axis), elems_at::<S, R>(slices, 0), fit);
    let last = elems_at::<S, R>(slices, slices.len() - 1);
    begins_past(shape, end, last, fit) && are_in_order::<S, R>(shape, axis, slices, fit)
}

/// The first axis along which slices are in order. `None` where there is none, and for one or two slices, which are compared
/// as fast.
pub(crate) fn axis_in_order<S: SliceElems, R: Direction>(
    shape: &[usize],
    slices: &[S],
    fit: Fit,
) -> Option<usize>
    requires fit { slices_fault fit shape.now (map S.list slices.now) ≡ None }
    ensures { IfSome result (λ axis.
        AreInOrder fit shape.now axis (map S.list slices.now) R.backwards) }
{
    if slices.len() < 3 {
        return None;
    }
    for axis in 0..shape.len() {
        if can_sweep::<S, R>(shape, axis, slices, fit) {
            return Some(axis);
        }
    }
    None
}
