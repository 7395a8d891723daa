//! Where the picks of slices lie along an axis of a shape.
ghost use Rattle.std.specs.Prelude.{◌≡◌, ◌⊎◌, ◌<◌, ℕ, None, IfSome, IsTrue, length};
ghost use Rattle.nd_slice.specs.SliceFault.{argument_fault};
ghost use Rattle.nd_slice.specs.Intersect.{Intersect};
ghost use Rattle.nd_slice.specs.RangesApart.{HasRemainder, HasRemainderOn, IsPast, elem_on, end_of_picks, end_on, least_pick, start_on};

use crate::elem::SliceInfoElem;
use crate::fit::Fit;
use crate::picks::resolve_elem;

/// The least coordinate that an element picks of an axis, and the one after the greatest; both are where its range begins if it picks
/// none. `None` for an element that doesn't fit.
#[inline]
fn range_of(len: usize, elem: SliceInfoElem, fit: Fit) -> Option<(usize, usize)>
    ensures start { IfSome result (λ (start, end). start ≡ least_pick fit len elem) }
    ensures end { IfSome result (λ (start, end). end ≡ end_of_picks fit len elem) }
{
    match resolve_elem(len, elem, fit) {
        Ok(picks) => Some(picks.range()),
        Err(_) => None,
    }
}

/// The length of an axis and the element for it. `None` for a slice with new axes, and where there is no such axis.
#[inline(always)]
fn elem_on(
    shape: &[usize],
    axis: usize,
    slice: &[SliceInfoElem],
    fit: Fit,
) -> Option<(usize, SliceInfoElem)>
    requires fits { argument_fault fit shape.now slice.now ≡ None }
    ensures there { IfSome result (λ one. axis < length shape.now) }
    ensures elem { IfSome result (λ one. one ≡ elem_on shape.now axis slice.now) }
{
    if axis >= shape.len() || slice.len() != shape.len() {
        return None;
    }
    Some((shape[axis], slice[axis]))
}

/// The least coordinate that a slice that fits picks of an axis, and the one after the greatest; both are where its range begins if it
/// picks none. `None` for a slice with new axes, and where there is no such axis.
#[inline]
pub(crate) fn range_on(
    shape: &[usize],
    axis: usize,
    slice: &[SliceInfoElem],
    fit: Fit,
) -> Option<(usize, usize)>
    requires fits { argument_fault fit shape.now slice.now ≡ None }
    ensures there { IfSome result (λ (start, end). axis < length shape.now) }
    ensures start { IfSome result (λ (start, end). start ≡ start_on fit shape.now axis slice.now) }
    ensures end { IfSome result (λ (start, end). end ≡ end_on fit shape.now axis slice.now) }
{
    let (len, elem) = elem_on(shape, axis, slice, fit)?;
    range_of(len, elem, fit)
}

/// The distance between the coordinates that an element picks of an axis; 0 if it picks at most one.
#[inline]
fn step_of(len: usize, elem: SliceInfoElem, fit: Fit) -> usize
    ensures { (by : ℕ) → (result ≡ 0) ⊎ (result ≡ by) → HasRemainder by fit len elem }
{
    match resolve_elem(len, elem, fit) {
        Ok(picks) => picks.distance(),
        Err(_) => 1,
    }
}

/// The distance between the coordinates that a slice that fits picks of an axis; 0 if it picks at most one, and 1 if that isn't known.
#[inline]
pub(crate) fn step_on(shape: &[usize], axis: usize, slice: &[SliceInfoElem], fit: Fit) -> usize
    requires fits { argument_fault fit shape.now slice.now ≡ None }
    ensures { (by : ℕ) → (result ≡ 0) ⊎ (result ≡ by) → HasRemainderOn by fit shape.now axis slice.now }
{
    match elem_on(shape, axis, slice, fit) {
        Some((len, elem)) => step_of(len, elem, fit),
        None => 1,
    }
}

/// Whether the picks of one slice lie before those of another on an axis.
#[inline]
fn ranges_are_apart(
    shape: &[usize],
    axis: usize,
    slice: &[SliceInfoElem],
    other: &[SliceInfoElem],
    fit: Fit,
) -> bool
    requires fits { argument_fault fit shape.now slice.now ≡ None }
    requires other_fits { argument_fault fit shape.now other.now ≡ None }
    ensures { IsTrue result → IsPast fit shape.now axis slice.now other.now
        ⊎ IsPast fit shape.now axis other.now slice.now }
{
    match (
        range_on(shape, axis, slice, fit),
        range_on(shape, axis, other, fit),
    ) {
        (Some((start, end)), Some((other_start, other_end))) => {
            end <= other_start || other_end <= start
        }
        _ => false,
    }
}

/// Whether one of two slices that fit a shape lies before the other on some axis. Then they share no index. The last axis comes
/// first, since slices that are near one another on the first axes are apart there.
pub(crate) fn have_ranges_apart(
    shape: &[usize],
    slice: &[SliceInfoElem],
    other: &[SliceInfoElem],
    fit: Fit,
) -> bool
    requires fits { argument_fault fit shape.now slice.now ≡ None }
    requires other_fits { argument_fault fit shape.now other.now ≡ None }
    ensures { IsTrue result → ¬ Intersect fit shape.now slice.now other.now }
{
    for number in 0..shape.len() {
        if ranges_are_apart(shape, shape.len() - 1 - number, slice, other, fit) {
            return true;
        }
    }
    false
}
