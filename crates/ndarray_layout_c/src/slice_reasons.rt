//! Why a slice argument is none of a shape.
ghost use Rattle.std.specs.Prelude.{◌≡◌, ◌≢◌, ◌≤◌, ◌&&◌, not, false, None, Some, length, IfOk, IsOk};
ghost use Rattle.ndarray_layout.specs.SliceBounds.{bound_meaning, is_bound};
ghost use Rattle.ndarray_layout.specs.SliceFault.{argument_fault};
ghost use Rattle.ndarray_layout_c.specs.Arguments.{fit_named, is_choice};
ghost use Rattle.ndarray_layout_c.specs.Elements.{are_elems, elems_named};
ghost use Rattle.ndarray_layout_c.specs.SliceReasons.{argument_reason, bound_at_fault, elem_reason, is_no_bound};
ghost use Rattle.ndarray_layout_c.specs.Statuses.{bad_argument, ok, out_of_memory, status_of, status_where};

use crate::arguments::{fit_named, is_choice};
use crate::elements::{FEW, RawElem, are_elems, few_elems, many_elems};
use crate::reasons::{BOUND, COUNT, INDEX, Reason, SLICE, STEP, no_reason, of_axis, of_list};
use crate::statuses::{
    BAD_ARGUMENT, INCOMPATIBLE_SHAPE, OK, OUT_OF_BOUNDS, OUT_OF_MEMORY, UNSUPPORTED,
};
use ndarray_layout::{
    AxisElems, Fit, Slice, SliceInfoElem, in_ndim_of, resolve_elem, to_abs_slice,
};
use std::alloc::{AllocError, Global};

/// Whether a bound of a range means no number from 0 to the length of the axis.
#[tactic(auto, using(crate::proofs::SliceReasonStatus::fault_of_bound))]
fn is_no_bound(len: usize, bound: isize, fit: Fit) -> bool
    ensures { result ≡ is_no_bound fit len bound }
{
    let slice = Slice {
        start: bound,
        end: None,
        step: 1,
    };
    to_abs_slice(len, slice, fit).is_err()
}

/// The first bound of a range that is none of the axis.
fn bound_at_fault(len: usize, start: isize, end: Option<isize>, fit: Fit) -> Option<isize>
    ensures { result ≡ bound_at_fault fit len start end }
{
    if is_no_bound(len, start, fit) {
        return Some(start);
    }
    match end {
        Some(end) if is_no_bound(len, end, fit) => Some(end),
        _ => None,
    }
}

/// Why an element that doesn't fit an axis doesn't.
fn elem_reason(axis: usize, len: usize, elem: SliceInfoElem, fit: Fit) -> Reason
    ensures { result ≡ elem_reason fit axis len elem }
{
    match elem {
        SliceInfoElem::Slice { start, end, .. } => match bound_at_fault(len, start, end, fit) {
            Some(bound) => of_axis(OUT_OF_BOUNDS, BOUND, axis, bound, len, 0),
            None => of_axis(UNSUPPORTED, STEP, axis, 0, len, 0),
        },
        SliceInfoElem::Index(index) => of_axis(OUT_OF_BOUNDS, INDEX, axis, index, len, 0),
        SliceInfoElem::NewAxis => no_reason(),
    }
}

/// Why a slice argument is none of a shape.
fn argument_reason(shape: &[usize], elems: &[SliceInfoElem], fit: Fit) -> Reason
    ensures { result ≡ argument_reason fit shape.now elems.now }
{
    let count = in_ndim_of(elems);
    if count != shape.len() {
        return of_list(INCOMPATIBLE_SHAPE, COUNT, SLICE, 0, count, shape.len());
    }
    for (axis, (len, elem)) in AxisElems::new(shape, elems).enumerate() {
        if resolve_elem(len, elem, fit).is_err() {
            return elem_reason(axis, len, elem, fit);
        }
    }
    no_reason()
}

/// Why a slice argument is none of a shape.
///
/// Errors: out of memory, never for at most four elements.
fn reason_of_raws(
    alloc: Global,
    shape: &[usize],
    raws: &[RawElem],
    fit: Fit,
) -> Result<Reason, AllocError>
    ensures memory { length raws.now ≤ 4 → IsOk result }
    ensures reason { IfOk result (λ reason. reason ≡
        argument_reason fit shape.now (elems_named raws.now)) }
{
    if raws.len() <= FEW {
        let elems = few_elems(raws);
        return Ok(argument_reason(shape, &elems[..raws.len()], fit));
    }
    Ok(argument_reason(shape, &many_elems(alloc, raws)?, fit))
}

/// Writes why a slice argument is none of a shape.
#[unsafe(no_mangle)]
pub extern "C" fn nd_slice_reason(
    alloc: Global,
    shape: &[usize],
    elems: &[RawElem],
    fit: i32,
    reason: &mut Reason,
) -> i32
    ensures status { result ≢ out_of_memory → result ≡ status_where
        (not (is_choice fit && are_elems elems.now)) None }
    ensures bad { (is_choice fit && are_elems elems.now) ≡ false → result ≡ bad_argument }
    ensures memory { length elems.now ≤ 4 → result ≢ out_of_memory }
    ensures reason { result ≡ ok → reason.new ≡
        argument_reason (fit_named fit) shape.now (elems_named elems.now) }
    ensures agrees { result ≡ ok → reason.new.status ≡
        status_of (argument_fault (fit_named fit) shape.now (elems_named elems.now)) }
    ensures unchanged { result ≢ ok → reason.new ≡ reason.old }
{
    if !is_choice(fit) || !are_elems(elems) {
        return BAD_ARGUMENT;
    }
    match reason_of_raws(alloc, shape, elems, fit_named(fit)) {
        Ok(found) => {
            *reason = found;
            OK
        },
        Err(_) => OUT_OF_MEMORY,
    }
}
