//! Why a layout isn't accepted over a buffer.
ghost use Rattle.std.specs.Prelude.{◌≡◌, ◌≢◌, ◌≤◌, not, false, None, Some, length, IfOk, IsOk, OnOk};
ghost use Rattle.std.specs.Result.{result_err};
ghost use Rattle.ndarray_layout.specs.Acceptance.{acceptance};
ghost use Rattle.ndarray_layout.specs.AcceptanceFrom.{acceptance_from};
ghost use Rattle.ndarray_layout.specs.Memory.{NeedsNoMemory};
ghost use Rattle.ndarray_layout.specs.Signed.{all_signed};
ghost use Rattle.ndarray_layout.specs.Span.{span as span_of_layout};
ghost use Rattle.ndarray_layout.specs.ValidLayout.{IsValidLayout};
ghost use Rattle.ndarray_layout_c.specs.Arguments.{is_choice, mode_named};
ghost use Rattle.ndarray_layout_c.specs.LayoutReasons.{bounds_reason, buffer_reason, layout_reason, limits_reason};
ghost use Rattle.ndarray_layout_c.specs.Statuses.{bad_argument, ok, out_of_memory, status_of, status_where};

use crate::aliases::alias_reason;
use crate::arguments::{is_choice, mode_named};
use crate::reasons::{
    BYTES, COUNT, HIGHEST, LENGTH, LOWEST, Reason, SIZE, SPAN, STRIDES, no_reason, of_axis, of_list,
};
use crate::statuses::{
    BAD_ARGUMENT, INCOMPATIBLE_LAYOUT, OK, OUT_OF_BOUNDS, OUT_OF_MEMORY, OVERFLOW,
};
use ndarray_layout::{
    CanIndexCheckMode, low_span, new_ixdyn, size_of_shape_checked, span_of_lengths,
};
use std::alloc::{AllocError, Global};

/// The span of a layout, or why it isn't within the limits.
///
/// Errors: out of memory, never for at most four axes.
fn span_or_reason(
    alloc: Global,
    shape: &[usize],
    strides: &[usize],
    elem_size: usize,
) -> Result<Result<usize, Reason>, AllocError>
    ensures memory { NeedsNoMemory None (length shape.now) → IsOk result }
    ensures reason { IfOk result (λ found.
        result_err found ≡ limits_reason elem_size shape.now (all_signed strides.now)) }
    ensures span { IfOk result (λ found. IfOk found (λ n.
        n ≡ span_of_layout shape.now (all_signed strides.now))) }
    ensures valid { IfOk result (λ found. OnOk found
        (IsValidLayout shape.now (all_signed strides.now))) }
{
    let dim = new_ixdyn(alloc, shape)?;
    if shape.len() != strides.len() {
        let (count, ndim) = (strides.len(), shape.len());
        return Ok(Err(of_list(INCOMPATIBLE_LAYOUT, COUNT, STRIDES, 0, count, ndim)));
    }
    if size_of_shape_checked(&dim).is_err() {
        return Ok(Err(of_axis(OVERFLOW, SIZE, 0, 0, 0, 0)));
    }
    // (with elements of no bytes, only the span is left to be past the limit)
    let Ok(span) = span_of_lengths(0, shape, strides) else {
        return Ok(Err(of_axis(OVERFLOW, SPAN, 0, 0, 0, 0)));
    };
    if span_of_lengths(elem_size, shape, strides).is_err() {
        return Ok(Err(of_axis(OVERFLOW, BYTES, 0, 0, span, elem_size)));
    }
    Ok(Ok(span))
}

/// Why a layout within the limits leaves a buffer of `len` elements, from a start.
#[tactic(auto, using(crate::proofs::LayoutReasonStatus::high_of_span, crate::proofs::LayoutReasonStatus::low_in_span))]
fn bounds_reason(
    start: usize,
    shape: &[usize],
    strides: &[usize],
    span: usize,
    len: usize,
) -> Option<Reason>
    requires valid { IsValidLayout shape.now (all_signed strides.now) }
    requires span { span ≡ span_of_layout shape.now (all_signed strides.now) }
    ensures { result ≡ bounds_reason start len shape.now (all_signed strides.now) }
{
    let low = low_span(shape, strides);
    if start < low {
        return Some(of_axis(OUT_OF_BOUNDS, LOWEST, 0, 0, low, start));
    }
    let high = span - low;
    if start > isize::MAX as usize - high {
        return Some(of_axis(OUT_OF_BOUNDS, HIGHEST, 0, 0, high, start));
    }
    let highest = start + high;
    let is_past = if shape.contains(&0) {
        len < highest
    } else {
        len <= highest
    };
    is_past.then_some(of_axis(OUT_OF_BOUNDS, LENGTH, 0, 0, highest, len))
}

/// Why a layout within the limits isn't accepted over a buffer of `len` elements, from a start.
fn buffer_reason(
    start: usize,
    shape: &[usize],
    strides: &[usize],
    span: usize,
    len: usize,
    mode: CanIndexCheckMode,
) -> Option<Reason>
    requires valid { IsValidLayout shape.now (all_signed strides.now) }
    requires span { span ≡ span_of_layout shape.now (all_signed strides.now) }
    ensures { result ≡ buffer_reason start len mode shape.now (all_signed strides.now) }
{
    let reason = bounds_reason(start, shape, strides, span, len);
    if reason.is_some() || shape.contains(&0) {
        return reason;
    }
    match mode {
        CanIndexCheckMode::OwnedMutable => alias_reason(shape, strides),
        CanIndexCheckMode::ReadOnly => None,
    }
}

/// Why a layout isn't accepted over a buffer of `len` elements of `elem_size` bytes, from a start, or else from the lowest that
/// it can have.
///
/// Errors: out of memory, never for at most four axes.
pub(crate) fn layout_reason(
    alloc: Global,
    start: Option<usize>,
    shape: &[usize],
    strides: &[usize],
    elem_size: usize,
    len: usize,
    mode: CanIndexCheckMode,
) -> Result<Reason, AllocError>
    ensures memory { NeedsNoMemory None (length shape.now) → IsOk result }
    ensures reason { IfOk result (λ reason. reason ≡
        layout_reason start elem_size len mode shape.now (all_signed strides.now)) }
{
    match span_or_reason(alloc, shape, strides, elem_size)? {
        Ok(span) => {
            let start = start.unwrap_or(low_span(shape, strides));
            let reason = buffer_reason(start, shape, strides, span, len, mode);
            Ok(reason.unwrap_or(no_reason()))
        },
        Err(reason) => Ok(reason),
    }
}

/// Writes why a layout isn't accepted, and returns the status.
fn write_reason(
    alloc: Global,
    start: Option<usize>,
    shape: &[usize],
    strides: &[usize],
    elem_size: usize,
    len: usize,
    mode: i32,
    reason: &mut Reason,
) -> i32
    ensures status { result ≢ out_of_memory → result ≡ status_where (not (is_choice mode)) None }
    ensures bad { is_choice mode ≡ false → result ≡ bad_argument }
    ensures memory { NeedsNoMemory None (length shape.now) → result ≢ out_of_memory }
    ensures reason { result ≡ ok → reason.new ≡
        layout_reason start elem_size len (mode_named mode) shape.now (all_signed strides.now) }
    ensures unchanged { result ≢ ok → reason.new ≡ reason.old }
{
    if !is_choice(mode) {
        return BAD_ARGUMENT;
    }
    let mode = mode_named(mode);
    match layout_reason(alloc, start, shape, strides, elem_size, len, mode) {
        Ok(found) => {
            *reason = found;
            OK
        },
        Err(_) => OUT_OF_MEMORY,
    }
}

/// Writes why a layout isn't accepted over a buffer of `len` elements of `elem_size` bytes.
#[unsafe(no_mangle)]
pub extern "C" fn nd_layout_start_reason(
    alloc: Global,
    shape: &[usize],
    strides: &[usize],
    elem_size: usize,
    len: usize,
    mode: i32,
    reason: &mut Reason,
) -> i32
    ensures status { result ≢ out_of_memory → result ≡ status_where (not (is_choice mode)) None }
    ensures bad { is_choice mode ≡ false → result ≡ bad_argument }
    ensures memory { NeedsNoMemory None (length shape.now) → result ≢ out_of_memory }
    ensures reason { result ≡ ok → reason.new ≡
        layout_reason None elem_size len (mode_named mode) shape.now (all_signed strides.now) }
    ensures agrees { result ≡ ok → reason.new.status ≡ status_of
        (acceptance elem_size len (mode_named mode) shape.now (all_signed strides.now)) }
    ensures unchanged { result ≢ ok → reason.new ≡ reason.old }
{
    write_reason(alloc, None, shape, strides, elem_size, len, mode, reason)
}

/// Writes why a layout isn't accepted from a start over a buffer of `len` elements of `elem_size` bytes.
#[unsafe(no_mangle)]
pub extern "C" fn nd_check_layout_reason(
    alloc: Global,
    start: usize,
    shape: &[usize],
    strides: &[usize],
    elem_size: usize,
    len: usize,
    mode: i32,
    reason: &mut Reason,
) -> i32
    ensures status { result ≢ out_of_memory → result ≡ status_where (not (is_choice mode)) None }
    ensures bad { is_choice mode ≡ false → result ≡ bad_argument }
    ensures memory { NeedsNoMemory None (length shape.now) → result ≢ out_of_memory }
    ensures reason { result ≡ ok → reason.new ≡ layout_reason (Some start)
        elem_size len (mode_named mode) shape.now (all_signed strides.now) }
    ensures agrees { result ≡ ok → reason.new.status ≡ status_of
        (acceptance_from start elem_size len (mode_named mode) shape.now (all_signed strides.now)) }
    ensures unchanged { result ≢ ok → reason.new ≡ reason.old }
{
    write_reason(
        alloc,
        Some(start),
        shape,
        strides,
        elem_size,
        len,
        mode,
        reason,
    )
}
