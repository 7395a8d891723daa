//! Why a layout can't be read as one of another shape.
ghost use Rattle.std.specs.Prelude.{◌≡◌, ◌≢◌, ◌<◌, ◌≤◌, not, false, Some, None, length, IfOk, IsOk};
ghost use Rattle.std.specs.Option.{option_or};
ghost use Rattle.ndarray_layout.specs.declared.ErrorKind.{ErrorKind};
ghost use Rattle.ndarray_layout.specs.Dim.{lengths};
ghost use Rattle.ndarray_layout.specs.Memory.{NeedsNoMemory};
ghost use Rattle.ndarray_layout.specs.ReshapedView.{view_reshape_fault};
ghost use Rattle.ndarray_layout.specs.Signed.{all_signed};
ghost use Rattle.ndarray_layout.specs.Size.{limit, nonzero_size, size as size_of};
ghost use Rattle.ndarray_layout_c.specs.Arguments.{is_choice, order_named};
ghost use Rattle.ndarray_layout_c.specs.LayoutFault.{layout_fault, lowest_view};
ghost use Rattle.ndarray_layout_c.specs.ReshapeReasons.{axis_read, copy_reason, fault_reason, is_of_strides, is_stuck, read_first, reading_fault, reshape_reason, stuck_axis};
ghost use Rattle.ndarray_layout_c.specs.Statuses.{bad_argument, ok, out_of_memory, status_of, status_where};

use crate::arguments::{is_choice, order_named};
use crate::layout_reasons::layout_reason;
use crate::lists::view;
use crate::reasons::{COPY, OTHER_SIZE, Reason, SIZE, no_reason, of_axis};
use crate::statuses::{BAD_ARGUMENT, INCOMPATIBLE_SHAPE, OK, OUT_OF_MEMORY, OVERFLOW, status_of};
use ndarray_layout::{
    CanIndexCheckMode, ErrorKind, IxDyn, LayoutError, Order, Strided, new_ixdyn, signed,
    size_of_shape_checked,
};
use std::alloc::{AllocError, Global};

/// The error of reading a view as one of a shape.
///
/// Errors: out of memory, never for at most four axes of the shape.
fn view_fault(
    alloc: Global,
    view: &Strided<IxDyn>,
    new_shape: &IxDyn,
    order: Order,
) -> Result<Option<ErrorKind>, AllocError>
    ensures memory { NeedsNoMemory None (length (lengths new_shape.now)) → IsOk result }
    ensures fault { IfOk result (λ fault.
        fault ≡ view_reshape_fault order (lengths new_shape.now) view.now) }
{
    match view.reshape(alloc, new_shape, order) {
        Ok(_reshaped) => Ok(None),
        Err(LayoutError::Shape(error)) => Ok(Some(error.kind())),
        Err(LayoutError::Memory(error)) => Err(error),
    }
}

/// The error of reading a layout as one of a shape.
///
/// Errors: out of memory, never for at most four axes of both.
fn reading_fault(
    alloc: Global,
    shape: &[usize],
    strides: &[usize],
    new_shape: &IxDyn,
    order: Order,
) -> Result<Option<ErrorKind>, AllocError>
    ensures memory { NeedsNoMemory None (length shape.now) →
        NeedsNoMemory None (length strides.now) →
        NeedsNoMemory None (length (lengths new_shape.now)) → IsOk result }
    ensures fault { IfOk result (λ fault.
        fault ≡ reading_fault order (lengths new_shape.now) shape.now strides.now) }
{
    match view(alloc, shape, strides) {
        Ok(view) => view_fault(alloc, &view, new_shape, order),
        Err(LayoutError::Shape(error)) => Ok(Some(error.kind())),
        Err(LayoutError::Memory(error)) => Err(error),
    }
}

/// Of some axes those that are read first, so many of them.
fn read_first(order: Order, count: usize, items: &[usize]) -> &[usize]
    requires { count ≤ length items.now }
    ensures first { result.now ≡ read_first order count items.now }
    ensures few { length result.now ≤ length items.now }
{
    match order {
        Order::RowMajor => &items[..count],
        Order::ColumnMajor => &items[items.len() - count..],
    }
}

/// Whether a layout can't be read as one of a shape for its strides, by the axes up to one, with so many read before it.
///
/// Errors: out of memory, never for at most four axes of both.
fn is_stuck(
    alloc: Global,
    shape: &[usize],
    strides: &[usize],
    new_shape: &IxDyn,
    order: Order,
    before: usize,
) -> Result<bool, AllocError>
    requires axis { before < length shape.now }
    requires same_count { length shape.now ≡ length strides.now }
    ensures memory { NeedsNoMemory None (length shape.now) →
        NeedsNoMemory None (length strides.now) →
        NeedsNoMemory None (length (lengths new_shape.now)) → IsOk result }
    ensures stuck { IfOk result (λ stuck.
        stuck ≡ is_stuck order (lengths new_shape.now) shape.now strides.now before) }
{
    let shape = read_first(order, before + 1, shape);
    let strides = read_first(order, before + 1, strides);
    let fault = reading_fault(alloc, shape, strides, new_shape, order)?;
    Ok(matches!(fault, Some(ErrorKind::IncompatibleLayout)))
}

/// The first axis, as they are read, up to which a layout can't be read as one of a shape for its strides.
///
/// Errors: out of memory, never for at most four axes of both.
fn stuck_axis(
    alloc: Global,
    shape: &[usize],
    strides: &[usize],
    new_shape: &IxDyn,
    order: Order,
) -> Result<usize, AllocError>
    requires same_count { length shape.now ≡ length strides.now }
    ensures memory { NeedsNoMemory None (length shape.now) →
        NeedsNoMemory None (length strides.now) →
        NeedsNoMemory None (length (lengths new_shape.now)) → IsOk result }
    ensures axis { IfOk result (λ axis.
        axis ≡ stuck_axis order (lengths new_shape.now) shape.now strides.now) }
{
    for before in 0..shape.len() {
        if is_stuck(alloc, shape, strides, new_shape, order, before)? {
            return Ok(match order {
                Order::RowMajor => before,
                Order::ColumnMajor => shape.len() - (before + 1),
            });
        }
    }
    Ok(0)
}

/// The strides can't be read past an axis: its stride and its length, where there is such an axis.
#[tactic(auto, using(crate::proofs::Strides::signed_at))]
fn copy_reason(status: i32, shape: &[usize], strides: &[usize], axis: usize) -> Reason
    requires same_count { length shape.now ≡ length strides.now }
    ensures { result ≡ copy_reason status shape.now strides.now axis }
{
    if axis >= shape.len() {
        return of_axis(status, COPY, axis, 0, 0, 0);
    }
    of_axis(status, COPY, axis, signed(strides[axis]), shape[axis], 0)
}

/// Why a layout that is accepted, of so many indices, can't be read as one of a shape.
///
/// Errors: out of memory, never for at most four axes of both.
fn fault_reason(
    alloc: Global,
    shape: &[usize],
    strides: &[usize],
    new_shape: &IxDyn,
    order: Order,
    size: usize,
    fault: Option<ErrorKind>,
) -> Result<Reason, AllocError>
    requires same_count { length shape.now ≡ length strides.now }
    requires size { size ≡ size_of shape.now }
    requires sized { fault ≡ Some ErrorKind.IncompatibleShape →
        nonzero_size (lengths new_shape.now) ≤ limit }
    ensures memory { NeedsNoMemory None (length shape.now) →
        NeedsNoMemory None (length strides.now) →
        NeedsNoMemory None (length (lengths new_shape.now)) → IsOk result }
    ensures reason { IfOk result (λ reason. reason ≡ fault_reason shape.now strides.now
        (lengths new_shape.now)
        (stuck_axis order (lengths new_shape.now) shape.now strides.now) fault) }
{
    match fault {
        None => Ok(no_reason()),
        Some(ErrorKind::Overflow) => Ok(of_axis(OVERFLOW, SIZE, 0, 0, 0, 0)),
        Some(ErrorKind::IncompatibleShape) => {
            let new_size = size_of_shape_checked(new_shape).unwrap_or(0);
            Ok(of_axis(INCOMPATIBLE_SHAPE, OTHER_SIZE, 0, 0, new_size, size))
        },
        Some(kind) => {
            let axis = stuck_axis(alloc, shape, strides, new_shape, order)?;
            Ok(copy_reason(status_of(kind), shape, strides, axis))
        },
    }
}

/// Why a layout can't be read as one of a shape.
///
/// Errors: out of memory, never for at most four axes of both.
fn reshape_reason(
    alloc: Global,
    shape: &[usize],
    strides: &[usize],
    new_shape: &[usize],
    order: Order,
) -> Result<Reason, AllocError>
    ensures memory { NeedsNoMemory None (length shape.now) →
        NeedsNoMemory None (length strides.now) → NeedsNoMemory None (length new_shape.now) →
        IsOk result }
    ensures reason { IfOk result (λ reason.
        reason ≡ reshape_reason order new_shape.now shape.now strides.now) }
{
    match view(alloc, shape, strides) {
        Ok(view) => {
            let new_shape = new_ixdyn(alloc, new_shape)?;
            let size = size_of_shape_checked(view.dim()).unwrap_or(0);
            let fault = view_fault(alloc, &view, &new_shape, order)?;
            fault_reason(alloc, shape, strides, &new_shape, order, size, fault)
        },
        Err(LayoutError::Shape(_error)) => {
            let mode = CanIndexCheckMode::ReadOnly;
            layout_reason(alloc, None, shape, strides, 1, usize::MAX, mode)
        },
        Err(LayoutError::Memory(error)) => Err(error),
    }
}

/// Writes why a layout can't be read as one of a shape.
#[unsafe(no_mangle)]
pub extern "C" fn nd_reshape_reason(
    alloc: Global,
    shape: &[usize],
    strides: &[usize],
    new_shape: &[usize],
    order: i32,
    reason: &mut Reason,
) -> i32
    ensures status { result ≢ out_of_memory → result ≡ status_where (not (is_choice order)) None }
    ensures bad { is_choice order ≡ false → result ≡ bad_argument }
    ensures memory { NeedsNoMemory None (length shape.now) →
        NeedsNoMemory None (length strides.now) → NeedsNoMemory None (length new_shape.now) →
        result ≢ out_of_memory }
    ensures reason { result ≡ ok → reason.new ≡
        reshape_reason (order_named order) new_shape.now shape.now strides.now }
    ensures agrees { result ≡ ok → reason.new.status ≡ status_of
        (reading_fault (order_named order) new_shape.now shape.now strides.now) }
    ensures unchanged { result ≢ ok → reason.new ≡ reason.old }
{
    if !is_choice(order) {
        return BAD_ARGUMENT;
    }
    match reshape_reason(alloc, shape, strides, new_shape, order_named(order)) {
        Ok(found) => {
            *reason = found;
            OK
        },
        Err(_) => OUT_OF_MEMORY,
    }
}
