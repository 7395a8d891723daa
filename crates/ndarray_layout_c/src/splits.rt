//! The two parts of a layout that is split along an axis.
ghost use Rattle.std.specs.Option.{option_or};
ghost use Rattle.std.specs.Prelude.{◌≡◌, ◌≢◌, ◌==◌, ◌+◌, ◌++◌, ◌&&◌, not, false, None, Some, []};
ghost use Rattle.std.specs.Prelude.{◌∷◌, length, slice_index, take, drop, IfOk, IsOk, OnOk};
ghost use Rattle.ndarray_layout.specs.declared.ErrorKind.{ErrorKind};
ghost use Rattle.ndarray_layout.specs.Descends.{Descends};
ghost use Rattle.ndarray_layout.specs.Memory.{NeedsNoMemory};
ghost use Rattle.ndarray_layout.specs.ShapeFault.{shape_fault};
ghost use Rattle.ndarray_layout.specs.Signed.{all_signed};
ghost use Rattle.ndarray_layout.specs.SplitView.{first_part_of, second_part_of, second_source, split_fault};
ghost use Rattle.ndarray_layout.specs.View.{view_of};
ghost use Rattle.ndarray_layout_c.specs.LayoutFault.{layout_fault_from};
ghost use Rattle.ndarray_layout_c.specs.Statuses.{bad_argument, ok, out_of_memory, status_where};

use crate::lists::view_from;
use crate::statuses::{BAD_ARGUMENT, OK, OUT_OF_MEMORY, status_of};
use ndarray_layout::{Axis, IxDyn, LayoutError, Lengths, Strided};
use std::alloc::Global;

/// The parts of a layout below a coordinate of an axis, and from it on.
///
/// Errors: those of `view_from`, then those of `Strided::split_at`; out of memory, never for at most four items.
fn parts(
    alloc: Global,
    start: usize,
    shape: &[usize],
    strides: &[usize],
    axis: usize,
    index: usize,
) -> Result<(Strided<IxDyn>, Strided<IxDyn>), LayoutError>
    ensures fits { OnOk result (option_or (layout_fault_from start shape.now
        (all_signed strides.now)) (split_fault shape.now axis index) ≡ None) }
    ensures fault { (kind : ErrorKind) → shape_fault result ≡ Some kind →
        option_or (layout_fault_from start shape.now (all_signed strides.now))
        (split_fault shape.now axis index) ≡ Some kind }
    ensures memory { NeedsNoMemory None (length shape.now) →
        NeedsNoMemory None (length strides.now) → shape_fault result ≡ None → IsOk result }
    ensures first { IfOk result (λ both. both.0 ≡
        first_part_of axis index (view_of start shape.now strides.now)) }
    ensures second { IfOk result (λ both. both.1 ≡
        second_part_of axis index (view_of start shape.now strides.now)) }
    ensures first_kept { IfOk result (λ both.
        Descends (λ coordinates. coordinates) (view_of start shape.now strides.now) both.0) }
    ensures second_kept { IfOk result (λ both.
        Descends (second_source axis index) (view_of start shape.now strides.now) both.1) }
{
    let view = view_from(alloc, start, shape, strides)?;
    view.split_at(alloc, Axis(axis), index)
}

/// Splits a layout along an axis: writes the starts of the parts below a coordinate and from it on, the lengths of both, and the
/// strides, which both have.
#[unsafe(no_mangle)]
pub extern "C" fn nd_split_at(
    alloc: Global,
    start: usize,
    shape: &[usize],
    strides: &[usize],
    axis: usize,
    index: usize,
    new_starts: &mut [usize],
    new_shapes: &mut [usize],
    new_strides: &mut [usize],
) -> i32
    ensures status { result ≢ out_of_memory → result ≡ status_where
        (not (length new_starts.old == 2
        && length new_shapes.old == length shape.now + length shape.now
        && length new_strides.old == length shape.now))
        (option_or (layout_fault_from start shape.now (all_signed strides.now))
        (split_fault shape.now axis index)) }
    ensures bad { (length new_starts.old == 2
        && length new_shapes.old == length shape.now + length shape.now
        && length new_strides.old == length shape.now) ≡ false → result ≡ bad_argument }
    ensures memory { NeedsNoMemory None (length shape.now) →
        NeedsNoMemory None (length strides.now) → result ≢ out_of_memory }
    ensures starts { result ≡ ok → new_starts.new ≡
        (first_part_of axis index (view_of start shape.now strides.now)).start
        ∷ (second_part_of axis index (view_of start shape.now strides.now)).start ∷ [] }
    ensures shapes { result ≡ ok → new_shapes.new ≡
        (first_part_of axis index (view_of start shape.now strides.now)).shape
        ++ (second_part_of axis index (view_of start shape.now strides.now)).shape }
    ensures first_strides { result ≡ ok → all_signed new_strides.new ≡
        (first_part_of axis index (view_of start shape.now strides.now)).strides }
    ensures second_strides { result ≡ ok → all_signed new_strides.new ≡
        (second_part_of axis index (view_of start shape.now strides.now)).strides }
    ensures first_kept { result ≡ ok → Descends (λ coordinates. coordinates)
        (view_of start shape.now strides.now) (view_of (slice_index new_starts.new 0)
        (take (length shape.now) new_shapes.new) new_strides.new) }
    ensures second_kept { result ≡ ok → Descends (second_source axis index)
        (view_of start shape.now strides.now) (view_of (slice_index new_starts.new 1)
        (drop (length shape.now) new_shapes.new) new_strides.new) }
    ensures unchanged { result ≢ ok → (new_starts.new ≡ new_starts.old)
        × (new_shapes.new ≡ new_shapes.old) × (new_strides.new ≡ new_strides.old) }
{
    let ndim = shape.len();
    if new_starts.len() != 2 || new_shapes.len() != 2 * ndim || new_strides.len() != ndim {
        return BAD_ARGUMENT;
    }
    match parts(alloc, start, shape, strides, axis, index) {
        Ok((first, second)) => {
            new_starts.copy_from_slice(&[first.start(), second.start()]);
            new_shapes[..ndim].copy_from_slice(first.dim().slice());
            new_shapes[ndim..].copy_from_slice(second.dim().slice());
            new_strides.copy_from_slice(first.strides().slice());
            OK
        },
        Err(LayoutError::Shape(error)) => status_of(error.kind()),
        Err(LayoutError::Memory(_)) => OUT_OF_MEMORY,
    }
}
