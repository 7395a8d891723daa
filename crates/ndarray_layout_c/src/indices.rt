//! Indices, and where they lie.
ghost use Rattle.std.specs.Option.{option_or};
ghost use Rattle.std.specs.Prelude.{◌≡◌, ◌≢◌, ◌==◌, pos, not, true, false, None, Some, length, map, if◌then◌else◌, IfOk, IsOk, OnOk};
ghost use Rattle.ndarray_layout.specs.declared.ErrorKind.{ErrorKind};
ghost use Rattle.ndarray_layout.specs.Indices.{is_index};
ghost use Rattle.ndarray_layout.specs.Memory.{NeedsNoMemory};
ghost use Rattle.ndarray_layout.specs.ShapeFault.{shape_fault};
ghost use Rattle.ndarray_layout.specs.Signed.{all_signed};
ghost use Rattle.ndarray_layout.specs.Size.{size};
ghost use Rattle.ndarray_layout.specs.View.{place_at, view_of, view_places};
ghost use Rattle.ndarray_layout_c.specs.LayoutFault.{layout_fault_from};
ghost use Rattle.ndarray_layout_c.specs.Arguments.{is_choice, order_named};
ghost use Rattle.ndarray_layout_c.specs.IndexFault.{index_fault};
ghost use Rattle.ndarray_layout_c.specs.IndexAfter.{has_index_after, index_after};
ghost use Rattle.ndarray_layout_c.specs.Statuses.{bad_argument, ok, out_of_memory, status_of, status_until, status_where};

use crate::arguments::{answer_of, is_choice, order_named};
use crate::lists::view_from;
use crate::statuses::{BAD_ARGUMENT, OK, OUT_OF_BOUNDS, OUT_OF_MEMORY, status_of};
use ndarray_layout::{
    ErrorKind, IxDyn, LayoutError, Lengths, Order, Strided, advance_column_major,
    advance_row_major, from_kind, is_index, new_ixdyn, product,
};
use std::alloc::Global;

/// Moves an index of a shape to the next one in an order, and returns whether there is one; the last index becomes the first.
fn step(shape: &[usize], index: &mut [usize], order: Order) -> bool
    requires { is_index shape.now index.old ≡ true }
    ensures more { result ≡ has_index_after order shape.now index.old }
    ensures next { index.new ≡ index_after order shape.now index.old }
{
    match order {
        Order::RowMajor => advance_row_major(shape, index),
        Order::ColumnMajor => advance_column_major(shape, index),
    }
}

/// Moves an index of a shape to the next one in an order, and writes whether there is one; the last index becomes the first.
#[unsafe(no_mangle)]
pub extern "C" fn nd_next_index(
    shape: &[usize],
    index: &mut [usize],
    order: i32,
    has_next: &mut i32,
) -> i32
    ensures status { result ≡
        status_where (not (is_choice order)) (index_fault shape.now index.old) }
    ensures index { result ≡ ok → index.new ≡ index_after (order_named order) shape.now index.old }
    ensures has_next { result ≡ ok → has_next.new ≡
        (if has_index_after (order_named order) shape.now index.old then pos 1 else pos 0) }
    ensures unchanged { result ≢ ok →
        (index.new ≡ index.old) × (has_next.new ≡ has_next.old) }
{
    if !is_choice(order) {
        return BAD_ARGUMENT;
    }
    if !is_index(shape, index) {
        return OUT_OF_BOUNDS;
    }
    *has_next = answer_of(step(shape, index, order_named(order)));
    OK
}

/// The place of an index of a layout.
///
/// Errors: those of `view_from`, then `OutOfBounds` where the list is no index of the shape; out of memory, never for at most
/// four items.
fn place_of(
    alloc: Global,
    start: usize,
    shape: &[usize],
    strides: &[usize],
    index: &[usize],
) -> Result<usize, LayoutError>
    ensures fits { OnOk result (option_or (layout_fault_from start shape.now
        (all_signed strides.now))
        (index_fault shape.now index.now) ≡ None) }
    ensures fault { (kind : ErrorKind) → shape_fault result ≡ Some kind →
        option_or (layout_fault_from start shape.now (all_signed strides.now))
        (index_fault shape.now index.now) ≡ Some kind }
    ensures memory { NeedsNoMemory None (length shape.now) →
        NeedsNoMemory None (length strides.now) → NeedsNoMemory None (length index.now) →
        shape_fault result ≡ None → IsOk result }
    ensures place { IfOk result (λ place. pos place ≡
        place_at (view_of start shape.now strides.now) index.now) }
{
    let view = view_from(alloc, start, shape, strides)?;
    let index = new_ixdyn(alloc, index)?;
    match view.place(&index) {
        Some(place) => Ok(place),
        None => Err(LayoutError::Shape(from_kind(ErrorKind::OutOfBounds))),
    }
}

/// Writes the place of an index of a layout.
#[unsafe(no_mangle)]
pub extern "C" fn nd_place(
    alloc: Global,
    start: usize,
    shape: &[usize],
    strides: &[usize],
    index: &[usize],
    place: &mut usize,
) -> i32
    ensures status { result ≢ out_of_memory → result ≡ status_of
        (option_or (layout_fault_from start shape.now (all_signed strides.now))
        (index_fault shape.now index.now)) }
    ensures memory { NeedsNoMemory None (length shape.now) →
        NeedsNoMemory None (length strides.now) → NeedsNoMemory None (length index.now) →
        result ≢ out_of_memory }
    ensures place { result ≡ ok → pos place.new ≡
        place_at (view_of start shape.now strides.now) index.now }
    ensures unchanged { result ≢ ok → place.new ≡ place.old }
{
    match place_of(alloc, start, shape, strides, index) {
        Ok(found) => {
            *place = found;
            OK
        },
        Err(LayoutError::Shape(error)) => status_of(error.kind()),
        Err(LayoutError::Memory(_)) => OUT_OF_MEMORY,
    }
}

/// Writes the places of all indices of a view, in an order. The caller ensures that there is room for just as many.
fn fill_places(view: &Strided<IxDyn>, order: Order, places: &mut [usize])
    requires { length places.old ≡ size view.now.shape }
    ensures { map pos places.new ≡ view_places order view.now }
{
    for (at, place) in view.iter_places(order).enumerate() {
        places[at] = place;
    }
}

/// Writes the places of all indices of a view, in an order, and returns the status.
#[tactic(auto, using(crate::proofs::Counts::size_le))]
fn write_places(view: &Strided<IxDyn>, order: Order, places: &mut [usize]) -> i32
    ensures status { result ≡ status_where (not (length places.old == size view.now.shape)) None }
    ensures places { result ≡ ok → map pos places.new ≡ view_places order view.now }
    ensures unchanged { result ≢ ok → places.new ≡ places.old }
{
    if places.len() != product(view.dim().slice()) {
        return BAD_ARGUMENT;
    }
    fill_places(view, order, places);
    OK
}

/// Writes the places of all indices of a layout, in an order.
#[unsafe(no_mangle)]
pub extern "C" fn nd_places(
    alloc: Global,
    start: usize,
    shape: &[usize],
    strides: &[usize],
    order: i32,
    places: &mut [usize],
) -> i32
    ensures status { result ≢ out_of_memory → result ≡ status_until (not (is_choice order))
        (layout_fault_from start shape.now (all_signed strides.now))
        (not (length places.old == size shape.now)) }
    ensures bad { is_choice order ≡ false → result ≡ bad_argument }
    ensures memory { NeedsNoMemory None (length shape.now) →
        NeedsNoMemory None (length strides.now) → result ≢ out_of_memory }
    ensures places { result ≡ ok → map pos places.new ≡
        view_places (order_named order) (view_of start shape.now strides.now) }
    ensures unchanged { result ≢ ok → places.new ≡ places.old }
{
    if !is_choice(order) {
        return BAD_ARGUMENT;
    }
    match view_from(alloc, start, shape, strides) {
        Ok(view) => write_places(&view, order_named(order), places),
        Err(LayoutError::Shape(error)) => status_of(error.kind()),
        Err(LayoutError::Memory(_)) => OUT_OF_MEMORY,
    }
}
