//! Whether the places of a layout follow one another.
ghost use Rattle.std.specs.Prelude.{◌≡◌, ◌≢◌, ◌+◌, ◌↔◌, None, false, length, not, pos, true};
ghost use Rattle.ndarray_layout.specs.Memory.{NeedsNoMemory};
ghost use Rattle.ndarray_layout.specs.Signed.{all_signed};
ghost use Rattle.ndarray_layout.specs.Size.{size};
ghost use Rattle.ndarray_layout.specs.Stretch.{IsStretch, stretch_start};
ghost use Rattle.ndarray_layout.specs.View.{view_of};
ghost use Rattle.ndarray_layout_c.specs.Arguments.{is_choice, order_named};
ghost use Rattle.ndarray_layout_c.specs.LayoutFault.{layout_fault_from};
ghost use Rattle.ndarray_layout_c.specs.Statuses.{bad_argument, ok, out_of_memory, status_where};

use crate::arguments::{answer_of, is_choice, order_named};
use crate::lists::view_from;
use crate::statuses::{BAD_ARGUMENT, OK, OUT_OF_MEMORY, status_of};
use ndarray_layout::{IxDyn, LayoutError, Order, Strided};
use std::alloc::Global;

/// Writes the first place of a view and the one after its last, where its places follow one another in an order, and returns the
/// answer.
fn write_stretch(view: &Strided<IxDyn>, order: Order, first: &mut usize, end: &mut usize) -> i32
    ensures answer { is_choice result ≡ true }
    ensures found { (result ≡ pos 1) ↔ IsStretch order view.now }
    ensures first { result ≡ pos 1 → first.new ≡ stretch_start view.now }
    ensures end { result ≡ pos 1 → end.new ≡ stretch_start view.now + size view.now.shape }
    ensures none_first { result ≡ pos 0 → first.new ≡ first.old }
    ensures none_end { result ≡ pos 0 → end.new ≡ end.old }
{
    let stretch = view.stretch(order);
    if let Some(places) = &stretch {
        *first = places.start;
        *end = places.end;
    }
    answer_of(stretch.is_some())
}

/// Writes whether the places of a layout follow one another in an order without a gap, and where they do, the first of them and
/// the one after the last.
#[unsafe(no_mangle)]
pub extern "C" fn nd_stretch(
    alloc: Global,
    start: usize,
    shape: &[usize],
    strides: &[usize],
    order: i32,
    first: &mut usize,
    end: &mut usize,
    found: &mut i32,
) -> i32
    ensures status { result ≢ out_of_memory → result ≡ status_where (not (is_choice order))
        (layout_fault_from start shape.now (all_signed strides.now)) }
    ensures bad { is_choice order ≡ false → result ≡ bad_argument }
    ensures memory { NeedsNoMemory None (length shape.now) →
        NeedsNoMemory None (length strides.now) → result ≢ out_of_memory }
    ensures answer { result ≡ ok → is_choice found.new ≡ true }
    ensures found { result ≡ ok → ((found.new ≡ pos 1) ↔
        IsStretch (order_named order) (view_of start shape.now strides.now)) }
    ensures first { result ≡ ok → found.new ≡ pos 1 →
        first.new ≡ stretch_start (view_of start shape.now strides.now) }
    ensures end { result ≡ ok → found.new ≡ pos 1 →
        end.new ≡ stretch_start (view_of start shape.now strides.now) + size shape.now }
    ensures none_first { result ≡ ok → found.new ≡ pos 0 → first.new ≡ first.old }
    ensures none_end { result ≡ ok → found.new ≡ pos 0 → end.new ≡ end.old }
    ensures unchanged_first { result ≢ ok → first.new ≡ first.old }
    ensures unchanged_end { result ≢ ok → end.new ≡ end.old }
    ensures unchanged_found { result ≢ ok → found.new ≡ found.old }
{
    if !is_choice(order) {
        return BAD_ARGUMENT;
    }
    match view_from(alloc, start, shape, strides) {
        Ok(view) => {
            *found = write_stretch(&view, order_named(order), first, end);
            OK
        },
        Err(LayoutError::Shape(error)) => status_of(error.kind()),
        Err(LayoutError::Memory(_)) => OUT_OF_MEMORY,
    }
}
