//! The axes that move fastest, joined in several layouts of one shape at once.
ghost use Rattle.std.specs.Prelude.{◌≡◌, ◌≢◌, ◌==◌, ◌<◌, ◌≤◌, ◌+◌, ◌*◌, ◌||◌, not, None, ℕ, length, OnOk};
ghost use Rattle.std.specs.Result.{result_err};
ghost use Rattle.ndarray_layout.specs.JoinedInAll.{AreJoined, NoMoreJoin, strides_of};
ghost use Rattle.ndarray_layout.specs.Signed.{all_signed};
ghost use Rattle.ndarray_layout.specs.ValidLayout.{IsValidLayout};
ghost use Rattle.ndarray_layout_c.specs.Arguments.{is_choice, order_named};
ghost use Rattle.ndarray_layout_c.specs.LayoutsFault.{fault_of_layout, layouts_fault};
ghost use Rattle.ndarray_layout_c.specs.Statuses.{ok, status_where};

use crate::arguments::{is_choice, order_named};
use crate::statuses::{BAD_ARGUMENT, OK, status_of};
use ndarray_layout::{ErrorKind, ShapeError, joined_in_all, span_of_lengths};

/// Tests one of several layouts of a shape, of which the strides stand one after another.
///
/// Errors: those of `span_of_lengths` for elements of one byte.
fn test_layout(shape: &[usize], strides: &[usize], number: usize) -> Result<(), ShapeError>
    requires { number * length shape.now + length shape.now ≤ length strides.now }
    ensures fault { result_err result ≡ fault_of_layout shape.now strides.now number }
    ensures valid { OnOk result
        (IsValidLayout shape.now (all_signed (strides_of (length shape.now) number strides.now))) }
{
    let first = number * shape.len();
    span_of_lengths(1, shape, &strides[first..first + shape.len()])?;
    Ok(())
}

/// Whether a list has so many items for each of so many axes.
fn has_count(len: usize, axes: usize, each: usize) -> bool
    ensures { result ≡ (len == axes * each) }
{
    match axes.checked_mul(each) {
        Some(expected) => len == expected,
        None => false,
    }
}

/// The fault of so many layouts of one shape, of which the strides stand one after another.
fn layouts_fault(shape: &[usize], strides: &[usize], layouts: usize) -> Option<ErrorKind>
    ensures fault { result ≡ layouts_fault shape.now strides.now layouts }
    ensures counts { result ≡ None → length strides.now ≡ length shape.now * layouts }
    ensures valid { result ≡ None → (number : ℕ) → number < layouts →
        IsValidLayout shape.now (all_signed (strides_of (length shape.now) number strides.now)) }
{
    if !has_count(strides.len(), shape.len(), layouts) {
        return Some(ErrorKind::IncompatibleLayout);
    }
    for number in 0..layouts {
        if let Err(error) = test_layout(shape, strides, number) {
            return Some(error.kind());
        }
    }
    None
}

/// Writes how many of the axes that move fastest are one in each of several layouts of a shape, its length, and its stride in
/// each layout.
#[unsafe(no_mangle)]
pub extern "C" fn nd_joined_in_all(
    shape: &[usize],
    strides: &[usize],
    order: i32,
    new_strides: &mut [usize],
    count: &mut usize,
    len: &mut usize,
) -> i32
    ensures status { result ≡ status_where (not (is_choice order) || length new_strides.old == 0)
        (layouts_fault shape.now strides.now (length new_strides.old)) }
    ensures count { result ≡ ok → count.new ≤ length shape.now }
    ensures joined { result ≡ ok → AreJoined (order_named order) shape.now strides.now
        count.new len.new new_strides.new }
    ensures longest { result ≡ ok → NoMoreJoin (order_named order) shape.now strides.now
        count.new len.new new_strides.new }
    ensures unchanged { result ≢ ok → (new_strides.new ≡ new_strides.old)
        × (count.new ≡ count.old) × (len.new ≡ len.old) }
{
    if !is_choice(order) || new_strides.is_empty() {
        return BAD_ARGUMENT;
    }
    match layouts_fault(shape, strides, new_strides.len()) {
        Some(kind) => status_of(kind),
        None => {
            let joined = joined_in_all(order_named(order), shape, strides, new_strides);
            *count = joined.0;
            *len = joined.1;
            OK
        },
    }
}
