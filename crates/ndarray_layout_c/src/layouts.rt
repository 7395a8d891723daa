//! Layouts: which are accepted, and what they are like.
ghost use Rattle.std.specs.Prelude.{◌≡◌, ◌≢◌, ◌↔◌, ◌==◌, IsTrue, true, false, not, ◌&&◌, pos};
ghost use Rattle.std.specs.Prelude.{None, Some, length, if◌then◌else◌, IfOk, IsOk, OnOk};
ghost use Rattle.ndarray_layout.specs.declared.Order.TheVariants.{ColumnMajor, RowMajor};
ghost use Rattle.ndarray_layout.specs.declared.ErrorKind.{ErrorKind};
ghost use Rattle.ndarray_layout.specs.Acceptance.{acceptance, size_fault};
ghost use Rattle.ndarray_layout.specs.AcceptanceFrom.{acceptance_from};
ghost use Rattle.ndarray_layout.specs.Contiguous.{is_contiguous as is_contiguous_layout};
ghost use Rattle.ndarray_layout.specs.Dim.{lengths};
ghost use Rattle.ndarray_layout.specs.Memory.{NeedsNoMemory};
ghost use Rattle.ndarray_layout.specs.MajorOrder.{LiesInOrder};
ghost use Rattle.ndarray_layout.specs.NoAlias.{satisfies_no_alias_rule};
ghost use Rattle.ndarray_layout.specs.ShapeFault.{shape_fault};
ghost use Rattle.ndarray_layout.specs.Signed.{all_signed};
ghost use Rattle.ndarray_layout.specs.Size.{is_empty};
ghost use Rattle.ndarray_layout.specs.Span.{low_span};
ghost use Rattle.ndarray_layout.specs.ValidLayout.{IsValidLayout};
ghost use Rattle.ndarray_layout_c.specs.OwnStrides.{own_strides, own_strides_fault};
ghost use Rattle.ndarray_layout_c.specs.Arguments.{is_choice, mode_named};
ghost use Rattle.ndarray_layout_c.specs.Statuses.{bad_argument, ok, out_of_memory, status_of, status_where};

use crate::arguments::{answer_of, is_choice, mode_named};
use crate::lists::layout;
use crate::statuses::{BAD_ARGUMENT, OK, OUT_OF_MEMORY, status_of};
use ndarray_layout::{
    CanIndexCheckMode, Dimension, IxDyn, LayoutError, Lengths, Order, Strided, accept,
    default_strides, fortran_strides, has_overlap, is_layout_c, is_layout_f, low_span, new_ixdyn,
    size_of_shape_checked, span_of_lengths,
};
use std::alloc::Global;

/// Accepts a layout over data of `len` elements of `elem_size` bytes, and writes the place of its first index, where its lowest
/// place is 0.
#[unsafe(no_mangle)]
pub extern "C" fn nd_layout_start(
    shape: &[usize],
    strides: &[usize],
    elem_size: usize,
    len: usize,
    mode: i32,
    start: &mut usize,
) -> i32
    ensures status { result ≡ status_where (not (is_choice mode))
        (acceptance elem_size len (mode_named mode) shape.now (all_signed strides.now)) }
    ensures start { result ≡ ok → start.new ≡ low_span shape.now (all_signed strides.now) }
    ensures unchanged { result ≢ ok → start.new ≡ start.old }
{
    if !is_choice(mode) {
        return BAD_ARGUMENT;
    }
    if let Err(error) = accept(elem_size, len, shape, strides, mode_named(mode)) {
        return status_of(error.kind());
    }
    *start = low_span(shape, strides);
    OK
}

/// Accepts a layout from a start over data of `len` elements of `elem_size` bytes, and returns the status.
fn check_from(
    alloc: Global,
    start: usize,
    shape: &[usize],
    strides: &[usize],
    elem_size: usize,
    len: usize,
    mode: CanIndexCheckMode,
) -> Result<(), LayoutError>
    ensures fits { OnOk result
        (acceptance_from start elem_size len mode shape.now (all_signed strides.now) ≡ None) }
    ensures fault { (kind : ErrorKind) → shape_fault result ≡ Some kind →
        acceptance_from start elem_size len mode shape.now (all_signed strides.now) ≡ Some kind }
    ensures memory { NeedsNoMemory None (length shape.now) →
        NeedsNoMemory None (length strides.now) → shape_fault result ≡ None → IsOk result }
{
    let (dim, strides) = (new_ixdyn(alloc, shape)?, new_ixdyn(alloc, strides)?);
    let _view = Strided::from_parts(start, dim, strides, elem_size, len, mode)?;
    Ok(())
}

/// Accepts a layout from a start over data of `len` elements of `elem_size` bytes.
#[unsafe(no_mangle)]
pub extern "C" fn nd_check_layout(
    alloc: Global,
    start: usize,
    shape: &[usize],
    strides: &[usize],
    elem_size: usize,
    len: usize,
    mode: i32,
) -> i32
    ensures status { result ≢ out_of_memory → result ≡ status_where (not (is_choice mode))
        (acceptance_from start elem_size len (mode_named mode) shape.now
        (all_signed strides.now)) }
    ensures bad { is_choice mode ≡ false → result ≡ bad_argument }
    ensures memory { NeedsNoMemory None (length shape.now) →
        NeedsNoMemory None (length strides.now) → result ≢ out_of_memory }
{
    if !is_choice(mode) {
        return BAD_ARGUMENT;
    }
    let mode = mode_named(mode);
    match check_from(alloc, start, shape, strides, elem_size, len, mode) {
        Ok(()) => OK,
        Err(LayoutError::Shape(error)) => status_of(error.kind()),
        Err(LayoutError::Memory(_)) => OUT_OF_MEMORY,
    }
}

/// Writes whether two indices of a layout may alias.
#[unsafe(no_mangle)]
pub extern "C" fn nd_has_overlap(shape: &[usize], strides: &[usize], answer: &mut i32) -> i32
    ensures status { result ≡ status_of (size_fault 1 shape.now (all_signed strides.now)) }
    ensures answer { result ≡ ok → answer.new ≡ (if not (is_empty shape.now)
        && not (satisfies_no_alias_rule shape.now (all_signed strides.now)) then pos 1 else pos 0) }
    ensures unchanged { result ≢ ok → answer.new ≡ answer.old }
{
    if let Err(error) = span_of_lengths(1, shape, strides) {
        return status_of(error.kind());
    }
    *answer = answer_of(has_overlap(shape, strides));
    OK
}

/// The strides that a shape has by itself, in an order.
///
/// Errors: `Overflow` where the product of the lengths that are not 0 is greater than `isize::MAX`; out of memory, never for at
/// most four axes.
fn own_strides(alloc: Global, shape: &[usize], order: Order) -> Result<IxDyn, LayoutError>
    ensures fits { OnOk result (own_strides_fault shape.now ≡ None) }
    ensures fault { (kind : ErrorKind) → shape_fault result ≡ Some kind →
        own_strides_fault shape.now ≡ Some kind }
    ensures memory { NeedsNoMemory None (length shape.now) →
        shape_fault result ≡ None → IsOk result }
    ensures strides { IfOk result (λ strides. lengths strides ≡ own_strides order shape.now) }
{
    let dim = new_ixdyn(alloc, shape)?;
    let _size = size_of_shape_checked(&dim)?;
    Ok(match order {
        Order::RowMajor => default_strides(alloc, &dim)?,
        Order::ColumnMajor => fortran_strides(alloc, &dim)?,
    })
}

/// Writes the strides that a shape has by itself, in an order, and returns the status.
#[tactic(auto, using(crate::proofs::Counts::length_own_strides))]
fn write_own_strides(alloc: Global, shape: &[usize], strides: &mut [usize], order: Order) -> i32
    ensures status { result ≢ out_of_memory → result ≡ status_where
        (not (length strides.old == length shape.now)) (own_strides_fault shape.now) }
    ensures bad { length strides.old ≢ length shape.now → result ≡ bad_argument }
    ensures memory { NeedsNoMemory None (length shape.now) → result ≢ out_of_memory }
    ensures strides { result ≡ ok → strides.new ≡ own_strides order shape.now }
    ensures unchanged { result ≢ ok → strides.new ≡ strides.old }
{
    if strides.len() != shape.len() {
        return BAD_ARGUMENT;
    }
    match own_strides(alloc, shape, order) {
        Ok(own) => {
            strides.copy_from_slice(own.slice());
            OK
        },
        Err(LayoutError::Shape(error)) => status_of(error.kind()),
        Err(LayoutError::Memory(_)) => OUT_OF_MEMORY,
    }
}

/// Writes the strides by which the last axis of a shape moves fastest.
#[unsafe(no_mangle)]
pub extern "C" fn nd_default_strides(alloc: Global, shape: &[usize], strides: &mut [usize]) -> i32
    ensures status { result ≢ out_of_memory → result ≡ status_where
        (not (length strides.old == length shape.now)) (own_strides_fault shape.now) }
    ensures bad { length strides.old ≢ length shape.now → result ≡ bad_argument }
    ensures memory { NeedsNoMemory None (length shape.now) → result ≢ out_of_memory }
    ensures strides { result ≡ ok → strides.new ≡ own_strides RowMajor shape.now }
    ensures unchanged { result ≢ ok → strides.new ≡ strides.old }
{
    write_own_strides(alloc, shape, strides, Order::RowMajor)
}

/// Writes the strides by which the first axis of a shape moves fastest.
#[unsafe(no_mangle)]
pub extern "C" fn nd_fortran_strides(alloc: Global, shape: &[usize], strides: &mut [usize]) -> i32
    ensures status { result ≢ out_of_memory → result ≡ status_where
        (not (length strides.old == length shape.now)) (own_strides_fault shape.now) }
    ensures bad { length strides.old ≢ length shape.now → result ≡ bad_argument }
    ensures memory { NeedsNoMemory None (length shape.now) → result ≢ out_of_memory }
    ensures strides { result ≡ ok → strides.new ≡ own_strides ColumnMajor shape.now }
    ensures unchanged { result ≢ ok → strides.new ≡ strides.old }
{
    write_own_strides(alloc, shape, strides, Order::ColumnMajor)
}

/// Writes whether no two indices of a layout have one place, and all fill a stretch without a gap. Without an index the rule on
/// lengths and strides decides.
#[unsafe(no_mangle)]
pub extern "C" fn nd_is_contiguous(
    alloc: Global,
    shape: &[usize],
    strides: &[usize],
    answer: &mut i32,
) -> i32
    ensures status { result ≢ out_of_memory →
        result ≡ status_of (size_fault 1 shape.now (all_signed strides.now)) }
    ensures memory { NeedsNoMemory None (length shape.now) →
        NeedsNoMemory None (length strides.now) → result ≢ out_of_memory }
    ensures answer { result ≡ ok → answer.new ≡
        (if is_contiguous_layout shape.now (all_signed strides.now) then pos 1 else pos 0) }
    ensures unchanged { result ≢ ok → answer.new ≡ answer.old }
{
    match layout(alloc, shape, strides) {
        Ok((dim, strides)) => {
            *answer = answer_of(IxDyn::is_contiguous(&dim, &strides));
            OK
        },
        Err(LayoutError::Shape(error)) => status_of(error.kind()),
        Err(LayoutError::Memory(_)) => OUT_OF_MEMORY,
    }
}

/// Whether the places of all indices of a layout, in an order, follow one another without a gap.
fn is_layout_in(order: Order, dim: &IxDyn, strides: &IxDyn) -> bool
    requires valid { IsValidLayout (lengths dim.now) (all_signed (lengths strides.now)) }
    ensures { IsTrue result
        ↔ LiesInOrder order (lengths dim.now) (all_signed (lengths strides.now)) }
{
    match order {
        Order::RowMajor => is_layout_c(dim, strides),
        Order::ColumnMajor => is_layout_f(dim, strides),
    }
}

/// Writes whether the places of all indices of a layout, in an order, follow one another without a gap, and returns the
/// status.
fn write_is_layout(
    alloc: Global,
    order: Order,
    shape: &[usize],
    strides: &[usize],
    answer: &mut i32,
) -> i32
    ensures status { result ≢ out_of_memory →
        result ≡ status_of (size_fault 1 shape.now (all_signed strides.now)) }
    ensures memory { NeedsNoMemory None (length shape.now) →
        NeedsNoMemory None (length strides.now) → result ≢ out_of_memory }
    ensures answer { result ≡ ok → is_choice answer.new ≡ true }
    ensures places { result ≡ ok →
        ((answer.new ≡ pos 1) ↔ LiesInOrder order shape.now (all_signed strides.now)) }
    ensures unchanged { result ≢ ok → answer.new ≡ answer.old }
{
    match layout(alloc, shape, strides) {
        Ok((dim, strides)) => {
            *answer = answer_of(is_layout_in(order, &dim, &strides));
            OK
        },
        Err(LayoutError::Shape(error)) => status_of(error.kind()),
        Err(LayoutError::Memory(_)) => OUT_OF_MEMORY,
    }
}

/// Writes whether the places of all indices of a layout, in row-major order, follow one another without a gap.
#[unsafe(no_mangle)]
pub extern "C" fn nd_is_layout_c(
    alloc: Global,
    shape: &[usize],
    strides: &[usize],
    answer: &mut i32,
) -> i32
    ensures status { result ≢ out_of_memory →
        result ≡ status_of (size_fault 1 shape.now (all_signed strides.now)) }
    ensures memory { NeedsNoMemory None (length shape.now) →
        NeedsNoMemory None (length strides.now) → result ≢ out_of_memory }
    ensures answer { result ≡ ok → is_choice answer.new ≡ true }
    ensures places { result ≡ ok →
        ((answer.new ≡ pos 1) ↔ LiesInOrder RowMajor shape.now (all_signed strides.now)) }
    ensures unchanged { result ≢ ok → answer.new ≡ answer.old }
{
    write_is_layout(alloc, Order::RowMajor, shape, strides, answer)
}

/// Writes whether the places of all indices of a layout, in column-major order, follow one another without a gap.
#[unsafe(no_mangle)]
pub extern "C" fn nd_is_layout_f(
    alloc: Global,
    shape: &[usize],
    strides: &[usize],
    answer: &mut i32,
) -> i32
    ensures status { result ≢ out_of_memory →
        result ≡ status_of (size_fault 1 shape.now (all_signed strides.now)) }
    ensures memory { NeedsNoMemory None (length shape.now) →
        NeedsNoMemory None (length strides.now) → result ≢ out_of_memory }
    ensures answer { result ≡ ok → is_choice answer.new ≡ true }
    ensures places { result ≡ ok →
        ((answer.new ≡ pos 1) ↔ LiesInOrder ColumnMajor shape.now (all_signed strides.now)) }
    ensures unchanged { result ≢ ok → answer.new ≡ answer.old }
{
    write_is_layout(alloc, Order::ColumnMajor, shape, strides, answer)
}
