//! Shapes in common, axes merged, and layouts along other shapes.
ghost use Rattle.std.specs.Prelude.{◌≡◌, ◌≢◌, ◌≤◌, ◌==◌, ◌↔◌, ◌&&◌, not, false, max, take, length, pos};
ghost use Rattle.std.specs.Prelude.{None, Some, if◌then◌else◌, IfOk, IsOk, OnOk, slice_index, true};
ghost use Rattle.std.specs.Option.{option_or};
ghost use Rattle.ndarray_layout.specs.declared.ErrorKind.{ErrorKind};
ghost use Rattle.ndarray_layout.specs.Acceptance.{size_fault};
ghost use Rattle.ndarray_layout.specs.AxesInOrder.{axis_numbers};
ghost use Rattle.ndarray_layout.specs.BroadcastView.{broadcast_fault, broadcast_source, broadcast_strides};
ghost use Rattle.ndarray_layout.specs.CommonShape.{common_shape, common_shape_fault};
ghost use Rattle.ndarray_layout.specs.Memory.{NeedsNoMemory};
ghost use Rattle.ndarray_layout.specs.Merge.{MergeFits, merged_shape, merged_strides};
ghost use Rattle.ndarray_layout.specs.MergedView.{axes_fault, merge_source};
ghost use Rattle.ndarray_layout.specs.PermutedView.{permute_fault, permute_source, permuted_of};
ghost use Rattle.ndarray_layout.specs.ReshapedView.{reshape_source, reshaped_strides, view_reshape_fault};
ghost use Rattle.ndarray_layout.specs.ShapeFault.{shape_fault};
ghost use Rattle.ndarray_layout.specs.Signed.{all_signed, signed};
ghost use Rattle.ndarray_layout_c.specs.Arguments.{is_choice, order_named};
ghost use Rattle.ndarray_layout_c.specs.Kept.{DescendsInPlace, IsLayoutOf};
ghost use Rattle.ndarray_layout_c.specs.LayoutFault.{layout_fault, lowest_view};
ghost use Rattle.ndarray_layout_c.specs.Statuses.{bad_argument, ok, out_of_memory, status_of, status_where};

use crate::arguments::{answer_of, is_choice, order_named};
use crate::elements::FEW;
use crate::lists::{view, write_axes};
use crate::statuses::{
    BAD_ARGUMENT, INCOMPATIBLE_SHAPE, OK, OUT_OF_BOUNDS, OUT_OF_MEMORY, UNSUPPORTED, status_of,
};
use ndarray_layout::{
    Axis, IxDyn, LayoutError, Lengths, Order, Strided, fill_common_shape, have_common_shape,
    merge_fitting, new_ixdyn, span_of_lengths,
};
use std::alloc::{AllocError, Global};

/// Writes the common shape of two shapes, of which the first has no fewer axes, and returns the status.
fn write_common_shape(longer: &[usize], shorter: &[usize], common: &mut [usize]) -> i32
    requires shorter { length shorter.now ≤ length longer.now }
    ensures status { result ≡ status_where
        (not (length common.old == length longer.now)) (common_shape_fault longer.now shorter.now) }
    ensures common { result ≡ ok → common_shape longer.now shorter.now ≡ Some common.new }
    ensures unchanged { result ≢ ok → common.new ≡ common.old }
{
    if common.len() != longer.len() {
        return BAD_ARGUMENT;
    }
    if !have_common_shape(longer, shorter) {
        return INCOMPATIBLE_SHAPE;
    }
    fill_common_shape(longer, shorter, common);
    OK
}

/// Writes the shape that two shapes have in common, by NumPy's rule.
#[tactic(auto, using(crate::proofs::CommonShapes::shape_commutes, crate::proofs::CommonShapes::fault_commutes))]
#[unsafe(no_mangle)]
pub extern "C" fn nd_co_broadcast(first: &[usize], second: &[usize], common: &mut [usize]) -> i32
    ensures status { result ≡ status_where
        (not (length common.old == max (length first.now) (length second.now)))
        (common_shape_fault first.now second.now) }
    ensures common { result ≡ ok → common_shape first.now second.now ≡ Some common.new }
    ensures unchanged { result ≢ ok → common.new ≡ common.old }
{
    if first.len() < second.len() {
        write_common_shape(second, first, common)
    } else {
        write_common_shape(first, second, common)
    }
}

/// Merges the axis `take` into the axis `into`, in place, where one stride has the coordinates of both, and writes
/// whether it did.
#[unsafe(no_mangle)]
pub extern "C" fn nd_merge_axes(
    shape: &mut [usize],
    strides: &mut [usize],
    take: usize,
    into: usize,
    merged: &mut i32,
) -> i32
    ensures status { result ≡ status_of (option_or
        (size_fault 1 shape.old (all_signed strides.old)) (axes_fault shape.old take into)) }
    ensures answer { result ≡ ok → is_choice merged.new ≡ true }
    ensures fits { result ≡ ok → ((merged.new ≡ pos 1) ↔ MergeFits
        (slice_index shape.old take)
        (signed (slice_index strides.old take))
        (slice_index shape.old into)
        (signed (slice_index strides.old into))) }
    ensures merged { result ≡ ok → merged.new ≡ pos 1 →
        (shape.new ≡ merged_shape take into shape.old)
        × (strides.new ≡ merged_strides take into shape.old strides.old) }
    ensures apart { result ≡ ok → merged.new ≡ pos 0 →
        (shape.new ≡ shape.old) × (strides.new ≡ strides.old) }
    ensures kept { result ≡ ok → merged.new ≡ pos 1 →
        DescendsInPlace (merge_source take into shape.old)
        shape.old strides.old shape.new strides.new }
    ensures unchanged { result ≢ ok →
        (shape.new ≡ shape.old) × (strides.new ≡ strides.old) × (merged.new ≡ merged.old) }
{
    if let Err(error) = span_of_lengths(1, shape, strides) {
        return status_of(error.kind());
    }
    if take >= shape.len() || into >= shape.len() {
        return OUT_OF_BOUNDS;
    }
    if take == into {
        return UNSUPPORTED;
    }
    *merged = answer_of(merge_fitting(shape, strides, take, into));
    OK
}

/// A layout read as one of a shape.
///
/// Errors: those of `view`, then those of `Strided::broadcast`; out of memory, never for at most four items.
fn broadcast(
    alloc: Global,
    shape: &[usize],
    strides: &[usize],
    target: &[usize],
) -> Result<Strided<IxDyn>, LayoutError>
    ensures fits { OnOk result (option_or (layout_fault shape.now (all_signed strides.now))
        (broadcast_fault target.now shape.now) ≡ None) }
    ensures fault { (kind : ErrorKind) → shape_fault result ≡ Some kind →
        option_or (layout_fault shape.now (all_signed strides.now))
        (broadcast_fault target.now shape.now) ≡ Some kind }
    ensures memory { NeedsNoMemory None (length shape.now) →
        NeedsNoMemory None (length strides.now) → NeedsNoMemory None (length target.now) →
        shape_fault result ≡ None → IsOk result }
    ensures shape { IfOk result (λ v. v.shape ≡ target.now) }
    ensures strides { IfOk result (λ v. v.strides ≡
        broadcast_strides target.now shape.now (all_signed strides.now)) }
{
    let view = view(alloc, shape, strides)?;
    let target = new_ixdyn(alloc, target)?;
    view.broadcast(alloc, &target)
}

/// Writes the strides along which a layout is read as one of the shape `target`.
#[unsafe(no_mangle)]
pub extern "C" fn nd_broadcast(
    alloc: Global,
    shape: &[usize],
    strides: &[usize],
    target: &[usize],
    new_strides: &mut [usize],
) -> i32
    ensures status { result ≢ out_of_memory → result ≡ status_where
        (not (length new_strides.old == length target.now))
        (option_or (layout_fault shape.now (all_signed strides.now))
        (broadcast_fault target.now shape.now)) }
    ensures bad { length new_strides.old ≢ length target.now → result ≡ bad_argument }
    ensures memory { NeedsNoMemory None (length shape.now) →
        NeedsNoMemory None (length strides.now) → NeedsNoMemory None (length target.now) →
        result ≢ out_of_memory }
    ensures strides { result ≡ ok → all_signed new_strides.new ≡
        broadcast_strides target.now shape.now (all_signed strides.now) }
    ensures kept { result ≡ ok → IsLayoutOf (broadcast_source shape.now)
        shape.now strides.now target.now new_strides.new }
    ensures unchanged { result ≢ ok → new_strides.new ≡ new_strides.old }
{
    if new_strides.len() != target.len() {
        return BAD_ARGUMENT;
    }
    match broadcast(alloc, shape, strides, target) {
        Ok(view) => {
            new_strides.copy_from_slice(view.strides().slice());
            OK
        },
        Err(LayoutError::Shape(error)) => status_of(error.kind()),
        Err(LayoutError::Memory(_)) => OUT_OF_MEMORY,
    }
}

/// Writes the strides along which a shape has the places of a view in an order, and returns the status.
#[tactic(auto, using(crate::proofs::Counts::length_all_signed))]
fn write_reshaped(
    alloc: Global,
    view: &Strided<IxDyn>,
    order: Order,
    new_shape: &[usize],
    new_strides: &mut [usize],
) -> i32
    requires count { length new_strides.old ≡ length new_shape.now }
    ensures status { result ≢ out_of_memory →
        result ≡ status_of (view_reshape_fault order new_shape.now view.now) }
    ensures fits { result ≡ ok → view_reshape_fault order new_shape.now view.now ≡ None }
    ensures memory { NeedsNoMemory None (length new_shape.now) → result ≢ out_of_memory }
    ensures strides { result ≡ ok → all_signed new_strides.new ≡
        reshaped_strides order new_shape.now view.now }
    ensures unchanged { result ≢ ok → new_strides.new ≡ new_strides.old }
{
    let Ok(new_shape) = new_ixdyn(alloc, new_shape) else {
        return OUT_OF_MEMORY;
    };
    match view.reshape(alloc, &new_shape, order) {
        Ok(reshaped) => {
            new_strides.copy_from_slice(reshaped.strides().slice());
            OK
        },
        Err(LayoutError::Shape(error)) => status_of(error.kind()),
        Err(LayoutError::Memory(_)) => OUT_OF_MEMORY,
    }
}

/// Writes the strides along which a shape has the places of a layout in an order.
#[unsafe(no_mangle)]
pub extern "C" fn nd_reshape(
    alloc: Global,
    shape: &[usize],
    strides: &[usize],
    new_shape: &[usize],
    order: i32,
    new_strides: &mut [usize],
) -> i32
    ensures status { result ≢ out_of_memory → result ≡ status_where
        (not (is_choice order && length new_strides.old == length new_shape.now))
        (option_or (layout_fault shape.now (all_signed strides.now))
        (view_reshape_fault (order_named order) new_shape.now (lowest_view shape.now strides.now))) }
    ensures bad { (is_choice order && length new_strides.old == length new_shape.now) ≡ false →
        result ≡ bad_argument }
    ensures memory { NeedsNoMemory None (length shape.now) →
        NeedsNoMemory None (length strides.now) → NeedsNoMemory None (length new_shape.now) →
        result ≢ out_of_memory }
    ensures strides { result ≡ ok → all_signed new_strides.new ≡ reshaped_strides
        (order_named order) new_shape.now (lowest_view shape.now strides.now) }
    ensures kept { result ≡ ok →
        DescendsInPlace (reshape_source (order_named order) shape.now new_shape.now)
        shape.now strides.now new_shape.now new_strides.new }
    ensures unchanged { result ≢ ok → new_strides.new ≡ new_strides.old }
{
    if !is_choice(order) || new_strides.len() != new_shape.len() {
        return BAD_ARGUMENT;
    }
    match view(alloc, shape, strides) {
        Ok(view) => write_reshaped(alloc, &view, order_named(order), new_shape, new_strides),
        Err(LayoutError::Shape(error)) => status_of(error.kind()),
        Err(LayoutError::Memory(_)) => OUT_OF_MEMORY,
    }
}

/// The axes of these numbers, of which there are few, with the first axis after them.
fn few_axes(numbers: &[usize]) -> [Axis; FEW]
    requires { length numbers.now ≤ 4 }
    ensures { axis_numbers (take (length numbers.now) result) ≡ numbers.now }
{
    let mut axes = [Axis(0); FEW];
    for place in 0..numbers.len() {
        axes[place] = Axis(numbers[place]);
    }
    axes
}

/// The axes of any count of numbers.
fn many_axes(alloc: Global, numbers: &[usize]) -> Result<Vec<Axis>, AllocError>
    ensures { IfOk result (λ axes. axis_numbers axes.items ≡ numbers.now) }
{
    let mut axes = Vec::with_capacity(alloc, numbers.len())?;
    for number in numbers {
        axes.push(Axis(*number))?;
    }
    Ok(axes)
}

/// A layout with its axes in another order.
///
/// Errors: those of `view`, then those of `Strided::permuted_axes`; out of memory, never for at most four items.
#[tactic(auto, using(crate::proofs::Counts::length_permuted))]
fn permuted(
    alloc: Global,
    shape: &[usize],
    strides: &[usize],
    numbers: &[usize],
) -> Result<Strided<IxDyn>, LayoutError>
    ensures fits { OnOk result (option_or (layout_fault shape.now (all_signed strides.now))
        (permute_fault shape.now numbers.now) ≡ None) }
    ensures fault { (kind : ErrorKind) → shape_fault result ≡ Some kind →
        option_or (layout_fault shape.now (all_signed strides.now))
        (permute_fault shape.now numbers.now) ≡ Some kind }
    ensures memory { NeedsNoMemory None (length shape.now) →
        NeedsNoMemory None (length strides.now) → length numbers.now ≤ 4 →
        shape_fault result ≡ None → IsOk result }
    ensures permuted { IfOk result (λ v. v ≡
        permuted_of numbers.now (lowest_view shape.now strides.now)) }
    ensures count { IfOk result (λ v. length v.shape ≡ length shape.now) }
{
    let view = view(alloc, shape, strides)?;
    if numbers.len() <= FEW {
        let axes = few_axes(numbers);
        return view.permuted_axes(alloc, &axes[..numbers.len()]);
    }
    view.permuted_axes(alloc, many_axes(alloc, numbers)?.as_slice())
}

/// Writes the shape and the strides of a layout with its axes in another order.
#[unsafe(no_mangle)]
pub extern "C" fn nd_permuted_axes(
    alloc: Global,
    shape: &[usize],
    strides: &[usize],
    axes: &[usize],
    new_shape: &mut [usize],
    new_strides: &mut [usize],
) -> i32
    ensures status { result ≢ out_of_memory → result ≡ status_where
        (not (length new_shape.old == length shape.now
        && length new_strides.old == length shape.now))
        (option_or (layout_fault shape.now (all_signed strides.now))
        (permute_fault shape.now axes.now)) }
    ensures bad { (length new_shape.old == length shape.now
        && length new_strides.old == length shape.now) ≡ false → result ≡ bad_argument }
    ensures memory { NeedsNoMemory None (length shape.now) →
        NeedsNoMemory None (length strides.now) → length axes.now ≤ 4 → result ≢ out_of_memory }
    ensures shape { result ≡ ok → new_shape.new ≡
        (permuted_of axes.now (lowest_view shape.now strides.now)).shape }
    ensures strides { result ≡ ok → all_signed new_strides.new ≡
        (permuted_of axes.now (lowest_view shape.now strides.now)).strides }
    ensures kept { result ≡ ok → DescendsInPlace (permute_source axes.now)
        shape.now strides.now new_shape.new new_strides.new }
    ensures unchanged { result ≢ ok →
        (new_shape.new ≡ new_shape.old) × (new_strides.new ≡ new_strides.old) }
{
    if new_shape.len() != shape.len() || new_strides.len() != shape.len() {
        return BAD_ARGUMENT;
    }
    match permuted(alloc, shape, strides, axes) {
        Ok(view) => write_axes(&view, new_shape, new_strides),
        Err(LayoutError::Shape(error)) => status_of(error.kind()),
        Err(LayoutError::Memory(_)) => OUT_OF_MEMORY,
    }
}
