//! Slices of a layout, and of a shape.
ghost use Rattle.std.specs.Option.{option_or};
ghost use Rattle.std.specs.Prelude.{◌≡◌, ◌≢◌, ◌≤◌, ◌↔◌, ◌==◌, ◌&&◌, ◌||◌, not, true, false, pos};
ghost use Rattle.std.specs.Prelude.{None, Some, length, if◌then◌else◌, IfOk, IsOk, IsTrue, OnOk};
ghost use Rattle.ndarray_layout.specs.declared.ErrorKind.{ErrorKind};
ghost use Rattle.ndarray_layout.specs.SliceFault.{argument_fault, out_count};
ghost use Rattle.ndarray_layout.specs.Descends.{Descends};
ghost use Rattle.ndarray_layout.specs.Memory.{NeedsNoMemory};
ghost use Rattle.ndarray_layout.specs.Intersect.{Intersect};
ghost use Rattle.ndarray_layout.specs.Selected.{selected};
ghost use Rattle.ndarray_layout.specs.ShapeFault.{shape_fault};
ghost use Rattle.ndarray_layout.specs.Signed.{all_signed};
ghost use Rattle.ndarray_layout.specs.Size.{size};
ghost use Rattle.ndarray_layout.specs.SlicedView.{slice_of};
ghost use Rattle.ndarray_layout.specs.SlicedLayout.{sliced_shape};
ghost use Rattle.ndarray_layout.specs.View.{view_of};
ghost use Rattle.ndarray_layout_c.specs.Arguments.{fit_named, is_choice};
ghost use Rattle.ndarray_layout_c.specs.Elements.{are_elems, elems_named, sliced_view};
ghost use Rattle.ndarray_layout_c.specs.LayoutFault.{layout_fault_from, own_layout_fault};
ghost use Rattle.ndarray_layout_c.specs.Statuses.{bad_argument, ok, out_of_memory, status_until, status_where};

use crate::arguments::{answer_of, fit_named, is_choice};
use crate::elements::{FEW, RawElem, are_elems, few_elems, many_elems};
use crate::lists::{own_view, view_from, write_axes};
use crate::statuses::{BAD_ARGUMENT, OK, OUT_OF_MEMORY, status_of};
use ndarray_layout::{Fit, IxDyn, LayoutError, Lengths, SliceInfoElem, Strided};
use std::alloc::Global;

/// How many indices a slice leaves of a shape.
///
/// Errors: those of `own_view`, then those of `Strided::picked`; out of memory, never for at most four items and
/// elements.
fn picked(alloc: Global, shape: &[usize], raws: &[RawElem], fit: Fit) -> Result<usize, LayoutError>
    ensures fits { OnOk result (option_or (own_layout_fault shape.now)
        (argument_fault fit shape.now (elems_named raws.now)) ≡ None) }
    ensures fault { (kind : ErrorKind) → shape_fault result ≡ Some kind →
        option_or (own_layout_fault shape.now)
        (argument_fault fit shape.now (elems_named raws.now)) ≡ Some kind }
    ensures memory { NeedsNoMemory None (length shape.now) → length raws.now ≤ 4 →
        shape_fault result ≡ None → IsOk result }
    ensures count { IfOk result (λ count. count ≡
        size (sliced_shape fit (elems_named raws.now) shape.now)) }
{
    let view = own_view(alloc, shape)?;
    if raws.len() <= FEW {
        let elems = few_elems(raws);
        return Ok(view.picked(&&elems[..raws.len()], fit)?);
    }
    Ok(view.picked(&many_elems(alloc, raws)?, fit)?)
}

/// Writes how many indices a slice leaves of a shape.
#[unsafe(no_mangle)]
pub extern "C" fn nd_picked(
    alloc: Global,
    shape: &[usize],
    elems: &[RawElem],
    fit: i32,
    count: &mut usize,
) -> i32
    ensures status { result ≢ out_of_memory → result ≡ status_where
        (not (is_choice fit && are_elems elems.now))
        (option_or (own_layout_fault shape.now)
        (argument_fault (fit_named fit) shape.now (elems_named elems.now))) }
    ensures bad { (is_choice fit && are_elems elems.now) ≡ false → result ≡ bad_argument }
    ensures memory { NeedsNoMemory None (length shape.now) → length elems.now ≤ 4 →
        result ≢ out_of_memory }
    ensures count { result ≡ ok → count.new ≡
        size (sliced_shape (fit_named fit) (elems_named elems.now) shape.now) }
    ensures unchanged { result ≢ ok → count.new ≡ count.old }
{
    if !is_choice(fit) || !are_elems(elems) {
        return BAD_ARGUMENT;
    }
    match picked(alloc, shape, elems, fit_named(fit)) {
        Ok(picked) => {
            *count = picked;
            OK
        },
        Err(LayoutError::Shape(error)) => status_of(error.kind()),
        Err(LayoutError::Memory(_)) => OUT_OF_MEMORY,
    }
}

/// A slice of a layout.
///
/// Errors: those of `view_from`, then those of `Strided::slice`; out of memory, never for at most four items and
/// elements.
fn sliced(
    alloc: Global,
    view: &Strided<IxDyn>,
    raws: &[RawElem],
    fit: Fit,
) -> Result<Strided<IxDyn>, LayoutError>
    ensures fits { OnOk result
        (argument_fault fit view.now.shape (elems_named raws.now) ≡ None) }
    ensures fault { (kind : ErrorKind) → shape_fault result ≡ Some kind →
        argument_fault fit view.now.shape (elems_named raws.now) ≡ Some kind }
    ensures memory { length raws.now ≤ 4 → NeedsNoMemory None (out_count (elems_named raws.now)) →
        shape_fault result ≡ None → IsOk result }
    ensures sliced { IfOk result (λ v. v ≡ slice_of fit (elems_named raws.now) view.now) }
    ensures kept { IfOk result (λ v.
        Descends (selected fit (elems_named raws.now) view.now.shape) view.now v) }
{
    if raws.len() <= FEW {
        let elems = few_elems(raws);
        return view.slice(alloc, &&elems[..raws.len()], fit);
    }
    view.slice(alloc, &many_elems(alloc, raws)?, fit)
}

/// Writes a slice of a view, and returns the status.
fn write_slice(
    alloc: Global,
    view: &Strided<IxDyn>,
    raws: &[RawElem],
    fit: Fit,
    new_start: &mut usize,
    new_shape: &mut [usize],
    new_strides: &mut [usize],
) -> i32
    ensures status { result ≢ out_of_memory → result ≡ status_until false
        (argument_fault fit view.now.shape (elems_named raws.now))
        (not (length new_shape.old == length (slice_of fit (elems_named raws.now) view.now).shape)
        || not (length new_strides.old == length (slice_of fit
        (elems_named raws.now) view.now).shape)) }
    ensures memory { length raws.now ≤ 4 →
        NeedsNoMemory None (out_count (elems_named raws.now)) → result ≢ out_of_memory }
    ensures start { result ≡ ok →
        new_start.new ≡ (slice_of fit (elems_named raws.now) view.now).start }
    ensures shape { result ≡ ok →
        new_shape.new ≡ (slice_of fit (elems_named raws.now) view.now).shape }
    ensures strides { result ≡ ok → all_signed new_strides.new ≡
        (slice_of fit (elems_named raws.now) view.now).strides }
    ensures kept { result ≡ ok → Descends (selected fit (elems_named raws.now) view.now.shape)
        view.now (view_of new_start.new new_shape.new new_strides.new) }
    ensures unchanged_start { result ≢ ok → new_start.new ≡ new_start.old }
    ensures unchanged_shape { result ≢ ok → new_shape.new ≡ new_shape.old }
    ensures unchanged_strides { result ≢ ok → new_strides.new ≡ new_strides.old }
{
    match sliced(alloc, view, raws, fit) {
        Ok(slice) => {
            let status = write_axes(&slice, new_shape, new_strides);
            if status == OK {
                *new_start = slice.start();
            }
            status
        },
        Err(LayoutError::Shape(error)) => status_of(error.kind()),
        Err(LayoutError::Memory(_)) => OUT_OF_MEMORY,
    }
}

/// Slices a layout: writes the start, the shape and the strides of what is left.
#[unsafe(no_mangle)]
pub extern "C" fn nd_slice(
    alloc: Global,
    start: usize,
    shape: &[usize],
    strides: &[usize],
    elems: &[RawElem],
    fit: i32,
    new_start: &mut usize,
    new_shape: &mut [usize],
    new_strides: &mut [usize],
) -> i32
    ensures status { result ≢ out_of_memory → result ≡ status_until
        (not (is_choice fit && are_elems elems.now))
        (option_or (layout_fault_from start shape.now (all_signed strides.now))
        (argument_fault (fit_named fit) shape.now (elems_named elems.now)))
        (not (length new_shape.old
        == length (sliced_view fit elems.now start shape.now strides.now).shape)
        || not (length new_strides.old
        == length (sliced_view fit elems.now start shape.now strides.now).shape)) }
    ensures bad { (is_choice fit && are_elems elems.now) ≡ false → result ≡ bad_argument }
    ensures memory { NeedsNoMemory None (length shape.now) →
        NeedsNoMemory None (length strides.now) → length elems.now ≤ 4 →
        NeedsNoMemory None (out_count (elems_named elems.now)) → result ≢ out_of_memory }
    ensures start { result ≡ ok →
        new_start.new ≡ (sliced_view fit elems.now start shape.now strides.now).start }
    ensures shape { result ≡ ok →
        new_shape.new ≡ (sliced_view fit elems.now start shape.now strides.now).shape }
    ensures strides { result ≡ ok → all_signed new_strides.new ≡
        (sliced_view fit elems.now start shape.now strides.now).strides }
    ensures kept { result ≡ ok → Descends
        (selected (fit_named fit) (elems_named elems.now) shape.now)
        (view_of start shape.now strides.now)
        (view_of new_start.new new_shape.new new_strides.new) }
    ensures unchanged_start { result ≢ ok → new_start.new ≡ new_start.old }
    ensures unchanged_shape { result ≢ ok → new_shape.new ≡ new_shape.old }
    ensures unchanged_strides { result ≢ ok → new_strides.new ≡ new_strides.old }
{
    if !is_choice(fit) || !are_elems(elems) {
        return BAD_ARGUMENT;
    }
    match view_from(alloc, start, shape, strides) {
        Ok(view) => {
            let fit = fit_named(fit);
            write_slice(alloc, &view, elems, fit, new_start, new_shape, new_strides)
        },
        Err(LayoutError::Shape(error)) => status_of(error.kind()),
        Err(LayoutError::Memory(_)) => OUT_OF_MEMORY,
    }
}

/// Whether two slices of a view share an index.
///
/// Errors: those of `Strided::meets`; out of memory, never for at most four elements in each.
fn meets(
    alloc: Global,
    view: &Strided<IxDyn>,
    first: &[SliceInfoElem],
    second: &[RawElem],
    fit: Fit,
) -> Result<bool, LayoutError>
    ensures fits { OnOk result (option_or (argument_fault fit view.now.shape first.now)
        (argument_fault fit view.now.shape (elems_named second.now)) ≡ None) }
    ensures fault { (kind : ErrorKind) → shape_fault result ≡ Some kind →
        option_or (argument_fault fit view.now.shape first.now)
        (argument_fault fit view.now.shape (elems_named second.now)) ≡ Some kind }
    ensures memory { length second.now ≤ 4 → shape_fault result ≡ None → IsOk result }
    ensures intersect { IfOk result (λ intersect. IsTrue intersect ↔
        Intersect fit view.now.shape first.now (elems_named second.now)) }
{
    if second.len() <= FEW {
        let elems = few_elems(second);
        return Ok(view.meets(&first, &&elems[..second.len()], fit)?);
    }
    Ok(view.meets(&first, &many_elems(alloc, second)?, fit)?)
}

/// Whether two slices of a shape share an index.
///
/// Errors: those of `own_view`, then those of `Strided::meets`; out of memory, never for at most four items and
/// elements.
fn shape_intersects(
    alloc: Global,
    shape: &[usize],
    first: &[RawElem],
    second: &[RawElem],
    fit: Fit,
) -> Result<bool, LayoutError>
    ensures fits { OnOk result (option_or (own_layout_fault shape.now)
        (option_or (argument_fault fit shape.now (elems_named first.now))
        (argument_fault fit shape.now (elems_named second.now))) ≡ None) }
    ensures fault { (kind : ErrorKind) → shape_fault result ≡ Some kind →
        option_or (own_layout_fault shape.now)
        (option_or (argument_fault fit shape.now (elems_named first.now))
        (argument_fault fit shape.now (elems_named second.now))) ≡ Some kind }
    ensures memory { NeedsNoMemory None (length shape.now) → length first.now ≤ 4 →
        length second.now ≤ 4 → shape_fault result ≡ None → IsOk result }
    ensures intersect { IfOk result (λ intersect. IsTrue intersect ↔
        Intersect fit shape.now (elems_named first.now) (elems_named second.now)) }
{
    let view = own_view(alloc, shape)?;
    if first.len() <= FEW {
        let elems = few_elems(first);
        return meets(alloc, &view, &elems[..first.len()], second, fit);
    }
    let elems = many_elems(alloc, first)?;
    meets(alloc, &view, elems.as_slice(), second, fit)
}

/// Writes whether two slices of a shape share an index.
#[unsafe(no_mangle)]
pub extern "C" fn nd_slices_intersect(
    alloc: Global,
    shape: &[usize],
    first: &[RawElem],
    second: &[RawElem],
    fit: i32,
    answer: &mut i32,
) -> i32
    ensures status { result ≢ out_of_memory → result ≡ status_where
        (not (is_choice fit && are_elems first.now && are_elems second.now))
        (option_or (own_layout_fault shape.now)
        (option_or (argument_fault (fit_named fit) shape.now (elems_named first.now))
        (argument_fault (fit_named fit) shape.now (elems_named second.now)))) }
    ensures bad { (is_choice fit && are_elems first.now && are_elems second.now) ≡ false →
        result ≡ bad_argument }
    ensures memory { NeedsNoMemory None (length shape.now) → length first.now ≤ 4 →
        length second.now ≤ 4 → result ≢ out_of_memory }
    ensures answer { result ≡ ok → is_choice answer.new ≡ true }
    ensures intersect { result ≡ ok → ((answer.new ≡ pos 1) ↔ Intersect (fit_named fit)
        shape.now (elems_named first.now) (elems_named second.now)) }
    ensures unchanged { result ≢ ok → answer.new ≡ answer.old }
{
    if !is_choice(fit) || !are_elems(first) || !are_elems(second) {
        return BAD_ARGUMENT;
    }
    match shape_intersects(alloc, shape, first, second, fit_named(fit)) {
        Ok(intersect) => {
            *answer = answer_of(intersect);
            OK
        },
        Err(LayoutError::Shape(error)) => status_of(error.kind()),
        Err(LayoutError::Memory(_)) => OUT_OF_MEMORY,
    }
}
