//! Two of many slices of a shape that intersect.
ghost use Rattle.std.specs.Option.{option_or};
ghost use Rattle.std.specs.Prelude.{◌≡◌, ◌≢◌, ◌≤◌, ◌==◌, ◌&&◌, not, true, false, pos, None, Some, length, map, take, IfOk, IsOk, OnOk};
ghost use Rattle.std.specs.Result.{result_err};
ghost use Rattle.ndarray_layout.specs.declared.ErrorKind.{ErrorKind};
ghost use Rattle.ndarray_layout.specs.Memory.{NeedsNoMemory};
ghost use Rattle.ndarray_layout.specs.ShapeFault.{shape_fault};
ghost use Rattle.ndarray_layout.specs.IntersectingPair.{IsIntersection, slices_fault};
ghost use Rattle.ndarray_layout_c.specs.Arguments.{fit_named, is_choice};
ghost use Rattle.ndarray_layout_c.specs.Elements.{are_elems, elems_named};
ghost use Rattle.ndarray_layout_c.specs.LayoutFault.{own_layout_fault};
ghost use Rattle.ndarray_layout_c.specs.SlicesNamed.{pair_found, cut_by, slices_named, total};
ghost use Rattle.ndarray_layout_c.specs.Statuses.{bad_argument, ok, out_of_memory, status_where};

use crate::arguments::{answer_of, fit_named, is_choice};
use crate::elements::{FEW, RawElem, are_elems, few_elems, many_elems};
use crate::lists::own_view;
use crate::statuses::{BAD_ARGUMENT, OK, OUT_OF_MEMORY, status_of};
use ndarray_layout::{Fit, IxDyn, LayoutError, SliceInfoElem, Strided};
use std::alloc::{AllocError, Global};

/// Whether these counts add up to that of a list.
fn add_up_to(counts: &[usize], len: usize) -> bool
    ensures { result ≡ (total counts.now == len) }
{
    let mut left = len;
    for count in counts {
        match left.checked_sub(*count) {
            Some(rest) => left = rest,
            None => return false,
        }
    }
    left == 0
}

/// A list in few slices one after another, of these counts, with empty ones after them.
fn few_slices<'a>(elems: &'a [SliceInfoElem], counts: &[usize]) -> [&'a [SliceInfoElem]; FEW]
    requires few { length counts.now ≤ 4 }
    requires counts { total counts.now ≡ length elems.now }
    ensures { map (λ slice. slice.now) (take (length counts.now) result) ≡
        cut_by counts.now elems.now }
{
    let (mut slices, mut left) = ([&elems[..0]; FEW], elems);
    for position in 0..counts.len() {
        let (slice, rest) = left.split_at(counts[position]);
        slices[position] = slice;
        left = rest;
    }
    slices
}

/// A list in slices one after another, of these counts.
fn many_slices<'a>(
    alloc: Global,
    elems: &'a [SliceInfoElem],
    counts: &[usize],
) -> Result<Vec<&'a [SliceInfoElem]>, AllocError>
    requires { total counts.now ≡ length elems.now }
    ensures { IfOk result (λ found. map (λ slice. slice.now) found.items ≡
        cut_by counts.now elems.now) }
{
    let (mut slices, mut left) = (Vec::with_capacity(alloc, counts.len())?, elems);
    for count in counts {
        let (slice, rest) = left.split_at(*count);
        slices.push(slice)?;
        left = rest;
    }
    Ok(slices)
}

/// Two of many slices of a view that intersect, of which all elements are given one after another and how many each has.
///
/// Errors: those of `Strided::first_intersection`; out of memory, never for at most four slices.
fn intersection(
    alloc: Global,
    view: &Strided<IxDyn>,
    elems: &[SliceInfoElem],
    counts: &[usize],
    fit: Fit,
) -> Result<Option<(usize, usize)>, LayoutError>
    requires { total counts.now ≡ length elems.now }
    ensures fits { OnOk result
        (slices_fault fit view.now.shape (cut_by counts.now elems.now) ≡ None) }
    ensures fault { (kind : ErrorKind) → shape_fault result ≡ Some kind →
        slices_fault fit view.now.shape (cut_by counts.now elems.now) ≡ Some kind }
    ensures memory { length counts.now ≤ 4 → shape_fault result ≡ None → IsOk result }
    ensures intersection { IfOk result (λ found.
        IsIntersection fit view.now.shape (cut_by counts.now elems.now) found) }
{
    if counts.len() <= FEW {
        let slices = few_slices(elems, counts);
        return Ok(view.first_intersection(&slices[..counts.len()], fit)?);
    }
    let slices = many_slices(alloc, elems, counts)?;
    Ok(view.first_intersection_sorted(alloc, slices.as_slice(), fit)?)
}

/// Two of many slices of a shape that intersect.
///
/// Errors: those of `own_view`, then those of `Strided::first_intersection`; out of memory, never for at most four items, elements
/// and slices.
fn shape_intersection(
    alloc: Global,
    shape: &[usize],
    raws: &[RawElem],
    counts: &[usize],
    fit: Fit,
) -> Result<Option<(usize, usize)>, LayoutError>
    requires { total counts.now ≡ length raws.now }
    ensures fits { OnOk result (option_or (own_layout_fault shape.now)
        (slices_fault fit shape.now (slices_named counts.now raws.now)) ≡ None) }
    ensures fault { (kind : ErrorKind) → shape_fault result ≡ Some kind →
        option_or (own_layout_fault shape.now)
        (slices_fault fit shape.now (slices_named counts.now raws.now)) ≡ Some kind }
    ensures memory { NeedsNoMemory None (length shape.now) → length raws.now ≤ 4 →
        length counts.now ≤ 4 → shape_fault result ≡ None → IsOk result }
    ensures intersection { IfOk result (λ found.
        IsIntersection fit shape.now (slices_named counts.now raws.now) found) }
{
    let view = own_view(alloc, shape)?;
    if raws.len() <= FEW {
        let elems = few_elems(raws);
        return intersection(alloc, &view, &elems[..raws.len()], counts, fit);
    }
    let elems = many_elems(alloc, raws)?;
    intersection(alloc, &view, elems.as_slice(), counts, fit)
}

/// Writes two positions, the less first, or leaves them where there are none; and returns the answer. The caller ensures that there
/// is room for two.
fn write_pair(found: Option<(usize, usize)>, pair: &mut [usize]) -> i32
    requires { length pair.old ≡ 2 }
    ensures answer { is_choice result ≡ true }
    ensures pair { pair_found result pair.new ≡ found }
    ensures unchanged { result ≡ pos 0 → pair.new ≡ pair.old }
{
    if let Some((first, second)) = found {
        pair.copy_from_slice(&[first, second]);
    }
    answer_of(found.is_some())
}

/// Writes two of many slices of a shape that intersect, by their positions, and whether there are two.
#[unsafe(no_mangle)]
pub extern "C" fn nd_first_intersection(
    alloc: Global,
    shape: &[usize],
    elems: &[RawElem],
    counts: &[usize],
    fit: i32,
    pair: &mut [usize],
    found: &mut i32,
) -> i32
    ensures status { result ≢ out_of_memory → result ≡ status_where
        (not (is_choice fit && are_elems elems.now && total counts.now == length elems.now
        && length pair.old == 2))
        (option_or (own_layout_fault shape.now)
        (slices_fault (fit_named fit) shape.now (slices_named counts.now elems.now))) }
    ensures bad { (is_choice fit && are_elems elems.now && total counts.now == length elems.now
        && length pair.old == 2) ≡ false → result ≡ bad_argument }
    ensures memory { NeedsNoMemory None (length shape.now) → length elems.now ≤ 4 →
        length counts.now ≤ 4 → result ≢ out_of_memory }
    ensures answer { result ≡ ok → is_choice found.new ≡ true }
    ensures intersection { result ≡ ok → IsIntersection (fit_named fit) shape.now
        (slices_named counts.now elems.now) (pair_found found.new pair.new) }
    ensures apart { result ≡ ok → found.new ≡ pos 0 → pair.new ≡ pair.old }
    ensures unchanged { result ≢ ok → (pair.new ≡ pair.old) × (found.new ≡ found.old) }
{
    if !is_choice(fit) || !are_elems(elems) || pair.len() != 2 {
        return BAD_ARGUMENT;
    }
    if !add_up_to(counts, elems.len()) {
        return BAD_ARGUMENT;
    }
    match shape_intersection(alloc, shape, elems, counts, fit_named(fit)) {
        Ok(both) => {
            *found = write_pair(both, pair);
            OK
        },
        Err(LayoutError::Shape(error)) => status_of(error.kind()),
        Err(LayoutError::Memory(_)) => OUT_OF_MEMORY,
    }
}
