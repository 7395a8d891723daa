//! Parts of an array that are lent at once and written, as rows tell it.
use nd_owned::{ArrayViewMut, OwnedArray};
use ndarray_layout::{Axis, IxDyn, LayoutError, Lengths, SliceInfoElem};
use std::alloc::Global;
use test_tables::{Reading, Words, layout_fault_name};

/// An index of a part, and the item for it.
type Placed = (IxDyn, usize);

/// The slices of parts, and for each part one of its indices and the item for it, of all words that are left.
fn picks(alloc: Global, words: &mut Words<'_>) -> Option<(Vec<Vec<SliceInfoElem>>, Vec<Placed>)> {
    let (mut slices, mut placed) = (Vec::new(alloc), Vec::new(alloc));
    for _ in 0..u64::MAX {
        let Some(word) = words.word() else {
            break;
        };
        slices.push(Words::of(word).elems(alloc)?).ok()?;
        let index = words.dim(alloc)?;
        placed.push((index, words.length()?)).ok()?;
    }
    Some((slices, placed))
}

/// Whether a part has an item, as it is read item by item.
fn holds(part: &ArrayViewMut<'_, usize, IxDyn>, item: usize) -> bool {
    for other in part.iter() {
        if *other == item {
            return true;
        }
    }
    false
}

/// Whether the slice of a part has all of its items, or none is there, as of two items or more that don't follow one another.
fn has_slice_of_all(part: &ArrayViewMut<'_, usize, IxDyn>) -> bool {
    match part.as_slice() {
        Some(items) => items.len() == part.len(),
        None => part.len() > 1,
    }
}

/// Whether this is an index of a part, whose item is replaced, and read then.
fn is_placed(part: &mut ArrayViewMut<'_, usize, IxDyn>, placed: &Placed) -> bool {
    let (index, item) = placed;
    let is_set = part.set(index, *item);
    match part.get(index) {
        Some(found) => is_set && *found == *item && holds(part, *item) && has_slice_of_all(part),
        None => false,
    }
}

/// Whether each part has the index that is given for it, whose item is then replaced.
fn are_placed(parts: Vec<ArrayViewMut<'_, usize, IxDyn>>, placed: &[Placed]) -> bool {
    let (mut placed, mut all) = (placed.iter(), true);
    for part in parts {
        let mut part = part;
        all = match placed.next() {
            Some(one) => is_placed(&mut part, one) && all,
            None => false,
        };
    }
    all
}

/// How the parts of an array are written: `true` or `false`, or the fault.
fn written<D: Lengths>(
    alloc: Global,
    array: &mut OwnedArray<usize, D>,
    slices: &[Vec<SliceInfoElem>],
    placed: &[Placed],
) -> Result<bool, LayoutError> {
    let lent = array.try_view_mut(alloc)?;
    Ok(are_placed(lent.multi_slice_move(alloc, slices)?, placed))
}

/// Whether the parts that slices pick are written so, or fail so, and these items are left.
pub fn are_parts_written<D: Lengths>(
    alloc: Global,
    row: &mut Reading<'_>,
    array: &mut OwnedArray<usize, D>,
) -> Option<bool> {
    let (slices, placed) = picks(alloc, &mut row.given)?;
    let name = match written(alloc, array, slices.as_slice(), placed.as_slice()) {
        Ok(true) => "true",
        Ok(false) => "false",
        Err(fault) => layout_fault_name(&fault),
    };
    Some(row.answer.is(name) && row.answer.is_list(array.stored()))
}

/// How the two parts of an array along an axis are written: `true` or `false`, or the fault.
fn halves_written<D: Lengths>(
    alloc: Global,
    array: &mut OwnedArray<usize, D>,
    (axis, coordinate): (usize, usize),
    (first, item): (&D, usize),
    (second, another): (&D, usize),
) -> Result<bool, LayoutError> {
    let lent = array.try_view_mut(alloc)?;
    let (mut one, mut other) = lent.split_at(alloc, Axis(axis), coordinate)?;
    let is_set = one.set(first, item);
    Ok(other.set(second, another) && is_set)
}

/// Whether the two parts of an array along an axis are written so, or fail so, and these items are left.
pub fn are_halves_written<D: Lengths>(
    alloc: Global,
    row: &mut Reading<'_>,
    array: &mut OwnedArray<usize, D>,
) -> Option<bool> {
    let cut = (row.given.length()?, row.given.length()?);
    let (first, item): (D, usize) = (row.given.dim(alloc)?, row.given.length()?);
    let (second, another): (D, usize) = (row.given.dim(alloc)?, row.given.length()?);
    let name = match halves_written(alloc, array, cut, (&first, item), (&second, another)) {
        Ok(true) => "true",
        Ok(false) => "false",
        Err(fault) => layout_fault_name(&fault),
    };
    Some(row.answer.is(name) && row.answer.is_list(array.stored()))
}
