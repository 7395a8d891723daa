//! Writes to an array of numbers, 0 and so on: the lists are its shape, its strides, how many items it has, and the items that are
//! written to each of the first two coordinates of its first axis.
use crate::answer::{Answer, left};
use crate::views::REVERSED;
use nd_owned::OwnedArray;
use ndarray_layout::{Lengths, SliceInfoElem, StrideShape, Strides};
use std::alloc::Global;
use test_tables::{Lists, layout_fault_name, made};

/// A slice, and the items for it.
type Write = (Vec<SliceInfoElem>, Vec<usize>);

/// The items of the array after the writes.
pub fn answer<D: Lengths>(alloc: Global, lists: &Lists) -> Option<Answer> {
    let writes = [write(alloc, lists, 0)?, write(alloc, lists, 1)?];
    let array: OwnedArray<usize, D> = array(alloc, lists)?;
    written(alloc, array, &writes)
}

/// The items for a coordinate of the first axis, the others from the last coordinate back.
fn write(alloc: Global, lists: &Lists, coordinate: isize) -> Option<Write> {
    let mut slice = [REVERSED; 6];
    slice[0] = SliceInfoElem::Index(coordinate);
    let slice = slice.get(..lists.first.as_slice().len())?;
    let items = lists.fourth.as_slice().to_vec(alloc).ok()?;
    Some((slice.to_vec(alloc).ok()?, items))
}

/// The array.
fn array<D: Lengths>(alloc: Global, lists: &Lists) -> Option<OwnedArray<usize, D>> {
    let items = numbers(alloc, lists.third.at(0))?;
    let dim: D = made(alloc, lists.first.as_slice())?;
    let strides = Strides::Custom(made(alloc, lists.second.as_slice())?);
    OwnedArray::from_shape_vec(alloc, StrideShape { dim, strides }, items).ok()
}

/// The first numbers.
fn numbers(alloc: Global, count: usize) -> Option<Vec<usize>> {
    let mut numbers = Vec::with_capacity(alloc, count).ok()?;
    for number in 0..count {
        numbers.push(number).ok()?;
    }
    Some(numbers)
}

/// The items of an array after writes.
fn written<D: Lengths>(
    alloc: Global,
    array: OwnedArray<usize, D>,
    writes: &[Write],
) -> Option<Answer> {
    let mut array = array;
    match array.multi_set(alloc, writes) {
        Ok(()) => left("Ok", array.stored()),
        Err(fault) => left(layout_fault_name(&fault), array.stored()),
    }
}
