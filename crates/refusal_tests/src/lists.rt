//! Calls that make a value of any number of axes of a list: the second list is a place in it.
use crate::answer::{Answer, listed, memory};
use ndarray_layout::{IxDynImpl, Lengths, new_ixdyn};
use std::alloc::{AllocError, Global};
use test_tables::Lists;

/// A call of a list.
#[derive(Clone, Copy)]
pub enum Listed {
    New,
    Insert,
    Remove,
}

/// What a call answers; nothing where there is no such place.
pub fn answer(alloc: Global, call: Listed, lists: &Lists) -> Option<Answer> {
    let (lens, place) = (lists.first.as_slice(), lists.second.at(0));
    match call {
        Listed::New => match new_ixdyn(alloc, lens) {
            Ok(dim) => listed(dim.slice()),
            Err(_) => memory(),
        },
        Listed::Insert if place <= lens.len() => {
            changed(IxDynImpl::copy_from(alloc, lens).ok()?.insert(alloc, place))
        },
        Listed::Remove if place < lens.len() => {
            changed(IxDynImpl::copy_from(alloc, lens).ok()?.remove(alloc, place))
        },
        _ => None,
    }
}

/// The list that a call makes of another.
fn changed(made: Result<IxDynImpl, AllocError>) -> Option<Answer> {
    match made {
        Ok(items) => listed(items.as_slice()),
        Err(_) => memory(),
    }
}
