//! Calls of a view: the lists are its shape and its strides, and another shape.
use crate::answer::{Answer, failed, listed, made_view, memory};
use CanIndexCheckMode::ReadOnly;
use Fit::Strict;
use Order::RowMajor;
use ndarray_layout::{
    CanIndexCheckMode, Fit, Lengths, Order, SliceInfoElem, Strided, max_abs_offset_check_overflow,
    reshape_dim, size_of_shape_checked,
};
use std::alloc::Global;
use std::fmt::Write;
use test_tables::{Lists, made};

/// A call of a view.
#[derive(Clone, Copy)]
pub enum Viewed {
    Slice,
    Reshape,
    Broadcast,
    Places,
    ReshapeDim,
}

/// The whole of an axis, from the last coordinate back.
pub const REVERSED: SliceInfoElem = SliceInfoElem::Slice {
    start: 0,
    end: None,
    step: -1,
};

/// A view of data that has room for it.
pub fn view_of<D: Lengths>(alloc: Global, lists: &Lists) -> Option<Strided<D>> {
    let dim: D = made(alloc, lists.first.as_slice())?;
    let strides: D = made(alloc, lists.second.as_slice())?;
    Strided::new(dim, strides, 1, 99, ReadOnly).ok()
}

/// What a call answers, and the view that it was lent.
pub fn answer<D: Lengths>(alloc: Global, call: Viewed, lists: &Lists) -> Option<Answer> {
    let to: D = made(alloc, lists.third.as_slice())?;
    let view: Strided<D> = view_of(alloc, lists)?;
    let mut answer = of_view(alloc, call, &view, &to)?;
    answer.write_str(" of ").ok()?;
    answer.and_view(&view)
}

/// The same of the view, which a slice takes to have six axes, and of another shape.
fn of_view<D: Lengths>(alloc: Global, call: Viewed, view: &Strided<D>, to: &D) -> Option<Answer> {
    match call {
        Viewed::Slice => {
            let made: Result<Strided<D>, _> = view.slice(alloc, &[REVERSED; 6], Strict);
            made_view(made)
        },
        Viewed::Reshape => made_view(view.reshape(alloc, to, RowMajor)),
        Viewed::Broadcast => made_view(view.broadcast(alloc, to)),
        Viewed::Places => match view.places(alloc, RowMajor) {
            Ok(places) => listed(places.as_slice()),
            Err(_) => memory(),
        },
        Viewed::ReshapeDim => reshaped(alloc, view.dim(), view.strides(), to),
    }
}

/// The strides of a layout under another shape.
fn reshaped<D: Lengths>(alloc: Global, from: &D, strides: &D, to: &D) -> Option<Answer> {
    if from.slice().contains(&0) || to.slice().contains(&0) {
        return None;
    }
    size_of_shape_checked(to).ok()?;
    max_abs_offset_check_overflow(1, from, strides).ok()?;
    match reshape_dim(alloc, from, strides, to, RowMajor) {
        Ok(others) => listed(others.slice()),
        Err(fault) => failed(&fault),
    }
}
