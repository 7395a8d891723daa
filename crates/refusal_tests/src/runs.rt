//! A run of a step of each kind: the lists are the shape and the strides of the view that it begins with, and the shapes of the
//! reshape and of the broadcast.
use crate::answer::{Answer, made_view};
use crate::views::{REVERSED, view_of};
use Fit::Strict;
use Order::RowMajor;
use ndarray_layout::{Axis, Fit, IxDyn, Order, Step, Stopped, Strided, run};
use std::alloc::Global;
use std::fmt::Write;
use test_tables::{Lists, layout_fault_name, made};

/// What the run answers: the view, or how many steps were taken and the view that they left.
pub fn answer(alloc: Global, lists: &Lists) -> Option<Answer> {
    let steps = steps(alloc, lists)?;
    of_steps(alloc, lists, &steps)
}

/// The same of these steps.
fn of_steps(alloc: Global, lists: &Lists, steps: &[Step]) -> Option<Answer> {
    let view: Strided<IxDyn> = view_of(alloc, lists)?;
    match run(alloc, view, steps) {
        Ok(view) => made_view(Ok(view)),
        Err(stopped) => of_stopped(&stopped),
    }
}

/// A step of each kind: the last axis but one is merged into the last one.
fn steps(alloc: Global, lists: &Lists) -> Option<[Step; 5]> {
    let ndim = lists.first.as_slice().len();
    let elems = [REVERSED; 6].get(..ndim)?.to_vec(alloc).ok()?;
    let shape = made(alloc, lists.third.as_slice())?;
    let wide = made(alloc, lists.fourth.as_slice())?;
    Some([
        Step::Slice(elems, Strict),
        Step::Collapse(Axis(0), 1),
        Step::Merge(Axis(ndim.saturating_sub(2)), Axis(ndim.saturating_sub(1))),
        Step::Reshape(shape, RowMajor),
        Step::Broadcast(wide),
    ])
}

/// What a run that ended early answers.
fn of_stopped(stopped: &Stopped) -> Option<Answer> {
    let mut answer = Answer::of(layout_fault_name(&stopped.fault))?;
    write!(answer, " {} ", stopped.at).ok()?;
    answer.and_view(&stopped.view)
}
