//! The answer to a whole input: its text and its status.
ghost use Rattle.std.specs.Prelude.{◌≡◌, ◌≤◌, map, IfOk};
ghost use Rattle.ndarray_layout.specs.Step.{step_value};
ghost use Rattle.ndl_session.specs.Answer.{answer_of, listing, step_failed as reply_to_fault, IsReply};
ghost use Rattle.ndl_session.specs.Answer.{reply_to_script, reply_to_steps, unreadable as unreadable_reply};
ghost use Rattle.ndl_session.specs.script.Script.{script_value};

use crate::script::{ReadError, Script, read_script};
use crate::text::printing::{push_line, push_places};
use ndarray_layout::{IxDyn, LayoutError, Order, ShapeError, Step, Strided, run};
use std::alloc::{AllocError, Global};

/// A whole text and the exit status that goes with it.
#[derive(Drop)]
pub(crate) struct Answer {
    /// The text.
    pub(crate) text: Vec<u8>,
    /// 0 where every step was taken, 1 where the layout or a step returned an error, 2 where a line can't
    /// be read.
    pub(crate) status: u8,
}

/// The answer to an input: the list of the view that is left, the error of the first step that returned
/// one, or the first line that can't be read.
///
/// Errors: out of memory.
pub(crate) fn answer_to(alloc: Global, input: &[u8]) -> Result<Answer, AllocError>
    ensures reply { IfOk result (λ answer. IsReply answer (answer_of input.now)) }
    ensures small { IfOk result (λ answer. answer.status ≤ 2) }
{
    match read_script(alloc, input) {
        Ok(script) => answer_to_script(alloc, script),
        Err(ReadError::Unreadable(line)) => unreadable(alloc, line),
        Err(ReadError::Memory) => Err(AllocError),
    }
}

/// The answer where a line can't be read.
fn unreadable(alloc: Global, line: usize) -> Result<Answer, AllocError>
    ensures { IfOk result (λ answer. IsReply answer (unreadable_reply line)) }
{
    Ok(Answer {
        text: format!(in alloc; "line {line}: unreadable\n")?.into_bytes(),
        status: 2,
    })
}

/// The answer where a step returned an error: 0 is the layout, and the steps after it count from 1.
fn step_failed(alloc: Global, step: usize, fault: &ShapeError) -> Result<Answer, AllocError>
    ensures { IfOk result (λ answer. IsReply answer (reply_to_fault step fault.now)) }
{
    Ok(Answer {
        text: format!(in alloc; "step {step}: {fault}\n")?.into_bytes(),
        status: 1,
    })
}

/// The answer to a script: the layout first, and then the steps.
fn answer_to_script(alloc: Global, script: Script) -> Result<Answer, AllocError>
    ensures { IfOk result (λ answer. IsReply answer (reply_to_script (script_value script))) }
{
    let Script { layout, steps } = script;
    match Strided::new(layout.shape, layout.strides, 1, layout.len, layout.mode) {
        Ok(view) => answer_to_steps(alloc, view, &steps),
        Err(fault) => step_failed(alloc, 0, &fault),
    }
}

/// The answer to steps from a view.
fn answer_to_steps(
    alloc: Global,
    view: Strided<IxDyn>,
    steps: &[Step],
) -> Result<Answer, AllocError>
    ensures { IfOk result (λ answer. IsReply answer
        (reply_to_steps (map step_value steps.now) view)) }
{
    match run(alloc, view, steps) {
        Ok(view) => list(alloc, &view),
        Err(stopped) => match &stopped.fault {
            LayoutError::Shape(fault) => step_failed(alloc, stopped.at + 1, fault),
            LayoutError::Memory(_) => Err(AllocError),
        },
    }
}

/// The answer that lists a view.
fn list(alloc: Global, view: &Strided<IxDyn>) -> Result<Answer, AllocError>
    ensures { IfOk result (λ answer. IsReply answer (listing view.now)) }
{
    let mut text = Vec::new(alloc);
    let lens = view.axes().map(|axis| axis.len);
    let strides = view.axes().map(|axis| axis.stride);
    push_line(alloc, &mut text, "shape", ",", lens)?;
    push_line(alloc, &mut text, "strides", ",", strides)?;
    // (the list is asked for first: where there are too many places for it, nothing is written in vain)
    let places = view.places(alloc, Order::RowMajor)?;
    push_places(&mut text, places.iter().copied())?;
    Ok(Answer { text, status: 0 })
}
