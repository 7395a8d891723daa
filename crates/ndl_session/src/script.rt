//! Reads a whole script.
ghost use Rattle.std.specs.Prelude.{◌≡◌, ◌+◌, ◌<◌, ◌^◌, Ok, length, map};
ghost use Rattle.ndl_session.specs.text.Lines.{lines_from};
ghost use Rattle.ndl_session.specs.script.Script.{Gives, IsScript, ScriptValue};
ghost use Rattle.ndl_session.specs.script.Script.{script_of, script_text, script_value, steps_of_lines};
ghost use Rattle.ndarray_layout.specs.Step.{step_value};

pub(crate) mod data_line;
mod elements;
mod lists;
mod step_line;

use crate::script::data_line::{DataLayout, read_layout};
use crate::script::step_line::read_step;
use crate::text::lines::next_line;
use ndarray_layout::Step;
use std::alloc::{AllocError, AllocFailed, Global};

/// A layout, and the steps to take from it, in order.
#[derive(Drop)]
pub struct Script {
    /// The layout that the first line makes.
    pub layout: DataLayout,
    /// The steps that the lines after it ask for.
    pub steps: Vec<Step>,
}

/// Why a script could not be read.
#[derive(Debug, Drop)]
pub enum ReadError {
    /// The number of the first line that isn't of the grammar, from 1 on.
    Unreadable(usize),
    /// Out of memory.
    Memory,
}

impl From<AllocError> for ReadError {
    ghost use Rattle.ndl_session.specs.declared.script.ReadError.TheVariants.{Memory};

    ghost from_gives = { λ _ error. error ≡ Memory };

    fn from(_error: AllocError) -> Self {
        ReadError::Memory
    }
}

impl<T: Drop> From<AllocFailed<T>> for ReadError {
    ghost use Rattle.ndl_session.specs.declared.script.ReadError.TheVariants.{Memory};

    ghost from_gives = { λ _ error. error ≡ Memory };

    fn from(_error: AllocFailed<T>) -> Self {
        ReadError::Memory
    }
}

/// The steps that follow a layout. The number given is that of the first line of the text.
fn read_steps(alloc: Global, text: &[u8], number: usize) -> Result<Vec<Step>, ReadError>
    requires { number + length text.now < 2 ^ 64 }
    ensures { Gives (λ v. map step_value v.items) result
        (steps_of_lines (lines_from number text.now)) }
{
    let mut steps = Vec::new(alloc);
    let mut rest = text;
    let mut number = number;
    while let Some(line) = next_line(alloc, rest, number)? {
        let Some(step) = read_step(alloc, &line.words)? else {
            return Err(ReadError::Unreadable(line.number));
        };
        steps.push(step)?;
        rest = line.rest;
        number = line.number + 1;
    }
    Ok(steps)
}

/// The script that an input spells.
///
/// All of it is read before any of it is used: one line that can't be read makes the whole unreadable. The text
/// of a script is read as that script, whatever its numbers are.
///
/// # Errors
///
/// `Unreadable` with the number of the first line that can't be read, or 1 where no line has a word; out of memory.
///
/// Takes time and memory in proportion to the length of the input.
///
/// The lines `data 4 owned 4 1` and `slise ..`: `Unreadable(2)`. The project's own.
pub fn read_script(alloc: Global, input: &[u8]) -> Result<Script, ReadError>
    ensures read { Gives script_value result (script_of input.now) }
    ensures printed { (script : ScriptValue) → IsScript script → input.now ≡ script_text script
        → Gives script_value result (Ok script) }
{
    let Some(line) = next_line(alloc, input, 1)? else {
        return Err(ReadError::Unreadable(1));
    };
    let Some(layout) = read_layout(alloc, &line.words)? else {
        return Err(ReadError::Unreadable(line.number));
    };
    let steps = read_steps(alloc, line.rest, line.number + 1)?;
    Ok(Script { layout, steps })
}
