//! How slices print.
ghost use Rattle.std.specs.Prelude.{Some};
ghost use Rattle.std.specs.Fmt.{DisplaysOnOk};
ghost use Rattle.nd_slice.specs.SliceText.{start_text, end_text, step_text, slice_text};

use super::Slice;
use std::fmt;

/// Writes a start, unless it is 0.
fn write_start<W: fmt::Write>(start: isize, f: &mut fmt::Formatter<W>) -> fmt::Result
    ensures { DisplaysOnOk W.write_str_gives f.old result (Some (start_text start)) f.new }
{
    if start == 0 {
        return Ok(());
    }
    write!(f, "{start}")
}

/// Writes an end, if there is one.
fn write_end<W: fmt::Write>(end: Option<isize>, f: &mut fmt::Formatter<W>) -> fmt::Result
    ensures { DisplaysOnOk W.write_str_gives f.old result (Some (end_text end)) f.new }
{
    match end {
        Some(end) => write!(f, "{end}"),
        None => Ok(()),
    }
}

/// Writes `;` and a step, unless it is 1.
fn write_step<W: fmt::Write>(step: isize, f: &mut fmt::Formatter<W>) -> fmt::Result
    ensures { DisplaysOnOk W.write_str_gives f.old result (Some (step_text step)) f.new }
{
    if step == 1 {
        return Ok(());
    }
    write!(f, ";{step}")
}

/// Prints the start unless it is 0, `..`, the end if there is one, then `;` and the step unless it is 1.
impl fmt::Display for Slice {
    ghost output = { λ slice. Some (slice_text slice) };

    fn fmt<W: fmt::Write>(&self, f: &mut fmt::Formatter<W>) -> fmt::Result {
        write_start(self.start, f)?;
        f.write_str("..")?;
        write_end(self.end, f)?;
        write_step(self.step, f)
    }
}
