//! What a call answers, as text.
use ndarray_layout::{LayoutError, Lengths, Strided, signed};
use std::fmt::{self, Write};
use std::str;
use test_tables::layout_fault_name;

/// A text of at most 250 bytes. It takes no memory.
#[derive(Clone, Copy)]
pub struct Answer {
    bytes: [u8; 250],
    count: usize,
}

impl Write for Answer {
    fn write_str(&mut self, text: &str) -> fmt::Result {
        for byte in text.as_bytes() {
            match self.bytes.get_mut(self.count) {
                Some(place) => *place = *byte,
                None => return Err(fmt::Error),
            }
            self.count = self.count.saturating_add(1);
        }
        Ok(())
    }
}

impl Answer {
    /// A text.
    pub fn of(text: &str) -> Option<Answer> {
        let mut answer = Answer {
            bytes: [0; 250],
            count: 0,
        };
        answer.write_str(text).ok()?;
        Some(answer)
    }

    /// The text.
    pub fn as_str(&self) -> &str {
        str::from_utf8(self.bytes.get(..self.count).unwrap_or(&[])).unwrap_or("")
    }

    /// With numbers after it, separated by commas, or `-` for none.
    pub fn and_list(mut self, numbers: &[usize]) -> Option<Answer> {
        let Some((first, rest)) = numbers.split_first() else {
            self.write_str("-").ok()?;
            return Some(self);
        };
        write!(self, "{}", signed(*first)).ok()?;
        for number in rest {
            write!(self, ",{}", signed(*number)).ok()?;
        }
        Some(self)
    }

    /// With the shape, the strides and the start of a view after it.
    pub fn and_view<D: Lengths>(self, view: &Strided<D>) -> Option<Answer> {
        let mut answer = self.and_list(view.dim().slice())?;
        answer.write_str(" ").ok()?;
        let mut answer = answer.and_list(view.strides().slice())?;
        write!(answer, " {}", view.start()).ok()?;
        Some(answer)
    }
}

/// A list as an answer.
pub fn listed(numbers: &[usize]) -> Option<Answer> {
    Answer::of("")?.and_list(numbers)
}

/// A word, and the items that a call leaves.
pub fn left(word: &str, items: &[usize]) -> Option<Answer> {
    let mut answer = Answer::of(word)?;
    answer.write_str(" ").ok()?;
    answer.and_list(items)
}

/// The fault of a layout, or the lack of memory.
pub fn failed(fault: &LayoutError) -> Option<Answer> {
    Answer::of(layout_fault_name(fault))
}

/// The lack of memory.
pub fn memory() -> Option<Answer> {
    Answer::of("memory")
}

/// The view that a call makes.
pub fn made_view<D: Lengths>(made: Result<Strided<D>, LayoutError>) -> Option<Answer> {
    match made {
        Ok(view) => Answer::of("")?.and_view(&view),
        Err(fault) => failed(&fault),
    }
}
