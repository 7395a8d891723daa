//! A line of input, and the call that it says.
//!
//! A line is how many small requests are made before all others, the call by its name, what it is made at, which the name says as
//! well, and up to four lists.
use crate::answer::Answer;
use crate::lists::{self, Listed};
use crate::views::{self, Viewed};
use crate::{arrays, runs};
use ndarray_layout::IxDyn;
use std::alloc::Global;
use test_tables::{Lists, grants, meaning};

/// What a call is made at, and which one it is.
#[derive(Clone, Copy)]
enum Call {
    View(Viewed),
    List(Listed),
    Writes,
    Run,
}

/// The calls by their names.
static CALLS: [(&str, Call); 10] = [
    ("Strided::slice", Call::View(Viewed::Slice)),
    ("Strided::reshape", Call::View(Viewed::Reshape)),
    ("Strided::broadcast", Call::View(Viewed::Broadcast)),
    ("Strided::places", Call::View(Viewed::Places)),
    ("reshape_dim", Call::View(Viewed::ReshapeDim)),
    ("new_ixdyn", Call::List(Listed::New)),
    ("IxDynImpl::insert", Call::List(Listed::Insert)),
    ("IxDynImpl::remove", Call::List(Listed::Remove)),
    ("OwnedArray::multi_set", Call::Writes),
    ("run", Call::Run),
];

/// Makes as many small requests for memory as a word says; `None` where it is no number, or one fails.
pub fn ask(alloc: Global, count: &str) -> Option<()> {
    let count: usize = count.parse().ok()?;
    for _ in 0..count {
        if !grants(alloc) {
            return None;
        }
    }
    Some(())
}

/// How many small requests for memory are granted one after another, up to nine.
pub fn granted(alloc: Global) -> usize {
    for count in 0..9 {
        if !grants(alloc) {
            return count;
        }
    }
    9
}

/// What the call of a line answers; nothing where the line can't be read.
pub fn answer(alloc: Global, line: &str) -> Option<Answer> {
    let (earlier, line) = line.split_once(" ")?;
    let (name, line) = line.split_once(" ")?;
    let (_, lists) = line.split_once(" ")?;
    let (call, lists) = (meaning(&CALLS, name)?, Lists::read(lists)?);
    ask(alloc, earlier)?;
    made(alloc, call, &lists)
}

/// What a call answers.
fn made(alloc: Global, call: Call, lists: &Lists) -> Option<Answer> {
    match call {
        Call::View(call) => views::answer::<IxDyn>(alloc, call, lists),
        Call::List(call) => lists::answer(alloc, call, lists),
        Call::Writes => arrays::answer::<IxDyn>(alloc, lists),
        Call::Run => runs::answer(alloc, lists),
    }
}
