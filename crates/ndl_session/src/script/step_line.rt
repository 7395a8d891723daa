//! The lines of a script that ask for a step.
ghost use Rattle.std.specs.Prelude.{◌≡◌, ◌∷◌, [], map, IfOk};
ghost use Rattle.std.specs.Option.{option_map};
ghost use Rattle.ndarray_layout.specs.Step.{step_value, SliceBy, CollapseTo, MergeInto, ReshapeTo, BroadcastTo};
ghost use Rattle.ndl_session.specs.text.Numbers.{number_of};
ghost use Rattle.ndl_session.specs.script.Elements.{elements_of};
ghost use Rattle.ndl_session.specs.script.Lists.{lengths_of};
ghost use Rattle.ndl_session.specs.script.Reading.{of_both};
ghost use Rattle.ndl_session.specs.script.StepLine.{order_of_word, step_of};

use crate::script::lists::{dimension, list};
use crate::text::numbers::number;
use ndarray_layout::{Axis, Fit, Order, SliceInfoElem, Step};
use std::alloc::{AllocError, Global};

/// The slice by the elements that a word lists; `None` where they aren't of the grammar.
///
/// Errors: out of memory.
fn slice(alloc: Global, elems: &[u8], fit: Fit) -> Result<Option<Step>, AllocError>
    ensures { IfOk result (λ found. option_map step_value found
        ≡ option_map (λ elems. SliceBy elems fit) (elements_of elems.now)) }
{
    let Some(elems) = list::<SliceInfoElem>(alloc, elems)? else {
        return Ok(None);
    };
    Ok(Some(Step::Slice(elems, fit)))
}

/// The broadcast to the shape that a word lists; `None` where it isn't of the grammar.
///
/// Errors: out of memory.
fn broadcast(alloc: Global, shape: &[u8]) -> Result<Option<Step>, AllocError>
    ensures { IfOk result (λ found. option_map step_value found
        ≡ option_map BroadcastTo (lengths_of shape.now)) }
{
    Ok(dimension::<usize>(alloc, shape)?.map(Step::Broadcast))
}

/// The collapse of an axis to an index of it; `None` where one of them is no number.
fn collapse(axis: &[u8], index: &[u8]) -> Option<Step>
    ensures { option_map step_value result
        ≡ of_both CollapseTo (number_of axis.now) (number_of index.now) }
{
    Some(Step::Collapse(Axis(number(axis)?), number(index)?))
}

/// The merge of an axis into another one; `None` where one of them is no number.
fn merge(take: &[u8], into: &[u8]) -> Option<Step>
    ensures { option_map step_value result
        ≡ of_both MergeInto (number_of take.now) (number_of into.now) }
{
    Some(Step::Merge(Axis(number(take)?), Axis(number(into)?)))
}

/// The order of a name; `None` where it is neither `C` nor `F`.
fn order(name: &[u8]) -> Option<Order>
    ensures { result ≡ order_of_word name.now }
{
    if name == b"C".as_slice() {
        Some(Order::RowMajor)
    } else if name == b"F".as_slice() {
        Some(Order::ColumnMajor)
    } else {
        None
    }
}

/// The reshape in an order to the shape that a word lists; `None` where the words aren't of the grammar.
///
/// Errors: out of memory.
fn reshape(alloc: Global, name: &[u8], shape: &[u8]) -> Result<Option<Step>, AllocError>
    ensures { IfOk result (λ found. option_map step_value found
        ≡ of_both (λ order shape.
        ReshapeTo shape order) (order_of_word name.now) (lengths_of shape.now)) }
{
    let Some(order) = order(name) else {
        return Ok(None);
    };
    Ok(dimension::<usize>(alloc, shape)?.map(|shape| Step::Reshape(shape, order)))
}

/// The step by a keyword and a word; `None` where they aren't of the grammar.
///
/// Errors: out of memory.
fn step_of_word(alloc: Global, keyword: &[u8], word: &[u8]) -> Result<Option<Step>, AllocError>
    ensures { IfOk result (λ found. option_map step_value found
        ≡ step_of (keyword.now ∷ word.now ∷ [])) }
{
    if keyword == b"slice".as_slice() {
        slice(alloc, word, Fit::Strict)
    } else if keyword == b"clamp".as_slice() {
        slice(alloc, word, Fit::Clamp)
    } else if keyword == b"broadcast".as_slice() {
        broadcast(alloc, word)
    } else {
        Ok(None)
    }
}

/// The step by a keyword and two words; `None` where they aren't of the grammar.
///
/// Errors: out of memory.
fn step_of_two_words(
    alloc: Global,
    keyword: &[u8],
    first: &[u8],
    second: &[u8],
) -> Result<Option<Step>, AllocError>
    ensures { IfOk result (λ found. option_map step_value found
        ≡ step_of (keyword.now ∷ first.now ∷ second.now ∷ [])) }
{
    if keyword == b"collapse".as_slice() {
        Ok(collapse(first, second))
    } else if keyword == b"merge".as_slice() {
        Ok(merge(first, second))
    } else if keyword == b"reshape".as_slice() {
        reshape(alloc, first, second)
    } else {
        Ok(None)
    }
}

/// The step that the words of a line ask for; `None` where they aren't of the grammar.
///
/// Errors: out of memory.
pub(super) fn read_step(alloc: Global, words: &[&[u8]]) -> Result<Option<Step>, AllocError>
    ensures { IfOk result (λ found. option_map step_value found
        ≡ step_of (map (λ word. word.now) words.now)) }
{
    match words {
        [keyword, word] => step_of_word(alloc, keyword, word),
        [keyword, first, second] => step_of_two_words(alloc, keyword, first, second),
        _ => Ok(None),
    }
}
