//! Lists as words spell them.
ghost use Rattle.std.specs.Prelude.{◌≡◌, ℕ, List, Option, IfOk};
ghost use Rattle.std.specs.Option.{option_map};
ghost use Rattle.ndarray_layout.specs.Dim.{lengths};
ghost use Rattle.ndl_session.specs.script.Lists.{list_of, stride_of};
ghost use Rattle.ndl_session.specs.text.Bytes.{comma};
ghost use Rattle.ndl_session.specs.text.Lines.{cut_at};
ghost use Rattle.ndl_session.specs.text.Numbers.{number_of};
ghost use Rattle.ndl_session.specs.script.Reading.{read_each};

use crate::text::numbers::{number, signed_number};
use crate::text::words::split_once;
use ndarray_layout::{IxDyn, IxDynImpl, unsigned};
use std::alloc::{AllocError, Global};

/// What a list can have as items.
pub(super) trait Item {
    /// An item as it is kept.
    type Kept: Drop;

    ghost item_of: { List ℕ → Option Self.Kept };

    /// The item that a text spells; `None` where it spells none.
    fn read(text: &[u8]) -> Option<Self::Kept>
        ensures { result ≡ item_of text.now };
}

/// A length.
impl Item for usize {
    type Kept = usize;

    ghost item_of = { number_of };

    fn read(text: &[u8]) -> Option<usize> {
        number(text)
    }
}

/// A stride, which is kept as the `usize` of the same bits.
impl Item for isize {
    type Kept = usize;

    ghost item_of = { stride_of };

    fn read(text: &[u8]) -> Option<usize> {
        Some(unsigned(signed_number(text)?))
    }
}

/// The items that commas separate, one at least; `None` where one can't be read.
///
/// Errors: out of memory.
fn items<T: Item>(alloc: Global, word: &[u8]) -> Result<Option<Vec<T::Kept>>, AllocError>
    ensures { IfOk result (λ found. option_map (λ v. v.items) found
        ≡ read_each T.item_of (cut_at comma word.now)) }
{
    let mut items = Vec::new(alloc);
    let mut rest = word;
    while let Some((text, after)) = split_once(rest, b',') {
        let Some(item) = T::read(text) else {
            return Ok(None);
        };
        items.push(item)?;
        rest = after;
    }
    let Some(item) = T::read(rest) else {
        return Ok(None);
    };
    items.push(item)?;
    Ok(Some(items))
}

/// The items of a list, separated by commas; `-` is the empty list. `None` where one can't be read.
///
/// Errors: out of memory.
pub(super) fn list<T: Item>(alloc: Global, word: &[u8]) -> Result<Option<Vec<T::Kept>>, AllocError>
    ensures { IfOk result (λ found. option_map (λ v. v.items) found
        ≡ list_of T.item_of word.now) }
{
    if word == b"-".as_slice() {
        return Ok(Some(Vec::new(alloc)));
    }
    items::<T>(alloc, word)
}

/// The numbers of a list as those of the axes, in the memory in which they were read; `None` where one can't be read.
///
/// Errors: out of memory.
pub(super) fn dimension<T: Item<Kept = usize>>(
    alloc: Global,
    word: &[u8],
) -> Result<Option<IxDyn>, AllocError>
    ensures { IfOk result (λ found. option_map lengths found ≡ list_of T.item_of word.now) }
{
    let Some(numbers) = list::<T>(alloc, word)? else {
        return Ok(None);
    };
    Ok(Some(IxDyn::new(IxDynImpl::from_vec(alloc, numbers)?)))
}
