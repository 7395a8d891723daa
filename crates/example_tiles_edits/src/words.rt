//! Edits as words spell them.
ghost use Rattle.std.specs.Prelude.{◌<◌, ◌≤◌, IfSome, length};

use crate::edit::{Edit, Span};
use std::alloc::{AllocFailed, Global};
use thiserror::Error;

/// Why words were not read as edits.
#[derive(Clone, Copy, Debug, PartialEq, Eq, Error)]
pub enum WordsError {
    /// No edit begins with the word of this number, counted from 1.
    #[error("argument {0}: expected `crop A..B C..D`, `flip rows`, `flip columns` or `every N`")]
    Unreadable(usize),
    /// An allocation failed.
    #[error("out of memory")]
    Memory,
}

impl<T: Drop> From<AllocFailed<T>> for WordsError {
    ghost use Rattle.std.specs.Prelude.{◌≡◌};
    ghost use Rattle.example_tiles_edits.specs.declared.words.WordsError.TheVariants.{Memory};

    ghost from_gives = { λ _ error. error ≡ Memory };

    fn from(_error: AllocFailed<T>) -> Self {
        WordsError::Memory
    }
}

/// The span of a word as `2..6`; `None` where it is no such word.
fn span(word: &str) -> Option<Span> {
    let (start, end) = word.split_once("..")?;
    Some(Span {
        start: start.parse().ok()?,
        end: end.parse().ok()?,
    })
}

/// The edit that some words begin with, and how many of them spell it; `None` where they begin with none.
fn first_edit(words: &[&str]) -> Option<(Edit, usize)>
    ensures { IfSome result (λ found. (0 < found.1) × (found.1 ≤ length words.now)) }
{
    match words {
        ["crop", rows, columns, ..] => Some((Edit::Crop(span(rows)?, span(columns)?), 3)),
        ["flip", "rows", ..] => Some((Edit::FlipRows, 2)),
        ["flip", "columns", ..] => Some((Edit::FlipColumns, 2)),
        ["every", count, ..] => Some((Edit::Every(count.parse().ok()?), 2)),
        _ => None,
    }
}

/// The edits that words spell, one after another, each in two words or three.
///
/// Errors: the number of the first word that no edit begins with; out of memory.
pub fn read_edits(alloc: Global, words: &[&str]) -> Result<Vec<Edit>, WordsError> {
    let mut edits = Vec::new(alloc);
    let mut at = 0;
    while at < words.len() {
        let Some((edit, taken)) = first_edit(&words[at..]) else {
            return Err(WordsError::Unreadable(at + 1));
        };
        edits.push(edit)?;
        at += taken;
    }
    Ok(edits)
}
