//! The words of a line, and the pieces of a text.
ghost use Rattle.std.specs.Prelude.{◌≡◌, ◌<◌, ◌==◌, [], ◌∷◌, map, length, IfOk, IfSome, MatchOption};
ghost use Rattle.std.specs.List.{after_first, position};
ghost use Rattle.ndl_session.specs.text.Lines.{cut_at, words_of};

use std::alloc::{AllocError, Global};

/// The words of a line: what stands between its spaces.
///
/// Errors: out of memory.
pub(super) fn words(alloc: Global, line: &[u8]) -> Result<Vec<&[u8]>, AllocError>
    ensures { IfOk result (λ v. map (λ word. word.now) v.items ≡ words_of line.now) }
{
    line.split(|b| *b == b' ')
        .filter(|word| !word.is_empty())
        .collect(alloc)
}

/// The index of the first byte that is this one; `None` where none is.
fn position_of(text: &[u8], byte: u8) -> Option<usize>
    ensures { result ≡ position (λ b. b == byte) text.now }
{
    text.iter().position(|b| *b == byte)
}

/// The pieces of a text before and after the first separator; `None` without one.
pub(crate) fn split_once(text: &[u8], separator: u8) -> Option<(&[u8], &[u8])>
    ensures split { MatchOption result (cut_at separator text.now ≡ text.now ∷ [])
        (λ found. cut_at separator text.now ≡ found.0.now ∷ cut_at separator found.1.now) }
    ensures rest { MatchOption result (after_first (λ b. b == separator) text.now ≡ [])
        (λ found. found.1.now ≡ after_first (λ b. b == separator) text.now) }
    ensures shorter { IfSome result (λ found. length found.1.now < length text.now) }
{
    let at = position_of(text, separator)?;
    Some((&text[..at], &text[at + 1..]))
}
