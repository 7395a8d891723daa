//! Numbers as words spell them.
ghost use Rattle.std.specs.Prelude.{◌≡◌};
ghost use Rattle.ndl_session.specs.text.Numbers.{number_of, signed_number_of};

/// The number of one digit or more, without a sign; `None` where the text spells no such number, or one that no `usize`
/// is.
pub(crate) fn number(text: &[u8]) -> Option<usize>
    ensures { result ≡ number_of text.now }
{
    if text.starts_with(b"+") {
        return None;
    }
    str::from_utf8(text).ok()?.parse().ok()
}

/// The number of one digit or more, with an optional `-` in front; `None` where the text spells no such number, or one
/// that no `isize` is.
pub(crate) fn signed_number(text: &[u8]) -> Option<isize>
    ensures { result ≡ signed_number_of text.now }
{
    match text.strip_prefix(b"-") {
        Some(digits) => 0isize.checked_sub_unsigned(number(digits)?),
        None => 0isize.checked_add_unsigned(number(text)?),
    }
}
