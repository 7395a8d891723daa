//! What statuses mean, as text.
ghost use Rattle.std.specs.Prelude.{◌≡◌, ◌≢◌, ◌+◌, ◌<◌, ◌==◌, ◌||◌, nat_lt, None, Some, length, take, drop, slice_get};
ghost use Rattle.ndarray_layout_c.specs.Statuses.{ok, status_where};
ghost use Rattle.ndarray_layout_c.specs.StatusTexts.{status_text};

use crate::statuses::{BAD_ARGUMENT, OK};

/// How many bytes the longest text has room in, with the 0 that ends it.
const TEXT_SIZE: usize = 80;

/// What a status means: the layer's text for a fault, without the name of the error's type; nothing where a number is no status.
fn text_of(status: i32) -> &'static [u8]
    ensures text { result.now ≡ status_text status }
    ensures fits { length result.now < 80 }
{
    if status == 0 {
        return b"Ok: the call succeeded";
    }
    if status == 1 {
        return b"IncompatibleShape: incompatible shapes";
    }
    if status == 2 {
        return b"IncompatibleLayout: incompatible memory layout";
    }
    if status == 3 {
        return b"RangeLimited: the shape does not fit in type limits";
    }
    if status == 4 {
        return b"OutOfBounds: out of bounds indexing";
    }
    if status == 5 {
        return b"Unsupported: unsupported operation";
    }
    if status == 6 {
        return b"Overflow: arithmetic overflow";
    }
    if status == 7 {
        return b"BadArgument: a number without a meaning, or a list of the wrong length";
    }
    if status == 8 {
        return b"OutOfMemory: memory was refused";
    }
    b""
}

/// Writes a text and a 0 after it over the first bytes of a list that is longer.
fn write_text(bytes: &[u8], text: &mut [u8])
    requires { length bytes.now < length text.old }
    ensures text { take (length bytes.now) text.new ≡ bytes.now }
    ensures end { slice_get text.new (length bytes.now) ≡ Some 0 }
    ensures rest { drop (length bytes.now + 1) text.new ≡ drop (length bytes.now + 1) text.old }
{
    text[bytes.len()] = 0;
    text[..bytes.len()].copy_from_slice(bytes);
}

/// Writes what a status means, with a 0 after it, and how many bytes that has.
#[unsafe(no_mangle)]
pub extern "C" fn nd_status_text(status: i32, text: &mut [u8], used: &mut usize) -> i32
    ensures status { result ≡ status_where
        (length (status_text status) == 0 || nat_lt (length text.old) 80) None }
    ensures used { result ≡ ok → used.new ≡ length (status_text status) }
    ensures text { result ≡ ok → take (length (status_text status)) text.new ≡ status_text status }
    ensures end { result ≡ ok → slice_get text.new (length (status_text status)) ≡ Some 0 }
    ensures rest { result ≡ ok → drop (length (status_text status) + 1) text.new ≡
        drop (length (status_text status) + 1) text.old }
    ensures unchanged { result ≢ ok → (text.new ≡ text.old) × (used.new ≡ used.old) }
{
    let bytes = text_of(status);
    if bytes.is_empty() || text.len() < TEXT_SIZE {
        return BAD_ARGUMENT;
    }
    write_text(bytes, text);
    *used = bytes.len();
    OK
}
