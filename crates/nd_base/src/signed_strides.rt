//! Strides: kept in a `usize`, with the meaning of an `isize`.
ghost use Rattle.std.specs.Prelude.{◌≡◌, ◌<◌, ◌^◌, ◌↔◌, pos, ◌*ℤ◌, IsTrue};
ghost use Rattle.std.specs.Int.RustNames.{FitsSigned};
ghost use Rattle.std.specs.Int.{w64};
ghost use Rattle.nd_base.specs.Signed.{signed as signed_reading, unsigned as unsigned_bits};

/// The stride that a `usize` keeps: the signed number of the same 64 bits.
///
/// 2^64 - 1: -1. The project's own.
#[inline]
pub const fn signed(stride: usize) -> isize
    ensures same_bits { result ≡ signed_reading stride }
    ensures back { unsigned_bits result ≡ stride }
{
    stride.cast_signed()
}

/// The `usize` that keeps a stride: the unsigned number of the same 64 bits.
///
/// -1: 2^64 - 1. The project's own.
#[inline]
pub const fn unsigned(stride: isize) -> usize
    ensures same_bits { result ≡ unsigned_bits stride }
    ensures back { signed_reading result ≡ stride }
{
    stride.cast_unsigned()
}

/// The offset in elements, with its sign, from coordinate 0 of an axis to coordinate `n`: `n` times
/// the stride.
///
/// The caller ensures that `n` is below 2^63 and that the product fits an `isize`.
///
/// 2 along the stride -3: -6. ndarray's `stride_offset`.
#[inline]
pub fn stride_offset(n: usize, stride: usize) -> isize
    requires small { n < 2 ^ 63 }
    requires fits { FitsSigned w64 (pos n *ℤ signed_reading stride) }
    ensures { result ≡ pos n *ℤ signed_reading stride }
{
    n as isize * signed(stride)
}

/// Whether a stride is that many times another one.
///
/// The caller ensures that `n` is below 2^63.
///
/// -6 of 2 and -3: true. The project's own.
#[inline(always)]
pub fn is_multiple(stride: usize, n: usize, other: usize) -> bool
    requires { n < 2 ^ 63 }
    ensures { IsTrue result ↔ (signed_reading stride ≡ pos n *ℤ signed_reading other) }
{
    // (128 bits hold the product of any two numbers of 64; two signed ones take one instruction)
    signed(stride) as i128 == signed(n) as i128 * signed(other) as i128
}
