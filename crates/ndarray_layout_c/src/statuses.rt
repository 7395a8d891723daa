//! The numbers by which C learns how a call ended.
ghost use Rattle.std.specs.Prelude.{◌≡◌, ◌≢◌};
ghost use Rattle.ndarray_layout_c.specs.Statuses.{number_of, ok, out_of_memory};

use ndarray_layout::ErrorKind;

/// Success.
pub(crate) const OK: i32 = 0;

/// A number without a meaning, or a list of the wrong length.
pub(crate) const BAD_ARGUMENT: i32 = 7;

/// The status of `OutOfBounds`.
pub(crate) const OUT_OF_BOUNDS: i32 = 4;

/// The status of `IncompatibleShape`.
pub(crate) const INCOMPATIBLE_SHAPE: i32 = 1;

/// The status of `Unsupported`.
pub(crate) const UNSUPPORTED: i32 = 5;

/// The status of `IncompatibleLayout`.
pub(crate) const INCOMPATIBLE_LAYOUT: i32 = 2;

/// The status of `Overflow`.
pub(crate) const OVERFLOW: i32 = 6;

/// An allocation failed.
pub(crate) const OUT_OF_MEMORY: i32 = 8;

/// The status of a fault.
pub(crate) fn status_of(kind: ErrorKind) -> i32
    ensures number { result ≡ number_of kind }
    ensures fault { result ≢ ok }
    ensures no_memory { result ≢ out_of_memory }
{
    match kind {
        ErrorKind::IncompatibleShape => 1,
        ErrorKind::IncompatibleLayout => 2,
        ErrorKind::RangeLimited => 3,
        ErrorKind::OutOfBounds => 4,
        ErrorKind::Unsupported => 5,
        ErrorKind::Overflow => 6,
    }
}
