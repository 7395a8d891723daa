//! The names of faults.
ghost use Rattle.std.specs.Prelude.{◌≡◌};
ghost use Rattle.std.specs.Result.{result_err};

use ErrorKind::{
    IncompatibleLayout, IncompatibleShape, OutOfBounds, Overflow, RangeLimited, Unsupported,
};
use nd_base::{ErrorKind, LayoutError, ShapeError};

/// The name of a fault, or `none`.
pub fn name_of(fault: Option<ErrorKind>) -> &'static str {
    match fault {
        None => "none",
        Some(IncompatibleLayout) => "IncompatibleLayout",
        Some(IncompatibleShape) => "IncompatibleShape",
        Some(OutOfBounds) => "OutOfBounds",
        Some(Overflow) => "Overflow",
        Some(RangeLimited) => "RangeLimited",
        Some(Unsupported) => "Unsupported",
    }
}

/// The name of the fault of a layout, or `memory` where an allocation fails.
pub fn layout_fault_name(fault: &LayoutError) -> &'static str {
    match fault {
        LayoutError::Shape(fault) => name_of(Some(fault.kind())),
        LayoutError::Memory(_) => "memory",
    }
}

/// The fault of a call that failed, if it did.
pub fn fault_of(answer: Result<(), ShapeError>) -> Option<ErrorKind>
    ensures { result ≡ result_err answer }
{
    match answer {
        Ok(()) => None,
        Err(fault) => Some(fault.kind()),
    }
}

/// The answer of a call, or the fault that it failed with.
pub fn or_fault<T: Drop>(answer: Result<T, ShapeError>) -> Result<T, ErrorKind>
    ensures { result ≡ answer }
{
    match answer {
        Ok(answer) => Ok(answer),
        Err(fault) => Err(fault.kind()),
    }
}
