//! Errors of shapes, of layouts and of calls on them.
ghost use Rattle.std.specs.Prelude.{◌≡◌, Some};
ghost use Rattle.nd_base.specs.ErrorText.{shape_error_text};

use std::alloc::{AllocError, AllocFailed};
use std::error::Error;
use std::fmt;
use std::marker::Model;

/// The kinds of errors of shapes and layouts. ndarray's `ErrorKind`.
#[derive(Clone, Copy, PartialEq, Debug)]
pub enum ErrorKind {
    /// Counts of axes or lengths do not go together.
    IncompatibleShape,
    /// The strides do not go with the shape, or with the data as it lies.
    IncompatibleLayout,
    /// A number does not fit the type that it is for. No call here returns it.
    RangeLimited,
    /// An index, or a layout as a whole, leaves its bounds.
    OutOfBounds,
    /// What is asked for is not offered.
    Unsupported,
    /// A size or a span passes the greatest `isize`.
    Overflow,
}

/// An error of a shape or a layout, with its kind. ndarray's `ShapeError`.
#[derive(Clone, PartialEq, Drop)]
pub struct ShapeError {
    repr: ErrorKind,
}

impl Model for ShapeError {
    ghost use Rattle.nd_base.specs.declared.error.ErrorKind.{ErrorKind};

    ghost Value = { ErrorKind };

    ghost view = { λ e. e.repr };

    ghost inverse = { λ kind. record { repr = kind } };
}

impl ShapeError {
    /// The kind of the error. ndarray's `kind`.
    #[inline]
    pub fn kind(&self) -> ErrorKind
        ensures { result ≡ self.now }
    {
        self.repr
    }

    /// The error of a kind. ndarray's `ShapeError::from_kind`.
    pub fn from_kind(error: ErrorKind) -> Self
        ensures { result ≡ error }
    {
        from_kind(error)
    }
}

/// The error of a kind. ndarray's `from_kind`.
pub fn from_kind(kind: ErrorKind) -> ShapeError
    ensures { result ≡ kind }
{
    ShapeError { repr: kind }
}

/// What the error of a kind prints.
fn text_of(kind: ErrorKind) -> &'static str
    ensures { result.now ≡ shape_error_text kind }
{
    match kind {
        ErrorKind::IncompatibleShape => "ShapeError/IncompatibleShape: incompatible shapes",
        ErrorKind::IncompatibleLayout =>
            "ShapeError/IncompatibleLayout: incompatible memory layout",
        ErrorKind::RangeLimited => "ShapeError/RangeLimited: the shape does not fit in type limits",
        ErrorKind::OutOfBounds => "ShapeError/OutOfBounds: out of bounds indexing",
        ErrorKind::Unsupported => "ShapeError/Unsupported: unsupported operation",
        ErrorKind::Overflow => "ShapeError/Overflow: arithmetic overflow",
    }
}

impl fmt::Display for ShapeError {
    ghost output = { λ e. Some (shape_error_text e) };

    fn fmt<W: fmt::Write>(&self, f: &mut fmt::Formatter<W>) -> fmt::Result {
        f.write_str(text_of(self.repr))
    }
}

impl fmt::Debug for ShapeError {
    ghost debug_output = { λ e. Some (shape_error_text e) };

    fn fmt<W: fmt::Write>(&self, f: &mut fmt::Formatter<W>) -> fmt::Result {
        fmt::Display::fmt(self, f)
    }
}

impl Error for ShapeError {}

/// An error of a shape or a layout, or of memory. The project's own.
#[derive(Debug, Drop)]
pub enum LayoutError {
    /// An error of a shape or a layout.
    Shape(ShapeError),
    /// An allocation failed.
    Memory(AllocError),
}

impl From<ShapeError> for LayoutError {
    ghost use Rattle.nd_base.specs.declared.error.LayoutError.TheVariants.{Shape};

    ghost from_gives = { λ fault error. error ≡ Shape fault };

    fn from(error: ShapeError) -> Self {
        LayoutError::Shape(error)
    }
}

impl From<AllocError> for LayoutError {
    ghost use Rattle.nd_base.specs.declared.error.LayoutError.TheVariants.{Memory};

    ghost from_gives = { λ fault error. error ≡ Memory fault };

    fn from(error: AllocError) -> Self {
        LayoutError::Memory(error)
    }
}

/// So that `v.push(x)?` stands beside the calls of this layer. The value that was not stored is dropped.
impl<T: Drop> From<AllocFailed<T>> for LayoutError {
    ghost use Rattle.std.specs.Prelude.{alloc_error};
    ghost use Rattle.nd_base.specs.declared.error.LayoutError.TheVariants.{Memory};

    ghost from_gives = { λ _ error. error ≡ Memory alloc_error };

    fn from(_error: AllocFailed<T>) -> Self {
        LayoutError::Memory(AllocError)
    }
}
