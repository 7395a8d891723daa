//! Ranges of an axis with a step.
ghost use Rattle.std.specs.Prelude.{◌≡◌, ◌≢◌, pos, ◌*ℤ◌, FitsSigned};
ghost use Rattle.std.specs.Int.{w64};

mod builders;
mod slice_from;
mod slice_text;

/// The greatest `isize`, which no length or coordinate passes.
pub(crate) const LIMIT: usize = 9223372036854775807;

/// A range of an axis with a step, all three counted in coordinates. A negative bound counts from
/// the end of the axis, no end is the end of the axis, and a negative step picks from the last
/// coordinate of the range to the first. ndarray's `Slice`.
#[derive(Clone, Copy, PartialEq, Eq, Hash, Debug)]
pub struct Slice {
    /// The first coordinate of the range.
    pub start: isize,
    /// The coordinate that the range stops before.
    pub end: Option<isize>,
    /// The distance from one pick to the next in coordinates, with its sign; a slice with a step of 0 fits no
    /// axis.
    pub step: isize,
}

impl Slice {
    /// The range from `start` up to, not including, `end`, of which every |`step`|-th coordinate is
    /// picked, from the last one on where `step` is negative.
    ///
    /// The caller ensures that `step` is not 0.
    ///
    /// `Slice::new(1, None, -2)` picks 3 and 1 of an axis of 4. ndarray's `Slice::new`.
    #[inline]
    pub fn new(start: isize, end: Option<isize>, step: isize) -> Slice
        requires { step ≢ pos 0 }
        ensures { result ≡ record { start = start; end = end; step = step } }
    {
        Slice { start, end, step }
    }

    /// The same range with its step multiplied by `step`.
    ///
    /// The caller ensures that `step` is not 0, and that the product fits an `isize`.
    ///
    /// `1..;2` by -1: `1..;-2`. ndarray's `Slice::step_by`.
    #[inline]
    pub fn step_by(self, step: isize) -> Self
        requires moves { step ≢ pos 0 }
        requires fits { FitsSigned w64 (self.step *ℤ step) }
        ensures { result ≡ record { start = self.start; end = self.end; step = self.step *ℤ step } }
    {
        Slice {
            step: self.step * step,
            ..self
        }
    }
}
