//! An axis of an array.
ghost use Rattle.std.specs.Prelude.{◌≡◌, ◌<◌, ◌↔◌, IsTrue, length, Some, slice_get, slice_set};

/// An axis, by its number from 0 on. ndarray's `Axis`.
#[derive(Clone, Copy, PartialEq, Eq, Hash, PartialOrd, Ord, Debug)]
pub struct Axis(pub usize);

impl Axis {
    /// The number of the axis. ndarray's `index`.
    #[inline]
    pub fn index(self) -> usize
        ensures { result ≡ self.0 }
    {
        self.0
    }
}

/// Whether a shape has this axis: its number is below the count of axes. The test of what `axis_of`
/// and `set_axis_of` ask of their callers. The project's own.
#[inline]
pub fn has_axis(lens: &[usize], axis: Axis) -> bool
    ensures { IsTrue result ↔ (axis.0 < length lens.now) }
{
    axis.index() < lens.len()
}

/// The length of an axis.
///
/// `lens` is one length for each axis. The caller ensures that the shape has that axis
/// (`has_axis`).
///
/// Axis 1 of `[2,3]`: 3. ndarray's `axis`.
pub fn axis_of(lens: &[usize], axis: Axis) -> usize
    requires { axis.0 < length lens.now }
    ensures { slice_get lens.now axis.0 ≡ Some result }
{
    lens[axis.index()]
}

/// Gives an axis another length.
///
/// `lens` is one length for each axis. The caller ensures that the shape has that axis
/// (`has_axis`).
///
/// Axis 1 of `[2,3]` to 5: `[2,5]`. ndarray's `set_axis`.
pub fn set_axis_of(lens: &mut [usize], axis: Axis, len: usize)
    requires { axis.0 < length lens.old }
    ensures { lens.new ≡ slice_set lens.old axis.0 len }
{
    lens[axis.index()] = len;
}
