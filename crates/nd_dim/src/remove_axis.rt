//! Lengths with an axis less, and the dimensions that have an axis to remove.
ghost use Rattle.std.specs.Prelude.{◌≡◌, ◌+◌, ◌-◌, ◌<◌, length, remove, IsOk, IfOk};
ghost use Rattle.nd_base.specs.Memory.{NeedsNoMemory};

use crate::dimension::Dimension;
use nd_base::{Axis, Ix1, Ix2, Ix3, Ix4, Ix5, Ix6, IxDyn};
use std::alloc::{AllocError, Global};

/// Writes the lengths without that of the axis `axis`.
#[inline(always)]
pub(crate) fn remove_axis_into(lens: &[usize], axis: usize, smaller: &mut [usize])
    requires within { axis < length lens.now }
    requires one_less { length smaller.old + 1 ≡ length lens.now }
    ensures { smaller.new ≡ remove lens.now axis }
{
    // (where the type fixes the count of axes, a load and a store for each; two copies of a length that isn't known are two calls)
    for at in 0..smaller.len() {
        smaller[at] = lens[at + usize::from(at >= axis)];
    }
}

/// A dimension type that can have an axis to remove: all but that of no axes. ndarray's
/// `RemoveAxis`.
pub trait RemoveAxis: Dimension {
    /// The lengths without that of one axis.
    ///
    /// The caller ensures that the shape has that axis (`has_axis`).
    ///
    /// # Errors
    ///
    /// Out of memory; never where the result's type fixes the count or has at most 4 axes.
    ///
    /// Takes time in proportion to the count of axes.
    ///
    /// `[2,3]` without axis 0: `[3]`. ndarray's `remove_axis`.
    final fn remove_axis(&self, alloc: Global, axis: Axis) -> Result<Self::Smaller, AllocError>
        requires { axis.0 < length (Self.list self.now) }
        ensures list { IfOk result (λ smaller.
            Self.Smaller.list smaller ≡ remove (Self.list self.now) axis.0) }
        ensures memory { NeedsNoMemory Self.Smaller.NDIM (length (Self.list self.now) - 1)
            → IsOk result }
    {
        self.try_remove_axis(alloc, axis)
    }
}

impl RemoveAxis for Ix1 {}

impl RemoveAxis for Ix2 {}

impl RemoveAxis for Ix3 {}

impl RemoveAxis for Ix4 {}

impl RemoveAxis for Ix5 {}

impl RemoveAxis for Ix6 {}

impl RemoveAxis for IxDyn {}
