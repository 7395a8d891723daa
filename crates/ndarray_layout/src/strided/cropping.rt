//! A range of coordinates on each axis.
ghost use Rattle.std.specs.Prelude.{◌≡◌, ◌↔◌, if◌then◌else◌, nat_lt, IsTrue, IsSome, IfSome, length};
ghost use Rattle.nd_base.specs.Elementwise.{DifferencesFit, differences};
ghost use Rattle.ndarray_layout.specs.CroppedView.{RangesFit, moved_starts, cropped_of, crop_source};
ghost use Rattle.ndarray_layout.specs.Descends.{Descends};

use crate::strided::Strided;
use crate::strided::places::offset_place;
use nd_base::{Lengths, index_offset};

/// Whether two lists have as many numbers, and none of the first is greater than the one beside it.
#[inline(always)]
fn is_at_most(lows: &[usize], highs: &[usize]) -> bool
    ensures { IsTrue result ↔ DifferencesFit highs.now lows.now }
{
    lows.len() == highs.len() && lows.iter().zip(highs).all(|(low, high)| low <= high)
}

/// Takes each start from the end beside it. The caller ensures that there are as many, and that none is greater.
#[inline(always)]
fn subtract_starts(ends: &mut [usize], starts: &[usize])
    requires { DifferencesFit ends.old starts.now }
    ensures { ends.new ≡ differences ends.old starts.now }
{
    for axis in 0..starts.len() {
        ends[axis] -= starts[axis];
    }
}

/// How far a start moves: not at all where no coordinate lies below the end.
#[inline(always)]
pub(super) fn moved_start(start: usize, end: usize) -> usize
    ensures { result ≡ (if nat_lt start end then start else 0) }
{
    if start < end { start } else { 0 }
}

/// Writes how far each start moves. The caller ensures that there are as many ends.
#[inline(always)]
fn move_starts(starts: &mut [usize], ends: &[usize])
    requires { length starts.old ≡ length ends.now }
    ensures { starts.new ≡ moved_starts starts.old ends.now }
{
    for axis in 0..ends.len() {
        starts[axis] = moved_start(starts[axis], ends[axis]);
    }
}

impl<D: Lengths + Copy> Strided<D> {
    /// The view of the coordinates from `starts` to `ends`, one of each for each axis; `None` where there are more or
    /// fewer, a start is greater than its end, or an end greater than the length of its axis. No element is moved.
    ///
    /// The strides are unchanged. The start moves to the first coordinate of each axis that keeps one, as it does in
    /// `slice` by these ranges. Takes no memory, and time in proportion to the count of axes.
    ///
    /// From (1,1) to (3,2) of `[4,3]`, `[3,1]` from 0: `[2,1]`, `[3,1]` from 4. In place of ndarray's `slice` by
    /// ranges.
    #[inline]
    pub fn crop(&self, starts: &D, ends: &D) -> Option<Self>
        ensures found { IsSome result
            ↔ RangesFit self.now.shape (D.list starts.now) (D.list ends.now) }
        ensures cropped { IfSome result (λ v.
            v ≡ cropped_of (D.list starts.now) (D.list ends.now) self.now) }
        ensures kept { IfSome result (Descends (crop_source (D.list starts.now)) self.now) }
    {
        if !is_at_most(starts.slice(), ends.slice())
            || !is_at_most(ends.slice(), self.dim.slice())
        {
            return None;
        }
        let mut dim = *ends;
        subtract_starts(dim.slice_mut(), starts.slice());
        let mut moved = *starts;
        move_starts(moved.slice_mut(), ends.slice());
        let offset = index_offset(moved.slice(), self.strides.slice());
        let start = offset_place(self.start, offset);
        Some(Strided {
            start,
            dim,
            strides: self.strides,
        })
    }
}
