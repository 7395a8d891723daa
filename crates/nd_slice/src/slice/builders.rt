//! Slices from ranges that need a condition.
ghost use Rattle.std.specs.Prelude.{◌≡◌, ◌+◌, ◌<◌, ◌≤◌, pos, ◌<ℤ◌, Some, None};
ghost use Rattle.nd_base.specs.Size.{limit};
ghost use Rattle.nd_slice.specs.SliceBounds.{slice_with};
ghost use Rattle.nd_slice.specs.SliceBounds.{end_after};

use super::Slice;

/// The number that a range stops before where `last` is its last coordinate; none where that is -1, the last
/// coordinate of the axis.
#[inline]
fn end_after(last: isize) -> Option<isize>
    requires { last <ℤ pos limit }
    ensures { result ≡ end_after last }
{
    if last == -1 { None } else { Some(last + 1) }
}

impl Slice {
    /// The range of the coordinates from `first` to `last`, both included. A negative one counts
    /// from the end of the axis.
    ///
    /// The caller ensures that `last` is below `isize::MAX`.
    ///
    /// 1 and -1: `1..`. For ndarray's `From` of `a..=b`.
    #[inline]
    pub fn inclusive(first: isize, last: isize) -> Slice
        requires { last <ℤ pos limit }
        ensures { result ≡ slice_with first (end_after last) (pos 1) }
    {
        Slice {
            start: first,
            end: end_after(last),
            step: 1,
        }
    }

    /// The range of the coordinates up to `last`, included. A negative one counts from the end of
    /// the axis.
    ///
    /// The caller ensures that `last` is below `isize::MAX`.
    ///
    /// 2: `..3`. For ndarray's `From` of `..=b`.
    #[inline]
    pub fn to_inclusive(last: isize) -> Slice
        requires { last <ℤ pos limit }
        ensures { result ≡ slice_with (pos 0) (end_after last) (pos 1) }
    {
        Slice::inclusive(0, last)
    }

    /// The range of the coordinates from `start` up to, not including, `end`, both counted from the
    /// first one.
    ///
    /// The caller ensures that both are at most `isize::MAX`.
    ///
    /// 1 and 3: `1..3`. For ndarray's `From` of `a..b` over `usize`.
    #[inline]
    pub fn of_usize(start: usize, end: usize) -> Slice
        requires start_fits { start ≤ limit }
        requires end_fits { end ≤ limit }
        ensures { result ≡ slice_with (pos start) (Some (pos end)) (pos 1) }
    {
        Slice {
            start: start as isize,
            end: Some(end as isize),
            step: 1,
        }
    }

    /// The range of the coordinates from `start` on, counted from the first one.
    ///
    /// The caller ensures that `start` is at most `isize::MAX`.
    ///
    /// 1: `1..`. For ndarray's `From` of `a..` over `usize`.
    #[inline]
    pub fn from_usize(start: usize) -> Slice
        requires { start ≤ limit }
        ensures { result ≡ slice_with (pos start) None (pos 1) }
    {
        Slice {
            start: start as isize,
            end: None,
            step: 1,
        }
    }

    /// The range of the coordinates up to, not including, `end`, counted from the first one.
    ///
    /// The caller ensures that `end` is at most `isize::MAX`.
    ///
    /// 3: `..3`. For ndarray's `From` of `..b` over `usize`.
    #[inline]
    pub fn to_usize(end: usize) -> Slice
        requires { end ≤ limit }
        ensures { result ≡ slice_with (pos 0) (Some (pos end)) (pos 1) }
    {
        Slice::of_usize(0, end)
    }

    /// The range of the coordinates from `first` to `last`, both included and counted from the
    /// first one.
    ///
    /// The caller ensures that `first` is at most `isize::MAX` and `last` below it.
    ///
    /// 1 and 2: `1..3`. For ndarray's `From` of `a..=b` over `usize`.
    #[inline]
    pub fn inclusive_usize(first: usize, last: usize) -> Slice
        requires first_fits { first ≤ limit }
        requires last_fits { last < limit }
        ensures { result ≡ slice_with (pos first) (Some (pos (last + 1))) (pos 1) }
    {
        Slice::of_usize(first, last + 1)
    }

    /// The range of the coordinates up to `last`, included and counted from the first one.
    ///
    /// The caller ensures that `last` is below `isize::MAX`.
    ///
    /// 2: `..3`. For ndarray's `From` of `..=b` over `usize`.
    #[inline]
    pub fn to_inclusive_usize(last: usize) -> Slice
        requires { last < limit }
        ensures { result ≡ slice_with (pos 0) (Some (pos (last + 1))) (pos 1) }
    {
        Slice::inclusive_usize(0, last)
    }
}
