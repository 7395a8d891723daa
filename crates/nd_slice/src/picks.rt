//! What an element of a slice argument picks of an axis: how many coordinates, which, where they lie, and the errors of one that
//! doesn't fit.
ghost use Rattle.std.specs.Prelude.{◌≡◌, ◌⊎◌, ◌↔◌, ◌-◌, ◌*◌, ◌%◌, ℕ, ◌<◌, ◌≤◌, ◌^◌, pos, ◌≤ℤ◌, IfOk, IsTrue, MatchOption, [], length, max, slice_index};
ghost use Rattle.std.specs.List.{All, Contains};
ghost use Rattle.std.specs.Result.{result_err};
ghost use Rattle.nd_base.specs.Signed.{magnitude, signed as signed_reading};
ghost use Rattle.nd_base.specs.Size.{limit};
ghost use Rattle.nd_base.specs.Span.{reach};
ghost use Rattle.nd_slice.specs.AxisFault.{slice_fault, SliceFits};
ghost use Rattle.nd_slice.specs.ElemRange.{elem_range};
ghost use Rattle.nd_slice.specs.SlicedAxis.{picked_stride, first_offset};
ghost use Rattle.nd_slice.specs.Picks.{between, picks};
ghost use Rattle.nd_slice.specs.PicksIntersect.{PicksIntersect};
ghost use Rattle.nd_slice.specs.RangesApart.{end_of, least_of};
ghost use Rattle.nd_slice.specs.SliceBounds.{end_meaning, start_meaning};
ghost use Rattle.nd_slice.specs.SliceFault.{elem_fault};

use crate::bounds::{coordinate_of, to_abs_slice};
use crate::elem::SliceInfoElem;
use crate::fit::Fit;
use crate::intersect::arith_seq_intersect;
use crate::slice::Slice;
use nd_base::{ShapeError, signed, stride_offset, unsigned};

/// The coordinates that an element of a slice argument picks of an axis: every |`step`|-th from `start` up to, not
/// including, `end`, from the last one on where `step` is negative. None where `start` is `end`. The project's own.
#[derive(Clone, Copy, Debug)]
pub struct AxisPicks {
    /// The coordinate at which the range begins, counted from 0.
    pub start: usize,
    /// The coordinate that the range stops before, counted from 0.
    pub end: usize,
    /// The distance from one pick to the next in coordinates, with its sign; not 0.
    pub step: isize,
    ghost order: { start ≤ end },
    ghost moves: { 0 < magnitude step },
}

impl AxisPicks {
    /// How many coordinates are picked.
    ///
    /// 1 to 4 with the step -2: 2. The project's own.
    #[inline(always)]
    pub fn count(self) -> usize
        ensures { result ≡ length (between self.step self.start self.end) }
    {
        let len = self.end - self.start;
        let step = self.step.unsigned_abs();
        // (a step of one coordinate needs no division)
        if step == 1 { len } else { len.div_ceil(step) }
    }

    /// The coordinate that is picked first. The caller ensures that there is one.
    #[inline(always)]
    fn first(self) -> usize
        requires { self.start < self.end }
        ensures { result ≡ slice_index (between self.step self.start self.end) 0 }
    {
        if self.step < 0 {
            self.end - 1
        } else {
            self.start
        }
    }

    /// The distance in coordinates from the first one that is picked to the last. The caller ensures that there is one.
    #[inline(always)]
    fn extent(self) -> usize
        requires { self.start < self.end }
        ensures extent { result ≡ (length (between self.step self.start self.end) - 1)
            * magnitude self.step }
        ensures within { result < self.end - self.start }
    {
        (self.count() - 1) * self.step.unsigned_abs()
    }

    /// The least and the greatest coordinate that is picked. The caller ensures that there is one.
    #[inline(always)]
    pub(crate) fn ends(self) -> (usize, usize)
        requires { self.start < self.end }
        ensures least { Contains (between self.step self.start self.end) result.0 }
        ensures greatest { Contains (between self.step self.start self.end) result.1 }
        ensures between { All (λ pick. (result.0 ≤ pick) × (pick ≤ result.1))
            (between self.step self.start self.end) }
        ensures below { (result.0 < self.end) × (result.1 < self.end) }
    {
        let extent = self.extent();
        if self.step < 0 {
            (self.end - 1 - extent, self.end - 1)
        } else {
            (self.start, self.start + extent)
        }
    }

    /// The least coordinate that is picked, and the one after the greatest; both are `start` if none is picked.
    #[inline(always)]
    pub(crate) fn range(self) -> (usize, usize)
        ensures start { result.0 ≡ least_of self.start (between self.step self.start self.end) }
        ensures end { result.1 ≡ end_of result.0 (between self.step self.start self.end) }
    {
        if self.start == self.end {
            return (self.start, self.start);
        }
        let (least, greatest) = self.ends();
        (least, greatest + 1)
    }

    /// The distance between the coordinates that are picked; 0 if there is at most one.
    #[inline(always)]
    pub(crate) fn distance(self) -> usize
        ensures { (by : ℕ) → (result ≡ 0) ⊎ (result ≡ by) → All (λ pick. pick % by ≡
            least_of self.start (between self.step self.start self.end) % by) (between self.step self.start self.end) }
    {
        if self.count() <= 1 {
            0
        } else {
            self.step.unsigned_abs()
        }
    }

    /// The distance in elements, with its sign, from coordinate 0 to the one that is picked first, where the axis has that
    /// stride; 0 where none is picked.
    ///
    /// The caller ensures that `end` and (`end` - 1) * |stride| are at most `isize::MAX`.
    ///
    /// 1 to 4 with the step -2, stride 5: 15. The project's own.
    #[inline(always)]
    pub fn offset(self, stride: usize) -> isize
        requires small { self.end < 2 ^ 63 }
        requires span_fits { reach self.end (signed_reading stride) ≤ limit }
        ensures { result ≡ first_offset (between self.step self.start self.end) (signed_reading stride) }
    {
        if self.start < self.end {
            stride_offset(self.first(), stride)
        } else {
            0
        }
    }

    /// The distance in elements from one coordinate that is picked to the next, where the axis has that stride, kept as the
    /// `usize` of the same bits; 0 where at most one is picked.
    ///
    /// The caller ensures that (`end` - 1) * |stride| is at most `isize::MAX`.
    ///
    /// 1 to 4 with the step -2, stride 5: -10. The project's own.
    #[inline(always)]
    pub fn stride(self, stride: usize) -> usize
        requires { reach self.end (signed_reading stride) ≤ limit }
        ensures { signed_reading result ≡ picked_stride
            (length (between self.step self.start self.end)) (signed_reading stride) self.step }
    {
        if self.count() <= 1 {
            0
        } else {
            unsigned(signed(stride) * self.step)
        }
    }

    /// The least and the greatest coordinate that is picked, and the step.
    #[inline(always)]
    fn sequence(self) -> (isize, isize, isize)
        requires some { self.start < self.end }
        requires small { self.end < 2 ^ 63 }
        ensures least { Contains (between self.step self.start self.end) (magnitude result.0) }
        ensures greatest { Contains (between self.step self.start self.end) (magnitude result.1) }
        ensures between { All (λ pick. (magnitude result.0 ≤ pick) × (pick ≤ magnitude result.1))
            (between self.step self.start self.end) }
        ensures signs { (pos 0 ≤ℤ result.0) × (pos 0 ≤ℤ result.1) }
        ensures step { result.2 ≡ self.step }
    {
        let (least, greatest) = self.ends();
        (least as isize, greatest as isize, self.step)
    }

    /// Whether both pick some coordinate of an axis. The ranges are compared first, which takes no division.
    ///
    /// The caller ensures that both ends are at most `isize::MAX`.
    ///
    /// 0 to 9 with the step 4, and 2 to 9 with the step 6: true, by 8. The project's own.
    #[inline]
    pub fn intersects(self, other: AxisPicks) -> bool
        requires small { self.end < 2 ^ 63 }
        requires other_small { other.end < 2 ^ 63 }
        ensures { IsTrue result ↔ PicksIntersect
            (between self.step self.start self.end) (between other.step other.start other.end) }
    {
        // (so no coordinate is in both ranges; in an empty one there is none)
        if self.start.max(other.start) >= self.end.min(other.end) {
            return false;
        }
        arith_seq_intersect(self.sequence(), other.sequence())
    }
}

/// What a slice picks of an axis of `len` coordinates.
///
/// # Errors
///
/// Those of `to_abs_slice`.
///
/// `1..;-2` on an axis of 4: 1 to 4 with the step -2. The project's own.
#[inline(always)]
pub fn resolve_slice(len: usize, slice: Slice, fit: Fit) -> Result<AxisPicks, ShapeError>
    ensures fault { result_err result ≡ slice_fault fit len slice }
    ensures picks { IfOk result (λ p. between p.step p.start p.end ≡ picks fit len slice) }
    ensures start { IfOk result (λ p. pos p.start ≡ start_meaning fit len slice) }
    ensures end { IfOk result (λ p. p.end ≡ max p.start (magnitude (end_meaning fit len slice))) }
    ensures within { IfOk result (λ p. p.end ≤ len) }
    ensures step { IfOk result (λ p. p.step ≡ slice.step) }
{
    let (start, end, step) = to_abs_slice(len, slice, fit)?;
    Ok(AxisPicks { start, end, step })
}

/// What an element picks of an axis of `len` coordinates: an index one coordinate, a new axis none.
///
/// # Errors
///
/// Those of `to_abs_slice` for a slice; `OutOfBounds` for an index that is not from `-len` to `len - 1`.
///
/// The index -1 on an axis of 4: 3 to 4 with the step 1. The project's own.
#[inline(always)]
pub fn resolve_elem(len: usize, elem: SliceInfoElem, fit: Fit) -> Result<AxisPicks, ShapeError>
    ensures fault { result_err result ≡ elem_fault fit len elem }
    ensures range { IfOk result (λ p. (p.start, p.end, p.step) ≡ elem_range fit len elem) }
{
    match elem {
        SliceInfoElem::Slice { start, end, step } => {
            resolve_slice(len, Slice { start, end, step }, fit)
        }
        SliceInfoElem::Index(index) => {
            let start = coordinate_of(len, index)?;
            Ok(AxisPicks {
                start,
                end: start + 1,
                step: 1,
            })
        }
        SliceInfoElem::NewAxis => Ok(AxisPicks {
            start: 0,
            end: 0,
            step: 1,
        }),
    }
}

/// The least and the greatest coordinate that a slice picks of an axis of `len` coordinates; `None`
/// where it picks none.
///
/// The caller ensures that the slice fits the axis.
///
/// `1..;-2` on an axis of 4: (1, 3). ndarray's `slice_min_max`.
pub fn slice_min_max(len: usize, slice: Slice, fit: Fit) -> Option<(usize, usize)>
    requires { SliceFits fit len slice }
    ensures picks { MatchOption result (picks fit len slice ≡ [])
        (λ (least, greatest). Contains (picks fit len slice) least
        × Contains (picks fit len slice) greatest
        × All (λ pick. (least ≤ pick) × (pick ≤ greatest)) (picks fit len slice)) }
{
    let picks = resolve_slice(len, slice, fit).unwrap();
    if picks.start < picks.end {
        Some(picks.ends())
    } else {
        None
    }
}
