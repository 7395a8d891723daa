//! Slices from ranges.
ghost use Rattle.std.specs.Prelude.{◌≡◌, ◌+◌, pos, Some, None};
ghost use Rattle.std.specs.Range.{range_inclusive_start, range_inclusive_end};
ghost use Rattle.nd_slice.specs.SliceBounds.{slice_with};
ghost use Rattle.nd_slice.specs.SliceBounds.{end_after, last_bound, usize_bound};

use super::{LIMIT, Slice};
use std::ops::{Range, RangeFrom, RangeFull, RangeInclusive, RangeTo, RangeToInclusive};

impl From<RangeFull> for Slice {
    ghost from_gives = { λ _ slice. slice ≡ slice_with (pos 0) None (pos 1) };

    #[inline]
    fn from(_range: RangeFull) -> Slice {
        Slice::new(0, None, 1)
    }
}

impl From<Range<isize>> for Slice {
    ghost from_gives = { λ range slice. slice ≡ slice_with range.start (Some range.end) (pos 1) };

    #[inline]
    fn from(range: Range<isize>) -> Slice {
        Slice::new(range.start, Some(range.end), 1)
    }
}

impl From<RangeFrom<isize>> for Slice {
    ghost from_gives = { λ range slice. slice ≡ slice_with range.start None (pos 1) };

    #[inline]
    fn from(range: RangeFrom<isize>) -> Slice {
        Slice::new(range.start, None, 1)
    }
}

impl From<RangeTo<isize>> for Slice {
    ghost from_gives = { λ range slice. slice ≡ slice_with (pos 0) (Some range.end) (pos 1) };

    #[inline]
    fn from(range: RangeTo<isize>) -> Slice {
        Slice::new(0, Some(range.end), 1)
    }
}

impl From<Range<i32>> for Slice {
    ghost from_gives = { λ range slice. slice ≡ slice_with range.start (Some range.end) (pos 1) };

    #[inline]
    fn from(range: Range<i32>) -> Slice {
        Slice::new(range.start as isize, Some(range.end as isize), 1)
    }
}

impl From<RangeFrom<i32>> for Slice {
    ghost from_gives = { λ range slice. slice ≡ slice_with range.start None (pos 1) };

    #[inline]
    fn from(range: RangeFrom<i32>) -> Slice {
        Slice::new(range.start as isize, None, 1)
    }
}

impl From<RangeTo<i32>> for Slice {
    ghost from_gives = { λ range slice. slice ≡ slice_with (pos 0) (Some range.end) (pos 1) };

    #[inline]
    fn from(range: RangeTo<i32>) -> Slice {
        Slice::new(0, Some(range.end as isize), 1)
    }
}

impl From<RangeInclusive<i32>> for Slice {
    ghost from_gives = { λ range slice. slice ≡ slice_with
        (range_inclusive_start range) (end_after (range_inclusive_end range)) (pos 1) };

    #[inline]
    fn from(range: RangeInclusive<i32>) -> Slice {
        Slice::inclusive(*range.start() as isize, *range.end() as isize)
    }
}

impl From<RangeToInclusive<i32>> for Slice {
    ghost from_gives = { λ range slice. slice ≡ slice_with (pos 0) (end_after range.end) (pos 1) };

    #[inline]
    fn from(range: RangeToInclusive<i32>) -> Slice {
        Slice::to_inclusive(range.end as isize)
    }
}

impl From<Range<usize>> for Slice {
    ghost from_gives = { λ range slice. slice ≡ slice_with
        (usize_bound range.start) (Some (usize_bound range.end)) (pos 1) };

    #[inline]
    fn from(range: Range<usize>) -> Slice {
        Slice::of_usize(range.start.min(LIMIT), range.end.min(LIMIT))
    }
}

impl From<RangeFrom<usize>> for Slice {
    ghost from_gives = { λ range slice. slice ≡ slice_with (usize_bound range.start) None (pos 1) };

    #[inline]
    fn from(range: RangeFrom<usize>) -> Slice {
        Slice::from_usize(range.start.min(LIMIT))
    }
}

impl From<RangeTo<usize>> for Slice {
    ghost from_gives = { λ range slice. slice ≡ slice_with (pos 0) (Some (usize_bound range.end)) (pos 1) };

    #[inline]
    fn from(range: RangeTo<usize>) -> Slice {
        Slice::to_usize(range.end.min(LIMIT))
    }
}

impl From<RangeInclusive<usize>> for Slice {
    ghost from_gives = { λ range slice. slice ≡ slice_with (usize_bound (range_inclusive_start range))
        (Some (usize_bound (range_inclusive_end range + 1))) (pos 1) };

    #[inline]
    fn from(range: RangeInclusive<usize>) -> Slice {
        Slice::inclusive_usize((*range.start()).min(LIMIT), (*range.end()).min(LIMIT - 1))
    }
}

impl From<RangeToInclusive<usize>> for Slice {
    ghost from_gives = { λ range slice. slice ≡ slice_with (pos 0) (Some (usize_bound (range.end + 1))) (pos 1) };

    #[inline]
    fn from(range: RangeToInclusive<usize>) -> Slice {
        Slice::to_inclusive_usize(range.end.min(LIMIT - 1))
    }
}

impl From<RangeInclusive<isize>> for Slice {
    ghost from_gives = { λ range slice. slice ≡ slice_with
        (range_inclusive_start range) (end_after (last_bound (range_inclusive_end range))) (pos 1) };

    #[inline]
    fn from(range: RangeInclusive<isize>) -> Slice {
        let last = *range.end();
        Slice::inclusive(
            *range.start(),
            if last == isize::MAX { last - 1 } else { last },
        )
    }
}

impl From<RangeToInclusive<isize>> for Slice {
    ghost from_gives = { λ range slice. slice ≡ slice_with (pos 0) (end_after (last_bound range.end)) (pos 1) };

    #[inline]
    fn from(range: RangeToInclusive<isize>) -> Slice {
        Slice::from(0..=range.end)
    }
}
