//! Elements of a slice argument from ranges and numbers.
ghost use Rattle.std.specs.Prelude.{◌≡◌, ◌+◌, pos, Some, None};
ghost use Rattle.std.specs.Range.{range_inclusive_start, range_inclusive_end};
ghost use Rattle.nd_slice.specs.SliceBounds.{end_after, last_bound, usize_bound};
ghost use Rattle.nd_slice.specs.declared.elem.SliceInfoElem.TheVariants as elem_of;

use super::{NewAxis, SliceInfoElem};
use crate::slice::{LIMIT, Slice};
use std::ops::{Range, RangeFrom, RangeFull, RangeInclusive, RangeTo, RangeToInclusive};

impl From<RangeFull> for SliceInfoElem {
    ghost from_gives = { λ _ elem. elem ≡ elem_of.Slice (pos 0) None (pos 1) };

    #[inline]
    fn from(range: RangeFull) -> SliceInfoElem {
        Slice::from(range).into()
    }
}

impl From<Range<isize>> for SliceInfoElem {
    ghost from_gives = { λ range elem. elem ≡ elem_of.Slice range.start (Some range.end) (pos 1) };

    #[inline]
    fn from(range: Range<isize>) -> SliceInfoElem {
        Slice::from(range).into()
    }
}

impl From<RangeFrom<isize>> for SliceInfoElem {
    ghost from_gives = { λ range elem. elem ≡ elem_of.Slice range.start None (pos 1) };

    #[inline]
    fn from(range: RangeFrom<isize>) -> SliceInfoElem {
        Slice::from(range).into()
    }
}

impl From<RangeTo<isize>> for SliceInfoElem {
    ghost from_gives = { λ range elem. elem ≡ elem_of.Slice (pos 0) (Some range.end) (pos 1) };

    #[inline]
    fn from(range: RangeTo<isize>) -> SliceInfoElem {
        Slice::from(range).into()
    }
}

impl From<Range<i32>> for SliceInfoElem {
    ghost from_gives = { λ range elem. elem ≡ elem_of.Slice range.start (Some range.end) (pos 1) };

    #[inline]
    fn from(range: Range<i32>) -> SliceInfoElem {
        Slice::from(range).into()
    }
}

impl From<RangeFrom<i32>> for SliceInfoElem {
    ghost from_gives = { λ range elem. elem ≡ elem_of.Slice range.start None (pos 1) };

    #[inline]
    fn from(range: RangeFrom<i32>) -> SliceInfoElem {
        Slice::from(range).into()
    }
}

impl From<RangeTo<i32>> for SliceInfoElem {
    ghost from_gives = { λ range elem. elem ≡ elem_of.Slice (pos 0) (Some range.end) (pos 1) };

    #[inline]
    fn from(range: RangeTo<i32>) -> SliceInfoElem {
        Slice::from(range).into()
    }
}

impl From<RangeInclusive<i32>> for SliceInfoElem {
    ghost from_gives = { λ range elem. elem ≡ elem_of.Slice
        (range_inclusive_start range) (end_after (range_inclusive_end range)) (pos 1) };

    #[inline]
    fn from(range: RangeInclusive<i32>) -> SliceInfoElem {
        Slice::from(range).into()
    }
}

impl From<RangeToInclusive<i32>> for SliceInfoElem {
    ghost from_gives = { λ range elem. elem ≡ elem_of.Slice (pos 0) (end_after range.end) (pos 1) };

    #[inline]
    fn from(range: RangeToInclusive<i32>) -> SliceInfoElem {
        Slice::from(range).into()
    }
}

impl From<Range<usize>> for SliceInfoElem {
    ghost from_gives = { λ range elem. elem ≡ elem_of.Slice (usize_bound range.start) (Some (usize_bound range.end)) (pos 1) };

    #[inline]
    fn from(range: Range<usize>) -> SliceInfoElem {
        Slice::from(range).into()
    }
}

impl From<RangeFrom<usize>> for SliceInfoElem {
    ghost from_gives = { λ range elem. elem ≡ elem_of.Slice (usize_bound range.start) None (pos 1) };

    #[inline]
    fn from(range: RangeFrom<usize>) -> SliceInfoElem {
        Slice::from(range).into()
    }
}

impl From<RangeTo<usize>> for SliceInfoElem {
    ghost from_gives = { λ range elem. elem ≡ elem_of.Slice (pos 0) (Some (usize_bound range.end)) (pos 1) };

    #[inline]
    fn from(range: RangeTo<usize>) -> SliceInfoElem {
        Slice::from(range).into()
    }
}

impl From<RangeInclusive<usize>> for SliceInfoElem {
    ghost from_gives = { λ range elem. elem ≡ elem_of.Slice (usize_bound (range_inclusive_start range))
        (Some (usize_bound (range_inclusive_end range + 1))) (pos 1) };

    #[inline]
    fn from(range: RangeInclusive<usize>) -> SliceInfoElem {
        Slice::from(range).into()
    }
}

impl From<RangeToInclusive<usize>> for SliceInfoElem {
    ghost from_gives = { λ range elem. elem ≡ elem_of.Slice (pos 0) (Some (usize_bound (range.end + 1))) (pos 1) };

    #[inline]
    fn from(range: RangeToInclusive<usize>) -> SliceInfoElem {
        Slice::from(range).into()
    }
}

impl From<RangeInclusive<isize>> for SliceInfoElem {
    ghost from_gives = { λ range elem. elem ≡ elem_of.Slice (range_inclusive_start range)
        (end_after (last_bound (range_inclusive_end range))) (pos 1) };

    #[inline]
    fn from(range: RangeInclusive<isize>) -> SliceInfoElem {
        Slice::from(range).into()
    }
}

impl From<RangeToInclusive<isize>> for SliceInfoElem {
    ghost from_gives = { λ range elem. elem ≡ elem_of.Slice (pos 0) (end_after (last_bound range.end)) (pos 1) };

    #[inline]
    fn from(range: RangeToInclusive<isize>) -> SliceInfoElem {
        Slice::from(range).into()
    }
}

impl From<Slice> for SliceInfoElem {
    ghost from_gives = { λ slice elem. elem ≡ elem_of.Slice slice.start slice.end slice.step };

    #[inline]
    fn from(slice: Slice) -> SliceInfoElem {
        let Slice { start, end, step } = slice;
        SliceInfoElem::Slice { start, end, step }
    }
}

impl From<isize> for SliceInfoElem {
    ghost from_gives = { λ index elem. elem ≡ elem_of.Index index };

    #[inline]
    fn from(index: isize) -> SliceInfoElem {
        SliceInfoElem::Index(index)
    }
}

impl From<i32> for SliceInfoElem {
    ghost from_gives = { λ index elem. elem ≡ elem_of.Index index };

    #[inline]
    fn from(index: i32) -> SliceInfoElem {
        SliceInfoElem::Index(index as isize)
    }
}

impl From<usize> for SliceInfoElem {
    ghost from_gives = { λ index elem. elem ≡ elem_of.Index (usize_bound index) };

    #[inline]
    fn from(index: usize) -> SliceInfoElem {
        SliceInfoElem::index_usize(index.min(LIMIT))
    }
}

impl From<NewAxis> for SliceInfoElem {
    ghost from_gives = { λ _ elem. elem ≡ elem_of.NewAxis };

    #[inline]
    fn from(_axis: NewAxis) -> SliceInfoElem {
        SliceInfoElem::NewAxis
    }
}
