//! What elements print, slices with an end that is picked too, and arguments whose type says the counts of axes.
use nd_base::{ErrorKind, FixedCount, Ix1, Ix2, Ix3};
use nd_slice::{Slice, SliceInfo, SliceInfoElem};
use test_tables::{is_printed, or_fault};

/// The counts that an index and a range have as an argument between two types, or the fault that they have.
fn counts<Din: FixedCount, Dout: FixedCount>() -> Result<(usize, usize), ErrorKind> {
    let elems = [SliceInfoElem::from(0i32), SliceInfoElem::from(1i32..)];
    let info = or_fault(SliceInfo::<[SliceInfoElem; 2], Din, Dout>::try_from(elems))?;
    Ok((info.in_ndim(), info.out_ndim()))
}

/// A range with a step.
fn range(start: isize, end: Option<isize>, step: isize) -> SliceInfoElem {
    SliceInfoElem::Slice { start, end, step }
}

#[test]
fn r4_rows(rt: HostRuntime) {
    let rows = [
        (range(0, None, 1), ".."),
        (range(-3, Some(-1), 2), "-3..-1;2"),
        (range(0, Some(0), 1), "..0"),
        (SliceInfoElem::Index(-1), "-1"),
        (SliceInfoElem::NewAxis, "NewAxis"),
    ];
    for (elem, text) in rows {
        assert!(rt; is_printed(elem.to_string(rt.alloc()), text), "{text}");
    }
    assert!(rt; Slice::inclusive(2, -1).end == None && Slice::inclusive(2, 4).end == Some(5));
    assert!(rt; counts::<Ix2, Ix1>() == Ok((2, 1)));
    assert!(rt; counts::<Ix2, Ix2>() == Err(ErrorKind::IncompatibleShape));
    assert!(rt; counts::<Ix3, Ix1>() == Err(ErrorKind::IncompatibleShape));
}
