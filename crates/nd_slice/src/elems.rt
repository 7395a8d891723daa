//! Types that hold the elements of a slice argument.
ghost use Rattle.std.specs.Prelude.{◌≡◌, List};
ghost use Rattle.nd_slice.specs.declared.elem.SliceInfoElem.{SliceInfoElem};

use crate::elem::SliceInfoElem;

/// The elements of a slice argument, whatever type keeps them. For ndarray's bound
/// `AsRef<[SliceInfoElem]>` of `SliceArg`.
pub trait SliceElems {
    ghost list: { Self → List SliceInfoElem };

    /// The elements, in order.
    fn elems(&self) -> &[SliceInfoElem]
        ensures { result.now ≡ list self.now };
}

impl<const N: usize> SliceElems for [SliceInfoElem; N] {
    ghost list = { λ elems. elems };

    #[inline]
    fn elems(&self) -> &[SliceInfoElem] {
        self
    }
}

impl SliceElems for &[SliceInfoElem] {
    ghost list = { λ s. s.now };

    fn elems(&self) -> &[SliceInfoElem] {
        *self
    }
}

impl SliceElems for Vec<SliceInfoElem> {
    ghost list = { λ v. v.items };

    fn elems(&self) -> &[SliceInfoElem] {
        self.as_slice()
    }
}

/// A slice argument with what goes with it, as the items that are to be written there.
impl<S: SliceElems, T> SliceElems for (S, T) {
    ghost list = { λ pair. S.list pair.0 };

    #[inline]
    fn elems(&self) -> &[SliceInfoElem] {
        self.0.elems()
    }
}
