//! Slice arguments whose type says which shapes they are for.
ghost use Rattle.std.specs.Prelude.{◌≡◌};
ghost use Rattle.nd_base.specs.Lengths.{IsCount};
ghost use Rattle.nd_slice.specs.SliceFault.{in_count, out_count};

use crate::elem::SliceInfoElem;
use crate::elems::SliceElems;
use crate::info::SliceInfo;
use crate::slice_errors::{in_ndim_of, out_ndim_of};
use nd_base::{Dim, FixedCount, IxDyn, Lengths};

/// A slice argument for shapes of the type `D`. ndarray's `SliceArg`.
pub trait SliceArg<D: FixedCount>: SliceElems {
    /// The type of the shapes that it leaves.
    type OutDim: Lengths;

    /// The number of axes of the shapes that it slices: as many as `D` has, where `D` fixes a
    /// count.
    ///
    /// Takes time in proportion to the slices and indices of the argument where `D` fixes no count.
    ///
    /// `..,2,NewAxis` is for 2 axes. ndarray's `SliceArg::in_ndim`.
    fn in_ndim(&self) -> usize
        ensures count { result ≡ in_count (Self.list self.now) }
        ensures fixed { IsCount D.NDIM result };

    /// The number of axes of the result: as many as `OutDim` has, where that fixes a count.
    ///
    /// Takes time in proportion to the slices and indices of the argument where `OutDim` fixes no
    /// count.
    ///
    /// `..,2,NewAxis` leaves 2 axes. ndarray's `SliceArg::out_ndim`.
    fn out_ndim(&self) -> usize
        ensures count { result ≡ out_count (Self.list self.now) }
        ensures fixed { IsCount Self.OutDim.NDIM result };
}

impl<T: SliceElems, Dout: Lengths, const N: usize> SliceArg<Dim<[usize; N]>>
    for SliceInfo<T, Dim<[usize; N]>, Dout> {
    type OutDim = Dout;

    #[inline]
    fn in_ndim(&self) -> usize {
        SliceInfo::in_ndim(self)
    }

    #[inline]
    fn out_ndim(&self) -> usize {
        SliceInfo::out_ndim(self)
    }
}

impl<T: SliceElems, Din: FixedCount, Dout: Lengths> SliceArg<IxDyn> for SliceInfo<T, Din, Dout> {
    type OutDim = Dout;

    #[inline]
    fn in_ndim(&self) -> usize {
        SliceInfo::in_ndim(self)
    }

    #[inline]
    fn out_ndim(&self) -> usize {
        SliceInfo::out_ndim(self)
    }
}

/// Bare elements, for any number of axes.
impl SliceArg<IxDyn> for &[SliceInfoElem] {
    type OutDim = IxDyn;

    #[inline]
    fn in_ndim(&self) -> usize {
        in_ndim_of(*self)
    }

    #[inline]
    fn out_ndim(&self) -> usize {
        out_ndim_of(*self)
    }
}
