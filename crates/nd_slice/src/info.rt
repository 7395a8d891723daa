//! The elements of a slice argument, with the types of the shapes before and after.
ghost use Rattle.std.specs.Prelude.{◌≡◌, ◌↔◌, ⊤, IsTrue, OkIff, IsOkUnless};
ghost use Rattle.nd_base.specs.declared.error.ErrorKind.{ErrorKind};
ghost use Rattle.nd_base.specs.Lengths.{IsCount};
ghost use Rattle.nd_slice.specs.AxisCounts.{HasCounts};
ghost use Rattle.nd_slice.specs.SliceFault.{in_count, out_count};

use crate::elem::SliceInfoElem;
use crate::elems::SliceElems;
use crate::slice_errors::{in_ndim_of, out_ndim_of};
use nd_base::{ErrorKind, FixedCount, ShapeError, from_kind};
use std::alloc::AllocError;
use std::marker::{Model, PhantomData};

/// The elements of a slice argument, kept in a `T`, for as many axes as `Din` has and with a result
/// of as many as `Dout` has, where those types fix a count. ndarray's `SliceInfo`.
#[derive(Debug, Drop)]
pub struct SliceInfo<T: SliceElems, Din: FixedCount, Dout: FixedCount> {
    in_dim: PhantomData<Din>,
    out_dim: PhantomData<Dout>,
    indices: T,
}

impl<T: SliceElems, Din: FixedCount, Dout: FixedCount> Model for SliceInfo<T, Din, Dout> {
    ghost use Rattle.nd_slice.specs.AxisCounts.{HasCounts};

    ghost Value = { T };

    ghost view = { λ info. info.indices };

    ghost invariant = { λ info. HasCounts Din.NDIM Dout.NDIM (T.list info.indices) };

    ghost inverse = { λ indices.
        record { indices = indices; in_dim = record {}; out_dim = record {} } };
}

impl<T: SliceElems + Copy, Din: FixedCount, Dout: FixedCount> Clone for SliceInfo<T, Din, Dout> {
    ghost is_clone = { λ info same. same ≡ info };

    ghost is_infallible = { λ _. ⊤ };

    fn clone(&self) -> Result<Self, AllocError> {
        Ok(SliceInfo {
            indices: self.indices,
            in_dim: PhantomData,
            out_dim: PhantomData,
        })
    }
}

impl<T: SliceElems + Copy, Din: FixedCount, Dout: FixedCount> Copy for SliceInfo<T, Din, Dout> {}

/// Whether a dimension type has `count` axes or allows any number.
fn allows<D: FixedCount>(count: usize) -> bool
    ensures { IsTrue result ↔ IsCount D.NDIM count }
{
    match D::NDIM {
        Some(fixed) => count == fixed,
        None => true,
    }
}

impl<T: SliceElems + Drop, Din: FixedCount, Dout: FixedCount> SliceInfo<T, Din, Dout> {
    /// The elements with the types.
    ///
    /// # Errors
    ///
    /// `IncompatibleShape` where a type fixes another count of axes than the elements have.
    fn checked(indices: T) -> Result<Self, ShapeError>
        ensures value { OkIff result (HasCounts Din.NDIM Dout.NDIM (T.list indices)) indices }
        ensures fault { IsOkUnless result ErrorKind.IncompatibleShape }
    {
        let elems = indices.elems();
        if !allows::<Din>(in_ndim_of(elems)) || !allows::<Dout>(out_ndim_of(elems)) {
            return Err(from_kind(ErrorKind::IncompatibleShape));
        }
        Ok(SliceInfo {
            indices,
            in_dim: PhantomData,
            out_dim: PhantomData,
        })
    }
}

impl<T: SliceElems, Din: FixedCount, Dout: FixedCount> SliceInfo<T, Din, Dout> {
    /// The value that keeps the elements. In place of ndarray's `Deref`.
    #[inline]
    pub fn indices(&self) -> &T
        ensures value { result.now ≡ self.now }
        ensures counts { HasCounts Din.NDIM Dout.NDIM (T.list self.now) }
    {
        &self.indices
    }

    /// The number of axes of the shapes that the elements are for.
    ///
    /// Takes time in proportion to the slices and indices of the argument where `Din` fixes no
    /// count. ndarray's `SliceInfo::in_ndim`.
    #[inline]
    pub fn in_ndim(&self) -> usize
        ensures count { result ≡ in_count (T.list self.now) }
        ensures fixed { IsCount Din.NDIM result }
    {
        match Din::NDIM {
            Some(count) => count,
            None => in_ndim_of(self.indices.elems()),
        }
    }

    /// The number of axes that the elements leave.
    ///
    /// Takes time in proportion to the slices and indices of the argument where `Dout` fixes no
    /// count. ndarray's `SliceInfo::out_ndim`.
    #[inline]
    pub fn out_ndim(&self) -> usize
        ensures count { result ≡ out_count (T.list self.now) }
        ensures fixed { IsCount Dout.NDIM result }
    {
        match Dout::NDIM {
            Some(count) => count,
            None => out_ndim_of(self.indices.elems()),
        }
    }
}

impl<T: SliceElems, Din: FixedCount, Dout: FixedCount> SliceElems for SliceInfo<T, Din, Dout> {
    ghost list = { T.list };

    #[inline]
    fn elems(&self) -> &[SliceInfoElem] {
        self.indices.elems()
    }
}

/// The elements of an array with the types. Fails with `IncompatibleShape` where a type fixes another
/// count of axes than the elements have.
impl<Din: FixedCount, Dout: FixedCount, const N: usize> TryFrom<[SliceInfoElem; N]>
    for SliceInfo<[SliceInfoElem; N], Din, Dout> {
    type Error = ShapeError;

    ghost try_from_gives = { λ indices info.
        OkIff info (HasCounts Din.NDIM Dout.NDIM indices) indices
        × IsOkUnless info ErrorKind.IncompatibleShape };

    fn try_from(indices: [SliceInfoElem; N]) -> Result<Self, ShapeError> {
        SliceInfo::checked(indices)
    }
}

/// Elements that are kept elsewhere with the types. Fails with `IncompatibleShape` where a type fixes
/// another count of axes than the elements have.
impl<'a, Din: FixedCount, Dout: FixedCount> TryFrom<&'a [SliceInfoElem]>
    for SliceInfo<&'a [SliceInfoElem], Din, Dout> {
    type Error = ShapeError;

    ghost try_from_gives = { λ indices info.
        OkIff info (HasCounts Din.NDIM Dout.NDIM indices.now) indices
        × IsOkUnless info ErrorKind.IncompatibleShape };

    fn try_from(indices: &'a [SliceInfoElem]) -> Result<Self, ShapeError> {
        SliceInfo::checked(indices)
    }
}

/// The elements of a vector with the types. Fails with `IncompatibleShape` where a type fixes another
/// count of axes than the elements have.
impl<Din: FixedCount, Dout: FixedCount> TryFrom<Vec<SliceInfoElem>>
    for SliceInfo<Vec<SliceInfoElem>, Din, Dout> {
    type Error = ShapeError;

    ghost try_from_gives = { λ indices info.
        OkIff info (HasCounts Din.NDIM Dout.NDIM indices.items) indices
        × IsOkUnless info ErrorKind.IncompatibleShape };

    fn try_from(indices: Vec<SliceInfoElem>) -> Result<Self, ShapeError> {
        SliceInfo::checked(indices)
    }
}

/// The same elements and types, with the elements lent.
impl<'a, T: SliceElems, Din: FixedCount, Dout: FixedCount> From<&'a SliceInfo<T, Din, Dout>>
    for SliceInfo<&'a [SliceInfoElem], Din, Dout> {
    ghost from_gives = { λ info lent. lent.now ≡ T.list info.now };

    fn from(info: &'a SliceInfo<T, Din, Dout>) -> Self {
        SliceInfo {
            indices: info.indices.elems(),
            in_dim: PhantomData,
            out_dim: PhantomData,
        }
    }
}
