//! What can index an array.
ghost use Rattle.std.specs.Prelude.{◌≡◌, ℕ, ◌≤◌, List, [], ◌∷◌, length};
ghost use Rattle.std.specs.List.{All};
ghost use Rattle.nd_base.specs.Dim.{lengths};
ghost use Rattle.nd_base.specs.Offset.{offset_of, checked_offset};
ghost use Rattle.nd_base.specs.FarthestOffset.{farthest_offset};
ghost use Rattle.nd_base.specs.Signed.{all_signed};
ghost use Rattle.nd_base.specs.Size.{limit};
ghost use Rattle.nd_base.specs.ValidLayout.{IsValidLayout};

use nd_base::{
    Dim, Ix0, Ix1, Ix2, Ix3, Ix4, Ix5, Ix6, IxDyn, Lengths, index_offset, stride_offset_checked,
};
use std::fmt::Debug;

/// An index of arrays of the dimension type `E`: one list of coordinates. ndarray's `NdIndex`.
pub trait NdIndex<E: Lengths>: Debug {
    ghost index_list: { Self → List ℕ };

    /// The offset in elements, with its sign, from the first index to this one; `None` where this
    /// is no index of the shape.
    ///
    /// The caller ensures that the layout is valid, as it is where `max_abs_offset_check_overflow`
    /// succeeds.
    ///
    /// (1,2) of `[2,3]` with the strides `[3,1]`: 5; (2,0): `None`. ndarray's `index_checked`.
    fn index_checked(&self, dim: &E, strides: &E) -> Option<isize>
        requires { IsValidLayout (E.list dim.now) (all_signed (E.list strides.now)) }
        ensures { result ≡ checked_offset
            (E.list dim.now)
            (all_signed (E.list strides.now))
            (index_list self.now) };

    /// The offset in elements, with its sign, from the first index to this one, whatever the shape.
    ///
    /// The caller ensures that there are as many coordinates as strides, that each coordinate is at
    /// most `isize::MAX`, and so is the sum of each coordinate times the magnitude of its stride.
    /// That is so wherever `index_checked` returns an offset.
    ///
    /// (1,2) along the strides `[3,1]`: 5. ndarray's `index_unchecked`.
    fn index_unchecked(&self, strides: &E) -> isize
        requires same_count { length (index_list self.now) ≡ length (E.list strides.now) }
        requires small { All (λ coordinate. coordinate ≤ limit) (index_list self.now) }
        requires fits { farthest_offset (all_signed (E.list strides.now)) (index_list self.now)
            ≤ limit }
        ensures { result ≡
            offset_of (all_signed (E.list strides.now)) (index_list self.now) };
}

impl<D: Lengths> NdIndex<D> for D {
    ghost index_list = { D.list };

    fn index_checked(&self, dim: &D, strides: &D) -> Option<isize> {
        stride_offset_checked(dim.slice(), strides.slice(), self.slice())
    }

    fn index_unchecked(&self, strides: &D) -> isize {
        index_offset(self.slice(), strides.slice())
    }
}

impl NdIndex<Ix0> for () {
    ghost index_list = { λ _. [] };

    fn index_checked(&self, dim: &Ix0, strides: &Ix0) -> Option<isize> {
        stride_offset_checked(dim.slice(), strides.slice(), &[])
    }

    fn index_unchecked(&self, strides: &Ix0) -> isize {
        index_offset(&[], strides.slice())
    }
}

impl NdIndex<Ix1> for usize {
    ghost index_list = { λ coordinate. coordinate ∷ [] };

    fn index_checked(&self, dim: &Ix1, strides: &Ix1) -> Option<isize> {
        stride_offset_checked(dim.slice(), strides.slice(), &[*self])
    }

    fn index_unchecked(&self, strides: &Ix1) -> isize {
        index_offset(&[*self], strides.slice())
    }
}

impl NdIndex<Ix2> for (usize, usize) {
    ghost index_list = { λ index. index.0 ∷ index.1 ∷ [] };

    fn index_checked(&self, dim: &Ix2, strides: &Ix2) -> Option<isize> {
        stride_offset_checked(dim.slice(), strides.slice(), &[self.0, self.1])
    }

    fn index_unchecked(&self, strides: &Ix2) -> isize {
        index_offset(&[self.0, self.1], strides.slice())
    }
}

impl NdIndex<Ix3> for (usize, usize, usize) {
    ghost index_list = { λ index. index.0 ∷ index.1 ∷ index.2 ∷ [] };

    fn index_checked(&self, dim: &Ix3, strides: &Ix3) -> Option<isize> {
        stride_offset_checked(dim.slice(), strides.slice(), &[self.0, self.1, self.2])
    }

    fn index_unchecked(&self, strides: &Ix3) -> isize {
        index_offset(&[self.0, self.1, self.2], strides.slice())
    }
}

impl NdIndex<Ix4> for (usize, usize, usize, usize) {
    ghost index_list = { λ index. index.0 ∷ index.1 ∷ index.2 ∷ index.3 ∷ [] };

    fn index_checked(&self, dim: &Ix4, strides: &Ix4) -> Option<isize> {
        stride_offset_checked(
            dim.slice(),
            strides.slice(),
            &[self.0, self.1, self.2, self.3],
        )
    }

    fn index_unchecked(&self, strides: &Ix4) -> isize {
        index_offset(&[self.0, self.1, self.2, self.3], strides.slice())
    }
}

impl NdIndex<Ix5> for (usize, usize, usize, usize, usize) {
    ghost index_list = { λ index. index.0 ∷ index.1 ∷ index.2 ∷ index.3 ∷ index.4 ∷ [] };

    fn index_checked(&self, dim: &Ix5, strides: &Ix5) -> Option<isize> {
        stride_offset_checked(
            dim.slice(),
            strides.slice(),
            &[self.0, self.1, self.2, self.3, self.4],
        )
    }

    fn index_unchecked(&self, strides: &Ix5) -> isize {
        index_offset(&[self.0, self.1, self.2, self.3, self.4], strides.slice())
    }
}

impl NdIndex<Ix6> for (usize, usize, usize, usize, usize, usize) {
    ghost index_list = { λ index. index.0 ∷ index.1 ∷ index.2 ∷ index.3 ∷ index.4 ∷ index.5 ∷ [] };

    fn index_checked(&self, dim: &Ix6, strides: &Ix6) -> Option<isize> {
        stride_offset_checked(
            dim.slice(),
            strides.slice(),
            &[self.0, self.1, self.2, self.3, self.4, self.5],
        )
    }

    fn index_unchecked(&self, strides: &Ix6) -> isize {
        index_offset(
            &[self.0, self.1, self.2, self.3, self.4, self.5],
            strides.slice(),
        )
    }
}

impl<const N: usize> NdIndex<Dim<[usize; N]>> for [usize; N] {
    ghost index_list = { λ index. index };

    fn index_checked(&self, dim: &Dim<[usize; N]>, strides: &Dim<[usize; N]>) -> Option<isize> {
        stride_offset_checked(dim.slice(), strides.slice(), self)
    }

    fn index_unchecked(&self, strides: &Dim<[usize; N]>) -> isize {
        index_offset(self, strides.slice())
    }
}

impl NdIndex<IxDyn> for usize {
    ghost index_list = { λ coordinate. coordinate ∷ [] };

    fn index_checked(&self, dim: &IxDyn, strides: &IxDyn) -> Option<isize> {
        stride_offset_checked(dim.slice(), strides.slice(), &[*self])
    }

    fn index_unchecked(&self, strides: &IxDyn) -> isize {
        index_offset(&[*self], strides.slice())
    }
}

impl<const N: usize> NdIndex<IxDyn> for [usize; N] {
    ghost index_list = { λ index. index };

    fn index_checked(&self, dim: &IxDyn, strides: &IxDyn) -> Option<isize> {
        stride_offset_checked(dim.slice(), strides.slice(), self)
    }

    fn index_unchecked(&self, strides: &IxDyn) -> isize {
        index_offset(self, strides.slice())
    }
}

impl<const N: usize> NdIndex<IxDyn> for Dim<[usize; N]> {
    ghost index_list = { lengths };

    fn index_checked(&self, dim: &IxDyn, strides: &IxDyn) -> Option<isize> {
        stride_offset_checked(dim.slice(), strides.slice(), self.slice())
    }

    fn index_unchecked(&self, strides: &IxDyn) -> isize {
        index_offset(self.slice(), strides.slice())
    }
}

impl NdIndex<IxDyn> for &[usize] {
    ghost index_list = { λ index. index.now };

    fn index_checked(&self, dim: &IxDyn, strides: &IxDyn) -> Option<isize> {
        stride_offset_checked(dim.slice(), strides.slice(), self)
    }

    fn index_unchecked(&self, strides: &IxDyn) -> isize {
        index_offset(self, strides.slice())
    }
}

impl NdIndex<IxDyn> for Vec<usize> {
    ghost index_list = { λ index. index.items };

    fn index_checked(&self, dim: &IxDyn, strides: &IxDyn) -> Option<isize> {
        stride_offset_checked(dim.slice(), strides.slice(), self.as_slice())
    }

    fn index_unchecked(&self, strides: &IxDyn) -> isize {
        index_offset(self.as_slice(), strides.slice())
    }
}

impl NdIndex<IxDyn> for &IxDyn {
    ghost index_list = { λ index. lengths index.now };

    fn index_checked(&self, dim: &IxDyn, strides: &IxDyn) -> Option<isize> {
        stride_offset_checked(dim.slice(), strides.slice(), self.slice())
    }

    fn index_unchecked(&self, strides: &IxDyn) -> isize {
        index_offset(self.slice(), strides.slice())
    }
}
