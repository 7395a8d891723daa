//! How many indices a slice argument leaves of a shape.
ghost use Rattle.std.specs.Prelude.{◌≡◌, ◌≤◌, IfOk};
ghost use Rattle.std.specs.Result.{result_err};
ghost use Rattle.nd_base.specs.Size.{nonzero_size, size, limit};
ghost use Rattle.nd_slice.specs.SliceFault.{argument_fault};
ghost use Rattle.nd_slice.specs.SlicedLayout.{sliced_shape};

use crate::strided::Strided;
use nd_base::{ErrorKind, Lengths, ShapeError, from_kind};
use nd_slice::{AxisElems, Fit, SliceElems, SliceInfoElem, in_ndim_of, resolve_elem};

/// The product of the lengths that a slice argument leaves of a shape: how many indices. The caller
/// ensures that the product of the lengths that are not 0 is at most `isize::MAX`. Errors: those of `check_elems`.
fn picked_size(shape: &[usize], elems: &[SliceInfoElem], fit: Fit) -> Result<usize, ShapeError>
    requires { nonzero_size shape.now ≤ limit }
    ensures fault { result_err result ≡ argument_fault fit shape.now elems.now }
    ensures size { IfOk result (λ count. count ≡ size (sliced_shape fit elems.now shape.now)) }
{
    if in_ndim_of(elems) != shape.len() {
        return Err(from_kind(ErrorKind::IncompatibleShape));
    }
    let mut size = 1usize;
    for (len, elem) in AxisElems::new(shape, elems) {
        size *= resolve_elem(len, elem, fit)?.count();
    }
    Ok(size)
}

impl<D: Lengths> Strided<D> {
    /// The number of indices that a slice argument leaves of the view.
    ///
    /// # Errors
    ///
    /// Those of `check_slice` on the shape: `IncompatibleShape` where the argument is for more axes
    /// than there are or for fewer; then that of the first element with one.
    ///
    /// Takes no memory, and time in proportion to the slices and indices of the argument.
    ///
    /// `1..;-2` of `[4]`: 2. The project's own.
    pub fn picked<S: SliceElems>(&self, slices: &S, fit: Fit) -> Result<usize, ShapeError>
        ensures fault { result_err result ≡ argument_fault fit self.now.shape (S.list slices.now) }
        ensures size { IfOk result (λ count. count ≡
            size (sliced_shape fit (S.list slices.now) self.now.shape)) }
    {
        picked_size(self.dim.slice(), slices.elems(), fit)
    }
}
