//! The diagonal of a layout.
ghost use Rattle.std.specs.Prelude.{◌≡◌, ◌≢◌, None, length};
ghost use Rattle.ndarray_layout.specs.DiagonalView.{diagonal_len, diagonal_of, diagonal_source, diagonal_stride};
ghost use Rattle.ndarray_layout.specs.Memory.{NeedsNoMemory};
ghost use Rattle.ndarray_layout.specs.Signed.{all_signed};
ghost use Rattle.ndarray_layout_c.specs.LayoutFault.{layout_fault};
ghost use Rattle.ndarray_layout_c.specs.Statuses.{ok, out_of_memory, status_of};

use crate::lists::view;
use crate::statuses::{OK, OUT_OF_MEMORY, status_of};
use ndarray_layout::{IxDyn, LayoutError, Lengths, Strided, signed};
use std::alloc::Global;

/// Writes the length and the stride of the diagonal of a view.
fn write_diagonal(view: &Strided<IxDyn>, len: &mut usize, stride: &mut isize)
    ensures len { len.new ≡ diagonal_len view.now.shape }
    ensures stride { stride.new ≡ diagonal_stride (diagonal_len view.now.shape) view.now.strides }
{
    let diagonal = view.diag();
    let (lens, strides) = (diagonal.dim(), diagonal.strides());
    *len = lens.slice()[0];
    *stride = signed(strides.slice()[0]);
}

/// Writes the length and the stride of the diagonal of a layout, whose start stays.
#[unsafe(no_mangle)]
pub extern "C" fn nd_diag(
    alloc: Global,
    shape: &[usize],
    strides: &[usize],
    len: &mut usize,
    stride: &mut isize,
) -> i32
    ensures status { result ≢ out_of_memory →
        result ≡ status_of (layout_fault shape.now (all_signed strides.now)) }
    ensures memory { NeedsNoMemory None (length shape.now) →
        NeedsNoMemory None (length strides.now) → result ≢ out_of_memory }
    ensures len { result ≡ ok → len.new ≡ diagonal_len shape.now }
    ensures stride { result ≡ ok →
        stride.new ≡ diagonal_stride (diagonal_len shape.now) (all_signed strides.now) }
    ensures unchanged_len { result ≢ ok → len.new ≡ len.old }
    ensures unchanged_stride { result ≢ ok → stride.new ≡ stride.old }
{
    match view(alloc, shape, strides) {
        Ok(view) => {
            write_diagonal(&view, len, stride);
            OK
        },
        Err(LayoutError::Shape(error)) => status_of(error.kind()),
        Err(LayoutError::Memory(_)) => OUT_OF_MEMORY,
    }
}
