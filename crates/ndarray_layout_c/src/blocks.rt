//! All windows of a layout, and its chunks side by side.
ghost use Rattle.std.specs.Option.{option_or};
ghost use Rattle.std.specs.Prelude.{◌≡◌, ◌≢◌, ◌==◌, ◌+◌, ◌&&◌, not, false, None, Some, length, IfOk, IsOk, OnOk};
ghost use Rattle.ndarray_layout.specs.declared.ErrorKind.{ErrorKind};
ghost use Rattle.ndarray_layout.specs.ChunksView.{chunk_source, chunks_fault, chunks_of};
ghost use Rattle.ndarray_layout.specs.Memory.{NeedsNoMemory};
ghost use Rattle.ndarray_layout.specs.ShapeFault.{shape_fault};
ghost use Rattle.ndarray_layout.specs.Signed.{all_signed};
ghost use Rattle.ndarray_layout.specs.WindowsView.{window_source, windows_fault, windows_of};
ghost use Rattle.ndarray_layout_c.specs.BlocksTaken.{taken_fault, taken_of};
ghost use Rattle.ndarray_layout_c.specs.Kept.{DescendsInPlace, IsLayoutOf};
ghost use Rattle.ndarray_layout_c.specs.LayoutFault.{layout_fault, lowest_view};
ghost use Rattle.ndarray_layout_c.specs.Statuses.{bad_argument, ok, out_of_memory, status_where};

use crate::lists::{view, write_axes};
use crate::statuses::{BAD_ARGUMENT, OUT_OF_MEMORY, status_of};
use ndarray_layout::{IxDyn, LayoutError, Strided, new_ixdyn};
use std::alloc::Global;

/// Which blocks of a shape are taken of a layout: all windows, or the chunks side by side.
#[derive(Clone, Copy)]
pub(crate) enum Blocks {
    Windows,
    Chunks,
}

/// The blocks of a layout.
///
/// Errors: those of `view`, then those of `Strided::windows` or `Strided::exact_chunks`; out of memory, never for at most four
/// items and axes of the result.
#[tactic(auto, using(crate::proofs::Counts::length_windows, crate::proofs::Counts::length_chunks))]
fn taken(
    alloc: Global,
    blocks: Blocks,
    shape: &[usize],
    strides: &[usize],
    block: &[usize],
) -> Result<Strided<IxDyn>, LayoutError>
    ensures fits { OnOk result (option_or (layout_fault shape.now (all_signed strides.now))
        (taken_fault blocks shape.now block.now) ≡ None) }
    ensures fault { (kind : ErrorKind) → shape_fault result ≡ Some kind →
        option_or (layout_fault shape.now (all_signed strides.now))
        (taken_fault blocks shape.now block.now) ≡ Some kind }
    ensures memory { NeedsNoMemory None (length shape.now + length shape.now) →
        NeedsNoMemory None (length strides.now) → NeedsNoMemory None (length block.now) →
        shape_fault result ≡ None → IsOk result }
    ensures blocks { IfOk result (λ v. v ≡
        taken_of blocks block.now (lowest_view shape.now strides.now)) }
    ensures count { IfOk result (λ v. length v.shape ≡ length shape.now + length shape.now) }
{
    let view = view(alloc, shape, strides)?;
    let block = new_ixdyn(alloc, block)?;
    match blocks {
        Blocks::Windows => view.windows(alloc, &block),
        Blocks::Chunks => view.exact_chunks(alloc, &block),
    }
}

/// Writes the shape and the strides of the blocks of a layout, first the axes of the blocks, then those in a block, and returns
/// the status.
fn write_blocks(
    alloc: Global,
    blocks: Blocks,
    shape: &[usize],
    strides: &[usize],
    block: &[usize],
    new_shape: &mut [usize],
    new_strides: &mut [usize],
) -> i32
    ensures status { result ≢ out_of_memory → result ≡ status_where
        (not (length new_shape.old == length shape.now + length shape.now
        && length new_strides.old == length shape.now + length shape.now))
        (option_or (layout_fault shape.now (all_signed strides.now))
        (taken_fault blocks shape.now block.now)) }
    ensures bad { (length new_shape.old == length shape.now + length shape.now
        && length new_strides.old == length shape.now + length shape.now) ≡ false →
        result ≡ bad_argument }
    ensures memory { NeedsNoMemory None (length shape.now + length shape.now) →
        NeedsNoMemory None (length strides.now) → NeedsNoMemory None (length block.now) →
        result ≢ out_of_memory }
    ensures fits { result ≡ ok → option_or (layout_fault shape.now (all_signed strides.now))
        (taken_fault blocks shape.now block.now) ≡ None }
    ensures shape { result ≡ ok → new_shape.new ≡
        (taken_of blocks block.now (lowest_view shape.now strides.now)).shape }
    ensures strides { result ≡ ok → all_signed new_strides.new ≡
        (taken_of blocks block.now (lowest_view shape.now strides.now)).strides }
    ensures unchanged { result ≢ ok →
        (new_shape.new ≡ new_shape.old) × (new_strides.new ≡ new_strides.old) }
{
    if new_shape.len() != 2 * shape.len() || new_strides.len() != 2 * shape.len() {
        return BAD_ARGUMENT;
    }
    match taken(alloc, blocks, shape, strides, block) {
        Ok(blocks) => write_axes(&blocks, new_shape, new_strides),
        Err(LayoutError::Shape(error)) => status_of(error.kind()),
        Err(LayoutError::Memory(_)) => OUT_OF_MEMORY,
    }
}

/// Writes the shape and the strides of all windows of a layout: first the axes of the windows, then those in a window.
#[unsafe(no_mangle)]
pub extern "C" fn nd_windows(
    alloc: Global,
    shape: &[usize],
    strides: &[usize],
    window: &[usize],
    new_shape: &mut [usize],
    new_strides: &mut [usize],
) -> i32
    ensures status { result ≢ out_of_memory → result ≡ status_where
        (not (length new_shape.old == length shape.now + length shape.now
        && length new_strides.old == length shape.now + length shape.now))
        (option_or (layout_fault shape.now (all_signed strides.now))
        (windows_fault None shape.now window.now)) }
    ensures bad { (length new_shape.old == length shape.now + length shape.now
        && length new_strides.old == length shape.now + length shape.now) ≡ false →
        result ≡ bad_argument }
    ensures memory { NeedsNoMemory None (length shape.now + length shape.now) →
        NeedsNoMemory None (length strides.now) → NeedsNoMemory None (length window.now) →
        result ≢ out_of_memory }
    ensures shape { result ≡ ok → new_shape.new ≡
        (windows_of window.now (lowest_view shape.now strides.now)).shape }
    ensures strides { result ≡ ok → all_signed new_strides.new ≡
        (windows_of window.now (lowest_view shape.now strides.now)).strides }
    ensures kept { result ≡ ok → IsLayoutOf (window_source (length shape.now))
        shape.now strides.now new_shape.new new_strides.new }
    ensures unchanged { result ≢ ok →
        (new_shape.new ≡ new_shape.old) × (new_strides.new ≡ new_strides.old) }
{
    write_blocks(
        alloc,
        Blocks::Windows,
        shape,
        strides,
        window,
        new_shape,
        new_strides,
    )
}

/// Writes the shape and the strides of the chunks of a layout: first the axes of the chunks, then those in a chunk.
#[unsafe(no_mangle)]
pub extern "C" fn nd_exact_chunks(
    alloc: Global,
    shape: &[usize],
    strides: &[usize],
    chunk: &[usize],
    new_shape: &mut [usize],
    new_strides: &mut [usize],
) -> i32
    ensures status { result ≢ out_of_memory → result ≡ status_where
        (not (length new_shape.old == length shape.now + length shape.now
        && length new_strides.old == length shape.now + length shape.now))
        (option_or (layout_fault shape.now (all_signed strides.now))
        (chunks_fault None shape.now chunk.now)) }
    ensures bad { (length new_shape.old == length shape.now + length shape.now
        && length new_strides.old == length shape.now + length shape.now) ≡ false →
        result ≡ bad_argument }
    ensures memory { NeedsNoMemory None (length shape.now + length shape.now) →
        NeedsNoMemory None (length strides.now) → NeedsNoMemory None (length chunk.now) →
        result ≢ out_of_memory }
    ensures shape { result ≡ ok → new_shape.new ≡
        (chunks_of chunk.now (lowest_view shape.now strides.now)).shape }
    ensures strides { result ≡ ok → all_signed new_strides.new ≡
        (chunks_of chunk.now (lowest_view shape.now strides.now)).strides }
    ensures kept { result ≡ ok → DescendsInPlace (chunk_source chunk.now)
        shape.now strides.now new_shape.new new_strides.new }
    ensures unchanged { result ≢ ok →
        (new_shape.new ≡ new_shape.old) × (new_strides.new ≡ new_strides.old) }
{
    write_blocks(
        alloc,
        Blocks::Chunks,
        shape,
        strides,
        chunk,
        new_shape,
        new_strides,
    )
}
