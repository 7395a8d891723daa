//! Blocks of a shape at steps: what windows and chunks have in common.
ghost use Rattle.std.specs.Prelude.{◌≡◌, ◌+◌, ◌*◌, ◌<◌, ◌≤◌, ◌==◌, ◌&&◌, ◌++◌, if◌then◌else◌, true, false, None, Some, ℕ, length, nat_lt, slice_index, take, IfOk, IsOk};
ghost use Rattle.std.specs.Option.{option_map_or};
ghost use Rattle.std.specs.Result.{result_err};
ghost use Rattle.nd_base.specs.declared.error.ErrorKind.TheVariants.{Overflow};
ghost use Rattle.nd_base.specs.Memory.{NeedsNoMemory};
ghost use Rattle.nd_base.specs.ShapeFault.{shape_fault};
ghost use Rattle.nd_base.specs.Signed.{signed as signed_reading, all_signed};
ghost use Rattle.nd_base.specs.Size.{is_empty, limit, nonzero_size};
ghost use Rattle.nd_base.specs.Span.{reach};
ghost use Rattle.nd_base.specs.ValidLayout.{IsValidLayout};
ghost use Rattle.ndarray_layout.specs.BlocksView.{blocks_fault, strides_of_blocks};
ghost use Rattle.ndarray_layout.specs.private.Blocks.{block_count, block_counts, block_stride, block_strides};

use crate::strided::slicing::allows;
use nd_base::{
    ErrorKind, LayoutError, Lengths, ShapeError, from_kind, new_ix2, stride_offset, unsigned,
};
use nd_shape::size_of_shape_checked;
use std::alloc::Global;

/// Which blocks of a shape a view has.
#[derive(Clone, Copy)]
pub(crate) enum Blocks {
    /// All of them.
    Windows,
    /// Those side by side from the first index on.
    Chunks,
}

impl Blocks {
    /// How many blocks of a length an axis has.
    #[inline(always)]
    fn count(self, len: usize, size: usize) -> usize
        requires len_fits { len ≤ limit }
        requires some { 0 < size }
        ensures { result ≡ block_count self len size }
    {
        match self {
            Blocks::Windows => (len + 1).saturating_sub(size),
            Blocks::Chunks => len / size,
        }
    }

    /// The stride from one block of an axis to the next.
    #[inline(always)]
    fn stride(self, len: usize, size: usize, stride: usize) -> usize
        requires len_fits { len ≤ limit }
        requires span_fits { reach len (signed_reading stride) ≤ limit }
        requires some { 0 < size }
        ensures { signed_reading result ≡ block_stride self len size (signed_reading stride) }
    {
        match self {
            Blocks::Windows => stride,
            // (a chunk without a next one may be longer than its axis)
            Blocks::Chunks if len / size < 2 => 0,
            Blocks::Chunks => unsigned(stride_offset(size, stride)),
        }
    }
}

/// Whether a block has as many axes as a shape, and twice as many are those that a type fixes, if it
/// fixes a count.
#[inline(always)]
fn has_block_counts(fixed: Option<usize>, shape: &[usize], block: &[usize]) -> bool
    ensures { result ≡ (length block.now == length shape.now
        && option_map_or (λ count. count == length shape.now + length shape.now) fixed true) }
{
    block.len() == shape.len() && allows(fixed, 2 * shape.len())
}

/// Checks that blocks of so many indices each have at most the greatest `isize` of indices together,
/// where an axis without a block counts as one with one. Errors: `Overflow`.
#[inline(always)]
fn check_total(
    blocks: Blocks,
    shape: &[usize],
    block: &[usize],
    size: usize,
) -> Result<(), ShapeError>
    requires lens_fit { (k : ℕ) → slice_index shape.now k ≤ limit }
    requires some { is_empty block.now ≡ false }
    requires counts { length block.now ≡ length shape.now }
    requires size_fits { size ≤ limit }
    requires has_index { 0 < size }
    ensures { result_err result ≡
        (if nat_lt limit (nonzero_size (block_counts blocks shape.now block.now) * size)
        then Some Overflow else None) }
{
    let mut total = size;
    for axis in 0..shape.len() {
        let count = blocks.count(shape[axis], block[axis]);
        if count != 0 {
            let product = size_of_shape_checked(&new_ix2(total, count))?;
            total = product;
        }
    }
    Ok(())
}

/// Checks that the blocks of a shape make a shape of a type that may fix a count of axes. The caller
/// ensures that each length is at most the greatest `isize`. Errors: those of `Strided::windows`,
/// but out of memory.
#[inline(always)]
fn check_blocks<D: Lengths>(
    blocks: Blocks,
    fixed: Option<usize>,
    shape: &[usize],
    block: &D,
) -> Result<(), ShapeError>
    requires lens_fit { (k : ℕ) → slice_index shape.now k ≤ limit }
    ensures { result_err result ≡ blocks_fault fixed shape.now
        (block_counts blocks shape.now (D.list block.now)) (D.list block.now) }
{
    let lens = block.slice();
    if !has_block_counts(fixed, shape, lens) {
        return Err(from_kind(ErrorKind::IncompatibleShape));
    }
    if lens.contains(&0) {
        return Err(from_kind(ErrorKind::Unsupported));
    }
    let size = size_of_shape_checked(block)?;
    check_total(blocks, shape, lens, size)
}

/// Writes how many blocks there are along each axis to the first of the lengths.
#[inline(always)]
fn write_counts(blocks: Blocks, shape: &[usize], block: &[usize], new_shape: &mut [usize])
    requires lens_fit { (k : ℕ) → slice_index shape.now k ≤ limit }
    requires some { is_empty block.now ≡ false }
    requires counts { length block.now ≡ length shape.now }
    requires room { length shape.now ≤ length new_shape.old }
    ensures { take (length shape.now) new_shape.new ≡ block_counts blocks shape.now block.now }
{
    for axis in 0..shape.len() {
        new_shape[axis] = blocks.count(shape[axis], block[axis]);
    }
}

/// Writes how many blocks there are along each axis, and then the lengths of a block.
#[inline(always)]
fn write_lengths(blocks: Blocks, shape: &[usize], block: &[usize], new_shape: &mut [usize])
    requires lens_fit { (k : ℕ) → slice_index shape.now k ≤ limit }
    requires some { is_empty block.now ≡ false }
    requires counts { length block.now ≡ length shape.now }
    requires room { length new_shape.old ≡ length shape.now + length shape.now }
    ensures { new_shape.new ≡ block_counts blocks shape.now block.now ++ block.now }
{
    write_counts(blocks, shape, block, new_shape);
    new_shape[shape.len()..].copy_from_slice(block);
}

/// Writes the strides from one block of each axis to the next to the first of the strides.
#[inline(always)]
fn write_steps(
    blocks: Blocks,
    shape: &[usize],
    strides: &[usize],
    block: &[usize],
    new_strides: &mut [usize],
)
    requires valid { IsValidLayout shape.now (all_signed strides.now) }
    requires some { is_empty block.now ≡ false }
    requires counts { length block.now ≡ length shape.now }
    requires room { length shape.now ≤ length new_strides.old }
    ensures { take (length shape.now) (all_signed new_strides.new) ≡
        block_strides blocks shape.now block.now (all_signed strides.now) }
{
    for axis in 0..shape.len() {
        new_strides[axis] = blocks.stride(shape[axis], block[axis], strides[axis]);
    }
}

/// Writes the strides from one block of each axis to the next, and then those in a block.
#[inline(always)]
fn write_strides(
    blocks: Blocks,
    shape: &[usize],
    strides: &[usize],
    block: &[usize],
    new_strides: &mut [usize],
)
    requires valid { IsValidLayout shape.now (all_signed strides.now) }
    requires some { is_empty block.now ≡ false }
    requires counts { length block.now ≡ length shape.now }
    requires room { length new_strides.old ≡ length shape.now + length shape.now }
    ensures { all_signed new_strides.new ≡
        block_strides blocks shape.now block.now (all_signed strides.now)
        ++ all_signed strides.now }
{
    write_steps(blocks, shape, strides, block, new_strides);
    new_strides[shape.len()..].copy_from_slice(strides);
}

/// The lengths and the strides of the view of all indices of all blocks of a shape. The caller ensures
/// that the layout is valid. Errors: those of `Strided::windows`.
#[inline(always)]
pub(crate) fn block_axes<D: Lengths, E: Lengths>(
    alloc: Global,
    blocks: Blocks,
    shape: &[usize],
    strides: &[usize],
    block: &D,
) -> Result<(E, E), LayoutError>
    requires { IsValidLayout shape.now (all_signed strides.now) }
    ensures fault { shape_fault result ≡ blocks_fault E.NDIM shape.now
        (block_counts blocks shape.now (D.list block.now)) (D.list block.now) }
    ensures memory { shape_fault result ≡ None →
        NeedsNoMemory E.NDIM (length shape.now + length shape.now) → IsOk result }
    ensures shape { IfOk result (λ (dim, new_strides). E.list dim ≡
        block_counts blocks shape.now (D.list block.now) ++ D.list block.now) }
    ensures strides { IfOk result (λ (dim, new_strides). all_signed (E.list new_strides) ≡
        strides_of_blocks
        (block_counts blocks shape.now (D.list block.now) ++ D.list block.now)
        (block_strides blocks shape.now (D.list block.now) (all_signed strides.now)
        ++ all_signed strides.now)) }
{
    check_blocks(blocks, E::NDIM, shape, block)?;
    let ndim = 2 * shape.len();
    let mut dim = E::zeros(alloc, ndim)?;
    let mut new_strides = E::zeros(alloc, ndim)?;
    write_lengths(blocks, shape, block.slice(), dim.slice_mut());
    if !dim.slice().contains(&0) {
        write_strides(
            blocks,
            shape,
            strides,
            block.slice(),
            new_strides.slice_mut(),
        );
    }
    Ok((dim, new_strides))
}

/// The lengths and the strides of the view of the first index of each block of a shape. The caller
/// ensures that the layout is valid. Errors: those of `Strided::window_starts`.
#[inline(always)]
pub(crate) fn start_axes<D: Lengths>(
    alloc: Global,
    blocks: Blocks,
    shape: &[usize],
    strides: &[usize],
    block: &D,
) -> Result<(D, D), LayoutError>
    requires { IsValidLayout shape.now (all_signed strides.now) }
    ensures fault { shape_fault result ≡ blocks_fault None shape.now
        (block_counts blocks shape.now (D.list block.now)) (D.list block.now) }
    ensures memory { shape_fault result ≡ None → NeedsNoMemory D.NDIM (length shape.now) →
        IsOk result }
    ensures shape { IfOk result (λ (dim, new_strides). D.list dim ≡
        block_counts blocks shape.now (D.list block.now)) }
    ensures strides { IfOk result (λ (dim, new_strides). all_signed (D.list new_strides) ≡
        strides_of_blocks (block_counts blocks shape.now (D.list block.now))
        (block_strides blocks shape.now (D.list block.now) (all_signed strides.now))) }
{
    check_blocks(blocks, None, shape, block)?;
    let lens = block.slice();
    let mut dim = D::zeros(alloc, lens.len())?;
    let mut new_strides = D::zeros(alloc, lens.len())?;
    write_counts(blocks, shape, lens, dim.slice_mut());
    if !dim.slice().contains(&0) {
        write_steps(blocks, shape, strides, lens, new_strides.slice_mut());
    }
    Ok((dim, new_strides))
}
