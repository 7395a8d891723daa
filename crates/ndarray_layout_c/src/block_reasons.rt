//! Why blocks of a shape can't be taken.
ghost use Rattle.std.specs.Prelude.{◌≡◌, ◌*◌, ◌<◌, ◌≤◌, ◌++◌, false, None, nat_le, length, SomeIff};
ghost use Rattle.ndarray_layout.specs.ChunksView.{chunks_fault};
ghost use Rattle.ndarray_layout.specs.Size.{is_empty, limit, nonzero_size};
ghost use Rattle.ndarray_layout.specs.WindowsView.{windows_fault};
ghost use Rattle.ndarray_layout_c.specs.BlockReasons.{blocks_reason, is_none, list_of, taken_count, taken_counts};
ghost use Rattle.ndarray_layout_c.specs.BlocksTaken.{taken_fault};
ghost use Rattle.ndarray_layout_c.specs.Statuses.{ok, status_of};

use crate::blocks::Blocks;
use crate::reasons::{CHUNK, COUNT, EMPTY, Reason, SIZE, WINDOW, no_reason, of_axis, of_list};
use crate::sizes::{times, times_lengths};
use crate::statuses::{INCOMPATIBLE_SHAPE, OK, OVERFLOW, UNSUPPORTED};

/// How many blocks of a length an axis has.
fn taken_count(blocks: Blocks, len: usize, size: usize) -> usize
    requires { 0 < size }
    ensures { result ≡ taken_count blocks len size }
{
    match blocks {
        Blocks::Windows => len.saturating_sub(size - 1),
        Blocks::Chunks => len / size,
    }
}

/// A number that is not 0, times the counts of blocks that are not 0, where that is within the limit.
fn times_counts(number: usize, blocks: Blocks, shape: &[usize], block: &[usize]) -> Option<usize>
    requires some { 0 < number }
    requires fits { number ≤ limit }
    requires same_count { length block.now ≡ length shape.now }
    requires has_index { is_empty block.now ≡ false }
    ensures { SomeIff result
        (number * nonzero_size (taken_counts blocks shape.now block.now) ≤ limit)
        (number * nonzero_size (taken_counts blocks shape.now block.now)) }
{
    let mut product = number;
    for axis in 0..shape.len() {
        product = times(product, taken_count(blocks, shape[axis], block[axis]))?;
    }
    Some(product)
}

/// Whether the product of the counts of blocks and of the lengths of one, but for those that are 0, is within the limit.
fn has_size(blocks: Blocks, shape: &[usize], block: &[usize]) -> bool
    requires same_count { length block.now ≡ length shape.now }
    requires has_index { is_empty block.now ≡ false }
    ensures { result ≡
        nat_le (nonzero_size (taken_counts blocks shape.now block.now ++ block.now)) limit }
{
    match times_lengths(1, block) {
        Some(size) => times_counts(size, blocks, shape, block).is_some(),
        None => false,
    }
}

/// Whether a block has no coordinate along an axis.
fn is_none(block: &[usize], axis: usize) -> bool
    requires { axis < length block.now }
    ensures { result ≡ is_none block.now axis }
{
    block[axis] == 0
}

/// The number of the list of the lengths of a block.
fn list_of(blocks: Blocks) -> i32
    ensures { result ≡ list_of blocks }
{
    match blocks {
        Blocks::Windows => WINDOW,
        Blocks::Chunks => CHUNK,
    }
}

/// Why blocks of a shape can't be taken.
fn blocks_reason(blocks: Blocks, shape: &[usize], block: &[usize]) -> Reason
    ensures { result ≡ blocks_reason blocks shape.now block.now }
{
    let (list, count) = (list_of(blocks), block.len());
    if count != shape.len() {
        return of_list(INCOMPATIBLE_SHAPE, COUNT, list, 0, count, shape.len());
    }
    for axis in 0..block.len() {
        if is_none(block, axis) {
            return of_list(UNSUPPORTED, EMPTY, list, axis, 0, 0);
        }
    }
    if !has_size(blocks, shape, block) {
        return of_axis(OVERFLOW, SIZE, 0, 0, 0, 0);
    }
    no_reason()
}

/// Writes why the windows of a shape can't be taken.
#[unsafe(no_mangle)]
pub extern "C" fn nd_windows_reason(shape: &[usize], window: &[usize], reason: &mut Reason) -> i32
    ensures status { result ≡ ok }
    ensures reason { reason.new ≡ blocks_reason Blocks.Windows shape.now window.now }
    ensures agrees { reason.new.status ≡ status_of (windows_fault None shape.now window.now) }
{
    *reason = blocks_reason(Blocks::Windows, shape, window);
    OK
}

/// Writes why the chunks of a shape can't be taken.
#[unsafe(no_mangle)]
pub extern "C" fn nd_exact_chunks_reason(
    shape: &[usize],
    chunk: &[usize],
    reason: &mut Reason,
) -> i32
    ensures status { result ≡ ok }
    ensures reason { reason.new ≡ blocks_reason Blocks.Chunks shape.now chunk.now }
    ensures agrees { reason.new.status ≡ status_of (chunks_fault None shape.now chunk.now) }
{
    *reason = blocks_reason(Blocks::Chunks, shape, chunk);
    OK
}
