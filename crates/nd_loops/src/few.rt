//! Rows by numbers that rustc knows: few items, so that one needs no loop of its own, or a stride, of which LLVM makes a loop over
//! vectors.
ghost use Rattle.std.specs.Prelude.{◌≡◌, ◌<◌, IfSome};

use nd_access::LentRow;
use ndarray_layout::Row;

/// The row, by `FEW` items unless that is 0: a number that rustc knows.
#[inline(always)]
pub(crate) fn by_few<const FEW: usize>(row: Row) -> Row
    requires { 0 < FEW → FEW ≡ row.len }
    ensures { result ≡ row }
{
    if FEW == 0 {
        return row;
    }
    Row {
        start: row.start,
        stride: row.stride,
        len: FEW,
    }
}

/// `by_few` of a row that is lent.
#[inline(always)]
pub(crate) fn lent_by_few<const FEW: usize, T>(row: LentRow<'_, T>) -> LentRow<'_, T>
    requires { 0 < FEW → FEW ≡ row.row.len }
    ensures { result ≡ row.entry }
{
    LentRow {
        reader: row.reader,
        row: by_few::<FEW>(row.row),
    }
}

/// What the first place and the length of a row are below that is gone over by a stride that rustc knows: so LLVM sees that no place of
/// it wraps.
const SMALL: usize = 1 << 60;

/// The row by a stride that rustc knows, where that is its stride; else `None`.
#[inline(always)]
pub(crate) fn lent_by_stride<'a, T>(row: &LentRow<'a, T>, stride: isize) -> Option<LentRow<'a, T>>
    ensures { IfSome result (λ known. known ≡ row.now) }
{
    let Row {
        start,
        stride: own,
        len,
    } = row.row;
    if own != stride || start >= SMALL || len >= SMALL {
        return None;
    }
    Some(LentRow {
        reader: row.reader.copied(),
        row: Row { start, stride, len },
    })
}
