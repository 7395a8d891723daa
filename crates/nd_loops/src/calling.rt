//! Calls of a closure at each item of rows, and at what stands beside it.
ghost use Rattle.std.specs.List.{All, AllZip, flat_map};
ghost use Rattle.std.specs.Prelude.{◌≡◌, ◌<◌, length};
ghost use Rattle.ndarray_layout.specs.Rows.{rows_places};
ghost use Rattle.nd_access.specs.LentRow.{places_of};
ghost use Rattle.nd_access.specs.MapsTo.{MapsTo};
ghost use Rattle.nd_access.specs.Rights.{right_of};
ghost use Rattle.nd_access.specs.Written.{Maps};
ghost use Rattle.nd_access.specs.Zipped.{CallableBesideEach, CalledBeside};
ghost use Rattle.nd_loops.specs.Beside.{items_beside, shown_beside};
ghost use Rattle.nd_loops.specs.OwnedRows.{OwnsEachRow, OwnsRow};

use crate::beside::{Beside, back};
use crate::few::by_few;
use nd_access::{Cells, place_in_row};
use ndarray_layout::{Row, Rows};

/// Calls a closure at the item of each place of a row and at what stands beside it, one after another, and hands it back.
#[inline(always)]
fn call_few<T, C: Beside, F: FnMut(&mut T, C::Item)>(
    cells: &mut Cells<'_, T>,
    row: Row,
    beside: &C::One,
    mut f: F,
) -> F
    requires row { OwnsRow cells.old.marks row }
    requires count { length (C.values beside.now) ≡ row.len }
    requires callable { CallableBesideEach (shown_beside C.value) F.FnMut
        (items_beside cells.old.items (places_of row) (C.values beside.now)) f }
    ensures ran { MapsTo (CalledBeside (shown_beside C.value) F.FnMut) f (places_of row)
        (items_beside cells.old.items (places_of row) (C.values beside.now)) cells.old.items
        cells.new.items result }
    ensures keeps_access { right_of cells.new ≡ right_of cells.old }
{
    for coordinate in 0..row.len {
        let place = place_in_row(row, coordinate);
        f(cells.item_mut(place), C::item(beside, coordinate));
    }
    f
}

/// Calls a closure at the item of each place of a row and at what stands beside it, one after another, and hands it back.
// (not `inline(always)`: by a parameter of its own rustc knows that no write changes the pointer, and the loop reads it once)
fn call_places<T, C: Beside, F: FnMut(&mut T, C::Item)>(
    cells: &mut Cells<'_, T>,
    row: Row,
    beside: &C::One,
    f: F,
) -> F
    requires row { OwnsRow cells.old.marks row }
    requires count { length (C.values beside.now) ≡ row.len }
    requires callable { CallableBesideEach (shown_beside C.value) F.FnMut
        (items_beside cells.old.items (places_of row) (C.values beside.now)) f }
    ensures ran { MapsTo (CalledBeside (shown_beside C.value) F.FnMut) f (places_of row)
        (items_beside cells.old.items (places_of row) (C.values beside.now)) cells.old.items
        cells.new.items result }
    ensures keeps_access { right_of cells.new ≡ right_of cells.old }
{
    call_few::<T, C, F>(cells, row, beside, f)
}

/// Calls a closure at the item of each place of a row and at what stands beside it, one after another, and hands it back: by the stride
/// -1, of which LLVM makes a loop over vectors, where that is the stride of all.
#[inline(always)]
fn call_backwards<T, C: Beside, F: FnMut(&mut T, C::Item)>(
    cells: &mut Cells<'_, T>,
    row: Row,
    beside: &C::One,
    f: F,
) -> F
    requires row { OwnsRow cells.old.marks row }
    requires count { length (C.values beside.now) ≡ row.len }
    requires callable { CallableBesideEach (shown_beside C.value) F.FnMut
        (items_beside cells.old.items (places_of row) (C.values beside.now)) f }
    ensures ran { MapsTo (CalledBeside (shown_beside C.value) F.FnMut) f (places_of row)
        (items_beside cells.old.items (places_of row) (C.values beside.now)) cells.old.items
        cells.new.items result }
    ensures keeps_access { right_of cells.new ≡ right_of cells.old }
{
    match (back(row), C::backwards(beside)) {
        (Some(row), Some(beside)) => call_places::<T, C, F>(cells, row, &beside, f),
        _ => call_places::<T, C, F>(cells, row, beside, f),
    }
}

/// Calls a closure at each item of a row, of `FEW` unless that is 0, and at what stands beside it, one after another, and hands it
/// back.
#[inline(always)]
fn call_row<const FEW: usize, T, C: Beside, F: FnMut(&mut T, C::Item)>(
    cells: &mut Cells<'_, T>,
    row: Row,
    beside: &C::One,
    f: F,
) -> F
    requires few { 0 < FEW → FEW ≡ row.len }
    requires row { OwnsRow cells.old.marks row }
    requires count { length (C.values beside.now) ≡ row.len }
    requires callable { CallableBesideEach (shown_beside C.value) F.FnMut
        (items_beside cells.old.items (places_of row) (C.values beside.now)) f }
    ensures ran { MapsTo (CalledBeside (shown_beside C.value) F.FnMut) f (places_of row)
        (items_beside cells.old.items (places_of row) (C.values beside.now)) cells.old.items
        cells.new.items result }
    ensures keeps_access { right_of cells.new ≡ right_of cells.old }
{
    if FEW > 0 {
        // (by a length that is known, there is no loop)
        return call_few::<T, C, F>(cells, by_few::<FEW>(row), beside, f);
    }
    match C::alone(beside) {
        Some(beside) if row.stride == 1 => {
            // (by strides that are known, the loop is one over slices)
            let neighbours = Row {
                start: row.start,
                stride: 1,
                len: row.len,
            };
            call_places::<T, C, F>(cells, neighbours, &beside, f)
        },
        _ => call_backwards::<T, C, F>(cells, row, beside, f),
    }
}

/// Calls a closure at each item of these rows, of `FEW` each unless that is 0, and at what stands beside it, one after another.
#[inline]
fn call_each<const FEW: usize, T, C: Beside, F: FnMut(&mut T, C::Item)>(
    cells: &mut Cells<'_, T>,
    rows: Rows<'_>,
    beside: C::Rows,
    mut f: F,
)
    requires few { 0 < FEW → All (λ row. FEW ≡ row.len) rows }
    requires rows { OwnsEachRow cells.old.marks rows }
    requires count { AllZip (λ row one. length (C.values one) ≡ row.len) rows (C.ones beside rows) }
    requires callable { CallableBesideEach (shown_beside C.value) F.FnMut
        (items_beside cells.old.items (rows_places rows) (flat_map C.values (C.ones beside rows))) f }
    ensures ran { Maps (CalledBeside (shown_beside C.value) F.FnMut) f (rows_places rows.entry)
        (items_beside cells.old.items (rows_places rows.entry) (flat_map C.values (C.ones beside rows.entry)))
        cells.old.items cells.new.items }
    ensures keeps_access { right_of cells.new ≡ right_of cells.old }
{
    let mut beside = beside;
    for row in rows {
        if let Some(beside) = C::next_beside(&mut beside, row) {
            f = call_row::<FEW, T, C, F>(cells, row, &beside, f);
        }
    }
}

/// Calls a closure at each item of these rows and at what stands beside it, one after another.
#[inline(always)]
pub(crate) fn call_rows<T, C: Beside, F: FnMut(&mut T, C::Item)>(
    cells: &mut Cells<'_, T>,
    rows: Rows<'_>,
    beside: C::Rows,
    f: F,
)
    requires rows { OwnsEachRow cells.old.marks rows }
    requires count { AllZip (λ row one. length (C.values one) ≡ row.len) rows (C.ones beside rows) }
    requires callable { CallableBesideEach (shown_beside C.value) F.FnMut
        (items_beside cells.old.items (rows_places rows) (flat_map C.values (C.ones beside rows))) f }
    ensures ran { Maps (CalledBeside (shown_beside C.value) F.FnMut) f (rows_places rows.entry)
        (items_beside cells.old.items (rows_places rows.entry) (flat_map C.values (C.ones beside rows.entry)))
        cells.old.items cells.new.items }
    ensures keeps_access { right_of cells.new ≡ right_of cells.old }
{
    match rows.row_len() {
        2 => call_each::<2, T, C, F>(cells, rows, beside, f),
        3 => call_each::<3, T, C, F>(cells, rows, beside, f),
        4 => call_each::<4, T, C, F>(cells, rows, beside, f),
        _ => call_each::<0, T, C, F>(cells, rows, beside, f),
    }
}
