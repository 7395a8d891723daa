//! Writes to the items of a part by those of another array, side by side.
ghost use Rattle.std.specs.List.{All, AllZip, flat_map};
ghost use Rattle.std.specs.Prelude.{◌≡◌, length};
ghost use Rattle.ndarray_layout.specs.declared.Order.TheVariants.{RowMajor};
ghost use Rattle.ndarray_layout.specs.Bounds.{IsInBounds};
ghost use Rattle.ndarray_layout.specs.Rows.{rows_places};
ghost use Rattle.ndarray_layout.specs.View.{IsView, view_places};
ghost use Rattle.nd_loops.specs.AnyOrder.{InAnyOrder};
ghost use Rattle.nd_access.specs.LentRow.{row_items};
ghost use Rattle.nd_access.specs.Own.{AreOwn};
ghost use Rattle.nd_access.specs.Read.{HaveMarks};
ghost use Rattle.nd_access.specs.Rights.{right_of};
ghost use Rattle.nd_access.specs.Written.{Maps};
ghost use Rattle.nd_access.specs.Zipped.{CallableOnEachPair, CalledAtPair, TakesPair};
ghost use Rattle.nd_loops.specs.Beside.{items_beside};
ghost use Rattle.nd_loops.specs.OwnedRows.{OwnsEachRow};
ghost use Rattle.nd_access.specs.Pairs.{ZipsAt, view_pairs};

use crate::beside::{LentView, lent_view};
use crate::calling::call_rows;
use crate::nearest::nearest_views;
use crate::zipping::rows_beside;
use nd_access::{Cells, LentRows, Reader};
use ndarray_layout::{Lengths, Rows, Strided};

/// Calls a closure at each item of these rows and at the next one of other rows.
#[inline(always)]
fn zip_rows<T, U, F: for<'x> FnMut(&'x mut T, &'x U)>(
    cells: &mut Cells<'_, T>,
    rows: Rows<'_>,
    sources: LentRows<'_, U>,
    mut f: F,
)
    requires rows { OwnsEachRow cells.old.marks rows }
    requires count { AllZip (λ row source. length (row_items source) ≡ row.len) rows sources }
    requires callable { CallableOnEachPair F.FnMut
        (items_beside cells.old.items (rows_places rows) (flat_map row_items sources)) f }
    ensures ran { Maps (CalledAtPair F.FnMut) f (rows_places rows.entry)
        (items_beside cells.old.items (rows_places rows.entry) (flat_map row_items sources.entry)) cells.old.items cells.new.items }
    ensures keeps_access { right_of cells.new ≡ right_of cells.old }
{
    call_rows::<T, LentView<'_, U>, _>(
        cells,
        rows,
        sources,
        move |stored: &mut T, item: &U|
            requires { TakesPair F.FnMut f (stored.old, item.now) }
            ensures { CalledAtPair F.FnMut f.entry (stored.old, item.now) stored.new f.exit }
        {
            f(stored, item);
        },
    );
}

/// Calls a closure at the item of each index of a view and at that of the same index of another view of its shape, in row-major
/// order.
#[inline(always)]
pub fn zip_view<'a, T, U, D: Lengths, F: for<'x> FnMut(&'x mut T, &'x U)>(
    cells: &mut Cells<'_, T>,
    view: &'a Strided<D>,
    items: Reader<'a, U>,
    source: &'a Strided<D>,
    f: F,
)
    requires shape { view.now.shape ≡ source.now.shape }
    requires own_view { IsView view.now }
    requires own { AreOwn cells.old.marks (view_places RowMajor view.now) }
    requires is_view { IsView source.now }
    requires items { All (IsInBounds (length items.items)) (view_places RowMajor source.now) }
    requires marked { HaveMarks items.marks (view_places RowMajor source.now) }
    requires callable { CallableOnEachPair F.FnMut (view_pairs cells.old.items view.now items.items source.now) f }
    ensures ran { Maps (CalledAtPair F.FnMut) f (view_places RowMajor view.now)
        (view_pairs cells.old.items view.now items.entry.items source.now) cells.old.items cells.new.items }
    ensures keeps_access { right_of cells.new ≡ right_of cells.old }
{
    let (rows, sources) = rows_beside(view, lent_view(items, source));
    zip_rows(cells, rows, sources, f);
}

/// Calls a closure at the item of each index of a view and at that of the same index of another view of its shape, each index once,
/// in the order in which the first items lie; with more axes than `nearest_views` sorts, in row-major order.
#[inline(always)]
pub fn zip_nearest<T, U, D: Lengths, F: for<'x> FnMut(&'x mut T, &'x U)>(
    cells: &mut Cells<'_, T>,
    view: &Strided<D>,
    items: &Reader<'_, U>,
    source: &Strided<D>,
    f: F,
)
    requires shape { view.now.shape ≡ source.now.shape }
    requires own_view { IsView view.now }
    requires own { AreOwn cells.old.marks (view_places RowMajor view.now) }
    requires is_view { IsView source.now }
    requires items { All (IsInBounds (length items.now.items)) (view_places RowMajor source.now) }
    requires marked { HaveMarks items.now.marks (view_places RowMajor source.now) }
    requires callable { InAnyOrder (λ pairs. CallableOnEachPair F.FnMut pairs f)
        (view_pairs cells.old.items view.now items.now.items source.now) }
    ensures ran { ZipsAt (CalledAtPair F.FnMut) f view.now items.now.items source.now cells.old.items cells.new.items }
    ensures keeps_access { right_of cells.new ≡ right_of cells.old }
{
    match nearest_views(view, source) {
        Some((nearest, beside)) => zip_view(cells, &nearest, items.lent(), &beside, f),
        None => zip_view(cells, view, items.lent(), source, f),
    }
}
