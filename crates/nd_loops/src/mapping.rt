//! Calls of a closure at all items of a part.
ghost use Rattle.std.specs.Fn.{CalledAtMut};
ghost use Rattle.std.specs.Prelude.{◌≡◌, map};
ghost use Rattle.ndarray_layout.specs.declared.Order.TheVariants.{RowMajor};
ghost use Rattle.ndarray_layout.specs.Rows.{rows_places};
ghost use Rattle.ndarray_layout.specs.View.{view_places};
ghost use Rattle.nd_loops.specs.AnyOrder.{InAnyOrder};
ghost use Rattle.nd_access.specs.Items.{item_at_place};
ghost use Rattle.nd_access.specs.Mapped.{CallableOnEachMut, TakesAtMut};
ghost use Rattle.nd_access.specs.Own.{AreOwn};
ghost use Rattle.nd_access.specs.Rights.{right_of};
ghost use Rattle.nd_access.specs.Written.{Maps};
ghost use Rattle.nd_loops.specs.OwnedRows.{OwnsEachRow};
ghost use Rattle.nd_access.specs.MapsTo.{MapsAt};

use crate::calling::call_rows;
use crate::nearest::nearest_of_many;
use nd_access::Cells;
use ndarray_layout::{Lengths, Order, Rows, Strided};

/// Calls a closure at each item of these rows, one after another.
#[inline(always)]
fn map_rows<T, F: FnMut(&mut T)>(cells: &mut Cells<'_, T>, rows: Rows<'_>, mut f: F)
    requires rows { OwnsEachRow cells.old.marks rows }
    requires callable { CallableOnEachMut F.FnMut (map (item_at_place cells.old.items) (rows_places rows)) f }
    ensures ran { Maps (λ p x y q. CalledAtMut F.FnMut p x tt q y) f (rows_places rows.entry)
        (map (item_at_place cells.old.items) (rows_places rows.entry)) cells.old.items cells.new.items }
    ensures keeps_access { right_of cells.new ≡ right_of cells.old }
{
    call_rows::<T, (), _>(
        cells,
        rows,
        (),
        move |stored: &mut T, _nothing: ()|
            requires { TakesAtMut F.FnMut f stored.old }
            ensures { CalledAtMut F.FnMut f.entry stored.old tt f.exit stored.new }
        {
            f(stored);
        },
    );
}

/// Calls a closure at the item of each index of a view, in row-major order.
#[inline(always)]
pub fn map_view<T, D: Lengths, F: FnMut(&mut T)>(cells: &mut Cells<'_, T>, view: &Strided<D>, f: F)
    requires own { AreOwn cells.old.marks (view_places RowMajor view.now) }
    requires callable { CallableOnEachMut F.FnMut
        (map (item_at_place cells.old.items) (view_places RowMajor view.now)) f }
    ensures ran { Maps (λ p x y q. CalledAtMut F.FnMut p x tt q y) f (view_places RowMajor view.now)
        (map (item_at_place cells.old.items) (view_places RowMajor view.now)) cells.old.items cells.new.items }
    ensures keeps_access { right_of cells.new ≡ right_of cells.old }
{
    map_rows(cells, view.joined_rows(Order::RowMajor), f);
}

/// Calls a closure at the item of each index of a view, each once: in the order in which they lie; with more axes than `nearest_view`
/// sorts, or no more than `few` indices, in row-major order.
#[inline(always)]
pub fn map_nearest<T, D: Lengths, F: FnMut(&mut T)>(
    cells: &mut Cells<'_, T>,
    view: &Strided<D>,
    few: usize,
    f: F,
)
    requires own { AreOwn cells.old.marks (view_places RowMajor view.now) }
    requires callable { InAnyOrder (λ items. CallableOnEachMut F.FnMut items f)
        (map (item_at_place cells.old.items) (view_places RowMajor view.now)) }
    ensures ran { MapsAt (λ p x y q. CalledAtMut F.FnMut p x tt q y) f (view_places RowMajor view.now)
        cells.old.items cells.new.items }
    ensures keeps_access { right_of cells.new ≡ right_of cells.old }
{
    match nearest_of_many(view, few) {
        Some(nearest) => map_view(cells, &nearest, f),
        None => map_view(cells, view, f),
    }
}
