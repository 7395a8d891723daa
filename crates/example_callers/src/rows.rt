//! Reads a plain list as rows, or along any shape.
ghost use Rattle.std.specs.Prelude.{◌≡◌, ℕ, ◌+◌, ◌*◌, pos, [], ◌∷◌, IfOk, IsOk, IsTrue, List, None, length};
ghost use Rattle.ndarray_layout.specs.declared.CanIndexCheckMode.TheVariants.{OwnedMutable};
ghost use Rattle.ndarray_layout.specs.declared.Order.TheVariants.{RowMajor};
ghost use Rattle.ndarray_layout.specs.declared.Strides.TheVariants.{C};
ghost use Rattle.ndarray_layout.specs.AcceptanceByStrides.{acceptance_by_strides};
ghost use Rattle.ndarray_layout.specs.Dim.{lengths};
ghost use Rattle.ndarray_layout.specs.DistinctPlaces.{HasDistinctPlaces};
ghost use Rattle.ndarray_layout.specs.Indices.{is_index};
ghost use Rattle.ndarray_layout.specs.Memory.{NeedsNoMemory};
ghost use Rattle.ndarray_layout.specs.FlatIndex.{index_of_flat_in, flat_index_in};
ghost use Rattle.ndarray_layout.specs.ReshapedView.{view_reshape_fault};
ghost use Rattle.ndarray_layout.specs.ShapeFault.{shape_fault};
ghost use Rattle.ndarray_layout.specs.View.{LiesWithin, place_at};

use ndarray_layout::{
    CanIndexCheckMode, Ix2, IxDyn, LayoutError, Lengths, Order, StrideShape, Strided, Strides,
    new_ix2,
};
use std::alloc::Global;

/// A list read as rows: row `i` and column `j` are item `i * columns + j`.
///
/// Errors: those of `can_index_slice_with_strides`: `Overflow` where the product of the lengths that are not 0 passes the
/// greatest `isize`, then `OutOfBounds` where the rows are longer than the list. Two axes need no memory.
pub fn grid(
    alloc: Global,
    items: &[u8],
    rows: usize,
    columns: usize,
) -> Result<Strided<Ix2>, LayoutError>
    ensures fault { shape_fault result ≡
        acceptance_by_strides lengths 1 (length items.now) OwnedMutable (rows ∷ columns ∷ []) C }
    ensures memory { shape_fault result ≡ None → IsOk result }
    ensures shape { IfOk result (λ grid. grid.shape ≡ rows ∷ columns ∷ []) }
    ensures place { IfOk result (λ grid. (i j : ℕ) →
        IsTrue (is_index (rows ∷ columns ∷ []) (i ∷ j ∷ [])) →
        place_at grid (i ∷ j ∷ []) ≡ pos (i * columns + j)) }
    ensures in_bounds { IfOk result (λ grid. LiesWithin (length items.now) grid) }
    ensures distinct { IfOk result (λ grid. HasDistinctPlaces grid) }
{
    let shape = StrideShape {
        dim: new_ix2(rows, columns),
        strides: Strides::C,
    };
    let mode = CanIndexCheckMode::OwnedMutable;
    let view = Strided::from_shape(alloc, shape, 1, items.len(), mode)?;
    Ok(view)
}

/// A list as a view of a shape of any number of axes: each index lies at its flat index in row-major order.
///
/// Errors: those of `can_index_slice_with_strides`; out of memory, never for at most four axes.
pub fn in_shape(alloc: Global, items: &[u8], dim: IxDyn) -> Result<Strided<IxDyn>, LayoutError>
    ensures shape { IfOk result (λ view. view.shape ≡ lengths dim) }
    ensures fault { shape_fault result ≡
        acceptance_by_strides lengths 1 (length items.now) OwnedMutable (lengths dim) C }
    ensures memory { shape_fault result ≡ None → NeedsNoMemory None (length (lengths dim)) →
        IsOk result }
    ensures place { IfOk result (λ view. (index : List ℕ) → IsTrue (is_index (lengths dim) index) →
        place_at view index ≡ pos (flat_index_in RowMajor (lengths dim) index)) }
    ensures in_bounds { IfOk result (λ view. LiesWithin (length items.now) view) }
    ensures distinct { IfOk result (λ view. HasDistinctPlaces view) }
{
    let shape = StrideShape {
        dim,
        strides: Strides::C,
    };
    let mode = CanIndexCheckMode::OwnedMutable;
    let view = Strided::from_shape(alloc, shape, 1, items.len(), mode)?;
    Ok(view)
}

/// A view read as rows: row `i` and column `j` are the index of the view with flat index `i * columns + j`.
///
/// Errors: those of `reshape`, as where the sizes differ. Two axes need no memory.
pub fn in_rows<D: Lengths>(
    alloc: Global,
    view: &Strided<D>,
    rows: usize,
    columns: usize,
) -> Result<Strided<Ix2>, LayoutError>
    ensures fault { shape_fault result ≡ view_reshape_fault RowMajor (rows ∷ columns ∷ []) view.now }
    ensures memory { shape_fault result ≡ None → IsOk result }
    ensures place { IfOk result (λ grid. (i j : ℕ) →
        IsTrue (is_index (rows ∷ columns ∷ []) (i ∷ j ∷ [])) →
        place_at grid (i ∷ j ∷ []) ≡
        place_at view.now (index_of_flat_in RowMajor view.now.shape (i * columns + j))) }
    ensures line { IfOk result (λ grid. (len i j : ℕ) → view.now.shape ≡ len ∷ [] →
        IsTrue (is_index (rows ∷ columns ∷ []) (i ∷ j ∷ [])) →
        place_at grid (i ∷ j ∷ []) ≡ place_at view.now ((i * columns + j) ∷ [])) }
    ensures in_bounds { IfOk result (λ grid. (len : ℕ) → LiesWithin len view.now →
        LiesWithin len grid) }
    ensures distinct { IfOk result (λ grid. HasDistinctPlaces view.now → HasDistinctPlaces grid) }
{
    let grid = view.reshape(alloc, &new_ix2(rows, columns), Order::RowMajor)?;
    Ok(grid)
}
