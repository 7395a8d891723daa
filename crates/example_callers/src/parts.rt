//! Takes two parts of a view that can be written in any order, since they share no place.
ghost use Rattle.std.specs.Option.{option_or};
ghost use Rattle.std.specs.Prelude.{◌≡◌, ℕ, pos, Contains, IfNone, IfOk, IfSome, IsOk, None, map};
ghost use Rattle.ndarray_layout.specs.declared.Fit.TheVariants.{Strict};
ghost use Rattle.ndarray_layout.specs.declared.Order.TheVariants.{RowMajor};
ghost use Rattle.ndarray_layout.specs.SliceFault.{argument_fault};
ghost use Rattle.ndarray_layout.specs.DistinctPlaces.{HasDistinctPlaces};
ghost use Rattle.ndarray_layout.specs.Intersect.{Intersect};
ghost use Rattle.ndarray_layout.specs.ShapeFault.{shape_fault};
ghost use Rattle.ndarray_layout.specs.SlicedView.{slice_of};
ghost use Rattle.ndarray_layout.specs.View.{view_places};

use ndarray_layout::{Fit, IxDyn, LayoutError, Lengths, Order, SliceElems, Strided};
use std::alloc::Global;

/// The places of a part, which may have any number of axes.
fn places_of<D: Lengths, S: SliceElems>(
    alloc: Global,
    view: &Strided<D>,
    part: &S,
) -> Result<Vec<usize>, LayoutError>
    ensures fault { shape_fault result ≡ argument_fault Strict view.now.shape (S.list part.now) }
    ensures places { IfOk result (λ places. map pos places.items ≡
        view_places RowMajor (slice_of Strict (S.list part.now) view.now)) }
{
    let part: Strided<IxDyn> = view.slice(alloc, part, Fit::Strict)?;
    Ok(part.places(alloc, Order::RowMajor)?)
}

/// The places of two parts of a view, each in row-major order, or `None` where the parts share an index.
///
/// Errors: those of `check_slice` for the first part, then for the second. Then out of memory; never where the parts share
/// an index, since no place is listed.
pub fn separate_places<D: Lengths, A: SliceElems, B: SliceElems>(
    alloc: Global,
    view: &Strided<D>,
    first: &A,
    second: &B,
) -> Result<Option<(Vec<usize>, Vec<usize>)>, LayoutError>
    requires { HasDistinctPlaces view.now }
    ensures fault { shape_fault result ≡ option_or
        (argument_fault Strict view.now.shape (A.list first.now))
        (argument_fault Strict view.now.shape (B.list second.now)) }
    ensures first { IfOk result (λ parts. IfSome parts (λ places. map pos places.0.items ≡
        view_places RowMajor (slice_of Strict (A.list first.now) view.now))) }
    ensures second { IfOk result (λ parts. IfSome parts (λ places. map pos places.1.items ≡
        view_places RowMajor (slice_of Strict (B.list second.now) view.now))) }
    ensures separate { IfOk result (λ parts. IfSome parts (λ places.
        (n : ℕ) → Contains places.0.items n → Contains places.1.items n → ⊥)) }
    ensures intersect { IfOk result (λ parts. IfNone parts
        (Intersect Strict view.now.shape (A.list first.now) (B.list second.now))) }
    ensures memory { shape_fault result ≡ None →
        Intersect Strict view.now.shape (A.list first.now) (B.list second.now) → IsOk result }
{
    if view.meets(first, second, Fit::Strict)? {
        return Ok(None);
    }
    let first = places_of(alloc, view, first)?;
    Ok(Some((first, places_of(alloc, view, second)?)))
}
