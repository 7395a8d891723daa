//! The way to make an array of items that it owns.
ghost use Rattle.std.specs.Option.{IsSome};
ghost use Rattle.std.specs.Prelude.{◌≡◌, None, IfErr, IfOk, IsOk, length, vec_len};
ghost use Rattle.ndarray_layout.specs.declared.CanIndexCheckMode.TheVariants.{OwnedMutable};
ghost use Rattle.ndarray_layout.specs.AcceptanceByStrides.{acceptance_by_strides};
ghost use Rattle.ndarray_layout.specs.Memory.{NeedsNoMemory};
ghost use Rattle.ndarray_layout.specs.ShapeBuilder.{custom_strides, strides_list};
ghost use Rattle.ndarray_layout.specs.ShapeFault.{shape_fault};
ghost use Rattle.ndarray_layout.specs.TypedView.{count_fault};
ghost use Rattle.nd_owned.specs.Owned.{shape_fault_of};
ghost use Rattle.nd_lent.specs.Items.{IsOwned, view_from_0};

use crate::owned::OwnedArray;
use ndarray_layout::{CanIndexCheckMode, LayoutError, Lengths, StrideShape, Strided};
use std::alloc::Global;

impl<T: Drop, D: Lengths> OwnedArray<T, D> {
    /// The array of a shape, by its own strides or by given ones, over a list of items.
    ///
    /// The lowest place of the layout is 0, the first item of the list. Items past the layout, or between its places, are
    /// kept as spare ones.
    ///
    /// # Errors
    ///
    /// Those of `Strided::from_shape` in owned mode, over as many elements of one byte as the list has items. The list
    /// comes back with the error.
    ///
    /// `[2]` with the stride `[-1]` over 7 8 9 is `a`. ndarray's `from_shape_vec`.
    pub fn from_shape_vec(
        alloc: Global,
        shape: StrideShape<D>,
        items: Vec<T>,
    ) -> Result<Self, (LayoutError, Vec<T>)>
        ensures fault { shape_fault_of result ≡
            acceptance_by_strides D.list 1 (vec_len items) OwnedMutable
            (D.list shape.dim) shape.strides }
        ensures given { shape_fault_of result ≡ None → IsSome (custom_strides shape.strides) →
            IsOk result }
        ensures memory { shape_fault_of result ≡ None →
            NeedsNoMemory D.NDIM (length (D.list shape.dim)) → IsOk result }
        ensures stored { IfOk result (λ a. a.items ≡ items.items) }
        ensures view { IfOk result (λ a. a.view ≡
            view_from_0 (D.list shape.dim)
            (strides_list D.list (D.list shape.dim) shape.strides)) }
        ensures owned { IfOk result (λ a. IsOwned (length a.items) a.view) }
        ensures handed_back { IfErr result (λ error. error.1 ≡ items) }
    {
        let len = items.len();
        match Strided::from_shape(alloc, shape, 1, len, CanIndexCheckMode::OwnedMutable) {
            Ok(view) => Ok(OwnedArray { items, view }),
            Err(fault) => Err((fault, items)),
        }
    }

    /// The array with a dimension of another type: `Strided::into_dimensionality`, with its errors.
    ///
    /// `[2,3]` at `IxDyn` becomes the same at `Ix2`. ndarray's `into_dimensionality`.
    pub fn into_dimensionality<E: Lengths>(
        self,
        alloc: Global,
    ) -> Result<OwnedArray<T, E>, LayoutError>
        ensures fault { shape_fault result ≡ count_fault E.NDIM (length self.view.shape) }
        ensures memory { shape_fault result ≡ None →
            NeedsNoMemory E.NDIM (length self.view.shape) → IsOk result }
        ensures array { IfOk result (λ a. a ≡ self) }
    {
        let OwnedArray { items, view } = self;
        let view = view.into_dimensionality(alloc)?;
        Ok(OwnedArray { items, view })
    }
}
