//! Writes several parts of an owned array at once, all of them or none.
ghost use Rattle.std.specs.Prelude.{◌≡◌, IfErr, IfOk, IsOk, IsTrue, None, OnErr, OnOk, Some, [], ◌∷◌, false, length, map};
ghost use Rattle.std.specs.List.{All};
ghost use Rattle.ndarray_layout.specs.declared.ErrorKind.{ErrorKind};
ghost use Rattle.ndarray_layout.specs.declared.Fit.TheVariants.{Strict};
ghost use Rattle.ndarray_layout.specs.IntersectingPair.{AreApart};
ghost use Rattle.nd_owned.specs.Owned.{shape_fault_of};
ghost use Rattle.nd_owned.specs.MultiSet.{HaveNoItems, IsFaultOfWrites, IsWritten, KeepsOthers, write_of};

use nd_owned::OwnedArray;
use ndarray_layout::{LayoutError, Lengths, SliceInfoElem};
use std::alloc::{AllocError, Global};

/// Writes pixels at several parts of a picture, and returns whether it did. It doesn't where a part doesn't fit, where its
/// count of pixels isn't the given one, or where two parts share an index. Then the picture is unchanged.
///
/// Errors: out of memory; never where no part has a pixel, or where nothing is written. The picture is unchanged.
pub fn write_parts<D: Lengths>(
    alloc: Global,
    picture: &mut OwnedArray<u8, D>,
    parts: &[(Vec<SliceInfoElem>, Vec<u8>)],
) -> Result<bool, AllocError>
    ensures fits { IfOk result (λ done. IsTrue done →
        IsFaultOfWrites picture.old.view.shape (map write_of parts.now) None) }
    ensures fault { IfOk result (λ done. done ≡ false →
        (kind : ErrorKind) × IsFaultOfWrites picture.old.view.shape (map write_of parts.now)
        (Some kind)) }
    ensures written { IfOk result (λ done. IsTrue done →
        All (IsWritten picture.old.view picture.new.items) (map write_of parts.now)) }
    ensures kept { IfOk result (λ done. IsTrue done →
        KeepsOthers picture.old.view (map write_of parts.now) picture.old.items picture.new.items) }
    ensures failed { IfOk result (λ done. done ≡ false → picture.new ≡ picture.old) }
    ensures view { picture.new.view ≡ picture.old.view }
    ensures no_memory { OnErr result (picture.new ≡ picture.old) }
    ensures asked { OnErr result (IsFaultOfWrites picture.old.view.shape
        (map write_of parts.now) None) }
    ensures memory { HaveNoItems (map write_of parts.now) → IsOk result }
{
    match picture.multi_set(alloc, parts) {
        Ok(()) => Ok(true),
        Err(LayoutError::Shape(_)) => Ok(false),
        Err(LayoutError::Memory(failed)) => Err(failed),
    }
}

/// The pixels of a picture, as they are stored, after two parts of it were written. The picture comes back unchanged with the
/// error of a part that doesn't fit, of a count of pixels, of two parts that share an index, or of memory.
pub fn with_two_parts<D: Lengths>(
    alloc: Global,
    picture: OwnedArray<u8, D>,
    parts: &[(Vec<SliceInfoElem>, Vec<u8>); 2],
) -> Result<Vec<u8>, (LayoutError, OwnedArray<u8, D>)>
    ensures fault { IsFaultOfWrites picture.view.shape (map write_of parts.now)
        (shape_fault_of result) }
    ensures written { IfOk result (λ pixels.
        All (IsWritten picture.view pixels.items) (map write_of parts.now)) }
    ensures kept { IfOk result (λ pixels.
        KeepsOthers picture.view (map write_of parts.now) picture.items pixels.items) }
    ensures count { IfOk result (λ pixels. length pixels.items ≡ length picture.items) }
    ensures handed_back { IfErr result (λ error. error.1 ≡ picture) }
{
    let mut picture = picture;
    match picture.multi_set(alloc, parts) {
        Ok(()) => Ok(picture.into_stored()),
        Err(fault) => Err((fault, picture)),
    }
}

/// Writes pixels at two parts of a picture, both or none. After an error the picture is unchanged.
///
/// Errors: those of `multi_set`: that of a part that doesn't fit, of a count of pixels, of two parts that share an index, or of
/// memory.
pub fn write_two_parts<D: Lengths>(
    alloc: Global,
    picture: &mut OwnedArray<u8, D>,
    one: (Vec<SliceInfoElem>, Vec<u8>),
    other: (Vec<SliceInfoElem>, Vec<u8>),
) -> Result<(), LayoutError>
    ensures apart { OnOk result
        (AreApart Strict picture.old.view.shape one.0.items other.0.items) }
    ensures one { OnOk result (IsWritten picture.old.view picture.new.items (write_of one)) }
    ensures other { OnOk result (IsWritten picture.old.view picture.new.items (write_of other)) }
    ensures kept { OnOk result (KeepsOthers picture.old.view (write_of one ∷ write_of other ∷ [])
        picture.old.items picture.new.items) }
    ensures unchanged { OnErr result (picture.new ≡ picture.old) }
{
    picture.multi_set(alloc, &[one, other])
}
